// What was sent for the searches of a phase is booked.
ghost use Rattle.std.specs.Prelude.{◌≡◌, ◌+◌, ◌≤◌, All, IfSome, OnOk, length, option_map};
ghost use Rattle.fc_spec.specs.laws.TraceLaws.{Ascend};
ghost use Rattle.fc_spec.specs.scripts.Booked.{book_all as all_booked, book_if};
ghost use Rattle.fc_work.specs.Phased.{sent_in};
ghost use Rattle.fc_work.specs.SearchLineView.{sent_list};

use crate::Book;
use fc_base::WantMemory;
use fc_hooks::Sent;
use std::alloc::Global;

// Books what was sent for a search; nothing for one whose request has a fault.
fn book_one<B: Book>(
    alloc: Global,
    book: &mut B,
    search: u32,
    sent: &Option<Vec<Sent>>,
) -> Result<(), WantMemory>
    requires { IfSome (sent_list sent.now) Ascend }
    ensures { OnOk result (B.books book.new ≡ option_map (book_if search (sent_list sent.now)) (B.books book.old)) }
{
    match sent {
        Some(messages) => book.sent(alloc, search, messages),
        None => Ok(()),
    }
}

/// Books what was sent for searches, of which the first has this number. Those whose requests have faults are counted, and
/// nothing is booked for them.
pub(crate) fn book_all<B: Book>(
    alloc: Global,
    book: &mut B,
    first: u32,
    sent: &[Option<Vec<Sent>>],
) -> Result<(), WantMemory>
    requires numbers { first + length sent.now ≤ 67_108_864 }
    requires ascend { All (λ one. IfSome one Ascend) (sent_in sent.now) }
    ensures { OnOk result (B.books book.new ≡ option_map (all_booked first (sent_in sent.now)) (B.books book.old)) }
{
    let mut search = first;
    for one in sent {
        book_one(alloc, book, search, one)?;
        search += 1;
    }
    Ok(())
}
