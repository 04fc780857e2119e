// Who is told what was sent for each search of a run.
ghost use Rattle.std.specs.Prelude.{◌≡◌, None, Option, OnErr, OnOk, map, option_map};
ghost use Rattle.fc_spec.specs.laws.TraceLaws.{Ascend};
ghost use Rattle.fc_spec.specs.scripts.Booked.{Books, book as booked};
ghost use Rattle.fc_hooks.specs.SentLists.{sent_view};

use fc_base::WantMemory;
use fc_hooks::Sent;
use std::alloc::Global;

/// Is told, for each search with a reply, what was sent.
pub trait Book {
    // What it was told by the numbers of searches, where it tells that.
    ghost books: { Self → Option Books };

    /// For the search of this number these messages were sent, ascending by round, then shard. What was told of the same search before is
    /// told no longer. After want of memory all is as before.
    fn sent(&mut self, alloc: Global, search: u32, messages: &[Sent]) -> Result<(), WantMemory>
        requires ascend { Ascend (map sent_view messages.now) }
        ensures put { OnOk result (books self.new ≡ option_map (booked search (map sent_view messages.now)) (books self.old)) }
        ensures kept { OnErr result (books self.new ≡ books self.old) };
}

/// Is told, and tells nothing.
#[derive(Clone, Copy, Debug, PartialEq, Eq)]
pub struct NoBook;

impl Book for NoBook {
    ghost books = { λ _. None };

    fn sent(&mut self, _alloc: Global, _search: u32, _messages: &[Sent]) -> Result<(), WantMemory> {
        Ok(())
    }
}
