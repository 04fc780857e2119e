// A book that keeps what it is told.
ghost use Rattle.std.specs.Prelude.{◌≡◌, IfOk, None, Some, map, option_map};
ghost use Rattle.fc_hooks.specs.SentLists.{sent_view};

use crate::Book;
use fc_base::WantMemory;
use fc_hooks::Sent;
use std::alloc::Global;
use std::collections::BTreeMap;

/// Keeps what was sent for each search that it is told of.
#[derive(Debug, Drop)]
pub struct ListBook {
    lists: BTreeMap<u32, Vec<Sent>>,
}

impl ListBook {
    ghost use Rattle.fc_spec.specs.scripts.Booked.{no_books};
    ghost use Rattle.fc_run.specs.ListBook.{books_in};

    /// It was told of no search.
    pub fn new(alloc: Global) -> Result<ListBook, WantMemory>
        ensures { IfOk result (λ book. books_in book ≡ no_books) }
    {
        Ok(ListBook {
            lists: BTreeMap::new(alloc),
        })
    }

    /// What was sent for the search of this number, ascending by round, then shard; none where it was told of none.
    pub fn get(&self, search: u32) -> Option<&[Sent]>
        ensures { option_map (λ messages. map sent_view messages.now) result ≡ books_in self.now search }
    {
        match self.lists.get(&search) {
            Some(messages) => Some(messages),
            None => None,
        }
    }
}

impl Book for ListBook {
    ghost use Rattle.fc_run.specs.ListBook.{books_in};

    ghost books = { λ book. Some (books_in book) };

    fn sent(&mut self, alloc: Global, search: u32, messages: &[Sent]) -> Result<(), WantMemory> {
        let copied = messages.to_vec(alloc)?;
        self.lists.insert(search, copied)?;
        Ok(())
    }
}
