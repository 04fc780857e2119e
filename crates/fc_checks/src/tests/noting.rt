// Turns that note who is asked.
ghost use Rattle.std.specs.Prelude.{◌<◌, length};

use super::kinds::Calls;
use fc_search::Turns;
use std::sync::Arc;

// Always the first one that waits. It notes who waits, a digit for each turn, and how many turns called no kind.
#[derive(Drop)]
pub(super) struct Noting {
    kinds: Arc<Calls>,
    calls: u64,
    pub(super) noted: u64,
    pub(super) idle: u64,
}

impl Noting {
    // Before the first turn, where this counts the calls of kinds.
    pub(super) fn new(kinds: Arc<Calls>) -> Noting {
        Noting {
            kinds,
            calls: 0,
            noted: 0,
            idle: 0,
        }
    }

    // Looks behind a turn.
    pub(super) fn look(&mut self) {
        let calls = self.kinds.begun();
        if calls == self.calls {
            self.idle = self.idle.saturating_add(1);
        }
        self.calls = calls;
    }
}

impl Turns for Noting {
    fn next(&mut self, waiting: &[u32]) -> usize
        requires { 0 < length waiting.now }
        ensures { result < length waiting.now }
    {
        if self.noted > 0 {
            self.look();
        }
        // The sum of 1 for shard 0, 2 for shard 1 and 4 for shard 2.
        let mut digit = 0;
        for shard in waiting {
            digit |= 1_u64.checked_shl(*shard).unwrap_or(0);
        }
        self.noted = self.noted.saturating_mul(10).saturating_add(digit);
        0
    }
}
