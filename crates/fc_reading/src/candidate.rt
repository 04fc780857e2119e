// Candidates of a terms facet.
ghost use Rattle.std.specs.Prelude.{◌≡◌};
ghost use Rattle.fc_spec.specs.requests.Ranks.{Entry};
ghost use Rattle.fc_reading.specs.Terms.{candidate_view};

use fc_base::Val;
use fc_partial::Stats;
use fc_refine::Ranked;
use std::borrow::CowSlice;

/// A value with the shards that it is counted on, its bucket, and its count and statistics there.
#[derive(Drop)]
pub struct Candidate<'s, B> {
    pub val: Val,
    pub shards: CowSlice<'s, u32>,
    pub bucket: B,
    pub stats: Stats,
}

impl<B> Ranked for Candidate<'_, B> {
    ghost entry = { candidate_view };

    fn val(&self) -> &Val {
        &self.val
    }

    fn stats(&self) -> &Stats {
        &self.stats
    }
}
