// What the core gives in the end.
ghost use Rattle.std.specs.Prelude.{◌≡◌, IfOk, map, true};
ghost use Rattle.fc_base.specs.View.{val_view};
ghost use Rattle.fc_exact.specs.CoreView.{state_view};
ghost use Rattle.fc_exact.specs.State.{tops as tops_of};

use crate::ExactCore;
use crate::facets::told_facets;
use crate::tops::tops;
use fc_base::{Val, WantMemory};

impl ExactCore<'_> {
    /// The values that each exact facet prints, in the order of their ranks.
    pub fn into_tops(self) -> Result<Vec<Vec<Val>>, WantMemory>
        requires { (state_view self).ready ≡ true }
        ensures { IfOk result (λ lists. map (λ vals. map val_view vals.items) lists.items ≡ tops_of (state_view self.entry)) }
    {
        let shards = self.asks.len() as u32;
        let facets = told_facets(self.alloc, &self.request.root.nodes, &self.told)?;
        let lists = tops(self.alloc, shards, &facets)?;
        Ok(lists)
    }
}
