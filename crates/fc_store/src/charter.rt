// What a store may publish.
ghost use Rattle.std.specs.Prelude.{◌≡◌, ◌+◌, ◌-◌, ◌<◌, ◌≤◌, [], IfOk, length, map, slice_get, Some};
ghost use Rattle.std.specs.Arc.{arc_value};
ghost use Rattle.fc_docs.specs.View.{batch_view};
ghost use Rattle.fc_store.specs.Charters.{last_number, IsBegun};

use crate::Generation;
use fc_base::WantMemory;
use fc_docs::Batch;
use std::marker::Model;
use std::sync::Arc;

/// What a store may publish: the generation that it begins with, and behind it one more for each of some batches, in order.
#[derive(Debug, Drop)]
pub struct Charter {
    start: Arc<Generation>,
    batches: Arc<Vec<Batch>>,
}

impl Model for Charter {
    ghost use Rattle.std.specs.Prelude.{◌+◌, ◌≤◌, length, map};
    ghost use Rattle.std.specs.Arc.{arc_value};
    ghost use Rattle.fc_docs.specs.View.{batch_view};
    ghost use Rattle.fc_store.specs.Charters.{Chartered, IsBegun};

    ghost Value = { Chartered };

    ghost view = { λ c. record { start = arc_value c.start; later = map batch_view (arc_value c.batches).items } };

    ghost invariant = { λ c. ((arc_value c.start).number + length (arc_value c.batches).items ≤ 4096)
        × IsBegun (arc_value c.start) };
}

impl Charter {
    /// A generation, and the batches behind it.
    pub fn new(start: Arc<Generation>, batches: Arc<Vec<Batch>>) -> Charter
        requires few { (arc_value start).number + length (arc_value batches).items ≤ 4096 }
        requires begun { (arc_value start).number ≡ 0 → (arc_value start).blocks ≡ [] }
        ensures { result ≡ record { start = arc_value start; later = map batch_view (arc_value batches).items } }
    {
        // whose blocks have different ids
        let _segments = start.segments();
        Charter { start, batches }
    }

    /// The same charter once more.
    pub(crate) fn share(&self) -> Result<Charter, WantMemory>
        ensures { IfOk result (λ charter. charter ≡ self.now) }
    {
        let start = Arc::try_clone(&self.start)?;
        let batches = Arc::try_clone(&self.batches)?;
        Ok(Charter { start, batches })
    }

    /// The generation that it begins with.
    pub fn start(&self) -> Result<Arc<Generation>, WantMemory>
        ensures start { IfOk result (λ start. arc_value start ≡ self.now.start) }
        ensures begun { IsBegun self.now.start }
    {
        let start = Arc::try_clone(&self.start)?;
        Ok(start)
    }

    /// The number of its last generation.
    pub(crate) fn last(&self) -> u64
        ensures last { result ≡ last_number self.now }
        ensures few { result ≤ 4096 }
    {
        self.start.number() + self.batches.len() as u64
    }

    /// The batch behind the generation of a number.
    pub(crate) fn batch(&self, at: u64) -> &Batch
        requires from { self.now.start.number ≤ at }
        requires below { at < last_number self.now }
        ensures batch { slice_get self.now.later (at - self.now.start.number) ≡ Some (batch_view result.now) }
        ensures few { last_number self.now ≤ 4096 }
    {
        &self.batches[(at - self.start.number()) as usize]
    }
}
