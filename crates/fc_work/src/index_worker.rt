// The worker of a shard.
ghost use Rattle.std.specs.Prelude.{◌≡◌, OnOk};
ghost use Rattle.fc_store.specs.Charters.{last_number};
ghost use Rattle.fc_work.specs.Working.{IsCommitted};

use crate::Gate;
use fc_base::WantMemory;
use fc_store::ShardWriter;
use std::sync::Wait;

/// Publishes what a shard commits in a phase.
pub struct IndexWorker {
    pub(crate) shard: u32,
    pub(crate) writer: ShardWriter,
    pub(crate) wants_memory: bool,
}

// Publishes what is left of the charter.
fn commit_all<R: Wait, G: Gate>(
    rt: &R,
    shard: u32,
    writer: &mut ShardWriter,
    gate: &G,
) -> Result<(), WantMemory>
    ensures schema { writer.new.schema ≡ writer.old.schema }
    ensures charter { writer.new.charter ≡ writer.old.charter }
    ensures all { OnOk result (writer.new.number ≡ last_number writer.new.charter) }
{
    while writer.commits_left() > 0 {
        let number = writer.number().saturating_add(1);
        gate.before_commit(shard, number);
        let number = writer.commit_next(rt)?;
        gate.after_commit(shard, number);
    }
    Ok(())
}

impl IndexWorker {
    /// Publishes all commits of the phase. After want of memory it stops.
    pub(crate) fn work<R: Wait, G: Gate>(&mut self, rt: &R, gate: &G)
        ensures { IsCommitted self.old self.new }
    {
        self.wants_memory = commit_all(rt, self.shard, &mut self.writer, gate).is_err();
    }
}
