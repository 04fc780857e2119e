// A script as far as it has been read.
ghost use Rattle.fc_script.specs.WithinLimits.{AreWithin};

mod steps;
mod window;

use crate::counts::DocumentCounts;
use crate::gather::Gathered;
use crate::limits::Limits;
use crate::script::Script;
use fc_base::{Name, Schema, WantMemory};
use std::alloc::Global;

/// The schema, and what the lines so far add up to, held to the limits: the counts of their documents, the sessions in the
/// order of their first searches, and the batches and phases that were gathered.
#[derive(Drop)]
pub(crate) struct ScriptReader {
    schema: Schema,
    documents: DocumentCounts,
    sessions: Vec<Name>,
    gathered: Gathered,
    ghost within: { AreWithin schema documents sessions.items gathered },
}

impl ScriptReader {
    ghost use Rattle.std.specs.Prelude.{◌≡◌, [], IfOk};
    ghost use Rattle.fc_script.specs.LimitsView.{limits_view};
    ghost use Rattle.fc_script.specs.ReadSoFar.{ReadSoFar, script_so_far};
    ghost use Rattle.fc_script.specs.ReadView.{HasParts, HasRead};

    /// A script of which the schema alone has been read.
    pub(crate) fn new(
        alloc: Global,
        limits: Limits,
        schema: Schema,
    ) -> Result<ScriptReader, WantMemory>
        ensures { IfOk result (λ r. HasRead r (record { limits = limits_view limits; schema = schema; lines = [] })) }
    {
        let documents = DocumentCounts::new(alloc, &schema, limits)?;
        let gathered = Gathered::new(alloc, &schema)?;
        Ok(ScriptReader {
            schema,
            documents,
            sessions: Vec::new(alloc),
            gathered,
        })
    }

    /// Its schema.
    pub(crate) fn schema(&self) -> &Schema
        ensures { result.now ≡ self.now.schema }
    {
        &self.schema
    }

    /// The script, where the lines end here.
    pub(crate) fn into_script(self, alloc: Global) -> Result<Script, WantMemory>
        ensures { (S : ReadSoFar) → HasRead self S
            → IfOk result (λ script. HasParts S.limits script (script_so_far S)) }
    {
        let ScriptReader {
            schema,
            sessions,
            gathered,
            ..
        } = self;
        gathered.finish(alloc, schema, sessions)
    }
}
