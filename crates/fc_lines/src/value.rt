// The JSON of a line.
ghost use Rattle.std.specs.Prelude.{◌≡◌, IfOk, option_map};
ghost use Rattle.serde_json.specs.View.{view};
ghost use Rattle.fc_spec.specs.scripts.ScriptLines.{json_of as json};
ghost use Rattle.fc_spec.specs.scripts.ScriptReading.{value_on as defined};
ghost use Rattle.fc_base.specs.Answers.{Answers};
ghost use Rattle.fc_lines.specs.FaultView.{line_fault_view};

use crate::fault::LineFault;
use crate::lines::LINE_LIMIT;
use fc_base::{Refusal, WantMemory};
use serde_json::Value;
use std::alloc::Global;

// What the line says, where it is JSON.
fn json_of(alloc: Global, line: &[u8]) -> Result<Option<Value>, WantMemory>
    ensures { IfOk result (λ found. option_map view found ≡ json line.now) }
{
    match Value::from_slice(alloc, line) {
        Ok(value) => Ok(Some(value)),
        Err(error) => {
            if error.is_memory() {
                Err(WantMemory)
            } else {
                Ok(None)
            }
        }
    }
}

/// The JSON value of a line.
pub(crate) fn value_on(alloc: Global, line: &[u8]) -> Result<Value, Refusal<LineFault>>
    ensures { Answers view line_fault_view result (defined line.now) }
{
    if line.len() > LINE_LIMIT {
        return Err(Refusal::Fault(LineFault::LongLine));
    }
    match json_of(alloc, line)? {
        Some(value) => Ok(value),
        None => Err(Refusal::Fault(LineFault::NotJson)),
    }
}
