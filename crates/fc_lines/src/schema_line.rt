// The line of the schema.
ghost use Rattle.serde_json.specs.View.{view};
ghost use Rattle.fc_spec.specs.scripts.ScriptReading.{schema_on as schema_of_line, schema_said as schema_of_value};
ghost use Rattle.fc_base.specs.Answers.{Answers};
ghost use Rattle.fc_lines.specs.FaultView.{line_fault_view};

use crate::fault::LineFault;
use crate::value::value_on;
use fc_base::json::{is_same, sole_member};
use fc_base::{Refusal, Schema};
use serde_json::Value;
use std::alloc::Global;

// The schema that a value says.
fn schema_said(alloc: Global, json: &Value) -> Result<Schema, Refusal<LineFault>>
    ensures { Answers (λ schema. schema) line_fault_view result (schema_of_value (view json.now)) }
{
    let (name, inside) = sole_member(json).ok_or(LineFault::NoSchema)?;
    if !is_same(name, "schema") {
        return Err(Refusal::Fault(LineFault::NoSchema));
    }
    match Schema::read(alloc, inside) {
        Ok(schema) => Ok(schema),
        Err(Refusal::Memory) => Err(Refusal::Memory),
        Err(Refusal::Fault(_)) => Err(Refusal::Fault(LineFault::BadSchema)),
    }
}

/// The schema that a line says, as the first line of a script is to: `{"schema":S}`.
pub fn schema_on(alloc: Global, text: &[u8]) -> Result<Schema, Refusal<LineFault>>
    ensures { Answers (λ schema. schema) line_fault_view result (schema_of_line text.now) }
{
    let json = value_on(alloc, text)?;
    schema_said(alloc, &json)
}
