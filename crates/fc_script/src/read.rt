// Reading a script from its bytes, line by line.
ghost use Rattle.std.specs.Prelude.{[]};
ghost use Rattle.fc_spec.specs.scripts.AskedScripts.{asked_script_of};
ghost use Rattle.fc_spec.specs.scripts.ScriptReading.{at_line as at_line_defined, schema_on as schema_of_line};
ghost use Rattle.fc_base.specs.Answers.{Answers};
ghost use Rattle.fc_lines.specs.FaultView.{script_fault_view};
ghost use Rattle.fc_lines.specs.LinesLeft.{lines_left};
ghost use Rattle.fc_script.specs.LimitsView.{limits_view};
ghost use Rattle.fc_script.specs.Meets.{Meets};
ghost use Rattle.fc_script.specs.ReadSoFar.{read_from, read_in, with_rest};
ghost use Rattle.fc_script.specs.ReadView.{HasParts};

use crate::limits::{Limits, SCRIPT_BYTES};
use crate::script::Script;
use crate::script_reader::ScriptReader;
use fc_base::{Refusal, Schema};
use fc_lines::{LineFault, Lines, ScriptFault, at_line, schema_on};
use json::Scratch;
use std::alloc::Global;

/// A script without a line that says something.
pub(crate) const NO_SCHEMA: ScriptFault = ScriptFault {
    line: 0,
    fault: LineFault::NoSchema,
};

/// A script of too many bytes.
pub(crate) const TOO_LONG: ScriptFault = ScriptFault {
    line: 0,
    fault: LineFault::TooLong,
};

/// The schema on the first line, which has this number.
pub(crate) fn read_schema(
    alloc: Global,
    number: u32,
    text: &[u8],
) -> Result<Schema, Refusal<ScriptFault>>
    ensures { Answers (λ schema. schema) script_fault_view result
        (at_line_defined number (schema_of_line text.now)) }
{
    schema_on(alloc, text).map_err(|refusal| at_line(number, refusal))
}

// The script of a schema and the lines behind it.
fn read_rest(
    alloc: Global,
    limits: Limits,
    schema: Schema,
    mut lines: Lines<'_>,
) -> Result<Script, Refusal<ScriptFault>>
    ensures { Meets (HasParts (limits_view limits)) script_fault_view result
        (with_rest (record { limits = limits_view limits; schema = schema; lines = [] }) (lines_left lines.entry)) }
{
    let mut reading = ScriptReader::new(alloc, limits, schema)?;
    let mut scratch = Scratch::new(alloc);
    while let Some(text) = lines.next_said() {
        reading = reading.read(alloc, &mut scratch, lines.number(), text)?;
    }
    Ok(reading.into_script(alloc)?)
}

// The script of lines of which none was read.
fn read_lines(
    alloc: Global,
    limits: Limits,
    mut lines: Lines<'_>,
) -> Result<Script, Refusal<ScriptFault>>
    ensures { Meets (HasParts (limits_view limits)) script_fault_view result
        (read_from (limits_view limits) (lines_left lines.entry)) }
{
    let Some(text) = lines.next_said() else {
        return Err(Refusal::Fault(NO_SCHEMA));
    };
    let schema = read_schema(alloc, lines.number(), text)?;
    read_rest(alloc, limits, schema, lines)
}

// The script that the bytes spell, read line by line.
fn read_in_lines(
    alloc: Global,
    limits: Limits,
    bytes: &[u8],
) -> Result<Script, Refusal<ScriptFault>>
    ensures { Meets (HasParts (limits_view limits)) script_fault_view result
        (read_in (limits_view limits) bytes.now) }
{
    if bytes.len() > SCRIPT_BYTES {
        return Err(Refusal::Fault(TOO_LONG));
    }
    read_lines(alloc, limits, Lines::new(bytes))
}

/// The script that the bytes spell within the limits, with its requests read, or its first fault.
pub(crate) fn read_script(
    alloc: Global,
    limits: Limits,
    bytes: &[u8],
) -> Result<Script, Refusal<ScriptFault>>
    ensures { Meets (HasParts (limits_view limits)) script_fault_view result
        (asked_script_of (limits_view limits) bytes.now) }
{
    read_in_lines(alloc, limits, bytes)
}
