// Reading a script by windows of lines, which several workers read.
ghost use Rattle.std.specs.Prelude.{◌≡◌, ◌≤◌, ◌<◌, ◌++◌, ◌∷◌, [], All, OnOk, length, map};
ghost use Rattle.fc_spec.specs.scripts.AskedScripts.{asked_script_of};
ghost use Rattle.fc_lines.specs.FaultView.{script_fault_view};
ghost use Rattle.fc_lines.specs.LinesLeft.{lines_left};
ghost use Rattle.fc_script.specs.LimitsView.{limits_view};
ghost use Rattle.fc_script.specs.Meets.{Meets};
ghost use Rattle.fc_script.specs.ReadSoFar.{ReadSoFar, read_from, read_in, with_all, with_rest};
ghost use Rattle.fc_script.specs.ReadView.{HasParts, HasRead};
ghost use Rattle.fc_window.specs.Slots.{IsUnread, line_of};

use crate::limits::{Limits, SCRIPT_BYTES};
use crate::read::{NO_SCHEMA, TOO_LONG, read_schema, read_script};
use crate::script::Script;
use crate::script_reader::ScriptReader;
use fc_base::{Refusal, Schema, WantMemory};
use fc_lines::{Lines, ScriptFault};
use fc_window::{Slot, fill, read_ahead};
use json::Scratch;
use std::alloc::Global;
use std::thread::Threads;

// Makes of a window that of a line, which was cut last, and of the next lines.
fn begin<'a>(
    window: &mut Vec<Slot<'a>>,
    text: &'a [u8],
    lines: &mut Lines<'a>,
) -> Result<(), WantMemory>
    ensures unread { OnOk result (All IsUnread window.new.items) }
    ensures lines { OnOk result (map line_of window.new.items ++ lines_left lines.new
        ≡ (lines.old.number, text.now) ∷ lines_left lines.old) }
    ensures shorter { length (lines_left lines.new) ≤ length (lines_left lines.old) }
{
    window.clear();
    window.push(Slot::new(lines.number(), text))?;
    fill(window, lines)
}

// With the lines of a window, which so many workers read ahead.
fn read_window<R: Threads + Sync>(
    rt: &R,
    alloc: Global,
    workers: usize,
    reading: ScriptReader,
    scratch: &mut Scratch,
    window: &mut [Slot<'_>],
) -> Result<ScriptReader, Refusal<ScriptFault>>
    requires { 0 < workers }
    ensures { (S : ReadSoFar) → HasRead reading S
        → Meets HasRead script_fault_view result (with_all S (map line_of window.old)) }
{
    read_ahead(rt, alloc, workers, reading.schema(), window);
    reading.with_window(alloc, scratch, window)
}

// The script of a schema and the lines behind it, window by window, each read by so many workers before its lines are
// gathered. There is one window, which is filled again.
fn read_windows<R: Threads + Sync>(
    rt: &R,
    alloc: Global,
    workers: usize,
    limits: Limits,
    schema: Schema,
    mut lines: Lines<'_>,
) -> Result<Script, Refusal<ScriptFault>>
    requires { 0 < workers }
    ensures { Meets (HasParts (limits_view limits)) script_fault_view result
        (with_rest (record { limits = limits_view limits; schema = schema; lines = [] }) (lines_left lines.entry)) }
{
    let mut reading = ScriptReader::new(alloc, limits, schema)?;
    let mut scratch = Scratch::new(alloc);
    let mut window = Vec::new(alloc);
    while let Some(text) = lines.next_said() {
        begin(&mut window, text, &mut lines)?;
        reading = read_window(rt, alloc, workers, reading, &mut scratch, &mut window)?;
    }
    Ok(reading.into_script(alloc)?)
}

// The script of lines of which none was read.
fn read_lines_by<R: Threads + Sync>(
    rt: &R,
    alloc: Global,
    workers: usize,
    limits: Limits,
    mut lines: Lines<'_>,
) -> Result<Script, Refusal<ScriptFault>>
    requires { 0 < workers }
    ensures { Meets (HasParts (limits_view limits)) script_fault_view result
        (read_from (limits_view limits) (lines_left lines.entry)) }
{
    let Some(text) = lines.next_said() else {
        return Err(Refusal::Fault(NO_SCHEMA));
    };
    let schema = read_schema(alloc, lines.number(), text)?;
    read_windows(rt, alloc, workers, limits, schema, lines)
}

// The script that the bytes spell, read window by window.
fn read_in_windows<R: Threads + Sync>(
    rt: &R,
    alloc: Global,
    workers: usize,
    limits: Limits,
    bytes: &[u8],
) -> Result<Script, Refusal<ScriptFault>>
    requires { 0 < workers }
    ensures { Meets (HasParts (limits_view limits)) script_fault_view result
        (read_in (limits_view limits) bytes.now) }
{
    if bytes.len() > SCRIPT_BYTES {
        return Err(Refusal::Fault(TOO_LONG));
    }
    read_lines_by(rt, alloc, workers, limits, Lines::new(bytes))
}

/// The script that the bytes spell within the limits, with its requests read, or its first fault; read by so many workers, of
/// which one makes no window and no thread.
pub(crate) fn read_script_by<R: Threads + Sync>(
    rt: &R,
    alloc: Global,
    workers: usize,
    limits: Limits,
    bytes: &[u8],
) -> Result<Script, Refusal<ScriptFault>>
    requires { 0 < workers }
    ensures { Meets (HasParts (limits_view limits)) script_fault_view result
        (asked_script_of (limits_view limits) bytes.now) }
{
    if workers == 1 {
        return read_script(alloc, limits, bytes);
    }
    read_in_windows(rt, alloc, workers, limits, bytes)
}
