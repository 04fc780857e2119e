// The lines of a window, side by side.
ghost use Rattle.std.specs.Prelude.{◌≡◌, ◌≤◌, ◌<◌, ◌*◌, ◌++◌, ◌⊎◌, [], ℕ, All, OnOk, length, map, slice_index_or};
ghost use Rattle.fc_lines.specs.LinesLeft.{lines_left};
ghost use Rattle.fc_window.specs.Slots.{HasSaid, IsReadFrom, IsUnread, line_of};

use crate::slot::Slot;
use fc_base::{Schema, WantMemory};
use fc_lines::Lines;
use json::Scratch;
use std::alloc::Global;
use std::thread;
use std::thread::Threads;

/// The most lines of a window.
pub const WINDOW_LINES: usize = 4096;

// The fewest lines of a part of a window, but for its last.
const PART_LINES: usize = 32;

/// Puts the next lines behind those of a window, of which nothing was read, until it has 4,096 or no line is left.
pub fn fill<'a>(window: &mut Vec<Slot<'a>>, lines: &mut Lines<'a>) -> Result<(), WantMemory>
    requires unread { All IsUnread window.old.items }
    requires room { length window.old.items ≤ 4096 }
    ensures unread { OnOk result (All IsUnread window.new.items) }
    ensures lines { OnOk result (map line_of window.new.items ++ lines_left lines.new
        ≡ map line_of window.old.items ++ lines_left lines.old) }
    ensures shorter { length (lines_left lines.new) ≤ length (lines_left lines.old) }
    ensures few { OnOk result (length window.new.items ≤ 4096) }
    ensures full { OnOk result ((length window.new.items ≡ 4096) ⊎ (lines_left lines.new ≡ [])) }
{
    while window.len() < WINDOW_LINES {
        let Some(text) = lines.next_said() else {
            return Ok(());
        };
        window.push(Slot::new(lines.number(), text))?;
    }
    Ok(())
}

// Reads the lines of a part of a window, one after another.
fn read_part(alloc: Global, schema: &Schema, part: &mut [Slot<'_>])
    ensures each { (i : ℕ) (d : _) → i < length part.old
        → IsReadFrom schema.now (slice_index_or part.old i d) (slice_index_or part.new i d) }
{
    let mut scratch = Scratch::new(alloc);
    for slot in part.iter_mut() {
        slot.read(alloc, schema, &mut scratch);
    }
}

// How many lines a part of a window has, so that there is no more than one for each of so many workers.
fn part_lines(lines: usize, workers: usize) -> usize
    requires { 0 < workers }
    ensures least { 32 ≤ result }
    ensures enough { lines ≤ result * workers }
{
    lines.div_ceil(workers).max(PART_LINES)
}

// Reads each line of a window, in at most so many threads.
fn read_all<R: Threads + Sync>(
    rt: &R,
    alloc: Global,
    workers: usize,
    schema: &Schema,
    window: &mut [Slot<'_>],
)
    requires { 0 < workers }
    ensures each { (i : ℕ) (d : _) → i < length window.old
        → IsReadFrom schema.now (slice_index_or window.old i d) (slice_index_or window.new i d) }
    ensures count { length window.new ≡ length window.old }
{
    let lines = part_lines(window.len(), workers);
    thread::for_each_chunk_mut(rt, window, lines, &|_, part| read_part(alloc, schema, part));
}

/// Reads the lines of a window ahead of their turn, side by side in at most so many threads.
pub fn read_ahead<R: Threads + Sync>(
    rt: &R,
    alloc: Global,
    workers: usize,
    schema: &Schema,
    window: &mut [Slot<'_>],
)
    requires { 0 < workers }
    ensures lines { map line_of window.new ≡ map line_of window.old }
    ensures said { All (HasSaid schema.now) window.new }
{
    read_all(rt, alloc, workers, schema, window);
}
