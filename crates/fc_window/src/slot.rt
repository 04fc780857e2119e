// A line of a window.
ghost use Rattle.std.specs.Prelude.{IfOk};
ghost use Rattle.fc_lines.specs.AskedLines.{asked_on};
ghost use Rattle.fc_window.specs.Ahead.{IsAhead, IsPlaced};

use fc_base::{Refusal, Schema};
use fc_docs::Block;
use fc_lines::{Line, LineFault, begins_as_block, line_on};
use json::Scratch;
use std::alloc::Global;
use std::mem;

/// What was read of a line ahead of its turn: the shard and the block that it adds, or its fault, or nothing.
pub type Ahead = Result<Option<(u32, Block)>, Refusal<LineFault>>;

/// A line with its number, and what was read of it ahead of its turn.
#[derive(Drop)]
pub struct Slot<'a> {
    pub number: u32,
    pub text: &'a [u8],
    ahead: Ahead,
}

// The shard and the block that a line adds, or its fault. Of another line nothing is told.
fn block_on(alloc: Global, schema: &Schema, scratch: &mut Scratch, text: &[u8]) -> Ahead
    ensures answer { IsAhead (asked_on schema.now text.now) result }
    ensures placed { IfOk result (IsPlaced schema.now) }
{
    match line_on(alloc, schema, scratch, text)? {
        Line::Add(shard, block) => Ok(Some((shard, block))),
        _ => Ok(None),
    }
}

// The same, where the line begins as blocks are written as a rule, so that no search is read twice.
fn block_ahead(alloc: Global, schema: &Schema, scratch: &mut Scratch, text: &[u8]) -> Ahead
    ensures answer { IsAhead (asked_on schema.now text.now) result }
    ensures placed { IfOk result (IsPlaced schema.now) }
{
    if begins_as_block(text) {
        block_on(alloc, schema, scratch, text)
    } else {
        Ok(None)
    }
}

impl<'a> Slot<'a> {
    ghost use Rattle.std.specs.Prelude.{◌≡◌, None, Ok};
    ghost use Rattle.fc_window.specs.Slots.{IsReadFrom, IsUnread, line_of};

    /// A line of which nothing was read.
    pub fn new(number: u32, text: &'a [u8]) -> Slot<'a>
        ensures number { result.number ≡ number }
        ensures text { result.text.now ≡ text.now }
        ensures ahead { result.ahead ≡ Ok None }
    {
        Slot {
            number,
            text,
            ahead: Ok(None),
        }
    }

    /// Reads it ahead of its turn, where it begins as a block is written as a rule.
    pub fn read(&mut self, alloc: Global, schema: &Schema, scratch: &mut Scratch)
        ensures { IsReadFrom schema.now self.old self.new }
    {
        self.ahead = block_ahead(alloc, schema, scratch, self.text);
    }

    /// Takes what was read of it, after which nothing is.
    pub fn take(&mut self) -> Ahead
        ensures ahead { result ≡ self.old.ahead }
        ensures line { line_of self.new ≡ line_of self.old }
        ensures unread { IsUnread self.new }
    {
        mem::replace(&mut self.ahead, Ok(None))
    }
}
