// One line after the schema: what it says, with the request of a search read.
ghost use Rattle.std.specs.Prelude.{IfOk};
ghost use Rattle.fc_base.specs.Answers.{Answers};
ghost use Rattle.fc_lines.specs.AskedLines.{asked_on};
ghost use Rattle.fc_lines.specs.FaultView.{line_fault_view};
ghost use Rattle.fc_lines.specs.LineView.{line_view};
ghost use Rattle.fc_lines.specs.ValidLines.{HasRoot, IsLineOf};

mod adding;
mod reading;
mod search;
mod taking;

use crate::fault::LineFault;
use crate::value::value_on;
use adding::added_on;
pub use adding::begins_as_block;
use fc_base::{Name, Refusal, Schema};
use fc_docs::Block;
use fc_request::{Request, RequestFault};
use json::Scratch;
use reading::read_line;
use std::alloc::Global;

/// A line after the schema.
#[derive(Debug, Drop)]
pub enum Line {
    /// A block for a shard.
    Add(u32, Block),
    /// An id whose blocks a shard loses.
    Delete(u32, Name),
    /// A commit of a shard, or of every shard.
    Commit(Option<u32>),
    /// The end of a phase.
    Sync,
    /// A session's search, and what it asks, or the fault of that.
    Search(Name, Box<Result<Request, RequestFault>>),
}

/// What a line after the schema says, or its fault. A fault of what a search asks is no fault of the line. The scratch is
/// memory in which a line is read: callers keep one from line to line, so that it is taken once, and nothing of a line is
/// left in it that matters to another.
pub fn line_on(
    alloc: Global,
    schema: &Schema,
    scratch: &mut Scratch,
    text: &[u8],
) -> Result<Line, Refusal<LineFault>>
    ensures answer { Answers line_view line_fault_view result (asked_on schema.now text.now) }
    ensures valid { IfOk result (λ line. IsLineOf schema.now (line_view line)) }
    ensures root { IfOk result HasRoot }
{
    if let Some((shard, block)) = added_on(alloc, schema, scratch, text)? {
        return Ok(Line::Add(shard, block));
    }
    let json = value_on(alloc, text)?;
    read_line(alloc, schema, json)
}
