// The lines of sessions, woven.
ghost use Rattle.std.specs.Prelude.{◌≡◌, ◌<◌, ◌++◌, All, IfOk, OnOk, drop, length, slice_index_or};
ghost use Rattle.fc_spec.specs.scripts.SearchLines.{no_line, sent_for, text_of};
ghost use Rattle.fc_work.specs.Phased.{sent_in};
ghost use Rattle.fc_work.specs.SearchLineView.{line_view, line_views};
ghost use Rattle.fc_work.specs.Woven.{lines_in, woven_by};

use crate::search_line::SearchLine;
use fc_base::WantMemory;
use fc_search::Sent;
use std::alloc::Global;
use std::collections::VecDeque;

// The first of a session's lines, which is taken from them; none where there is none.
fn take_line(alloc: Global, own: &mut VecDeque<SearchLine>) -> SearchLine
    ensures line { line_view result ≡ slice_index_or (line_views own.old.items) 0 no_line }
    ensures rest { line_views own.new.items ≡ drop 1 (line_views own.old.items) }
{
    match own.pop_front() {
        Some(line) => line,
        None => SearchLine {
            text: Vec::new(alloc),
            sent: None,
        },
    }
}

// How many bytes the lines have.
fn bytes_of(lines: &[VecDeque<SearchLine>]) -> usize {
    let mut bytes = 0usize;
    for own in lines {
        for line in own {
            bytes = bytes.saturating_add(line.text.len());
        }
    }
    bytes
}

/// Appends, for each of these sessions, its next line, and answers what was sent for each of these lines.
pub(crate) fn weave(
    alloc: Global,
    order: &[u32],
    lines: &mut [VecDeque<SearchLine>],
    text: &mut Vec<u8>,
) -> Result<Vec<Option<Vec<Sent>>>, WantMemory>
    requires { All (λ session. session < length lines.old) order.now }
    ensures text { OnOk result (text.new.items ≡ text.old.items ++ text_of (woven_by (lines_in lines.old) order.now)) }
    ensures sent { IfOk result (λ sent. sent_in sent.items ≡ sent_for (woven_by (lines_in lines.old) order.now)) }
{
    let mut sent = Vec::with_capacity(alloc, order.len())?;
    text.reserve(bytes_of(lines))?;
    for session in order {
        let line = take_line(alloc, &mut lines[*session as usize]);
        text.extend_from_slice(&line.text)?;
        sent.push(line.sent)?;
    }
    Ok(sent)
}
