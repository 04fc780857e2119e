// The worker of a session.
ghost use Rattle.std.specs.Prelude.{◌≡◌, ◌≤◌, All, IfOk, length, map};
ghost use Rattle.fc_spec.specs.replies.Replied.{replied};
ghost use Rattle.fc_spec.specs.scripts.SearchLines.{AreSessionLines, IsLineOver};
ghost use Rattle.fc_lines.specs.LineView.{asked_view};
ghost use Rattle.fc_kind.specs.Names.{Covers};
ghost use Rattle.fc_work.specs.Pinned.{charters_of, least_of, most_of};
ghost use Rattle.fc_work.specs.SearchLineView.{line_view, line_views};
ghost use Rattle.fc_work.specs.Working.{AreReady, AreSameStores, CanAsk, IsAnswered, IsReady, asked_of};

use crate::search_line::SearchLine;
use crate::{Gate, answer};
use fc_base::{Name, WantMemory};
use fc_kind::FacetKind;
use fc_reply::error_line;
use fc_request::{Request, RequestFault};
use fc_store::ShardReader;
use std::alloc::Global;
use std::collections::VecDeque;
use std::thread::Threads;

/// Answers what a session asks in a phase.
#[derive(Drop)]
pub struct SessionWorker {
    pub(crate) session: u32,
    pub(crate) name: Name,
    pub(crate) readers: Vec<ShardReader>,
    pub(crate) lines: VecDeque<SearchLine>,
    pub(crate) replies: u64,
    pub(crate) wants_memory: bool,
}

// The line of what a session asks: of a request that of its answer; of a fault its error line, for which nothing is pinned or sent.
fn line_of<R: Threads + Sync>(
    rt: &R,
    alloc: Global,
    readers: &mut [ShardReader],
    asked: &Result<Request, RequestFault>,
    kinds: &[Box<dyn FacetKind>],
    session: &Name,
    workers: u32,
) -> Result<SearchLine, WantMemory>
    requires covers { Covers (map name kinds.now) }
    requires workers { (1 ≤ workers) × (workers ≤ 64) }
    requires ready { AreReady readers.old }
    requires asks { CanAsk readers.old asked.now }
    ensures line { IfOk result (λ line. IsLineOver replied (charters_of readers.old) (least_of readers.old) (most_of readers.old) session.now
        (asked_view asked.now) (λ g. least_of readers.new ≡ g) (line_view line)) }
    ensures same { IfOk result (λ line. AreSameStores readers.old readers.new) }
{
    match asked {
        Ok(request) => {
            let answered = answer(rt, alloc, readers, request, kinds, session, workers)?;
            Ok(SearchLine {
                text: answered.line,
                sent: Some(answered.sent),
            })
        }
        Err(fault) => {
            let text = error_line(alloc, fault, session)?;
            Ok(SearchLine { text, sent: None })
        }
    }
}

// The lines of all that a session asks, where these are whose searches a phase has.
fn lines_of<R: Threads + Sync, G: Gate>(
    rt: &R,
    alloc: Global,
    readers: &mut [ShardReader],
    order: &[u32],
    asked: &[Result<Request, RequestFault>],
    kinds: &[Box<dyn FacetKind>],
    session_name: &Name,
    session: u32,
    workers: u32,
    replies: &mut u64,
    gate: &G,
) -> Result<VecDeque<SearchLine>, WantMemory>
    requires covers { Covers (map name kinds.now) }
    requires workers { (1 ≤ workers) × (workers ≤ 64) }
    requires ready { AreReady readers.old }
    requires count { length order.now ≡ length asked.now }
    requires ask { All (CanAsk readers.old) asked.now }
    ensures { IfOk result (λ lines. AreSessionLines replied (charters_of readers.old) (most_of readers.old) session_name.now (least_of readers.old)
        (map asked_view (asked_of session order.now asked.now)) (line_views lines.items)) }
{
    let mut lines = VecDeque::new(alloc);
    for (at, one) in asked.iter().enumerate() {
        if order[at] != session {
            continue;
        }
        let line = line_of(rt, alloc, readers, one, kinds, session_name, workers)?;
        lines.push_back(line)?;
        if one.is_ok() {
            *replies = replies.saturating_add(1);
            gate.after_reply(session, *replies);
        }
    }
    Ok(lines)
}

impl SessionWorker {
    /// Answers all that the session asks, where these are whose searches a phase has, and what each asks. After want of memory
    /// it stops.
    pub(crate) fn work<R: Threads + Sync, G: Gate>(
        &mut self,
        rt: &R,
        alloc: Global,
        order: &[u32],
        asked: &[Result<Request, RequestFault>],
        kinds: &[Box<dyn FacetKind>],
        workers: u32,
        gate: &G,
    )
        requires covers { Covers (map name kinds.now) }
        requires workers { (1 ≤ workers) × (workers ≤ 64) }
        requires count { length order.now ≡ length asked.now }
        requires ready { IsReady asked.now self.old }
        ensures { IsAnswered order.now asked.now self.old self.new }
    {
        let answered = lines_of(
            rt,
            alloc,
            &mut self.readers,
            order,
            asked,
            kinds,
            &self.name,
            self.session,
            workers,
            &mut self.replies,
            gate,
        );
        match answered {
            Ok(lines) => {
                self.lines = lines;
                self.wants_memory = false;
            }
            Err(WantMemory) => self.wants_memory = true,
        }
    }
}
