// One line more of a script.
use super::ScriptReader;
use crate::gather::session_number;
use fc_base::{Name, Refusal};
use fc_docs::{Block, Op};
use fc_lines::{Line, LineFault, ScriptFault, at_line, line_on};
use fc_request::{Request, RequestFault};
use json::Scratch;
use std::alloc::Global;

// The most sync lines of a script.
const SYNC_LIMIT: usize = 4096;

// The most sessions of a script.
const SESSION_LIMIT: usize = 16;

impl ScriptReader {
    ghost use Rattle.std.specs.Prelude.{◌≡◌, ◌<◌, IfOk, IfSome};
    ghost use Rattle.fc_docs.specs.View.{block_view};
    ghost use Rattle.fc_lines.specs.FaultView.{line_fault_view, script_fault_view};
    ghost use Rattle.fc_lines.specs.LineView.{asked_view, line_view};
    ghost use Rattle.fc_lines.specs.ValidLines.{HasRoot, IsLineOf};
    ghost use Rattle.fc_request.specs.RequestView.{request_view, IsRoot};
    ghost use Rattle.fc_script.specs.AskedRequests.{IsAskedOf};
    ghost use Rattle.fc_script.specs.Meets.{Meets};
    ghost use Rattle.fc_script.specs.ReadSoFar.{ReadSoFar, with_asked, with_numbered, with_text as with_text_line};
    ghost use Rattle.fc_script.specs.ReadView.{HasRead};
    ghost use Rattle.fc_spec.specs.documents.ValidBlocks.{IsBlockOf};
    ghost use Rattle.fc_spec.specs.requests.ValidRequests.{IsValidRequest};
    ghost use Rattle.fc_spec.specs.scripts.Script.{add, asks, commit, delete, sync};

    /// With a block for a shard.
    pub(super) fn with_block(
        self,
        shard: u32,
        block: Block,
    ) -> Result<ScriptReader, Refusal<LineFault>>
        requires placed { shard < self.schema.shards }
        requires valid { IsBlockOf self.schema (block_view block) }
        ensures schema { IfOk result (λ r. r.schema ≡ self.schema) }
        ensures meets { (S : ReadSoFar) → HasRead self S
            → Meets HasRead line_fault_view result (with_asked S (add shard (block_view block))) }
    {
        let ScriptReader {
            schema,
            documents,
            sessions,
            mut gathered,
        } = self;
        let documents = documents.with(&schema, &block)?;
        gathered.add(shard, Op::Add(block))?;
        Ok(ScriptReader {
            schema,
            documents,
            sessions,
            gathered,
        })
    }

    // With an id whose blocks a shard loses.
    fn with_delete(self, shard: u32, id: Name) -> Result<ScriptReader, Refusal<LineFault>>
        requires placed { shard < self.schema.shards }
        ensures schema { IfOk result (λ r. r.schema ≡ self.schema) }
        ensures meets { (S : ReadSoFar) → HasRead self S
            → Meets HasRead line_fault_view result (with_asked S (delete shard id)) }
    {
        let ScriptReader {
            schema,
            documents,
            sessions,
            mut gathered,
        } = self;
        gathered.add(shard, Op::Delete(id))?;
        Ok(ScriptReader {
            schema,
            documents,
            sessions,
            gathered,
        })
    }

    // With a commit of a shard, or of every shard.
    fn with_commit(
        self,
        alloc: Global,
        shard: Option<u32>,
    ) -> Result<ScriptReader, Refusal<LineFault>>
        requires placed { IfSome shard (λ shard. shard < self.schema.shards) }
        ensures schema { IfOk result (λ r. r.schema ≡ self.schema) }
        ensures meets { (S : ReadSoFar) → HasRead self S
            → Meets HasRead line_fault_view result (with_asked S (commit shard)) }
    {
        let ScriptReader {
            schema,
            documents,
            sessions,
            mut gathered,
        } = self;
        gathered.commit(alloc, shard)?;
        if !gathered.has_few_commits() {
            return Err(Refusal::Fault(LineFault::TooManyCommits));
        }
        Ok(ScriptReader {
            schema,
            documents,
            sessions,
            gathered,
        })
    }

    // With the end of a phase.
    fn with_sync(self, alloc: Global) -> Result<ScriptReader, Refusal<LineFault>>
        ensures schema { IfOk result (λ r. r.schema ≡ self.schema) }
        ensures meets { (S : ReadSoFar) → HasRead self S
            → Meets HasRead line_fault_view result (with_asked S sync) }
    {
        let ScriptReader {
            schema,
            documents,
            sessions,
            mut gathered,
        } = self;
        gathered.sync(alloc)?;
        if gathered.phases.len() > SYNC_LIMIT {
            return Err(Refusal::Fault(LineFault::TooManySyncs));
        }
        Ok(ScriptReader {
            schema,
            documents,
            sessions,
            gathered,
        })
    }

    // With a session's search.
    fn with_search(
        self,
        session: Name,
        asked: Result<Request, RequestFault>,
    ) -> Result<ScriptReader, Refusal<LineFault>>
        requires valid { IfOk asked (λ request. IsValidRequest self.schema (request_view request)) }
        requires root { IfOk asked (λ request. IsRoot request.root) }
        ensures schema { IfOk result (λ r. r.schema ≡ self.schema) }
        ensures meets { (S : ReadSoFar) → HasRead self S
            → Meets HasRead line_fault_view result (with_asked S (asks session (asked_view asked))) }
    {
        let ScriptReader {
            schema,
            documents,
            mut sessions,
            mut gathered,
        } = self;
        let number = session_number(&mut sessions, session)?;
        if sessions.len() > SESSION_LIMIT {
            return Err(Refusal::Fault(LineFault::TooManySessions));
        }
        gathered.search(number, asked)?;
        Ok(ScriptReader {
            schema,
            documents,
            sessions,
            gathered,
        })
    }

    // With what a line says.
    fn with_line(self, alloc: Global, line: Line) -> Result<ScriptReader, Refusal<LineFault>>
        requires valid { IsLineOf self.schema (line_view line) }
        requires asked { IsAskedOf self.schema (line_view line) }
        requires root { HasRoot line }
        ensures schema { IfOk result (λ r. r.schema ≡ self.schema) }
        ensures meets { (S : ReadSoFar) → HasRead self S
            → Meets HasRead line_fault_view result (with_asked S (line_view line)) }
    {
        match line {
            Line::Add(shard, block) => self.with_block(shard, block),
            Line::Delete(shard, id) => self.with_delete(shard, id),
            Line::Commit(shard) => self.with_commit(alloc, shard),
            Line::Sync => self.with_sync(alloc),
            Line::Search(session, asked) => self.with_search(session, Box::into_inner(asked)),
        }
    }

    /// With the line of this text.
    pub(super) fn with_text(
        self,
        alloc: Global,
        scratch: &mut Scratch,
        text: &[u8],
    ) -> Result<ScriptReader, Refusal<LineFault>>
        ensures schema { IfOk result (λ r. r.schema ≡ self.schema) }
        ensures meets { (S : ReadSoFar) → HasRead self S
            → Meets HasRead line_fault_view result (with_text_line S text.now) }
    {
        let line = line_on(alloc, &self.schema, scratch, text)?;
        self.with_line(alloc, line)
    }

    /// With the line of this text, which has this number.
    pub(crate) fn read(
        self,
        alloc: Global,
        scratch: &mut Scratch,
        number: u32,
        text: &[u8],
    ) -> Result<ScriptReader, Refusal<ScriptFault>>
        ensures { (S : ReadSoFar) → HasRead self S
            → Meets HasRead script_fault_view result (with_numbered S (number, text.now)) }
    {
        self.with_text(alloc, scratch, text)
            .map_err(|refusal| at_line(number, refusal))
    }
}
