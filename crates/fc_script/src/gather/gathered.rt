// What a script's lines add up to, one line after another.
ghost use Rattle.std.specs.Prelude.{◌≡◌, ℕ, ◌<◌, length, map, true, IfOk, IfSome, OnOk, List};
ghost use Rattle.std.specs.List.{list_all};
ghost use Rattle.fc_spec.specs.documents.Schema as definition;
ghost use Rattle.fc_spec.specs.documents.Val.{Text};
ghost use Rattle.fc_spec.specs.requests.ValidRequests.{IsValidRequest};
ghost use Rattle.fc_request.specs.RequestView.{request_view, IsRoot};
ghost use Rattle.fc_lines.specs.LineView.{asked_view};
ghost use Rattle.fc_base.specs.ValidSchema.{IsValidSchema};
ghost use Rattle.fc_docs.specs.View.{op_view};
ghost use Rattle.fc_script.specs.Gathered as gathered;
ghost use Rattle.fc_script.specs.Gathered.{changed_at, has_few, with_commit_of, with_op};
ghost use Rattle.fc_script.specs.GatheredView.{gathered_view, IsSoundSoFar, AreSoundPhases};
ghost use Rattle.fc_script.specs.PartsView.{parts_view, session_at};
ghost use Rattle.fc_script.specs.ShardView.{shard_view};

use super::shards::{ShardSoFar, add_op, batches, commit, commits, empty_shards, have_few};
use crate::script::{Phase, Script, Search};
use fc_base::{Name, Schema, WantMemory};
use fc_docs::Op;
use fc_request::{Request, RequestFault};
use std::alloc::Global;
use std::mem;
use std::sync::Arc;

/// Each shard, the phases that have ended, and the searches behind the last one.
#[derive(Debug, Drop)]
pub(crate) struct Gathered {
    pub(crate) shards: Vec<ShardSoFar>,
    pub(crate) phases: Vec<Phase>,
    pub(crate) searches: Vec<Search>,
}

impl Gathered {
    /// Before the first line.
    pub(crate) fn new(alloc: Global, schema: &Schema) -> Result<Gathered, WantMemory>
        ensures lines { (sessions : List Text) → IfOk result (λ g.
            gathered_view sessions g ≡ gathered.nothing schema.now) }
        ensures sound { (s : definition.Schema) (sessions : ℕ) → IfOk result (IsSoundSoFar s sessions) }
        ensures shards { IfOk result (λ g. length g.shards.items ≡ schema.now.shards) }
    {
        Ok(Gathered {
            shards: empty_shards(alloc, schema.shards())?,
            phases: Vec::new(alloc),
            searches: Vec::new(alloc),
        })
    }

    /// Puts an operation behind those of a shard.
    pub(crate) fn add(&mut self, shard: u32, op: Op) -> Result<(), WantMemory>
        requires { shard < length self.old.shards.items }
        ensures shards { OnOk result (map shard_view self.new.shards.items
            ≡ changed_at (with_op (op_view op)) shard (map shard_view self.old.shards.items)) }
        ensures count { length self.new.shards.items ≡ length self.old.shards.items }
        ensures phases { self.new.phases ≡ self.old.phases }
        ensures searches { self.new.searches ≡ self.old.searches }
    {
        add_op(&mut self.shards, shard, op)
    }

    /// Commits a shard, or every shard.
    pub(crate) fn commit(&mut self, alloc: Global, shard: Option<u32>) -> Result<(), WantMemory>
        requires { IfSome shard (λ shard. shard < length self.old.shards.items) }
        ensures shards { OnOk result (map shard_view self.new.shards.items
            ≡ with_commit_of shard (map shard_view self.old.shards.items)) }
        ensures count { length self.new.shards.items ≡ length self.old.shards.items }
        ensures phases { self.new.phases ≡ self.old.phases }
        ensures searches { self.new.searches ≡ self.old.searches }
    {
        commit(alloc, &mut self.shards, shard)
    }

    /// Whether each shard has few enough commits.
    pub(crate) fn has_few_commits(&self) -> bool
        ensures { result ≡ list_all has_few (map shard_view self.now.shards.items) }
    {
        have_few(&self.shards)
    }

    /// Ends the phase that is open.
    pub(crate) fn sync(&mut self, alloc: Global) -> Result<(), WantMemory>
        requires { list_all has_few (map shard_view self.old.shards.items) ≡ true }
        ensures lines { (sessions : List Text) → OnOk result
            (gathered_view sessions self.new ≡ gathered.with_sync (gathered_view sessions self.old)) }
        ensures sound { (s : definition.Schema) (sessions : ℕ) → IsSoundSoFar s sessions self.old
            → OnOk result (IsSoundSoFar s sessions self.new) }
        ensures shards { self.new.shards ≡ self.old.shards }
    {
        let commits = commits(alloc, &self.shards)?;
        let searches = mem::replace(&mut self.searches, Vec::new(alloc));
        self.phases.push(Phase { commits, searches })?;
        Ok(())
    }

    /// Adds a search of the session of this number to the phase that is open.
    pub(crate) fn search(
        &mut self,
        session: u32,
        request: Result<Request, RequestFault>,
    ) -> Result<(), WantMemory>
        ensures lines { (sessions : List Text) → OnOk result (gathered_view sessions self.new
            ≡ gathered.with_search (session_at sessions session) (asked_view request) (gathered_view sessions self.old)) }
        ensures sound { (s : definition.Schema) (sessions : ℕ) → session < sessions
            → IfOk request (λ r. IsValidRequest s (request_view r))
            → IfOk request (λ r. IsRoot r.root)
            → IsSoundSoFar s sessions self.old
            → OnOk result (IsSoundSoFar s sessions self.new) }
        ensures shards { self.new.shards ≡ self.old.shards }
        ensures phases { self.new.phases ≡ self.old.phases }
    {
        self.searches.push(Search { session, request })?;
        Ok(())
    }

    /// The script, where the lines end here.
    pub(crate) fn finish(
        mut self,
        alloc: Global,
        schema: Schema,
        sessions: Vec<Name>,
    ) -> Result<Script, WantMemory>
        requires { list_all has_few (map shard_view self.shards.items) ≡ true }
        ensures parts { IfOk result (λ script. parts_view script
            ≡ gathered.gathered_parts schema sessions.items (gathered_view sessions.items self)) }
        ensures sound { IsSoundSoFar schema (length sessions.items) self
            → IfOk result (AreSoundPhases schema (length sessions.items)) }
        ensures valid { IsValidSchema schema }
    {
        self.sync(alloc)?;
        let Gathered { shards, phases, .. } = self;
        let batches = batches(alloc, shards)?;
        Ok(Script {
            schema: Arc::new(alloc, schema)?,
            sessions,
            batches,
            phases,
        })
    }
}
