// What a message changes.
ghost use Rattle.std.specs.Prelude.{◌≡◌, ◌+◌, ◌<◌, ◌≤◌, ◌^◌, ◌++◌, [], List, IfOk, OnErr, OnOk, IsTrue, is_some, false, true};
ghost use Rattle.std.specs.List.{list_any};
ghost use Rattle.fc_spec.specs.messages.Held.{Told};
ghost use Rattle.fc_spec.specs.messages.Lacks as definition;
ghost use Rattle.fc_partial.specs.BucketView.{message_view};
ghost use Rattle.fc_request.specs.RequestView.{request_view};
ghost use Rattle.fc_refine.specs.CountableRanges.{AreCountable};
ghost use Rattle.fc_coord.specs.State as state;
ghost use Rattle.fc_coord.specs.State.{at_start, begun, is_awaited, is_fitting, lacks_next, taken, told_of};
ghost use Rattle.fc_coord.specs.Keeps.{Keeps};
ghost use Rattle.fc_coord.specs.View.{says_ready};
ghost use Rattle.fc_coord.specs.CoordView.{state_view};

use crate::Coord;
use crate::asks::{are_awaited, asks_for, first_asks, heard};
use crate::rounds::next_lacks;
use crate::standing::Standing;
use fc_base::WantMemory;
use fc_lacks::lacking_is_untold;
use fc_partial::Message;
use fc_refine::Taken;
use fc_request::Request;
use fc_told::{ToldBucket, trees_tell};
use std::alloc::Global;

impl<'a> Coord<'a> {
    /// A coordinator of 1 to 64 shards, in the first round, in which each shard is asked for its root. The gaps of the
    /// request's ranges can be counted, and so can its rounds: at most one for each depth of terms facets behind the first.
    pub fn begin(alloc: Global, request: &'a Request, shards: u32) -> Result<Coord<'a>, WantMemory>
        requires some { 1 ≤ shards }
        requires few { shards ≤ 64 }
        requires countable { AreCountable (request_view request.now).nodes }
        requires depth { definition.terms_depth (request_view request.now).nodes + 1 < 2 ^ 32 }
        ensures state { IfOk result (λ coord. state_view coord ≡ at_start (request_view request.now) shards) }
        ensures kept { IfOk result (λ coord. Keeps (state_view coord) []) }
    {
        trees_tell();
        Ok(Coord {
            alloc,
            request,
            told: ToldBucket::new(alloc),
            asks: first_asks(alloc, shards)?,
            round: 1,
            next_depth: 0,
            standing: Standing::Open,
        })
    }
}

impl Coord<'_> {
    // The message of an awaited shard is told, and the shard is awaited no longer.
    fn hear(&mut self, shard: u32, message: Message) -> Result<(), WantMemory>
        requires not_spent { (state_view self.old).spent ≡ false }
        requires awaited { IsTrue (is_awaited (state_view self.old) shard) }
        requires fits { IsTrue (is_fitting (state_view self.old) shard (message_view message)) }
        ensures state { OnOk result (state_view self.new ≡ state.heard (state_view self.old) shard (message_view message)) }
        ensures spent { OnErr result ((state_view self.new).spent ≡ true) }
    {
        trees_tell();
        self.standing = Standing::Spent;
        let ask = heard(&mut self.asks, shard);
        self.told
            .tell(self.alloc, &self.request.root.nodes, shard, ask, message)?;
        self.standing = Standing::Open;
        Ok(())
    }

    // Behind the last message of a round: the next one begins, or the reply can be made.
    fn go_on(&mut self) -> Result<Taken, WantMemory>
        requires not_spent { (state_view self.old).spent ≡ false }
        requires not_ready { (state_view self.old).ready ≡ false }
        requires heard { list_any is_some (state_view self.old).asks ≡ false }
        ensures state { OnOk result ((A : List Told) → Keeps (state_view self.old) A
            → state_view self.new ≡ begun (state_view self.old) (lacks_next (state_view self.old) A)) }
        ensures answer { IfOk result (λ answer. says_ready answer ≡ (state_view self.new).ready) }
        ensures spent { OnErr result ((state_view self.new).spent ≡ true) }
    {
        trees_tell();
        lacking_is_untold();
        self.standing = Standing::Spent;
        let shards = self.asks.len() as u32;
        let next = next_lacks(
            self.alloc,
            self.request,
            shards,
            &self.told,
            self.next_depth,
        )?;
        if next.lacks.is_empty() {
            self.standing = Standing::Ready;
            return Ok(Taken::Ready);
        }
        self.asks = asks_for(self.alloc, shards, next.lacks)?;
        self.next_depth = next.depth + 1;
        self.round += 1;
        self.standing = Standing::Open;
        Ok(Taken::More)
    }

    /// Takes a message that fits, of an awaited shard. While others are awaited there is nothing new. Behind the last
    /// message of a round a new one begins where something lacks: each shard is asked for all that it lacks, and one that
    /// lacks nothing is not awaited. Else the reply can be made. After want of memory the coordinator is spent.
    pub fn take(&mut self, shard: u32, message: Message) -> Result<Taken, WantMemory>
        requires not_spent { (state_view self.old).spent ≡ false }
        requires awaited { IsTrue (is_awaited (state_view self.old) shard) }
        requires fits { IsTrue (is_fitting (state_view self.old) shard (message_view message)) }
        // behind all that was told
        ensures kept { OnOk result ((A : List Told) → Keeps (state_view self.old) A
            → Keeps (state_view self.new) (A ++ told_of (state_view self.old) shard (message_view message))) }
        ensures state { OnOk result ((A : List Told) → Keeps (state_view self.old) A
            → state_view self.new ≡ taken (state_view self.old) A shard (message_view message)) }
        ensures answer { IfOk result (λ answer. says_ready answer ≡ (state_view self.new).ready) }
        ensures spent { OnErr result ((state_view self.new).spent ≡ true) }
    {
        trees_tell();
        self.hear(shard, message)?;
        if are_awaited(&self.asks) {
            return Ok(Taken::More);
        }
        let answer = self.go_on()?;
        Ok(answer)
    }
}
