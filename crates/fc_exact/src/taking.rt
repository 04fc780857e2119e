// What the core begins with, and what a message changes.
ghost use Rattle.std.specs.Prelude.{◌≡◌, ◌≤◌, IfOk, IsTrue, OnErr, OnOk, false, is_some, true};
ghost use Rattle.std.specs.List.{list_any};
ghost use Rattle.fc_partial.specs.BucketView.{message_view};
ghost use Rattle.fc_request.specs.RequestView.{request_view};
ghost use Rattle.fc_exact.specs.CoreView.{state_view};
ghost use Rattle.fc_exact.specs.State as state;
ghost use Rattle.fc_exact.specs.State.{asks_behind, at_start, begun, is_awaited, taken};
ghost use Rattle.fc_exact.specs.View.{asks_view, says_ready};

use crate::asks::{are_awaited, first_asks, heard, lacking_asks, least_asks};
use crate::facets::told_facets;
use crate::leasts::leasts;
use crate::standing::Standing;
use crate::told::tell_answer;
use crate::{ExactAsk, ExactCore};
use fc_base::WantMemory;
use fc_partial::Message;
use fc_refine::Taken;
use fc_request::Request;
use std::alloc::Global;

impl<'a> ExactCore<'a> {
    /// The core of 1 to 64 shards, in the first round, in which each shard is asked what it offers.
    pub fn begin(
        alloc: Global,
        request: &'a Request,
        shards: u32,
    ) -> Result<ExactCore<'a>, WantMemory>
        requires some { 1 ≤ shards }
        requires few { shards ≤ 64 }
        ensures { IfOk result (λ core. state_view core ≡ at_start (request_view request.now) shards) }
    {
        Ok(ExactCore {
            alloc,
            request,
            told: Vec::new(alloc),
            asks: first_asks(alloc, shards)?,
            round: 1,
            standing: Standing::Open,
        })
    }
}

impl ExactCore<'_> {
    // The message of an awaited shard is told, and the shard is awaited no longer.
    fn hear(&mut self, shard: u32, message: Message) -> Result<(), WantMemory>
        requires not_spent { (state_view self.old).spent ≡ false }
        requires awaited { IsTrue (is_awaited (state_view self.old) shard) }
        ensures state { OnOk result (state_view self.new ≡ state.heard (state_view self.old) shard (message_view message)) }
        ensures spent { OnErr result ((state_view self.new).spent ≡ true) }
    {
        self.standing = Standing::Spent;
        let ask = heard(&mut self.asks, shard);
        tell_answer(self.alloc, &mut self.told, shard, ask, message)?;
        self.standing = Standing::Open;
        Ok(())
    }

    // What the shards are asked behind the round that has ended; no shard behind the last round.
    fn next_asks(&self) -> Result<Vec<Option<ExactAsk>>, WantMemory>
        ensures { IfOk result (λ asks. asks_view asks.items ≡ asks_behind (state_view self.now) (state_view self.now).round) }
    {
        let shards = self.asks.len() as u32;
        let facets = told_facets(self.alloc, &self.request.root.nodes, &self.told)?;
        match self.round {
            1 => {
                let leasts = leasts(self.alloc, shards, &facets)?;
                let asks = least_asks(self.alloc, shards, &leasts)?;
                Ok(asks)
            }
            2 => {
                let asks = lacking_asks(self.alloc, shards, &facets)?;
                Ok(asks)
            }
            _ => Ok(Vec::new(self.alloc)),
        }
    }

    // Behind the last message of a round: the next one begins, or the values can be given.
    fn go_on(&mut self) -> Result<Taken, WantMemory>
        requires not_spent { (state_view self.old).spent ≡ false }
        requires not_ready { (state_view self.old).ready ≡ false }
        requires heard { list_any is_some (state_view self.old).asks ≡ false }
        ensures state { OnOk result (state_view self.new ≡ begun (state_view self.old)) }
        ensures answer { IfOk result (λ answer. says_ready answer ≡ (state_view self.new).ready) }
        ensures spent { OnErr result ((state_view self.new).spent ≡ true) }
    {
        self.standing = Standing::Spent;
        let asks = self.next_asks()?;
        if !are_awaited(&asks) {
            self.standing = Standing::Ready;
            return Ok(Taken::Ready);
        }
        self.asks = asks;
        self.round += 1;
        self.standing = Standing::Open;
        Ok(Taken::More)
    }

    /// Takes the message of an awaited shard. While others are awaited there is nothing new. Behind the last message of the
    /// first round each shard is asked for the values from a count on, and behind that of the second each for the values of
    /// which it has not told, if there are any; else the values can be given. After want of memory the core is spent.
    pub fn take(&mut self, shard: u32, message: Message) -> Result<Taken, WantMemory>
        requires not_spent { (state_view self.old).spent ≡ false }
        requires awaited { IsTrue (is_awaited (state_view self.old) shard) }
        ensures state { OnOk result (state_view self.new ≡ taken (state_view self.old) shard (message_view message)) }
        ensures answer { IfOk result (λ answer. says_ready answer ≡ (state_view self.new).ready) }
        ensures spent { OnErr result ((state_view self.new).spent ≡ true) }
    {
        self.hear(shard, message)?;
        if are_awaited(&self.asks) {
            return Ok(Taken::More);
        }
        let answer = self.go_on()?;
        Ok(answer)
    }
}
