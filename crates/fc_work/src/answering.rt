// The answer to a search: over what its readers pin.
ghost use Rattle.std.specs.Prelude.{◌≡◌, ◌≤◌, All, IfOk, length, map};
ghost use Rattle.std.specs.Arc.{arc_value};
ghost use Rattle.fc_spec.specs.messages.WholeTrace.{whole_trace};
ghost use Rattle.fc_spec.specs.replies.Replied.{replied};
ghost use Rattle.fc_spec.specs.requests.ValidRequests.{IsValidRequest};
ghost use Rattle.fc_spec.specs.scripts.Lines.{reply_line as line_of_reply};
ghost use Rattle.fc_spec.specs.scripts.PinnedWorlds.{AreBetween, world_added, world_at};
ghost use Rattle.fc_spec.specs.scripts.WorldLimits.{IsWithinLimits};
ghost use Rattle.fc_request.specs.RequestView.{IsRoot, request_view};
ghost use Rattle.fc_kind.specs.Names.{Covers};
ghost use Rattle.fc_hooks.specs.SentLists.{sent_view};
ghost use Rattle.fc_search.specs.Schemas.{AreSame};
ghost use Rattle.fc_work.specs.Pinned.{AreNoLower, ArePinned, charters_of, having, least_of, most_of, numbers_in, starts_of};

use fc_base::{Name, WantMemory};
use fc_kind::FacetKind;
use fc_reply::reply_line;
use fc_request::Request;
use fc_search::{RoundProbe, RoundRobin, Sent, search};
use fc_spec::{first_batches_are_within, whole_traces_are_maps};
use fc_store::{Generation, ShardReader};
use std::alloc::Global;
use std::sync::Arc;
use std::thread::Threads;

/// The line of a search's reply, the number of the generation that it has of each shard, in the order of the shards, and the messages
/// that were sent for it, ascending by round, then shard.
#[derive(Debug, Drop)]
pub struct Answered {
    pub line: Vec<u8>,
    pub generations: Vec<u64>,
    pub sent: Vec<Sent>,
}

// Pins each reader once, in order.
fn pin_all(alloc: Global, readers: &mut [ShardReader]) -> Result<Vec<Arc<Generation>>, WantMemory>
    ensures pinned { IfOk result (λ generations. ArePinned readers.old (map arc_value generations.items) readers.new) }
    ensures no_lower { AreNoLower readers.old readers.new }
{
    let mut pinned = Vec::with_capacity(alloc, readers.len())?;
    for reader in readers.iter_mut() {
        pinned.push(reader.pin()?)?;
    }
    Ok(pinned)
}

fn numbers_of(alloc: Global, generations: &[Arc<Generation>]) -> Result<Vec<u64>, WantMemory>
    ensures { IfOk result (λ numbers. numbers.items ≡ numbers_in (map arc_value generations.now)) }
{
    let mut numbers = Vec::with_capacity(alloc, generations.len())?;
    for generation in generations {
        numbers.push(generation.number())?;
    }
    Ok(numbers)
}

/// The answer to a request of a session over the generations that its readers pin: of 1 to 64 shards of one schema, in their order.
/// Each reader pins once. `workers` tells how many may drive the shards of a search at once, 1 to 64; it changes nothing of the answer. After want of
/// memory some readers may have pinned again.
pub fn answer<R: Threads + Sync>(
    rt: &R,
    alloc: Global,
    readers: &mut [ShardReader],
    request: &Request,
    kinds: &[Box<dyn FacetKind>],
    session: &Name,
    workers: u32,
) -> Result<Answered, WantMemory>
    requires covers { Covers (map name kinds.now) }
    requires some { 1 ≤ length readers.old }
    requires workers { (1 ≤ workers) × (workers ≤ 64) }
    requires root { IsRoot request.now.root }
    requires valid { All (λ reader. IsValidRequest reader.schema (request_view request.now)) readers.old }
    requires schema { AreSame (map (λ reader. reader.schema) readers.old) }
    requires limits { IsWithinLimits (world_added (charters_of readers.old)) }
    ensures line { IfOk result (λ answered. answered.line.items
        ≡ line_of_reply (replied (request_view request.now) (world_at (charters_of readers.old) answered.generations.items))
        answered.generations.items session.now) }
    ensures sent { IfOk result (λ answered. map sent_view answered.sent.items
        ≡ whole_trace (request_view request.now) (world_at (charters_of readers.old) answered.generations.items)) }
    ensures between { IfOk result (λ answered. AreBetween (least_of readers.old) (most_of readers.old) answered.generations.items) }
    ensures started { IfOk result (λ answered. AreBetween (starts_of readers.old) (most_of readers.old) answered.generations.items) }
    ensures pinned { IfOk result (λ answered. readers.new ≡ having readers.old answered.generations.items) }
    ensures no_lower { AreNoLower readers.old readers.new }
{
    first_batches_are_within();
    whole_traces_are_maps();
    let generations = pin_all(alloc, readers)?;
    let numbers = numbers_of(alloc, &generations)?;
    let mut turns = RoundRobin::new();
    let mut probe = RoundProbe::new();
    let reply = search(
        rt,
        alloc,
        &generations,
        request,
        kinds,
        &mut turns,
        workers,
        &mut probe,
    )?;
    let line = reply_line(alloc, &reply, &numbers, session)?;
    let sent = probe.sent(alloc)?;
    Ok(Answered {
        line,
        generations: numbers,
        sent,
    })
}
