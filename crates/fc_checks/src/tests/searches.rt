// Searches over generations that hold all commits of a script.
ghost use Rattle.std.specs.Prelude.{◌≡◌, ◌≤◌, All, length, map};
ghost use Rattle.std.specs.Arc.{arc_value};
ghost use Rattle.fc_spec.specs.requests.ValidRequests.{IsValidRequest};
ghost use Rattle.fc_spec.specs.scripts.WorldLimits.{IsWithinLimits};
ghost use Rattle.fc_kind.specs.Names.{Covers};
ghost use Rattle.fc_request.specs.RequestView.{IsRoot, request_view};
ghost use Rattle.fc_round.specs.Askable.{world_of};

use super::documents::request_of;
use super::scripts::{generations_of, script_of};
use fc_base::{Name, Schema};
use fc_kind::FacetKind;
use fc_reply::reply_line;
use fc_request::Request;
use fc_script::Script;
use fc_search::{NoProbe, Turns, search};
use fc_store::Generation;
use std::alloc::Global;
use std::sync::Arc;
use std::test::Fail;
use std::thread::Threads;

// What is committed and asked: a script without searches, how many of a shard's commits make its first segment, and requests.
pub(super) struct Asked {
    pub(super) script: &'static str,
    pub(super) earlier: usize,
    pub(super) requests: &'static [&'static str],
}

// The line of a search of session a.
fn line_of<R: Threads + Sync, T: Turns>(
    rt: &R,
    alloc: Global,
    published: &[Arc<Generation>],
    schema: &Schema,
    request: &Request,
    kinds: &[Box<dyn FacetKind>],
    turns: &mut T,
    workers: u32,
) -> Result<Vec<u8>, Fail>
    requires workers { (1 ≤ workers) × (workers ≤ 64) }
    requires covers { Covers (map name kinds.now) }
    requires some { 1 ≤ length published.now }
    requires root { IsRoot request.now.root }
    requires valid { IsValidRequest schema.now (request_view request.now) }
    requires schema { All (λ generation. generation.schema ≡ schema.now) (map arc_value published.now) }
    requires limits { IsWithinLimits (world_of (map arc_value published.now)) }
{
    let probe = &mut NoProbe;
    let reply = search(rt, alloc, published, request, kinds, turns, workers, probe)?;
    let numbers: Vec<u64> = published.iter().map(|one| one.number()).collect(alloc)?;
    Ok(reply_line(alloc, &reply, &numbers, &Name::new(alloc, "a")?)?)
}

// The lines of what is asked, by so many workers; of one the turns go so.
pub(super) fn lines_of<R: Threads + Sync, T: Turns>(
    rt: &R,
    alloc: Global,
    asked: &Asked,
    kinds: &[Box<dyn FacetKind>],
    turns: &mut T,
    workers: u32,
) -> Result<String, Fail>
    requires covers { Covers (map name kinds.now) }
    requires workers { (1 ≤ workers) × (workers ≤ 64) }
{
    let script = script_of(alloc, asked.script)?;
    let Script {
        schema,
        batches,
        ..
    } = script;
    let published = generations_of(alloc, &schema, batches, asked.earlier)?;
    if published.is_empty() {
        return Err("no shard".into());
    }
    let mut text = Vec::new(alloc);
    for request in asked.requests {
        let request = request_of(alloc, &schema, request)?;
        let line = line_of(
            rt, alloc, &published, &schema, &request, kinds, turns, workers,
        )?;
        text.extend_from_slice(&line)?;
    }
    Ok(String::from_utf8_lossy(alloc, &text)?)
}
