// A shard's futures, one by a turn and one by polls, over a shard without documents.
ghost use Rattle.std.specs.Prelude.{◌≡◌, IfOk, false, map};
ghost use Rattle.std.specs.Arc.{arc_value};
ghost use Rattle.fc_spec.specs.requests.ValidRequests.{IsSearchable};
ghost use Rattle.fc_request.specs.RequestView.{IsRoot, request_view};
ghost use Rattle.fc_kind.specs.Names.{Covers};
ghost use Rattle.fc_phase.specs.Futures.{phase_of};

use super::documents::{request_of, schema_of};
use super::kinds::kinds_in;
use fc_base::Schema;
use fc_kind::FacetKind;
use fc_partial::Message;
use fc_phase::{PhaseFuture, Turn};
use fc_refine::{Ask, shaped};
use fc_request::Request;
use fc_store::Generation;
use futures::executor::block_on;
use std::alloc::{AllocGlobal, Global};
use std::random::RandomSource;
use std::sync::{Arc, Wait};
use std::test::Fail;

const SCHEMA: &str = r#"{"shards":1,"fields":{"cat":"string"}}"#;

const REQUEST: &str =
    r#"{"facet":{"c":{"type":"terms","field":"cat"},"d":{"type":"query","q":"*:*"}}}"#;

fn future_of<'a>(
    alloc: Global,
    kinds: &'a [Box<dyn FacetKind>],
    schema: &Arc<Schema>,
    request: &'a Request,
) -> Result<PhaseFuture<'a>, Fail>
    requires covers { Covers (map name kinds.now) }
    requires root { IsRoot request.now.root }
    requires valid { IsSearchable (arc_value schema.now) (request_view request.now) }
    ensures kinds { IfOk result (λ future. future.kinds.now ≡ kinds.now) }
    ensures fresh { IfOk result (λ future. (phase_of future).spent ≡ false) }
{
    let generation = Generation::first(alloc, Arc::try_clone(schema)?)?;
    Ok(PhaseFuture::first(alloc, generation, request, kinds)?)
}

// The message of a future by polls.
fn polled(
    rt: &(impl Wait + RandomSource + AllocGlobal),
    alloc: Global,
    kinds: &[Box<dyn FacetKind>],
    schema: &Arc<Schema>,
    request: &Request,
) -> Result<Message, Fail>
    requires covers { Covers (map name kinds.now) }
    requires root { IsRoot request.now.root }
    requires valid { IsSearchable (arc_value schema.now) (request_view request.now) }
{
    let message = block_on(rt, future_of(alloc, kinds, schema, request)?)??;
    Ok(message)
}

#[test]
fn a_turn_and_polls(rt: HostRuntime) -> Result<(), Fail> {
    let alloc = rt.alloc();
    let kinds = kinds_in(alloc)?;
    let schema = schema_of(alloc, SCHEMA)?;
    let request = request_of(alloc, &schema, REQUEST)?;
    let mut future = future_of(alloc, &kinds, &schema, &request)?;
    // The root's bucket, and a list for each facet.
    assert!(rt; !future.spent() && future.done() == 0 && future.left() == 3);
    assert!(rt; matches!(future.turn()?, Turn::Pending));
    assert!(rt; !future.spent() && future.done() == 1 && future.left() == 2);
    let message = polled(&rt, alloc, &kinds, &schema, &request)?;
    assert!(rt; shaped(&request, &Ask::First, &message));
    assert!(rt; message.buckets.iter().all(|root| root.stats.count == 0));
    Ok(())
}
