// Schemas and requests of JSON texts that have no fault.
ghost use Rattle.std.specs.Prelude.{◌+◌, ◌<◌, ◌^◌, IfOk};
ghost use Rattle.serde_json.specs.View.{view};
ghost use Rattle.fc_spec.specs.messages.Lacks.{terms_depth};
ghost use Rattle.fc_spec.specs.requests.ValidRequests.{IsSearchable, IsValidRequest};
ghost use Rattle.fc_spec.specs.scripts.JsonValues.{HasAscendingKeys, HasNumbers};
ghost use Rattle.fc_refine.specs.CountableRanges.{AreCountable};
ghost use Rattle.fc_request.specs.RequestView.{IsRoot, request_view};

use fc_base::Schema;
use fc_reading::valid_requests_are_countable;
use fc_request::Request;
use fc_spec::{texts_are_json, valid_requests_have_few_rounds};
use serde_json::Value;
use std::alloc::Global;
use std::sync::Arc;
use std::test::Fail;

fn json_of(alloc: Global, text: &str) -> Result<Value, Fail>
    ensures { IfOk result (λ json. HasNumbers (view json) × HasAscendingKeys (view json)) }
{
    texts_are_json();
    Ok(Value::from_slice(alloc, text.as_bytes())?)
}

pub(super) fn schema_of(alloc: Global, text: &str) -> Result<Arc<Schema>, Fail> {
    Ok(Arc::new(alloc, Schema::read(alloc, &json_of(alloc, text)?)?)?)
}

// A request, with the facts that searches, shards and coordinators want of it.
pub(super) fn request_of(alloc: Global, schema: &Schema, text: &str) -> Result<Request, Fail>
    ensures root { IfOk result (λ request. IsRoot request.root) }
    ensures valid { IfOk result (λ request. IsValidRequest schema.now (request_view request)) }
    ensures searchable { IfOk result (λ request. IsSearchable schema.now (request_view request)) }
    ensures countable { IfOk result (λ request. AreCountable (request_view request).nodes) }
    ensures depth { IfOk result (λ request. terms_depth (request_view request).nodes + 1 < 2 ^ 32) }
{
    valid_requests_are_countable();
    valid_requests_have_few_rounds();
    let json = json_of(alloc, text)?;
    Ok(Request::read(alloc, schema, &json)?)
}
