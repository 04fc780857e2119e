// The line of a search.
ghost use Rattle.std.specs.Prelude.{◌≡◌, IfOk};
ghost use Rattle.serde_json.specs.View.{view};
ghost use Rattle.fc_spec.specs.requests.RequestReading.{request_of};
ghost use Rattle.fc_spec.specs.scripts.Script.{asks};
ghost use Rattle.fc_request.specs.RequestView.{IsRoot};
ghost use Rattle.fc_lines.specs.LineView.{asked_view, line_view};
ghost use Rattle.fc_lines.specs.ValidLines.{HasRoot};

use super::Line;
use fc_base::{Name, Refusal, Schema, WantMemory};
use fc_request::{Request, RequestFault};
use serde_json::Value;
use std::alloc::Global;

// What a search asks, or the fault of that.
fn asked_of(
    alloc: Global,
    schema: &Schema,
    json: &Value,
) -> Result<Result<Request, RequestFault>, WantMemory>
    ensures answer { IfOk result (λ asked. asked_view asked ≡ request_of schema.now (view json.now)) }
    ensures root { IfOk result (λ asked. IfOk asked (λ request. IsRoot request.root)) }
{
    match Request::read(alloc, schema, json) {
        Ok(request) => Ok(Ok(request)),
        Err(Refusal::Memory) => Err(WantMemory),
        Err(Refusal::Fault(fault)) => Ok(Err(fault)),
    }
}

/// A session's search, with its request read.
pub(crate) fn asking(
    alloc: Global,
    schema: &Schema,
    session: &str,
    request: &Value,
) -> Result<Line, WantMemory>
    ensures line { IfOk result (λ line. line_view line
        ≡ asks session.now (request_of schema.now (view request.now))) }
    ensures root { IfOk result HasRoot }
{
    let asked = asked_of(alloc, schema, request)?;
    let session = Name::new(alloc, session)?;
    Ok(Line::Search(session, Box::new(alloc, asked)?))
}
