// The error line of a search whose request has a fault.
ghost use Rattle.std.specs.Prelude.{◌≡◌, codes, IfOk};
ghost use Rattle.serde_json.specs.Data.{string, array, object, no_members, put};
ghost use Rattle.serde_json.specs.View.{view};
ghost use Rattle.fc_spec.specs.replies.Json.{natural_data};
ghost use Rattle.fc_spec.specs.requests.RequestFault.{fault_name, fault_number};
ghost use Rattle.fc_spec.specs.scripts.Lines.{texts_data, error_line as line_of_fault};
ghost use Rattle.fc_facet.specs.FaultView.{fault_view};
ghost use Rattle.fc_request.specs.FaultView.{request_fault_view};

use fc_base::json::text_line;
use fc_base::{Name, WantMemory};
use fc_request::RequestFault;
use serde_json::{Value, json};
use std::alloc::Global;

// The names of facets, in their order.
fn names_json(alloc: Global, names: &[Name]) -> Result<Value, WantMemory>
    ensures { IfOk result (λ json. view json ≡ array (texts_data names.now)) }
{
    let mut texts = Vec::new(alloc);
    for name in names {
        texts.push(Value::try_from_str(alloc, name.text())?)?;
    }
    Ok(Value::Array(texts))
}

// What the error line of a fault says.
fn error_json(alloc: Global, fault: &RequestFault, session: &str) -> Result<Value, WantMemory>
    ensures { IfOk result (λ json. view json
        ≡ object (put (codes "error") (string (fault_name (fault_view fault.now.fault)))
        (put (codes "facet") (array (texts_data fault.now.at.items))
        (put (codes "number") (natural_data (fault_number (fault_view fault.now.fault)))
        (put (codes "session") (string session.now) no_members))))) }
{
    let name = fault.fault.name();
    let names = names_json(alloc, &fault.at)?;
    let number = fault.fault.number();
    Ok(json!(in alloc; {"error": name, "facet": names, "number": number, "session": session})?)
}

/// The error line of a search whose request has a fault.
pub fn error_line(
    alloc: Global,
    fault: &RequestFault,
    session: &Name,
) -> Result<Vec<u8>, WantMemory>
    ensures { IfOk result (λ line. line.items ≡ line_of_fault (request_fault_view fault.now) session.now) }
{
    let json = error_json(alloc, fault, session.text())?;
    text_line(alloc, &json)
}
