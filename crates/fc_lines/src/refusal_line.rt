// The line of a refused script.
ghost use Rattle.std.specs.Prelude.{◌≡◌, codes, IfOk, false};
ghost use Rattle.serde_json.specs.Data.{string, object, no_members, put};
ghost use Rattle.serde_json.specs.View.{view};
ghost use Rattle.fc_spec.specs.documents.DocFault.{detail_of};
ghost use Rattle.fc_spec.specs.replies.Json.{natural_data};
ghost use Rattle.fc_spec.specs.scripts.Lines as defined;
ghost use Rattle.fc_spec.specs.scripts.ScriptFault.{line_fault_name, line_fault_number};
ghost use Rattle.fc_docs.specs.View.{fault_view};
ghost use Rattle.fc_lines.specs.FaultView.{line_fault_view, script_fault_view};

use crate::fault::{LineFault, ScriptFault};
use fc_base::WantMemory;
use fc_base::json::text_line;
use fc_docs::DocFault;
use serde_json::{Value, json};
use std::alloc::Global;

// The name of a document's fault.
fn detail(fault: DocFault) -> &'static str
    ensures { result.now ≡ detail_of (fault_view fault) }
{
    match fault {
        DocFault::UnknownField => "unknown-field",
        DocFault::WrongType => "wrong-type",
        DocFault::TooManyValues => "too-many-values",
        DocFault::NoId => "no-id",
        DocFault::LongTerm => "long-term",
        DocFault::DeepChildren => "deep-children",
    }
}

// What is said of a bad document on this line.
fn document_json(alloc: Global, line: u32, fault: DocFault) -> Result<Value, WantMemory>
    ensures { IfOk result (λ json. view json
        ≡ object (put (codes "detail") (string (detail_of (fault_view fault)))
        (put (codes "error") (string (codes "bad-document"))
        (put (codes "line") (natural_data line)
        (put (codes "number") (natural_data 6) no_members))))) }
{
    let detail = detail(fault);
    Ok(json!(in alloc; {"detail": detail, "error": "bad-document", "line": line, "number": 6_u32})?)
}

// What is said of a fault without a detail.
fn plain_json(alloc: Global, line: u32, fault: LineFault) -> Result<Value, WantMemory>
    ensures { IfOk result (λ json. view json
        ≡ object (put (codes "error") (string (line_fault_name (line_fault_view fault)))
        (put (codes "line") (natural_data line)
        (put (codes "number") (natural_data (line_fault_number (line_fault_view fault))) no_members)))) }
{
    let name = fault.name();
    let number = fault.number();
    Ok(json!(in alloc; {"error": name, "line": line, "number": number})?)
}

// What the line of a refused script says.
fn fault_json(alloc: Global, fault: ScriptFault) -> Result<Value, WantMemory>
    ensures { IfOk result (λ json. view json
        ≡ object (defined.put_detail (line_fault_view fault.fault)
        (put (codes "error") (string (line_fault_name (line_fault_view fault.fault)))
        (put (codes "line") (natural_data fault.line)
        (put (codes "number") (natural_data (line_fault_number (line_fault_view fault.fault))) no_members))))) }
{
    match fault.fault {
        LineFault::BadDocument(document) => document_json(alloc, fault.line, document),
        plain => plain_json(alloc, fault.line, plain),
    }
}

/// The one line that is written of a script with this fault, with its LF: its name and number, the line, and of a bad
/// document the detail.
pub fn fault_line(alloc: Global, fault: &ScriptFault) -> Result<Vec<u8>, WantMemory>
    ensures { IfOk result (λ line. line.items ≡ defined.fault_line (script_fault_view fault.now)) }
{
    let json = fault_json(alloc, *fault)?;
    text_line(alloc, &json)
}
