// A document made of the values that were given, each with its field.
ghost use Rattle.std.specs.Prelude.{◌≡◌, ◌++◌, ◌<◌, ◌≤◌, All, IfNone, IfOk, IfSome, OnOk, length, map};
ghost use Rattle.fc_base.specs.View.{val_view};
ghost use Rattle.fc_spec.specs.documents.Document.{values_of};
ghost use Rattle.fc_docs.specs.Direct.{document_given, given_view, giving};
ghost use Rattle.fc_docs.specs.Runs.{AreGiven, Rise};

use super::Document;
use super::counts::Counts;
use fc_base::{FieldId, Val, WantMemory};
use std::alloc::Global;

/// Gives the values to a field.
pub(crate) fn give(
    given: &mut Vec<(FieldId, Val)>,
    field: FieldId,
    values: Vec<Val>,
) -> Result<(), WantMemory>
    ensures { OnOk result (given_view given.new.items
        ≡ given_view given.old.items ++ giving field.0 (map val_view values.items)) }
{
    for val in values {
        given.push((field, val))?;
    }
    Ok(())
}

/// The document of so many fields that has these values, where it has an `id`.
pub(crate) fn document_given(
    alloc: Global,
    fields: u16,
    given: Vec<(FieldId, Val)>,
) -> Result<Option<Document>, WantMemory>
    requires { All (λ p. p.0 < fields) (given_view given.items) }
    ensures document { IfOk result (λ found. IfSome found (λ document.
        document ≡ document_given fields (given_view given.items))) }
    ensures id { IfOk result (λ found. IfSome found (λ document.
        0 < length (values_of document 0))) }
    ensures none { IfOk result (λ found. IfNone found
        (length (values_of (document_given fields (given_view given.items)) 0) ≡ 0)) }
{
    let mut pairs = given;
    pairs.sort_unstable();
    pairs.dedup();
    if pairs.is_empty() || pairs[0].0 != FieldId(0) {
        return Ok(None);
    }
    let (counts, values) = packed(alloc, pairs)?;
    Ok(Some(Document::of(fields, counts, values)))
}

// Each field that has values, with how many, and all the values, one field behind the other.
fn packed(alloc: Global, pairs: Vec<(FieldId, Val)>) -> Result<(Counts, Vec<Val>), WantMemory>
    requires { Rise 0 (given_view pairs.items) }
    ensures { IfOk result (λ both. AreGiven (given_view pairs.items) both.0 both.1.items) }
{
    let room = fields_in(&pairs);
    let mut counts = Counts::none();
    let mut values = Vec::with_capacity(alloc, pairs.len())?;
    for (field, val) in pairs {
        counts.count(alloc, room, field)?;
        values.push(val)?;
    }
    Ok((counts, values))
}

// How many fields there are among pairs that stand in the order of the fields.
fn fields_in(pairs: &[(FieldId, Val)]) -> usize
    ensures { result ≤ length pairs.now }
{
    let mut count = 0;
    let mut last = None;
    for (field, _) in pairs {
        if last != Some(*field) {
            count += 1;
            last = Some(*field);
        }
    }
    count
}
