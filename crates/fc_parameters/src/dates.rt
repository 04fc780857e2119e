// The parameters of a range facet over dates, and its edges.
ghost use Rattle.std.specs.Prelude.{◌≡◌, List, Result};
ghost use Rattle.serde_json.specs.View.{view, members_view};
ghost use Rattle.std.specs.Prelude.{map};
ghost use Rattle.fc_spec.specs.documents.Val.{Text};
ghost use Rattle.fc_spec.specs.dates.Adding.{added};
ghost use Rattle.fc_spec.specs.requests.DateGaps as gaps;
ghost use Rattle.fc_spec.specs.requests.DateRangeReading as reading;
ghost use Rattle.fc_spec.specs.requests.RequestFault as faults;
ghost use Rattle.fc_base.specs.Answers.{Answers};
ghost use Rattle.fc_dates.specs.DateView.{date_view};
ghost use Rattle.fc_dates.specs.GapView.{gap_view};
ghost use Rattle.fc_facet.specs.FaultView.{fault_view};
ghost use Rattle.fc_facet.specs.KindView.{date_range_view, any_range_view};
ghost use Rattle.fc_parameters.specs.DateEdges.{goes_on};

use crate::fields::{field_in, holds_dates};
use crate::range::{INCLUDE, OTHER, asks_beside, asks_for, asks_for_lower, range_in, words_in};
use crate::words::{optional_truth, required, text_in};
use fc_base::{FieldId, Name, Refusal, Schema};
use fc_dates::{DateText, Gap, add_gap, canonical, read_gap};
use fc_facet::{AnyRange, DateRange, QFault};
use serde_json::{Map, Value};
use std::alloc::Global;

fn date_in(json: &Value) -> Result<DateText, Refusal<QFault>>
    ensures { Answers date_view fault_view result (reading.date_in (view json.now)) }
{
    let text = text_in(json)?;
    match canonical(text) {
        Some(date) => Ok(date),
        None => Err(Refusal::Fault(QFault::BadParameter)),
    }
}

fn gap_in(json: &Value) -> Result<Gap, Refusal<QFault>>
    ensures { Answers gap_view fault_view result (reading.gap_in (view json.now)) }
{
    let text = text_in(json)?;
    match read_gap(text) {
        Some(gap) => Ok(gap),
        None => Err(Refusal::Fault(QFault::BadParameter)),
    }
}

fn is_before(date: &DateText, other: &DateText) -> bool
    ensures { result ≡ gaps.is_before (date_view date.now) (date_view other.now) }
{
    date.text().cmp(other.text()).is_lt()
}

// What stands behind a low end: another one, or the last high end.
enum Edge {
    Inner(DateText),
    Last(DateText),
}

// Of a gap that starts before the end of the range; none where the high end is past the year 9999.
fn edge_behind(low: &DateText, gap: &Gap, end: &DateText, hardend: bool) -> Option<Edge>
    ensures { (go_on : Text → Result (List Text) faults.QFault)
        → reading.edges_behind go_on (date_view end.now) hardend (added (date_view low.now) (gap_view gap.now)) ≡ goes_on go_on result }
{
    let Some(next) = add_gap(low, gap) else {
        return if hardend {
            Some(Edge::Last(*end))
        } else {
            None
        };
    };
    if is_before(&next, end) {
        return Some(Edge::Inner(next));
    }
    if hardend {
        return Some(Edge::Last(*end));
    }
    Some(Edge::Last(next))
}

// The edges from a low end on that is before the end of the range, of so many gaps at most.
fn edges_from(
    alloc: Global,
    most: u32,
    gap: &Gap,
    end: &DateText,
    hardend: bool,
    start: &DateText,
) -> Result<Vec<Name>, Refusal<QFault>>
    ensures { Answers (λ edges. edges.items) fault_view result
        (reading.edges_from most (gap_view gap.now) (date_view end.now) hardend (date_view start.now)) }
{
    let mut edges = Vec::new(alloc);
    edges.push(Name::new(alloc, start.text())?)?;
    let mut low = *start;
    for count in 0..most {
        let Some(behind) = edge_behind(&low, gap, end, hardend) else {
            return Err(Refusal::Fault(QFault::BadParameter));
        };
        match behind {
            Edge::Inner(edge) => {
                edges.push(Name::new(alloc, edge.text())?)?;
                low = edge;
            }
            Edge::Last(edge) => {
                edges.push(Name::new(alloc, edge.text())?)?;
                return Ok(edges);
            }
        }
    }
    Err(Refusal::Fault(QFault::TooLarge))
}

fn edges_of(
    alloc: Global,
    gap: &Gap,
    start: &DateText,
    end: &DateText,
    hardend: bool,
) -> Result<Vec<Name>, Refusal<QFault>>
    ensures { Answers (λ edges. edges.items) fault_view result
        (reading.edges_of (gap_view gap.now) (date_view start.now) (date_view end.now) hardend) }
{
    if is_before(start, end) {
        return edges_from(alloc, 10_000, gap, end, hardend, start);
    }
    let mut edges = Vec::new(alloc);
    edges.push(Name::new(alloc, start.text())?)?;
    Ok(edges)
}

fn edges_in(alloc: Global, members: &Map<String, Value>) -> Result<Vec<Name>, Refusal<QFault>>
    ensures { Answers (λ edges. edges.items) fault_view result (reading.edges_in (members_view members.now.entries)) }
{
    let first = required(members, "start")?;
    let start = date_in(first)?;
    let last = required(members, "end")?;
    let end = date_in(last)?;
    if is_before(&end, &start) {
        return Err(Refusal::Fault(QFault::BadParameter));
    }
    let step = required(members, "gap")?;
    let gap = gap_in(step)?;
    let hardend = optional_truth(members, "hardend")?;
    edges_of(alloc, &gap, &start, &end, hardend)
}

fn with_words(field: FieldId, edges: Vec<Name>, other: &[&str], include: &[&str]) -> DateRange
    ensures { date_range_view result ≡ reading.date_range_of field.0 edges.items
        (map (λ text. text.now) other.now) (map (λ text. text.now) include.now) }
{
    DateRange {
        field,
        edges,
        before: asks_beside(other, "before"),
        after: asks_beside(other, "after"),
        between: asks_beside(other, "between"),
        lower: asks_for_lower(include),
        upper: asks_for(include, "upper"),
        edge: asks_for(include, "edge"),
        outer: asks_for(include, "outer"),
    }
}

fn date_range_in(
    alloc: Global,
    field: FieldId,
    members: &Map<String, Value>,
) -> Result<DateRange, Refusal<QFault>>
    ensures { Answers date_range_view fault_view result
        (reading.date_range_parts field.0 (members_view members.now.entries)) }
{
    let edges = edges_in(alloc, members)?;
    let other = words_in(alloc, members, "other", &OTHER)?;
    let include = words_in(alloc, members, "include", &INCLUDE)?;
    Ok(with_words(field, edges, other.as_slice(), include.as_slice()))
}

/// What a range facet says, over a field of integers or of dates, in the order of the guide's parameters. (Guide: JSON Facet
/// API, "Range Facet")
pub fn any_range_in(
    alloc: Global,
    schema: &Schema,
    members: &Map<String, Value>,
) -> Result<AnyRange, Refusal<QFault>>
    ensures { Answers any_range_view fault_view result
        (reading.range_part schema.now (members_view members.now.entries)) }
{
    let named = required(members, "field")?;
    let field = field_in(schema, named)?;
    if holds_dates(schema, field) {
        let range = date_range_in(alloc, field, members)?;
        return Ok(AnyRange::Dates(range));
    }
    let range = range_in(alloc, schema, members)?;
    Ok(AnyRange::Integers(range))
}
