// The filters of a request, and its limit.
ghost use Rattle.std.specs.Prelude.{◌≡◌, [], map, option_map};
ghost use Rattle.serde_json.specs.View.{view, items_view};
ghost use Rattle.fc_spec.specs.requests.RequestReading as request;
ghost use Rattle.fc_spec.specs.requests.RequestWalk.{each_item, said_or};
ghost use Rattle.fc_base.specs.Answers.{Answers};
ghost use Rattle.fc_query.specs.FilterView.{filter_view};
ghost use Rattle.fc_facet.specs.FaultView.{fault_view};

use fc_base::{Refusal, Schema};
use fc_facet::QFault;
use fc_query::{Filter, read_filter};
use serde_json::Value;
use std::alloc::Global;

fn filter_in(alloc: Global, schema: &Schema, json: &Value) -> Result<Filter, Refusal<QFault>>
    ensures { Answers filter_view fault_view result (request.filter_read schema.now (view json.now)) }
{
    match read_filter(alloc, schema, json) {
        Ok(filter) => Ok(filter),
        Err(Refusal::Memory) => Err(Refusal::Memory),
        Err(Refusal::Fault(fault)) => Err(Refusal::Fault(QFault::from(fault))),
    }
}

// Those of a list, one after another.
fn filters_of(
    alloc: Global,
    schema: &Schema,
    list: &[Value],
) -> Result<Vec<Filter>, Refusal<QFault>>
    ensures { Answers (λ filters. map filter_view filters.items) fault_view result
        (each_item (request.filter_read schema.now) (items_view list.now)) }
{
    let mut filters = Vec::new(alloc);
    for json in list {
        let filter = filter_in(alloc, schema, json)?;
        filters.push(filter)?;
    }
    Ok(filters)
}

/// A filter or a list of filters; none where none is named.
pub fn filters_in(
    alloc: Global,
    schema: &Schema,
    json: Option<&Value>,
) -> Result<Vec<Filter>, Refusal<QFault>>
    ensures { Answers (λ filters. map filter_view filters.items) fault_view result
        (said_or (request.filters_in schema.now) [] (option_map (λ json. view json.now) json.entry)) }
{
    match json {
        None => Ok(Vec::new(alloc)),
        Some(Value::Array(list)) => filters_of(alloc, schema, list),
        Some(json) => Ok(vec![in alloc; filter_in(alloc, schema, json)?]?),
    }
}

/// A limit is the whole number 0, since no documents are asked for; it may be absent.
pub fn zero_in(json: Option<&Value>) -> Result<(), Refusal<QFault>>
    ensures { Answers (λ _. tt) fault_view result
        (said_or request.zero_in tt (option_map (λ json. view json.now) json.entry)) }
{
    let Some(json) = json else {
        return Ok(());
    };
    if json.as_u64() != Some(0) {
        return Err(Refusal::Fault(QFault::BadParameter));
    }
    Ok(())
}
