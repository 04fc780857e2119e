// The query of a tree.
ghost use Rattle.std.specs.Prelude.{◌≡◌, ◌<◌, IfSome, length, option_map, string_bytes};
ghost use Rattle.fc_spec.specs.queries.QueryMeaning as meaning;
ghost use Rattle.fc_base.specs.View.{field_type_view, val_view};
ghost use Rattle.fc_query.specs.QueryView.{bound_view, clauses_view, is_one_optional_of, need_view, query_view};
ghost use Rattle.fc_query.specs.Takes.{Means};
ghost use Rattle.fc_query.specs.TreeView.{atom_view, group_view};
ghost use Rattle.fc_query.specs.View.{operator_view, range_view, sign_view, value_view};

use crate::query::{Bound, Need, Query};
use crate::tokens::{Operator, Sign, Value, WrittenRange};
use crate::trees::{Atom, Clause};
use crate::{QueryFault, query};
use fc_base::{FieldId, FieldType, Name, Refusal, Schema, Val, long_of};
use fc_dates::canonical;
use std::alloc::Global;

fn text_value(alloc: Global, kind: FieldType, text: &str) -> Result<Val, Refusal<QueryFault>>
    ensures { Means val_view result (meaning.written_value (field_type_view kind) text.now) }
{
    match kind {
        FieldType::Str | FieldType::Strs => Ok(Val::Text(Name::new(alloc, text)?)),
        FieldType::Long | FieldType::Longs => match long_of(text) {
            Some(number) => Ok(Val::Long(number)),
            None => Err(Refusal::Fault(QueryFault::BadValue)),
        },
        FieldType::Date | FieldType::Dates => match canonical(text) {
            Some(date) => Ok(Val::Text(Name::new(alloc, date.text())?)),
            None => Err(Refusal::Fault(QueryFault::BadValue)),
        },
    }
}

fn written_bound(
    alloc: Global,
    kind: FieldType,
    has_end: bool,
    end: &Option<String>,
) -> Result<Bound, Refusal<QueryFault>>
    ensures { Means bound_view result (meaning.written_bound (field_type_view kind) has_end (option_map string_bytes end.now)) }
{
    match end {
        None => Ok(Bound::Unbounded),
        Some(text) => {
            let value = text_value(alloc, kind, text.as_str())?;
            Ok(if has_end {
                Bound::Including(value)
            } else {
                Bound::Excluding(value)
            })
        }
    }
}

fn range_query(
    alloc: Global,
    field: FieldId,
    kind: FieldType,
    range: &WrittenRange,
) -> Result<Query, Refusal<QueryFault>>
    ensures { Means query_view result (meaning.range_query field.0 (field_type_view kind) (range_view range.now)) }
{
    if range.low.is_none() && range.high.is_none() {
        return Ok(Query::Has(field));
    }
    let low = written_bound(alloc, kind, range.has_low, &range.low)?;
    let high = written_bound(alloc, kind, range.has_high, &range.high)?;
    Ok(Query::Between(field, low, high))
}

fn value_query(
    alloc: Global,
    field: FieldId,
    kind: FieldType,
    value: &Value,
) -> Result<Query, Refusal<QueryFault>>
    ensures { Means query_view result (meaning.value_query field.0 (field_type_view kind) (value_view value.now)) }
{
    match value {
        Value::Word(text) | Value::Quoted(text) => {
            let value = text_value(alloc, kind, text.as_str())?;
            Ok(Query::Is(field, value))
        }
        Value::Range(range) => range_query(alloc, field, kind, range),
        Value::Star => Ok(Query::Has(field)),
    }
}

// The field of a name; without a name that of the group around it.
fn field_under(schema: &Schema, around: Option<FieldId>, name: Option<&str>) -> Option<FieldId>
    requires { IfSome around (λ id. id.0 < length schema.now.fields) }
    ensures field { option_map (λ id. id.0) result
        ≡ meaning.field_under schema.now (option_map (λ id. id.0) around) (option_map (λ n. n.now) name.entry) }
    ensures below { IfSome result (λ id. id.0 < length schema.now.fields) }
{
    match name {
        Some(name) => schema.find(name.as_bytes()),
        None => around,
    }
}

// A value in the field of its name, or in that of the group around it.
fn plain_query(
    alloc: Global,
    schema: &Schema,
    field: Option<FieldId>,
    value: &Value,
) -> Result<Query, Refusal<QueryFault>>
    requires { IfSome field (λ id. id.0 < length schema.now.fields) }
    ensures { Means query_view result (meaning.plain_query schema.now (option_map (λ id. id.0) field) (value_view value.now)) }
{
    match field {
        Some(field) => value_query(alloc, field, schema.field_type(field), value),
        None => Err(Refusal::Fault(QueryFault::BadValue)),
    }
}

fn need_of(sign: Option<Sign>, before: Option<Operator>, behind: Option<Operator>) -> Need
    ensures { need_view result ≡ meaning.need_of (option_map sign_view sign) (option_map operator_view before) (option_map operator_view behind) }
{
    match sign {
        Some(Sign::Plus) => Need::Must,
        Some(_) => Need::MustNot,
        None if before == Some(Operator::And) || behind == Some(Operator::And) => Need::Must,
        None => Need::May,
    }
}

// The operator before the first of these.
fn next_operator(clauses: &[Clause]) -> Option<Operator>
    ensures { option_map operator_view result ≡ meaning.next_operator (group_view clauses.now) }
{
    match clauses {
        [first, ..] => first.operator,
        [] => None,
    }
}

fn is_one_optional(clauses: &[query::Clause]) -> bool
    ensures { result ≡ is_one_optional_of (clauses_view clauses.now) }
{
    clauses.len() == 1 && clauses[0].need == Need::May
}

// One optional clause is its query; any others are a group.
fn grouped(clauses: Vec<query::Clause>) -> Query
    ensures { query_view result ≡ meaning.grouped (clauses_view clauses.items) }
{
    let mut clauses = clauses;
    if is_one_optional(&clauses) {
        if let Some(clause) = clauses.pop() {
            return clause.query;
        }
    }
    Query::Group(clauses)
}

#[cycle(building)]
fn atom_query(
    alloc: Global,
    schema: &Schema,
    around: Option<FieldId>,
    atom: &Atom,
) -> Result<Query, Refusal<QueryFault>>
    requires { IfSome around (λ id. id.0 < length schema.now.fields) }
    ensures { Means query_view result (meaning.atom_query schema.now (option_map (λ id. id.0) around) (atom_view atom.now)) }
{
    match atom {
        Atom::Plain(name, value) => {
            plain_query(alloc, schema, field_under(schema, around, *name), value)
        }
        Atom::Everything => Ok(Query::All),
        Atom::Nested(name, clauses) => {
            let field = field_under(schema, around, *name);
            let clauses = clauses_query(alloc, schema, field, clauses)?;
            Ok(grouped(clauses))
        }
    }
}

#[cycle(building)]
fn clauses_query(
    alloc: Global,
    schema: &Schema,
    around: Option<FieldId>,
    clauses: &[Clause],
) -> Result<Vec<query::Clause>, Refusal<QueryFault>>
    requires { IfSome around (λ id. id.0 < length schema.now.fields) }
    ensures { Means (λ cs. clauses_view cs.items) result (meaning.clauses_query schema.now (option_map (λ id. id.0) around) (group_view clauses.now)) }
{
    let mut queries = Vec::new(alloc);
    for (i, clause) in clauses.iter().enumerate() {
        let need = need_of(
            clause.sign,
            clause.operator,
            next_operator(&clauses[i + 1..]),
        );
        let query = atom_query(alloc, schema, around, &clause.atom)?;
        queries.push(query::Clause { need, query })?;
    }
    Ok(queries)
}

/// The query of a whole text's tree.
pub(crate) fn group_query(
    alloc: Global,
    schema: &Schema,
    clauses: &[Clause],
) -> Result<Query, Refusal<QueryFault>>
    ensures { Means query_view result (meaning.group_query schema.now (group_view clauses.now)) }
{
    let clauses = clauses_query(alloc, schema, None, clauses)?;
    Ok(grouped(clauses))
}
