// Query texts.
ghost use Rattle.std.specs.Prelude.{IfOk};
ghost use Rattle.fc_spec.specs.queries.TreeReading as reading;
ghost use Rattle.fc_spec.specs.queries.QueryMeaning as meaning;
ghost use Rattle.fc_spec.specs.queries.QueryTexts.{query_of};
ghost use Rattle.fc_spec.specs.queries.ValidQueries.{IsValidQuery};
ghost use Rattle.fc_base.specs.Answers.{Answers};
ghost use Rattle.fc_query.specs.QueryView.{query_fault_view, query_view};
ghost use Rattle.fc_query.specs.Takes.{Gives};
ghost use Rattle.fc_query.specs.TreeView.{group_view, row_of};

use crate::descent::group;
use crate::faults::{has_unknown, mixes};
use crate::lex::tokens;
use crate::meaning::group_query;
use crate::tokens::Token;
use crate::trees::Clause;
use crate::{Query, QueryFault};
use fc_base::{Refusal, Schema};
use std::alloc::Global;

// The most parentheses that are open at once.
const DEPTH_LIMIT: u8 = 64;

fn tree_of<'a>(alloc: Global, tokens: &'a [Token]) -> Result<Vec<Clause<'a>>, Refusal<QueryFault>>
    ensures { Gives (λ clauses. group_view clauses.items) result (reading.tree_of (row_of tokens.now)) }
{
    let (clauses, left) = group(alloc, tokens, DEPTH_LIMIT, false)?;
    if !left.is_empty() {
        return Err(Refusal::Fault(QueryFault::Syntax));
    }
    Ok(clauses)
}

fn tree_query(
    alloc: Global,
    schema: &Schema,
    clauses: &[Clause],
) -> Result<Query, Refusal<QueryFault>>
    ensures { Answers query_view query_fault_view result
        (meaning.tree_query schema.now (group_view clauses.now)) }
{
    if mixes(clauses) {
        return Err(Refusal::Fault(QueryFault::MixedOperators));
    }
    if has_unknown(schema, clauses) {
        return Err(Refusal::Fault(QueryFault::UnknownField));
    }
    group_query(alloc, schema, clauses)
}

/// Reads a query text. Its fault is the first of the four kinds that stands anywhere in the text:
/// syntax, then AND and OR in one group, then a name that is no field's, then a value that is none of
/// its field's. What is read is valid for the schema. (Guide: Standard Query Parser)
pub fn parse(alloc: Global, schema: &Schema, text: &str) -> Result<Query, Refusal<QueryFault>>
    ensures answer { Answers query_view query_fault_view result (query_of schema.now text.now) }
    ensures valid { IfOk result (λ query. IsValidQuery schema.now (query_view query)) }
{
    let tokens = tokens(alloc, text)?;
    let tree = tree_of(alloc, &tokens)?;
    tree_query(alloc, schema, &tree)
}
