// Reading a tree from a row of tokens.
ghost use Rattle.std.specs.Prelude.{◌≡◌, ◌≤◌, None, Some, option_map, map};
ghost use Rattle.fc_spec.specs.queries.QueryTrees as definition;
ghost use Rattle.fc_spec.specs.queries.TreeReading as reading;
ghost use Rattle.fc_query.specs.Takes.{Gives};
ghost use Rattle.fc_query.specs.TreeView.{behind_operator, is_end_of, atom_view, clause_view, group_view, row_of};
ghost use Rattle.fc_query.specs.View.{operator_view, sign_view, value_view};

use crate::QueryFault;
use crate::tokens::{Operator, Sign, Token, Value};
use crate::trees::{Atom, Clause};
use fc_base::Refusal;
use std::alloc::Global;

fn sign_of<'a>(tokens: &'a [Token]) -> (Option<Sign>, &'a [Token])
    ensures { (option_map sign_view result.0, row_of result.1.now) ≡ reading.sign_at (row_of tokens.now) }
{
    match tokens {
        [Token::Sign(sign), left @ ..] => (Some(*sign), left),
        _ => (None, tokens),
    }
}

fn operator_of<'a>(tokens: &'a [Token]) -> (Option<Operator>, &'a [Token])
    ensures { (option_map operator_view result.0, row_of result.1.now) ≡ reading.operator_at (row_of tokens.now) }
{
    match tokens {
        [Token::Operator(operator), left @ ..] => (Some(*operator), left),
        _ => (None, tokens),
    }
}

// Behind a star and a colon.
#[tactic(auto, unfolding(fc_spec::specs::queries::TreeReading::everything_at))]
fn everything<'a>(tokens: &'a [Token]) -> Result<(Atom<'a>, &'a [Token]), Refusal<QueryFault>>
    ensures { Gives (λ x. (atom_view x.0, row_of x.1.now)) result (reading.everything_at (row_of tokens.now)) }
{
    match tokens {
        [Token::Value(Value::Star), left @ ..] => Ok((Atom::Everything, left)),
        _ => Err(Refusal::Fault(QueryFault::Syntax)),
    }
}

fn past_closing<'a>(tokens: &'a [Token]) -> Option<&'a [Token]>
    ensures { option_map (λ left. row_of left.now) result ≡ reading.past_closing (row_of tokens.now) }
{
    match tokens {
        [Token::Closing, left @ ..] => Some(left),
        _ => None,
    }
}

fn nested_atom<'a>(name: Option<&'a str>, clauses: Vec<Clause<'a>>) -> Atom<'a>
    ensures { atom_view result ≡ definition.nested (option_map (λ n. n.now) name.entry) (group_view clauses.entry.items) }
{
    Atom::Nested(name, clauses)
}

// Behind `(`, and in it at most `depth` parentheses open at once, this one counted.
#[cycle(descent)]
#[tactic(auto, unfolding(fc_spec::specs::queries::TreeReading::nested_at))]
fn nested<'a>(
    alloc: Global,
    name: Option<&'a str>,
    tokens: &'a [Token],
    depth: u8,
    in_field: bool,
) -> Result<(Atom<'a>, &'a [Token]), Refusal<QueryFault>>
    ensures { Gives (λ x. (atom_view x.0, row_of x.1.now)) result
        (reading.nested_at (reading.deeper_than depth) (option_map (λ n. n.now) name.entry) in_field (row_of tokens.now)) }
{
    if depth == 0 {
        return Err(Refusal::Fault(QueryFault::Syntax));
    }
    let (clauses, left) = group(alloc, tokens, depth - 1, in_field)?;
    match past_closing(left) {
        Some(left) => Ok((nested_atom(name, clauses), left)),
        None => Err(Refusal::Fault(QueryFault::Syntax)),
    }
}

// Behind a name and its colon.
#[cycle(descent)]
#[tactic(auto, unfolding(fc_spec::specs::queries::TreeReading::named_at))]
fn named<'a>(
    alloc: Global,
    name: &'a str,
    tokens: &'a [Token],
    depth: u8,
) -> Result<(Atom<'a>, &'a [Token]), Refusal<QueryFault>>
    ensures { Gives (λ x. (atom_view x.0, row_of x.1.now)) result
        (reading.named_at (reading.deeper_than depth) name.now (row_of tokens.now)) }
{
    match tokens {
        [Token::Value(value), left @ ..] => Ok((Atom::Plain(Some(name), value), left)),
        [Token::Opening, left @ ..] => nested(alloc, Some(name), left, depth, true),
        _ => Err(Refusal::Fault(QueryFault::Syntax)),
    }
}

// Behind a value and a colon.
#[cycle(descent)]
#[tactic(auto, unfolding(fc_spec::specs::queries::TreeReading::behind_colon_at))]
fn behind_colon<'a>(
    alloc: Global,
    value: &'a Value,
    tokens: &'a [Token],
    depth: u8,
) -> Result<(Atom<'a>, &'a [Token]), Refusal<QueryFault>>
    ensures { Gives (λ x. (atom_view x.0, row_of x.1.now)) result
        (reading.behind_colon_at (reading.deeper_than depth) (value_view value.now) (row_of tokens.now)) }
{
    match value {
        Value::Word(name) => named(alloc, name.as_str(), tokens, depth),
        Value::Star => everything(tokens),
        _ => Err(Refusal::Fault(QueryFault::Syntax)),
    }
}

#[cycle(descent)]
#[tactic(auto, unfolding(fc_spec::specs::queries::TreeReading::atom_at, fc_spec::specs::queries::TreeReading::value_at))]
fn atom<'a>(
    alloc: Global,
    tokens: &'a [Token],
    depth: u8,
    in_field: bool,
) -> Result<(Atom<'a>, &'a [Token]), Refusal<QueryFault>>
    ensures { Gives (λ x. (atom_view x.0, row_of x.1.now)) result
        (reading.atom_at (reading.deeper_than depth) in_field (row_of tokens.now)) }
{
    match tokens {
        [Token::Value(value), Token::Colon, left @ ..] => behind_colon(alloc, value, left, depth),
        [Token::Value(value), left @ ..] if in_field => Ok((Atom::Plain(None, value), left)),
        [Token::Opening, left @ ..] => nested(alloc, None, left, depth, in_field),
        _ => Err(Refusal::Fault(QueryFault::Syntax)),
    }
}

// Behind its operator.
#[cycle(descent)]
#[tactic(auto, unfolding(fc_spec::specs::queries::TreeReading::clause_at))]
fn clause<'a>(
    alloc: Global,
    operator: Option<Operator>,
    tokens: &'a [Token],
    depth: u8,
    in_field: bool,
) -> Result<(Clause<'a>, &'a [Token]), Refusal<QueryFault>>
    ensures { Gives (λ x. (clause_view x.0, row_of x.1.now)) result
        (behind_operator (option_map operator_view operator) (reading.clause_at (reading.deeper_than depth) in_field (row_of tokens.now))) }
{
    let (sign, left) = sign_of(tokens);
    let (atom, left) = atom(alloc, left, depth, in_field)?;
    let clause = Clause {
        operator,
        sign,
        atom,
    };
    Ok((clause, left))
}

// The end of a group: `)`, or no token.
fn is_end(tokens: &[Token]) -> bool
    ensures { result ≡ is_end_of (row_of tokens.now) }
{
    matches!(tokens, [] | [Token::Closing, ..])
}

/// A group in which at most `depth` parentheses are open at once.
#[cycle(descent)]
pub(crate) fn group<'a>(
    alloc: Global,
    tokens: &'a [Token],
    depth: u8,
    in_field: bool,
) -> Result<(Vec<Clause<'a>>, &'a [Token]), Refusal<QueryFault>>
    ensures { Gives (λ x. (group_view x.0.items, row_of x.1.now)) result
        (reading.group_within depth in_field (row_of tokens.now)) }
{
    let (first, mut left) = clause(alloc, None, tokens, depth, in_field)?;
    let mut clauses = Vec::new(alloc);
    clauses.push(first)?;
    'others: while !is_end(left) {
        let (operator, behind) = operator_of(left);
        let (next, behind) = clause(alloc, operator, behind, depth, in_field)?;
        clauses.push(next)?;
        left = behind;
    }
    Ok((clauses, left))
}
