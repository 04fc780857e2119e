// Faults that trees can have.
ghost use Rattle.std.specs.Prelude.{◌≡◌, option_map};
ghost use Rattle.fc_spec.specs.queries.QueryMeaning as meaning;
ghost use Rattle.fc_query.specs.TreeView.{atom_view, group_view};

use crate::tokens::Operator;
use crate::trees::{Atom, Clause};
use fc_base::Schema;

fn has_and(clauses: &[Clause]) -> bool
    ensures { result ≡ meaning.has_and (group_view clauses.now) }
{
    for clause in clauses {
        if clause.operator == Some(Operator::And) {
            return true;
        }
    }
    false
}

fn has_or(clauses: &[Clause]) -> bool
    ensures { result ≡ meaning.has_or (group_view clauses.now) }
{
    for clause in clauses {
        if clause.operator == Some(Operator::Or) {
            return true;
        }
    }
    false
}

fn has_both(clauses: &[Clause]) -> bool
    ensures { result ≡ meaning.has_both (group_view clauses.now) }
{
    has_and(clauses) && has_or(clauses)
}

#[cycle(mixing)]
fn atom_mixes(atom: &Atom) -> bool
    ensures { result ≡ meaning.atom_mixes (atom_view atom.now) }
{
    match atom {
        Atom::Nested(_, clauses) => has_both(clauses) || mixes_inside(clauses),
        _ => false,
    }
}

#[cycle(mixing)]
fn mixes_inside(clauses: &[Clause]) -> bool
    ensures { result ≡ meaning.mixes_inside (group_view clauses.now) }
{
    for clause in clauses {
        if atom_mixes(&clause.atom) {
            return true;
        }
    }
    false
}

/// Whether AND and OR stand in one group somewhere.
pub(crate) fn mixes(clauses: &[Clause]) -> bool
    ensures { result ≡ meaning.mixes (group_view clauses.now) }
{
    has_both(clauses) || mixes_inside(clauses)
}

fn is_unknown(schema: &Schema, name: Option<&str>) -> bool
    ensures { result ≡ meaning.is_unknown schema.now (option_map (λ n. n.now) name.entry) }
{
    match name {
        Some(name) => schema.find(name.as_bytes()).is_none(),
        None => false,
    }
}

#[cycle(naming)]
fn atom_has_unknown(schema: &Schema, atom: &Atom) -> bool
    ensures { result ≡ meaning.atom_has_unknown schema.now (atom_view atom.now) }
{
    match atom {
        Atom::Plain(name, _) => is_unknown(schema, *name),
        Atom::Everything => false,
        Atom::Nested(name, clauses) => is_unknown(schema, *name) || has_unknown(schema, clauses),
    }
}

/// Whether a name is no field's somewhere.
#[cycle(naming)]
pub(crate) fn has_unknown(schema: &Schema, clauses: &[Clause]) -> bool
    ensures { result ≡ meaning.has_unknown schema.now (group_view clauses.now) }
{
    for clause in clauses {
        if atom_has_unknown(schema, &clause.atom) {
            return true;
        }
    }
    false
}
