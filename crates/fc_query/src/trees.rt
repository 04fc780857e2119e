// Concrete syntax trees. Their names and values are those of the tokens.
use crate::tokens::{Operator, Sign, Value};

/// A clause, perhaps behind an operator, perhaps with a sign.
#[cycle(tree)]
#[derive(Debug, Drop)]
pub(crate) struct Clause<'a> {
    pub(crate) operator: Option<Operator>,
    pub(crate) sign: Option<Sign>,
    pub(crate) atom: Atom<'a>,
}

/// A value, perhaps under a field's name; `*:*`; a group in parentheses, perhaps under a field's name.
#[cycle(tree)]
#[derive(Debug, Drop)]
pub(crate) enum Atom<'a> {
    Plain(Option<&'a str>, &'a Value),
    Everything,
    Nested(Option<&'a str>, Vec<Clause<'a>>),
}
