// Tokens of query texts.
ghost use Rattle.std.specs.Prelude.{◌≡◌};
ghost use Rattle.fc_spec.specs.queries.QueryRow.{is_colon};
ghost use Rattle.fc_query.specs.View.{token_view};

/// A range, as it is written: its two ends, and whether it has them. An end that is absent is a star.
#[derive(Debug, Drop)]
pub(crate) struct WrittenRange {
    pub(crate) low: Option<String>,
    pub(crate) high: Option<String>,
    pub(crate) has_low: bool,
    pub(crate) has_high: bool,
}

/// A value, as it is written.
#[derive(Debug, Drop)]
pub(crate) enum Value {
    Word(String),
    Quoted(String),
    Range(WrittenRange),
    Star,
}

/// A sign in front of a clause.
#[derive(Clone, Copy, Debug, PartialEq, Eq)]
pub(crate) enum Sign {
    Plus,
    Minus,
    Exclamation,
    Negation,
}

/// An operator between clauses.
#[derive(Clone, Copy, Debug, PartialEq, Eq)]
pub(crate) enum Operator {
    And,
    Or,
}

/// A token of a query text.
#[derive(Debug, Drop)]
pub(crate) enum Token {
    Value(Value),
    Sign(Sign),
    Operator(Operator),
    Opening,
    Closing,
    Colon,
}

impl Token {
    /// Whether it is a colon.
    pub(crate) fn is_colon(&self) -> bool
        ensures { result ≡ is_colon (token_view self.now) }
    {
        matches!(self, Token::Colon)
    }
}
