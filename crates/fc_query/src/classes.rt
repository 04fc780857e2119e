// Which characters stand where.
ghost use Rattle.std.specs.Prelude.{◌≡◌, codes};
ghost use Rattle.fc_spec.specs.queries.QueryCharacters as definition;
ghost use Rattle.fc_spec.specs.queries.QueryRow.{begins_word};
ghost use Rattle.fc_query.specs.View.{character_view, part_test};

use crate::characters::Character;

fn is_white(c: char) -> bool
    ensures { result ≡ definition.is_white c }
{
    matches!(c, ' ' | '\t' | '\n' | '\r')
}

fn is_special(c: char) -> bool
    ensures { result ≡ definition.is_special c }
{
    matches!(
        c,
        '+' | '-'
            | '!'
            | '('
            | ')'
            | ':'
            | '^'
            | '['
            | ']'
            | '"'
            | '{'
            | '}'
            | '~'
            | '*'
            | '?'
            | '\\'
            | '/'
    )
}

fn ends_an_end(c: char) -> bool
    ensures { result ≡ definition.is_among (codes "[]{}()\"\\*") c }
{
    matches!(c, '[' | ']' | '{' | '}' | '(' | ')' | '"' | '\\' | '*')
}

impl Character {
    /// The character itself, without a backslash.
    pub(crate) fn code(self) -> char
        ensures { result ≡ definition.code (character_view self) }
    {
        match self {
            Character::Bare(c) | Character::Escaped(c) => c,
        }
    }

    /// Whether it stands as it is, not behind a backslash.
    pub(crate) fn is_bare(self) -> bool
        ensures { result ≡ definition.is_bare (character_view self) }
    {
        matches!(self, Character::Bare(_))
    }

    /// Whether it is this character and stands as it is.
    pub(crate) fn is_char(self, c: char) -> bool
        ensures { result ≡ definition.is_char c (character_view self) }
    {
        match self {
            Character::Bare(own) => own == c,
            Character::Escaped(_) => false,
        }
    }

    /// Whether it is white space and stands as it is.
    pub(crate) fn is_blank(self) -> bool
        ensures { result ≡ definition.is_blank (character_view self) }
    {
        match self {
            Character::Bare(c) => is_white(c),
            Character::Escaped(_) => false,
        }
    }

    /// Whether it is a character of words: no white space and no special one, or behind a backslash.
    pub(crate) fn is_ordinary(self) -> bool
        ensures { result ≡ definition.is_ordinary (character_view self) }
    {
        match self {
            Character::Bare(c) => !(is_white(c) || is_special(c)),
            Character::Escaped(_) => true,
        }
    }

    /// Whether a word begins with it; directly behind a colon `-` begins one too.
    pub(crate) fn begins_word(self, behind_colon: bool) -> bool
        ensures { result ≡ begins_word behind_colon (character_view self) }
    {
        self.is_ordinary() || (behind_colon && self.is_char('-'))
    }
}

/// A part of a text whose characters are of one kind.
#[derive(Clone, Copy, Debug, PartialEq, Eq)]
pub(crate) enum Part {
    Word,
    Quoted,
    End,
}

impl Part {
    /// Whether the character goes on it.
    pub(crate) fn has(self, character: Character) -> bool
        ensures { result ≡ part_test self (character_view character) }
    {
        match character {
            Character::Escaped(_) => true,
            Character::Bare(c) => match self {
                Part::Word => !(is_white(c) || is_special(c)) || c == '+' || c == '-',
                Part::Quoted => !matches!(c, '"' | '\\'),
                Part::End => !(is_white(c) || ends_an_end(c)),
            },
        }
    }
}
