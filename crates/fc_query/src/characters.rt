// The characters of a query text.
ghost use Rattle.std.specs.Prelude.{◌≡◌, ◌∷◌, drop, option_map, slice_get};
ghost use Rattle.std.specs.Str.{chars};
ghost use Rattle.fc_spec.specs.queries.QueryCharacters as definition;
ghost use Rattle.fc_query.specs.View.{character_view};
ghost use Rattle.fc_query.specs.Takes.{IsFirst, TakesPast};

use std::marker::Model;

// The character before which a backslash is no escape.
const NEVER_ESCAPED: char = 'u';

/// A character as it stands, or behind a backslash.
#[derive(Clone, Copy, Debug, PartialEq, Eq)]
pub(crate) enum Character {
    Bare(char),
    Escaped(char),
}

/// What is left of a text, seen as the list of its characters.
#[derive(Drop)]
pub(crate) struct Cursor<'a> {
    left: &'a str,
}

impl<'a> Model for Cursor<'a> {
    ghost use Rattle.std.specs.Prelude.{List};
    ghost use Rattle.std.specs.Str.{chars};
    ghost use Rattle.fc_spec.specs.queries.QueryCharacters.{Character, characters};

    ghost Value = { List Character };

    ghost view = { λ cursor. characters (chars cursor.left.now) };
}

// The first character, and what is left behind it.
fn first_of(text: &str) -> Option<(Character, &str)>
    ensures { IsFirst result (definition.characters (chars text.now)) }
{
    let mut left = text.chars();
    let first = left.next()?;
    let behind = left.as_str();
    if first != '\\' {
        return Some((Character::Bare(first), behind));
    }
    match left.next() {
        Some(second) if second != NEVER_ESCAPED => Some((
            Character::Escaped(second),
            left.as_str(),
        )),
        _ => Some((Character::Bare(first), behind)),
    }
}

impl<'a> Cursor<'a> {
    /// A cursor before the first character of the text.
    pub(crate) fn new(text: &'a str) -> Cursor<'a>
        ensures { result ≡ definition.characters (chars text.now) }
    {
        Cursor { left: text }
    }

    /// The first character that is left.
    pub(crate) fn peek(&self) -> Option<Character>
        ensures { option_map character_view result ≡ slice_get self.now 0 }
    {
        let (first, _) = first_of(self.left)?;
        Some(first)
    }

    /// Leaves the first character, where there is one.
    pub(crate) fn advance(&mut self)
        ensures { self.new ≡ drop 1 self.old }
    {
        if let Some((_, left)) = first_of(self.left) {
            self.left = left;
        }
    }

    /// Whether this character, as it stands, is the first.
    pub(crate) fn is_at(&self, c: char) -> bool
        ensures { result ≡ definition.begins (definition.is_char c) self.now }
    {
        match self.peek() {
            Some(first) => first.is_char(c),
            None => false,
        }
    }

    /// Takes this character, as it stands, where it is the first.
    pub(crate) fn take(&mut self, c: char) -> bool
        ensures { TakesPast result (definition.past c self.old) self.old self.new }
    {
        match self.peek() {
            Some(first) if first.is_char(c) => {
                self.advance();
                true
            }
            _ => false,
        }
    }

    /// Leaves the white space in front.
    pub(crate) fn skip_white(&mut self)
        ensures { self.new ≡ definition.behind definition.is_blank self.old }
    {
        while let Some(first) = self.peek() {
            if !first.is_blank() {
                break;
            }
            self.advance();
        }
    }

    /// Takes white space, where some is in front.
    pub(crate) fn take_white(&mut self) -> bool
        ensures { TakesPast result (definition.past_white self.old) self.old self.new }
    {
        match self.peek() {
            Some(first) if first.is_blank() => {
                self.skip_white();
                true
            }
            _ => false,
        }
    }
}
