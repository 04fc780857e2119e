// The lines of a script's bytes.
ghost use Rattle.std.specs.Prelude.{◌≡◌, ◌==◌, ◌^◌, ◌<◌, ◌∷◌, suc, length, position, IfNone, OnSome, MatchOption, []};
ghost use Rattle.fc_spec.specs.scripts.ScriptLines.{lines_of, is_blank as blank};

use memchr::memchr;
use std::marker::Model;

// Where the first LF stands.
fn find_lf(bytes: &[u8]) -> Option<usize>
    ensures { result ≡ position (λ b. b == 10) bytes.now }
{
    memchr(b'\n', bytes)
}

// The bytes up to the first LF, and those behind it.
fn cut_line(bytes: &[u8]) -> (&[u8], &[u8])
    requires { 0 < length bytes.now }
    ensures lines { lines_of bytes.now ≡ result.0.now ∷ lines_of result.1.now }
    ensures shorter { length result.1.now < length bytes.now }
{
    match find_lf(bytes) {
        Some(end) => (&bytes[..end], &bytes[end + 1..]),
        None => (bytes, &[]),
    }
}

/// Spaces, tabs and CRs alone.
pub(super) fn is_blank(line: &[u8]) -> bool
    ensures { result ≡ blank line.now }
{
    line.iter()
        .all(|byte| *byte == b' ' || *byte == b'\t' || *byte == b'\r')
}

/// The lines of a script that are left, and how many were cut before them.
#[derive(Drop)]
pub struct Lines<'a> {
    rest: &'a [u8],
    number: u32,
}

impl<'a> Model for Lines<'a> {
    ghost use Rattle.std.specs.Prelude.{◌+◌, ◌^◌, ◌<◌, length};
    ghost use Rattle.fc_spec.specs.scripts.ScriptLines.{lines_of};
    ghost use Rattle.fc_lines.specs.LinesLeft.{LinesLeft};

    ghost Value = { LinesLeft };

    ghost view = { λ s. record { number = s.number; lines = lines_of s.rest.now } };

    ghost invariant = { λ s. s.number + length s.rest.now < 2 ^ 32 };
}

impl<'a> Lines<'a> {
    /// Every line of the bytes.
    pub fn new(bytes: &'a [u8]) -> Lines<'a>
        requires { length bytes.now < 2 ^ 32 }
        ensures { result ≡ record { number = 0; lines = lines_of bytes.now } }
    {
        Lines {
            rest: bytes,
            number: 0,
        }
    }

    /// The number of the line that was cut last, from 1 on; 0 before the first.
    pub fn number(&self) -> u32
        ensures { result ≡ self.now.number }
    {
        self.number
    }

    /// The next line.
    pub(super) fn next_line(&mut self) -> Option<&'a [u8]>
        ensures lines { MatchOption result (self.old.lines ≡ []) (λ line. self.old.lines ≡ line.now ∷ self.new.lines) }
        ensures number { OnSome result (self.new.number ≡ suc self.old.number) }
        ensures ended { IfNone result (self.new ≡ self.old) }
    {
        if self.rest.is_empty() {
            return None;
        }
        let (line, rest) = cut_line(self.rest);
        self.rest = rest;
        self.number += 1;
        Some(line)
    }
}
