// The lines of a script that say something.
ghost use Rattle.std.specs.Prelude.{◌≡◌};
ghost use Rattle.fc_spec.specs.scripts.ScriptReading.{is_silent as silent};

use super::cut::{Lines, is_blank};

/// The most bytes of a line, without its LF.
pub(crate) const LINE_LIMIT: usize = 1_048_576;

// A blank line that is not too long says nothing.
fn is_silent(line: &[u8]) -> bool
    ensures { result ≡ silent line.now }
{
    is_blank(line) && line.len() <= LINE_LIMIT
}

impl<'a> Lines<'a> {
    ghost use Rattle.std.specs.Prelude.{◌∷◌, ◌<◌, [], length, MatchOption, IfNone, OnSome};
    ghost use Rattle.fc_lines.specs.LinesLeft.{lines_left};

    /// The next line that says something: one that is not blank, or is too long. Its number is that of the lines then.
    pub fn next_said(&mut self) -> Option<&'a [u8]>
        ensures line { MatchOption result (lines_left self.old ≡ [])
            (λ line. lines_left self.old ≡ (self.new.number, line.now) ∷ lines_left self.new) }
        ensures ended { IfNone result (lines_left self.new ≡ []) }
        ensures shorter { OnSome result (length self.new.lines < length self.old.lines) }
    {
        while let Some(line) = self.next_line() {
            if !is_silent(line) {
                return Some(line);
            }
        }
        None
    }
}
