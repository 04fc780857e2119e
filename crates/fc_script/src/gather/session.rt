// The numbers of sessions.
ghost use Rattle.std.specs.Prelude.{◌≡◌, ◌<◌, ◌≤◌, length, position, IfOk};
ghost use Rattle.fc_spec.specs.documents.Val.{same_text};
ghost use Rattle.fc_script.specs.PartsView.{session_at};
ghost use Rattle.fc_script.specs.Sessions.{with_session};

use fc_base::{Name, WantMemory};

// Where a session stands first.
fn find(sessions: &[Name], session: &Name) -> Option<usize>
    ensures { result ≡ position (same_text session.now) sessions.now }
{
    sessions.iter().position(|known| session.cmp(known).is_eq())
}

/// The number of a session among these, behind which it is put where it is new.
pub(crate) fn session_number(sessions: &mut Vec<Name>, session: Name) -> Result<u32, WantMemory>
    requires few { length sessions.old.items ≤ 16 }
    ensures sessions { IfOk result (λ number. sessions.new.items ≡ with_session sessions.old.items session) }
    ensures below { IfOk result (λ number. number < length sessions.new.items) }
    ensures session { IfOk result (λ number. session_at sessions.new.items number ≡ session) }
{
    match find(sessions, &session) {
        Some(number) => Ok(number as u32),
        None => {
            let number = sessions.len() as u32;
            sessions.push(session)?;
            Ok(number)
        }
    }
}
