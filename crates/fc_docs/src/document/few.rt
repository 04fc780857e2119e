// The counts of few fields.
ghost use Rattle.std.specs.Prelude.{◌≡◌, [], if◌then◌else◌};
ghost use Rattle.fc_docs.specs.Runs.{one_more};

use fc_base::FieldId;
use std::marker::Model;

// How many fields have room.
const ROOM: usize = 4;

/// Up to four fields, each with how many values it has, seen as the list of these pairs. They take no memory.
#[derive(Debug, Drop)]
pub(super) struct Few {
    counts: [(FieldId, u16); 4],
    len: u16,
}

impl Model for Few {
    ghost use Rattle.std.specs.Prelude.{ℕ, ◌≤◌, List, take};
    ghost use Rattle.fc_base.specs.declared.field.FieldId.{FieldId};

    ghost Value = { List (FieldId × ℕ) };

    ghost view = { λ few. take few.len few.counts };

    ghost invariant = { λ few. few.len ≤ 4 };
}

impl Few {
    /// No field.
    pub(super) fn none() -> Few
        ensures { result ≡ [] }
    {
        Few {
            counts: [(FieldId(0), 0); 4],
            len: 0,
        }
    }

    /// The fields.
    pub(super) fn as_slice(&self) -> &[(FieldId, u16)]
        ensures { result.now ≡ self.now }
    {
        &self.counts[..self.len as usize]
    }

    /// One more value of the field, which is the last one that has any, or stands behind it; and whether there was room for it.
    pub(super) fn count(&mut self, field: FieldId) -> bool
        ensures { self.new ≡ (if result then one_more self.old field else self.old) }
    {
        let len = self.len as usize;
        if len > 0 {
            let (last, count) = self.counts[len - 1];
            if last == field {
                if count == u16::MAX {
                    return false;
                }
                self.counts[len - 1] = (last, count + 1);
                return true;
            }
        }
        if len == ROOM {
            return false;
        }
        self.counts[len] = (field, 1);
        self.len += 1;
        true
    }
}
