// How many values the fields of a document have.
ghost use Rattle.std.specs.Prelude.{◌≡◌, ◌++◌, [], IfNone, IfOk, OnOk};
ghost use Rattle.std.specs.Option.{option_to_list};
ghost use Rattle.fc_docs.specs.Counts.{left_in};
ghost use Rattle.fc_docs.specs.Runs.{one_more};

use super::few::Few;
use fc_base::{FieldId, WantMemory};
use std::alloc::Global;
use std::marker::Model;

/// The fields that have values, each with how many, seen as the list of these pairs. Up to four fields, of which none has more than
/// 65,535 values, stand in the value itself and take no memory.
#[derive(Debug, Drop)]
pub(super) struct Counts {
    kept: Kept,
}

#[derive(Debug, Drop)]
pub(super) enum Kept {
    Few(Few),
    Many(Vec<(FieldId, u32)>),
}

/// Those of the fields that are left.
#[derive(Debug, Drop)]
pub(super) enum Left<'a> {
    Few(&'a [(FieldId, u16)]),
    Many(&'a [(FieldId, u32)]),
}

impl Model for Counts {
    ghost use Rattle.std.specs.Prelude.{ℕ, List};
    ghost use Rattle.fc_base.specs.declared.field.FieldId.{FieldId};
    ghost use Rattle.fc_docs.specs.Counts.{kept_in};

    ghost Value = { List (FieldId × ℕ) };

    ghost view = { λ counts. kept_in counts.kept };
}

impl Counts {
    /// Those of no field.
    pub(super) fn none() -> Counts
        ensures { result ≡ [] }
    {
        Counts {
            kept: Kept::Few(Few::none()),
        }
    }

    /// Those of all fields.
    pub(super) fn left(&self) -> Left<'_>
        ensures { left_in result ≡ self.now }
    {
        match &self.kept {
            Kept::Few(few) => Left::Few(few.as_slice()),
            Kept::Many(many) => Left::Many(many),
        }
    }

    /// One more value of the field, which is the last one that has any, or stands behind it. There are at most so many fields, for which
    /// there is room then.
    pub(super) fn count(
        &mut self,
        alloc: Global,
        room: usize,
        field: FieldId,
    ) -> Result<(), WantMemory>
        ensures { OnOk result (self.new ≡ one_more self.old field) }
    {
        match &mut self.kept {
            Kept::Few(few) => {
                if few.count(field) {
                    return Ok(());
                }
                let mut many = widened(alloc, few.as_slice(), room)?;
                count_many(&mut many, field)?;
                self.kept = Kept::Many(many);
                Ok(())
            }
            Kept::Many(many) => count_many(many, field),
        }
    }
}

// The same fields, with room for so many.
fn widened(
    alloc: Global,
    few: &[(FieldId, u16)],
    room: usize,
) -> Result<Vec<(FieldId, u32)>, WantMemory>
    ensures { IfOk result (λ many. many.items ≡ few.now) }
{
    let mut many = Vec::with_capacity(alloc, room)?;
    for (field, count) in few {
        many.push((*field, u32::from(*count)))?;
    }
    Ok(many)
}

// One more value of the field, which is the last one that has any, or stands behind it.
fn count_many(many: &mut Vec<(FieldId, u32)>, field: FieldId) -> Result<(), WantMemory>
    ensures { OnOk result (many.new.items ≡ one_more many.old.items field) }
{
    if let Some(last) = many.last_mut() {
        if last.0 == field {
            last.1 = last.1.checked_add(1).ok_or(WantMemory)?;
            return Ok(());
        }
    }
    many.push((field, 1))?;
    Ok(())
}

impl Left<'_> {
    /// Takes the first one away.
    pub(super) fn take_first(&mut self) -> Option<(FieldId, u32)>
        ensures first { left_in self.old ≡ option_to_list result ++ left_in self.new }
        ensures none { IfNone result (left_in self.old ≡ []) }
    {
        match self {
            Left::Few(few) => {
                let (first, left) = few.split_first()?;
                *few = left;
                Some((first.0, u32::from(first.1)))
            }
            Left::Many(many) => {
                let (first, left) = many.split_first()?;
                *many = left;
                Some(*first)
            }
        }
    }
}
