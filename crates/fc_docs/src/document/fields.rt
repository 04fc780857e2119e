// The fields of a document, one after another.
ghost use Rattle.std.specs.Prelude.{◌≡◌, length, map};
ghost use Rattle.std.specs.Iterator.{YieldsFirstBy, item_count};
ghost use Rattle.fc_base.specs.View.{val_view};
ghost use Rattle.fc_docs.specs.Counts.{left_in};
ghost use Rattle.fc_docs.specs.Fields.{values_at};
ghost use Rattle.fc_docs.specs.Kept.{parts, value_count};

use super::counts::Left;
use fc_base::{FieldId, Val};
use std::marker::Model;

/// The fields of a document that have values, in ascending order, seen as the list of those
/// that are left: each field's number with the field's values.
#[derive(Debug, Drop)]
pub struct Fields<'a> {
    counts: Left<'a>,
    values: &'a [Val],
}

impl<'a> Model for Fields<'a> {
    ghost use Rattle.std.specs.Prelude.{◌≡◌, length};
    ghost use Rattle.fc_docs.specs.Fields.{FieldValues};
    ghost use Rattle.fc_docs.specs.Counts.{left_in};
    ghost use Rattle.fc_docs.specs.Kept.{parts, value_count};

    ghost Value = { FieldValues };

    ghost view = { λ left. parts (left_in left.counts) left.values.now };

    ghost invariant = { λ left. value_count (left_in left.counts) ≡ length left.values.now };
}

impl<'a> Fields<'a> {
    /// The fields that have so many values each, which stand one field behind the other.
    pub(super) fn over(counts: Left<'a>, values: &'a [Val]) -> Self
        requires { value_count (left_in counts) ≡ length values.now }
        ensures { result ≡ parts (left_in counts.entry) values.now }
    {
        Fields { counts, values }
    }
}

impl<'a> Iterator for Fields<'a> {
    type Item = (FieldId, &'a [Val]);

    ghost next_gives = { YieldsFirstBy (λ item. (item.0.0, map val_view item.1.now)) (λ left. left) };

    ghost remaining = { item_count (λ left. left) };

    fn next(&mut self) -> Option<(FieldId, &'a [Val])> {
        let (field, count) = self.counts.take_first()?;
        let (values, behind) = self.values.split_at(count as usize);
        self.values = behind;
        Some((field, values))
    }
}

/// The values in a field.
pub(super) fn values_in(fields: Fields<'_>, field: FieldId) -> &[Val]
    ensures { map val_view result.now ≡ values_at fields.entry field.0 }
{
    for (given, values) in fields {
        if given == field {
            return values;
        }
    }
    &[]
}
