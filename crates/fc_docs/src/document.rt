// Documents.
mod counts;
mod few;
mod fields;
pub(crate) mod given;
mod sums;

ghost use Rattle.std.specs.Prelude.{◌≡◌, ℕ, ◌+◌, ◌-◌, ◌<◌, ◌≤◌, All, length, map, nat_le, slice_index, sum_by, if◌then◌else◌};
ghost use Rattle.std.specs.Bool.{OnTrue};
ghost use Rattle.std.specs.List.{list_all, range_with_len};
ghost use Rattle.fc_base.specs.View.{val_view};
ghost use Rattle.fc_spec.specs.documents.Document.{values_of};
ghost use Rattle.fc_docs.specs.Fields.{Ascend, HaveValues, document_of, values_at};
ghost use Rattle.fc_docs.specs.Kept.{ArePartsOf, parts};
ghost use Rattle.fc_docs.specs.Sums.{absolute_sum};

use counts::Counts;
use fc_base::{FieldId, Val};
pub use fields::Fields;
use std::marker::Model;

/// The values of each field of a schema, seen as the list, by the field's number, of the lists of
/// its values.
#[derive(Debug, Drop)]
pub struct Document {
    fields: u16,
    // The fields that have values, in ascending order, each with how many.
    counts: Counts,
    // The values of these fields, one field behind the other.
    values: Vec<Val>,
}

impl Model for Document {
    ghost use Rattle.std.specs.Prelude.{List};
    ghost use Rattle.fc_spec.specs.documents.Val.{Val};
    ghost use Rattle.fc_docs.specs.Fields.{document_of};
    ghost use Rattle.fc_docs.specs.Kept.{ArePartsOf, parts};

    ghost Value = { List (List Val) };

    ghost view = { λ document.
        document_of document.fields (parts document.counts document.values.items) };

    ghost invariant = { λ document.
        ArePartsOf document.fields document.counts document.values.items };
}

impl Document {
    /// The document of so many fields with so many values in each, one field behind the other.
    fn of(fields: u16, counts: Counts, values: Vec<Val>) -> Document
        requires { ArePartsOf fields counts values.items }
        ensures { result ≡ document_of fields (parts counts values.items) }
    {
        Document {
            fields,
            counts,
            values,
        }
    }

    /// How many fields its schema has.
    pub fn field_count(&self) -> u16
        ensures { result ≡ length self.now }
    {
        self.fields
    }

    /// The values in a field. There are none where no field has the number.
    pub fn values(&self, field: FieldId) -> &[Val]
        ensures { map val_view result.now ≡ values_of self.now field.0 }
    {
        fields::values_in(self.fields(), field)
    }

    /// The fields that have values, each with them, in the order of the fields.
    pub fn fields(&self) -> Fields<'_>
        ensures ascending { Ascend 0 result }
        ensures some { HaveValues result }
        ensures values { (n : ℕ) → values_at result n ≡ values_of self.now n }
    {
        Fields::over(self.counts.left(), &self.values)
    }

    /// What is left of the room when each value takes one place, where there is enough.
    pub fn room_after(&self, room: u64) -> Option<u64>
        ensures { result ≡ (let count = sum_by (λ values. length values) self.now in
            if nat_le count room then Some (room - count) else None) }
    {
        room.checked_sub(self.values.len() as u64)
    }

    /// Adds the absolute values of the integers in each field to the field's sum, and says whether
    /// every sum stayed within 9,223,372,036,854,775,807. Where one did not, nothing is claimed of
    /// the sums.
    pub fn add_to_sums(&self, sums: &mut [u64]) -> bool
        requires room { length self.now ≤ length sums.old }
        requires within { All (λ sum. sum ≤ 9_223_372_036_854_775_807) sums.old }
        ensures fits { result ≡ list_all
            (λ field. nat_le (slice_index sums.old field + absolute_sum self.now field)
            9_223_372_036_854_775_807)
            (range_with_len 0 (length self.now)) }
        ensures sums { OnTrue result ((field : ℕ) →
            slice_index sums.new field ≡ slice_index sums.old field + absolute_sum self.now field) }
        ensures still { OnTrue result (All (λ sum. sum ≤ 9_223_372_036_854_775_807) sums.new) }
    {
        sums::add_to_sums(self.fields(), sums)
    }
}
