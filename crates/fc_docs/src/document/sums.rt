// The absolute values of a document's integers, added to the sums of their fields.
ghost use Rattle.std.specs.Prelude.{◌≡◌, ℕ, ◌+◌, ◌≤◌, All, Decides, length, map, nat_le, slice_index, slice_set, if◌then◌else◌};
ghost use Rattle.std.specs.Bool.{OnTrue};
ghost use Rattle.fc_spec.specs.scripts.ScriptTotals.{total_limit};
ghost use Rattle.fc_base.specs.View.{val_view};
ghost use Rattle.fc_docs.specs.Fields.{Ascend};
ghost use Rattle.fc_docs.specs.Sums.{absolute_kept, absolute_row, absolute_value};

use super::Fields;
use fc_base::{FieldId, Val};

// The most that a sum may be.
const SUM_LIMIT: u64 = 9_223_372_036_854_775_807;

/// Adds the absolute values of each field's integers to the field's sum, and says whether every sum
/// stayed within the limit.
pub(super) fn add_to_sums(fields: Fields<'_>, sums: &mut [u64]) -> bool
    requires ascending { Ascend 0 fields }
    requires within { All (λ sum. sum ≤ total_limit) sums.old }
    requires room { (field : ℕ) → length sums.old ≤ field → absolute_kept fields field ≡ 0 }
    ensures fits { Decides result ((field : ℕ) →
        slice_index sums.old field + absolute_kept fields.entry field ≤ total_limit) }
    ensures sums { OnTrue result ((field : ℕ) →
        slice_index sums.new field ≡ slice_index sums.old field + absolute_kept fields.entry field) }
{
    for (field, values) in fields {
        if !add_to_sum(field, values, sums) {
            return false;
        }
    }
    true
}

// Adds those of one field's values, and says whether its sum stayed within the limit. A field
// without a sum has nothing to add.
fn add_to_sum(field: FieldId, values: &[Val], sums: &mut [u64]) -> bool
    requires within { slice_index sums.old field.0 ≤ total_limit }
    requires room { length sums.old ≤ field.0 → absolute_row (map val_view values.now) ≡ 0 }
    ensures fits { result ≡ nat_le
        (slice_index sums.old field.0 + absolute_row (map val_view values.now)) total_limit }
    ensures sums { OnTrue result (sums.new ≡ slice_set sums.old field.0
        (slice_index sums.old field.0 + absolute_row (map val_view values.now))) }
{
    let place = field.0 as usize;
    if place >= sums.len() {
        return true;
    }
    let Some(sum) = sum_after(values, sums[place]) else {
        return false;
    };
    sums[place] = sum;
    true
}

// The sum with those of a row of values, if it stays within the limit.
fn sum_after(values: &[Val], sum: u64) -> Option<u64>
    requires within { sum ≤ total_limit }
    ensures { result ≡ (let total = sum + absolute_row (map val_view values.now) in
        if nat_le total total_limit then Some total else None) }
{
    let mut total = sum;
    for value in values {
        total = sum_with(value, total)?;
    }
    Some(total)
}

// The sum with that of one value, if it stays within the limit.
fn sum_with(value: &Val, sum: u64) -> Option<u64>
    ensures { result ≡ (let total = sum + absolute_value (val_view value.now) in
        if nat_le total total_limit then Some total else None) }
{
    let added = match value {
        Val::Text(_) => 0,
        Val::Long(number) => number.unsigned_abs(),
    };
    let total = sum.checked_add(added)?;
    if total > SUM_LIMIT {
        return None;
    }
    Some(total)
}
