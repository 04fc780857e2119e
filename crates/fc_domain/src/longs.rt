// Which positions of a column of integers have an integer, or one within bounds.
ghost use Rattle.std.specs.Prelude.{◌≡◌, ℤ, ◌≤◌, length, map, Bool, MatchOption, int_le, true, false};
ghost use Rattle.std.specs.List.{list_any};
ghost use Rattle.fc_spec.specs.documents.Bits.{words_for};
ghost use Rattle.fc_spec.specs.documents.IntegerTexts.{is_long};
ghost use Rattle.fc_spec.specs.queries.Matching.{is_above, is_below};
ghost use Rattle.fc_spec.specs.documents.Val as definition;
ghost use Rattle.fc_base.specs.View.{val_view};
ghost use Rattle.fc_query.specs.QueryView.{bound_view};
ghost use Rattle.fc_spec.specs.documents.Columns.{is_text};
ghost use Rattle.fc_domain.specs.FieldsFit.{IsBoundOf};
ghost use Rattle.fc_domain.specs.Within.{PassesFromTo, has_meeting, meets};

use fc_base::Val;
use fc_column::LongColumn;
use fc_docset::DocSet;
use fc_query::Bound;

fn integer_of(value: &Val) -> i64
    requires { is_text (val_view value.now) ≡ false }
    ensures { val_view value.now ≡ definition.long result }
{
    match value {
        Val::Long(number) => *number,
        Val::Text(_) => unreachable!(),
    }
}

// The least integer that meets a lower bound.
fn least_above(low: &Bound) -> Option<i64>
    requires { IsBoundOf false (bound_view low.now) }
    ensures { MatchOption result
        ((z : ℤ) → is_long z ≡ true → is_above (bound_view low.now) (definition.long z) ≡ false)
        (λ least. (z : ℤ) → is_long z ≡ true
        → is_above (bound_view low.now) (definition.long z) ≡ int_le least z) }
{
    match low {
        Bound::Unbounded => Some(i64::MIN),
        Bound::Including(value) => Some(integer_of(value)),
        Bound::Excluding(value) => integer_of(value).checked_add(1),
    }
}

// The greatest integer that meets an upper bound.
fn greatest_below(high: &Bound) -> Option<i64>
    requires { IsBoundOf false (bound_view high.now) }
    ensures { MatchOption result
        ((z : ℤ) → is_long z ≡ true → is_below (bound_view high.now) (definition.long z) ≡ false)
        (λ greatest. (z : ℤ) → is_long z ≡ true
        → is_below (bound_view high.now) (definition.long z) ≡ int_le z greatest) }
{
    match high {
        Bound::Unbounded => Some(i64::MAX),
        Bound::Including(value) => Some(integer_of(value)),
        Bound::Excluding(value) => integer_of(value).checked_sub(1),
    }
}

// From the first to the second lie the integers that meet both bounds. Where none does, the second is
// below the first.
fn ends(low: &Bound, high: &Bound) -> (i64, i64)
    requires low { IsBoundOf false (bound_view low.now) }
    requires high { IsBoundOf false (bound_view high.now) }
    ensures { PassesFromTo result.0 result.1
        (λ z. meets (bound_view low.now) (bound_view high.now) (definition.long z)) }
{
    match (least_above(low), greatest_below(high)) {
        (Some(least), Some(greatest)) => (least, greatest),
        _ => (1, 0),
    }
}

// Makes the set the positions with an integer from `low` to `high`, both included. The mask is written over.
fn select_from_to(column: &LongColumn, low: i64, high: i64, mask: &mut [u64], into: &mut DocSet)
    requires length { length into.old ≡ length column.now }
    requires room { words_for (length into.old) ≤ length mask.old }
    ensures { (test : ℤ → Bool) → PassesFromTo low high test
        → into.new ≡ map (list_any test) column.now }
{
    column.between(low, high, mask);
    into.set_mask(mask);
}

/// Makes the set the positions with an integer that meets both bounds. The mask is written over.
pub fn select_between(
    column: &LongColumn,
    low: &Bound,
    high: &Bound,
    mask: &mut [u64],
    into: &mut DocSet,
)
    requires low { IsBoundOf false (bound_view low.now) }
    requires high { IsBoundOf false (bound_view high.now) }
    requires length { length into.old ≡ length column.now }
    requires room { words_for (length into.old) ≤ length mask.old }
    ensures { into.new ≡ map (has_meeting (bound_view low.now) (bound_view high.now))
        (map (map definition.long) column.now) }
{
    let (least, greatest) = ends(low, high);
    select_from_to(column, least, greatest, mask, into);
}

/// Makes the set the positions with this integer. The mask is written over.
pub fn select_value(column: &LongColumn, value: &Val, mask: &mut [u64], into: &mut DocSet)
    requires integer { is_text (val_view value.now) ≡ false }
    requires length { length into.old ≡ length column.now }
    requires room { words_for (length into.old) ≤ length mask.old }
    ensures { into.new
        ≡ map (definition.has_val (val_view value.now)) (map (map definition.long) column.now) }
{
    let number = integer_of(value);
    column.between(number, number, mask);
    into.set_mask(mask);
}
