// Which positions of a column have a value, or one within bounds.
ghost use Rattle.std.specs.Prelude.{◌≡◌, ◌≤◌, length, map, not};
ghost use Rattle.fc_spec.specs.documents.Bits.{words_for};
ghost use Rattle.fc_spec.specs.words.Lists.{is_empty};
ghost use Rattle.fc_spec.specs.documents.Val.{has_val};
ghost use Rattle.fc_base.specs.View.{val_view};
ghost use Rattle.fc_query.specs.QueryView.{bound_view};
ghost use Rattle.fc_spec.specs.documents.Columns.{is_text};
ghost use Rattle.fc_segment.specs.Columns.{column_values, is_text_column};
ghost use Rattle.fc_domain.specs.FieldsFit.{IsBoundOf};
ghost use Rattle.fc_domain.specs.Within.{has_meeting};

use crate::{longs, texts};
use fc_base::Val;
use fc_docset::DocSet;
use fc_query::Bound;
use fc_segment::Column;

/// Makes the set the positions with a value that meets both bounds. The mask is written over.
pub fn select_between(
    column: &Column,
    low: &Bound,
    high: &Bound,
    mask: &mut [u64],
    into: &mut DocSet,
)
    requires low { IsBoundOf (is_text_column column.now) (bound_view low.now) }
    requires high { IsBoundOf (is_text_column column.now) (bound_view high.now) }
    requires length { length into.old ≡ length (column_values column.now) }
    requires room { words_for (length into.old) ≤ length mask.old }
    ensures { into.new
        ≡ map (has_meeting (bound_view low.now) (bound_view high.now)) (column_values column.now) }
{
    match column {
        Column::Text(column) => texts::select_between(column, low, high, mask, into),
        Column::Long(column) => longs::select_between(column, low, high, mask, into),
    }
}

/// Makes the set the positions with a value. The mask is written over.
pub fn select_any(column: &Column, mask: &mut [u64], into: &mut DocSet)
    requires length { length into.old ≡ length (column_values column.now) }
    requires room { words_for (length into.old) ≤ length mask.old }
    ensures { into.new ≡ map (λ values. not (is_empty values)) (column_values column.now) }
{
    select_between(column, &Bound::Unbounded, &Bound::Unbounded, mask, into);
}

/// Makes the set the positions with this value. The mask is written over.
pub fn select_value(column: &Column, value: &Val, mask: &mut [u64], into: &mut DocSet)
    requires kind { is_text (val_view value.now) ≡ is_text_column column.now }
    requires length { length into.old ≡ length (column_values column.now) }
    requires room { words_for (length into.old) ≤ length mask.old }
    ensures { into.new ≡ map (has_val (val_view value.now)) (column_values column.now) }
{
    match column {
        Column::Text(column) => texts::select_value(column, value, mask, into),
        Column::Long(column) => longs::select_value(column, value, mask, into),
    }
}
