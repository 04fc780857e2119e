// Which positions of a column of texts have a text, or one within bounds.
ghost use Rattle.std.specs.Prelude.{◌≡◌, ◌≤◌, length, map, nat_le, nat_lt, true};
ghost use Rattle.std.specs.List.{list_any};
ghost use Rattle.fc_spec.specs.documents.Bits.{words_for};
ghost use Rattle.fc_spec.specs.queries.Matching.{is_above, is_below};
ghost use Rattle.fc_spec.specs.documents.Val as definition;
ghost use Rattle.fc_base.specs.View.{val_view};
ghost use Rattle.fc_column.specs.Terms.{has_text, terms_below};
ghost use Rattle.fc_query.specs.QueryView.{bound_view};
ghost use Rattle.fc_spec.specs.documents.Columns.{is_text};
ghost use Rattle.fc_domain.specs.FieldsFit.{IsBoundOf};
ghost use Rattle.fc_domain.specs.Within.{has_meeting};

use fc_base::Val;
use fc_column::TextColumn;
use fc_docset::DocSet;
use fc_query::Bound;

fn text_of(value: &Val) -> &[u8]
    requires { is_text (val_view value.now) ≡ true }
    ensures { val_view value.now ≡ definition.text result.now }
{
    match value {
        Val::Text(name) => name.bytes(),
        Val::Long(_) => unreachable!(),
    }
}

// The ordinal from which on the texts of the column meet a lower bound.
fn first_above(column: &TextColumn, low: &Bound) -> u32
    requires { IsBoundOf true (bound_view low.now) }
    ensures { (t : definition.Text) → list_any (has_text t) column.now ≡ true
        → nat_le result (terms_below column.now t)
        ≡ is_above (bound_view low.now) (definition.text t) }
{
    match low {
        Bound::Unbounded => 0,
        Bound::Including(value) => column.first_from(text_of(value)),
        Bound::Excluding(value) => column.first_past(text_of(value)),
    }
}

// The ordinal from which on the texts of the column pass an upper bound.
fn first_beyond(column: &TextColumn, high: &Bound) -> u32
    requires { IsBoundOf true (bound_view high.now) }
    ensures { (t : definition.Text) → list_any (has_text t) column.now ≡ true
        → nat_lt (terms_below column.now t) result
        ≡ is_below (bound_view high.now) (definition.text t) }
{
    match high {
        Bound::Unbounded => column.terms(),
        Bound::Including(value) => column.first_past(text_of(value)),
        Bound::Excluding(value) => column.first_from(text_of(value)),
    }
}

/// Makes the set the positions with a text that meets both bounds. The mask is written over.
pub fn select_between(
    column: &TextColumn,
    low: &Bound,
    high: &Bound,
    mask: &mut [u64],
    into: &mut DocSet,
)
    requires low { IsBoundOf true (bound_view low.now) }
    requires high { IsBoundOf true (bound_view high.now) }
    requires length { length into.old ≡ length column.now }
    requires room { words_for (length into.old) ≤ length mask.old }
    ensures { into.new ≡ map (has_meeting (bound_view low.now) (bound_view high.now))
        (map (map definition.text) column.now) }
{
    let from = first_above(column, low);
    let past = first_beyond(column, high);
    column.between(from, past, mask);
    into.set_mask(mask);
}

/// Makes the set the positions with this text. The mask is written over.
pub fn select_value(column: &TextColumn, value: &Val, mask: &mut [u64], into: &mut DocSet)
    requires text { is_text (val_view value.now) ≡ true }
    requires length { length into.old ≡ length column.now }
    requires room { words_for (length into.old) ≤ length mask.old }
    ensures { into.new
        ≡ map (definition.has_val (val_view value.now)) (map (map definition.text) column.now) }
{
    let text = text_of(value);
    let Some(ord) = column.ordinal_of(text) else {
        into.clear();
        return;
    };
    column.between(ord, column.first_past(text), mask);
    into.set_mask(mask);
}
