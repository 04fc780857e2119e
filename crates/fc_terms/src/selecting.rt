// Which documents of a set are in a bucket of a terms facet.
ghost use Rattle.std.specs.Prelude.{◌≡◌, ◌<◌, ◌≤◌, ◌&&◌, ℕ, length, map, not, All, OnOk};
ghost use Rattle.std.specs.Bool.{IsTrue};
ghost use Rattle.fc_spec.specs.documents.Bits.{words_for, HasBits};
ghost use Rattle.fc_spec.specs.documents.Val as definition;
ghost use Rattle.fc_spec.specs.documents.Val.{has_val};
ghost use Rattle.fc_spec.specs.requests.Buckets.{in_terms, is_terms_key};
ghost use Rattle.fc_spec.specs.words.Lists.{is_empty};
ghost use Rattle.fc_base.specs.View.{val_view};
ghost use Rattle.fc_docset.specs.Positions.{contains};
ghost use Rattle.fc_lists.specs.Among.{is_among};
ghost use Rattle.fc_segment.specs.Columns.{column_values};
ghost use Rattle.fc_facet.specs.KindView.{terms_view};
ghost use Rattle.fc_partial.specs.View.{key_view};
ghost use Rattle.fc_terms.specs.Selected.{where_values};

use fc_base::{Val, WantMemory};
use fc_column::{LongColumn, TextColumn};
use fc_docset::DocSet;
use fc_facet::Terms;
use fc_partial::Key;
use fc_segment::Column;
use std::alloc::Global;

// Makes the set those of the positions that are in the other set.
fn pick(docs: &DocSet, positions: &[u32], into: &mut DocSet)
    requires length { length into.old ≡ length docs.now }
    requires within { All (λ at. at < length docs.now) positions.now }
    ensures set { (at : ℕ) → contains into.new at
        ≡ (contains docs.now at && is_among at positions.now) }
    ensures length { length into.new ≡ length docs.now }
{
    into.clear();
    for at in positions {
        if docs.contains(*at) {
            into.add(*at);
        }
    }
}

// Makes the set those of the other set with this text.
fn select_text(column: &TextColumn, text: &[u8], docs: &DocSet, into: &mut DocSet)
    requires docs { length docs.now ≡ length column.now }
    requires length { length into.old ≡ length column.now }
    ensures { into.new ≡ where_values (has_val (definition.text text.now))
        (map (map definition.text) column.now) docs.now }
{
    match column.ordinal_of(text) {
        Some(ord) => pick(docs, column.positions_of(ord), into),
        None => into.clear(),
    }
}

// Makes the set those of the other set with this integer.
fn select_long(column: &LongColumn, number: i64, docs: &DocSet, into: &mut DocSet)
    requires docs { length docs.now ≡ length column.now }
    requires length { length into.old ≡ length column.now }
    ensures { into.new ≡ where_values (has_val (definition.long number))
        (map (map definition.long) column.now) docs.now }
{
    pick(docs, column.positions_between(number, number), into);
}

// Makes the set those of the other set with this value. A text is none of a field of integers, and the other way round.
fn select_value(column: &Column, value: &Val, docs: &DocSet, into: &mut DocSet)
    requires docs { length docs.now ≡ length (column_values column.now) }
    requires length { length into.old ≡ length (column_values column.now) }
    ensures { into.new
        ≡ where_values (has_val (val_view value.now)) (column_values column.now) docs.now }
{
    match (column, value) {
        (Column::Text(column), Val::Text(name)) => select_text(column, name.bytes(), docs, into),
        (Column::Long(column), Val::Long(number)) => select_long(column, *number, docs, into),
        (Column::Text(_), Val::Long(_)) => into.clear(),
        (Column::Long(_), Val::Text(_)) => into.clear(),
    }
}

// Makes the bits exactly those of the positions with a value. Bit j of word i stands for position 64 i + j.
fn mark_any(column: &Column, mask: &mut [u64])
    requires { words_for (length (column_values column.now)) ≤ length mask.old }
    ensures { HasBits mask.new (map (λ values. not (is_empty values)) (column_values column.now)) }
{
    match column {
        Column::Text(column) => column.any(mask),
        Column::Long(column) => column.any(mask),
    }
}

/// Makes the set those of the other set without a value. After want of memory nothing is known of it but its length.
pub(crate) fn select_missing(
    alloc: Global,
    column: &Column,
    docs: &DocSet,
    into: &mut DocSet,
) -> Result<(), WantMemory>
    requires docs { length docs.now ≡ length (column_values column.now) }
    requires length { length into.old ≡ length (column_values column.now) }
    ensures set { OnOk result
        (into.new ≡ where_values is_empty (column_values column.now) docs.now) }
    ensures kept { length into.new ≡ length into.old }
{
    let mut mask = vec![in alloc; 0; docs.words().len()]?;
    mark_any(column, &mut mask);
    let having = DocSet::from_mask(alloc, docs.len(), &mask)?;
    into.set_mask(docs.words());
    into.without(&having);
    Ok(())
}

/// Makes the set those of the other set that are in the bucket with the key. After want of memory nothing is known of
/// it but its length.
pub(crate) fn select_key(
    alloc: Global,
    column: &Column,
    terms: &Terms,
    key: &Key,
    docs: &DocSet,
    into: &mut DocSet,
) -> Result<(), WantMemory>
    requires docs { length docs.now ≡ length (column_values column.now) }
    requires length { length into.old ≡ length (column_values column.now) }
    requires key { IsTrue (is_terms_key (terms_view terms.now) (key_view key.now)) }
    ensures set { OnOk result
        (into.new ≡ where_values (in_terms (terms_view terms.now) (key_view key.now))
        (column_values column.now) docs.now) }
    ensures kept { length into.new ≡ length into.old }
{
    match key {
        Key::Value(value) => select_value(column, value, docs, into),
        Key::Missing => return select_missing(alloc, column, docs, into),
        _ => unreachable!(),
    }
    Ok(())
}
