// The positions of parents by the texts of field 0.
ghost use Rattle.std.specs.Prelude.{◌≡◌, ◌<◌, [], ◌∷◌, ◌++◌, length, map, All, IfOk, OnOk};
ghost use Rattle.fc_docset.specs.Positions.{positions};
ghost use Rattle.fc_column.specs.Terms.{terms_of};
ghost use Rattle.fc_segment.specs.Columns.{column_values};
ghost use Rattle.fc_segment.specs.Ids.{
  parent_ordinals,
  parents_having,
  AreOrdinals,
  ParentsById,
};

use crate::Column;
use fc_base::WantMemory;
use fc_column::TextColumn;
use fc_docset::DocSet;
use fc_lists::{Entries, Lists};
use std::alloc::Global;

// Adds ordinals to the next position.
fn push_each(entries: &mut Entries<u32>, ordinals: &[u32]) -> Result<(), WantMemory>
    ensures { OnOk result (entries.new
        ≡ record entries.old { next = entries.old.next ++ ordinals.now }) }
{
    for ord in ordinals {
        entries.push(*ord)?;
    }
    Ok(())
}

// Adds a position: with its ordinals if it is a parent's, and without any if it is a child's.
fn push_document(
    entries: &mut Entries<u32>,
    ids: &TextColumn,
    parents: &DocSet,
    at: u32,
) -> Result<(), WantMemory>
    requires within { at < length ids.now }
    requires even { length parents.now ≡ length ids.now }
    requires whole { entries.old.next ≡ [] }
    ensures entries { OnOk result (entries.new ≡ record
        { rows = entries.old.rows ++ parent_ordinals ids.now parents.now at ∷ []; next = [] }) }
    ensures ordinals { AreOrdinals ids.now (parent_ordinals ids.now parents.now at) }
{
    let ordinals = ids.ordinals_of(at);
    if !parents.contains(at) {
        return entries.skip(1);
    }
    push_each(entries, ordinals)?;
    entries.end_row()
}

// For each term the positions of the parents that have it.
fn parents_by_term(
    alloc: Global,
    ids: &TextColumn,
    parents: &DocSet,
) -> Result<Lists<u32>, WantMemory>
    requires { length parents.now ≡ length ids.now }
    ensures { IfOk result (λ lists. lists
        ≡ map (λ term. positions (parents_having term parents.now ids.now)) (terms_of ids.now)) }
{
    let mut entries = Entries::new(alloc);
    for at in 0..ids.len() {
        push_document(&mut entries, ids, parents, at)?;
    }
    let lists = entries.positions(alloc, ids.terms())?;
    Ok(lists)
}

/// For each term of field 0 the positions of the parents that have it. They are kept only where there are children, which may
/// have the same texts.
pub fn parents_by_id(
    alloc: Global,
    columns: &[Column],
    parents: &DocSet,
) -> Result<Option<Lists<u32>>, WantMemory>
    requires { All (λ column. length (column_values column) ≡ length parents.now) columns.now }
    ensures { IfOk result (λ ids. ParentsById parents.now columns.now ids) }
{
    if parents.count() == parents.len() {
        return Ok(None);
    }
    match columns.first() {
        Some(Column::Text(ids)) => Ok(Some(parents_by_term(alloc, ids, parents)?)),
        _ => Ok(None),
    }
}
