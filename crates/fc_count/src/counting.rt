// Counting documents by number.
ghost use Rattle.std.specs.Prelude.{◌≡◌, [], ◌∷◌, length, map, IfOk, OnOk};
ghost use Rattle.fc_spec.specs.documents.Totals.{document_total};
ghost use Rattle.fc_spec.specs.scripts.WorldLimits.{IsWithinLimits};
ghost use Rattle.fc_base.specs.StatisticView.{stat_view};
ghost use Rattle.fc_docset.specs.Positions.{positions};
ghost use Rattle.fc_kind.specs.Columns.{HaveFields};
ghost use Rattle.fc_count.specs.Counted.{AreCounted};

use crate::Numbering;
use fc_base::{Stat, WantMemory};
use fc_docset::DocSet;
use fc_kind::{document_value, document_values};
use fc_partial::Cells;
use fc_segment::Segment;
use std::alloc::Global;

// Counts each document in the set, of which no statistics are kept.
fn count_documents<N: Numbering>(segment: &Segment, docs: &DocSet, numbering: &N, cells: &mut Cells)
    requires limits { IsWithinLimits (segment.now.blocks ∷ []) }
    requires length { length docs.now ≡ document_total segment.now.blocks }
    requires positions { N.positions numbering.now ≡ document_total segment.now.blocks }
    requires none { AreCounted segment.now.blocks (N.holds numbering.now) (N.bound numbering.now)
        [] [] cells.old }
    ensures { AreCounted segment.now.blocks (N.holds numbering.now) (N.bound numbering.now)
        [] (positions docs.now) cells.new }
{
    for at in docs.iter() {
        numbering.count(at, &[], cells);
    }
}

// Counts each document in the set with its one statistic.
fn count_values<N: Numbering>(
    segment: &Segment,
    docs: &DocSet,
    stat: Stat,
    numbering: &N,
    cells: &mut Cells,
)
    requires field { HaveFields segment.now.texts (stat_view stat ∷ []) }
    requires limits { IsWithinLimits (segment.now.blocks ∷ []) }
    requires length { length docs.now ≡ document_total segment.now.blocks }
    requires positions { N.positions numbering.now ≡ document_total segment.now.blocks }
    requires none { AreCounted segment.now.blocks (N.holds numbering.now) (N.bound numbering.now)
        (stat_view stat ∷ []) [] cells.old }
    ensures { AreCounted segment.now.blocks (N.holds numbering.now) (N.bound numbering.now)
        (stat_view stat ∷ []) (positions docs.now) cells.new }
{
    for at in docs.iter() {
        let value = document_value(segment, stat, at);
        numbering.count(at, std::slice::from_ref(&value), cells);
    }
}

// Counts each document in the set with all its statistics.
fn count_rows<N: Numbering>(
    alloc: Global,
    segment: &Segment,
    docs: &DocSet,
    stats: &[Stat],
    numbering: &N,
    cells: &mut Cells,
) -> Result<(), WantMemory>
    requires fields { HaveFields segment.now.texts (map stat_view stats.now) }
    requires limits { IsWithinLimits (segment.now.blocks ∷ []) }
    requires length { length docs.now ≡ document_total segment.now.blocks }
    requires positions { N.positions numbering.now ≡ document_total segment.now.blocks }
    requires none { AreCounted segment.now.blocks (N.holds numbering.now) (N.bound numbering.now)
        (map stat_view stats.now) [] cells.old }
    ensures { OnOk result (AreCounted segment.now.blocks (N.holds numbering.now)
        (N.bound numbering.now) (map stat_view stats.now) (positions docs.now) cells.new) }
{
    let mut values = Vec::with_capacity(alloc, stats.len())?;
    for at in docs.iter() {
        document_values(segment, stats, at, &mut values)?;
        numbering.count(at, &values, cells);
    }
    Ok(())
}

/// The statistics, by number, of the documents in the set that each number counts.
pub fn counted_cells<N: Numbering>(
    alloc: Global,
    segment: &Segment,
    docs: &DocSet,
    stats: Vec<Stat>,
    bound: usize,
    numbering: &N,
) -> Result<Cells, WantMemory>
    requires fields { HaveFields segment.now.texts (map stat_view stats.items) }
    requires limits { IsWithinLimits (segment.now.blocks ∷ []) }
    requires length { length docs.now ≡ document_total segment.now.blocks }
    requires positions { N.positions numbering.now ≡ document_total segment.now.blocks }
    requires bound { N.bound numbering.now ≡ bound }
    ensures { IfOk result (λ cells. AreCounted segment.now.blocks (N.holds numbering.now) bound
        (map stat_view stats.items) (positions docs.now) cells) }
{
    let kept = Vec::from_slice(alloc, &stats)?;
    let mut cells = Cells::new(alloc, stats, bound)?;
    match &kept[..] {
        [] => count_documents(segment, docs, numbering, &mut cells),
        [stat] => count_values(segment, docs, *stat, numbering, &mut cells),
        _ => count_rows(alloc, segment, docs, &kept, numbering, &mut cells)?,
    }
    Ok(cells)
}
