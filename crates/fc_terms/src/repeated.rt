// Whether a document's statistics would be read more than once. It shows in nothing but time.
ghost use Rattle.std.specs.Prelude.{◌≡◌, length, map};
ghost use Rattle.fc_spec.specs.documents.Totals.{document_total};
ghost use Rattle.fc_base.specs.StatisticView.{stat_view};
ghost use Rattle.fc_kind.specs.Columns.{HaveFields};

use fc_base::{Stat, WantMemory};
use fc_column::{LongColumn, TextColumn};
use fc_docset::DocSet;
use fc_segment::{Column, Segment};
use std::alloc::Global;

// Whether some document of the set has several texts.
fn have_several_texts(docs: &DocSet, column: &TextColumn) -> bool
    requires { length docs.now ≡ length column.now }
{
    for at in docs.iter() {
        if column.ordinals_of(at).len() > 1 {
            return true;
        }
    }
    false
}

// Whether some document has several integers: then there are more of them than documents with one.
fn has_several(alloc: Global, column: &LongColumn) -> Result<bool, WantMemory> {
    let mut having = DocSet::empty(alloc, column.len())?;
    let mut mask = vec![in alloc; 0; having.words().len()]?;
    column.any(&mut mask);
    having.set_mask(&mask);
    let integers = column.positions_between(i64::MIN, i64::MAX).len();
    Ok(integers > having.count() as usize)
}

// Whether one of the statistics reads several integers of some document.
fn read_several(alloc: Global, segment: &Segment, stats: &[Stat]) -> Result<bool, WantMemory>
    requires { HaveFields segment.now.texts (map stat_view stats.now) }
{
    for stat in stats {
        if let Column::Long(column) = segment.column(stat.field) {
            if has_several(alloc, column)? {
                return Ok(true);
            }
        }
    }
    Ok(false)
}

/// Whether a document of the set may have several texts, for each of which several of its integers would be read anew.
pub(crate) fn are_repeated(
    alloc: Global,
    segment: &Segment,
    docs: &DocSet,
    column: &TextColumn,
    stats: &[Stat],
) -> Result<bool, WantMemory>
    requires fields { HaveFields segment.now.texts (map stat_view stats.now) }
    requires length { length docs.now ≡ length column.now }
{
    if !read_several(alloc, segment, stats)? {
        return Ok(false);
    }
    Ok(have_several_texts(docs, column))
}
