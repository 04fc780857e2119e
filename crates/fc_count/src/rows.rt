// Statistics of documents, a row for each.
ghost use Rattle.std.specs.Prelude.{◌≡◌, ◌+◌, ◌*◌, ◌<◌, ◌≤◌, [], ◌∷◌, length, map, slice_range, All, IfOk, OnOk};
ghost use Rattle.fc_spec.specs.documents.Totals.{document_total};
ghost use Rattle.fc_spec.specs.scripts.WorldLimits.{IsWithinLimits};
ghost use Rattle.fc_base.specs.StatisticView.{stat_view};
ghost use Rattle.fc_partial.specs.View.{stat_value_view};
ghost use Rattle.fc_kind.specs.Columns.{HaveFields};
ghost use Rattle.fc_count.specs.Rows.{values_at};

use fc_base::{Stat, WantMemory};
use fc_kind::document_values;
use fc_partial::StatValue;
use fc_segment::Segment;
use std::alloc::Global;

/// The statistics of the document at each position, row after row.
pub(crate) fn read_rows(
    alloc: Global,
    segment: &Segment,
    stats: &[Stat],
    positions: &[u32],
) -> Result<Vec<StatValue>, WantMemory>
    requires fields { HaveFields segment.now.texts (map stat_view stats.now) }
    requires limits { IsWithinLimits (segment.now.blocks ∷ []) }
    requires there { All (λ at. at < document_total segment.now.blocks) positions.now }
    ensures { IfOk result (λ rows. map stat_value_view rows.items
        ≡ values_at segment.now.blocks (map stat_view stats.now) positions.now) }
{
    let mut rows = Vec::new(alloc);
    let mut one = Vec::new(alloc);
    for at in positions {
        document_values(segment, stats, *at, &mut one)?;
        rows.extend_from_slice(&one)?;
    }
    Ok(rows)
}

/// Makes the values those of a row, where a row has so many.
pub(crate) fn copy_row(
    rows: &[StatValue],
    width: usize,
    row: usize,
    values: &mut Vec<StatValue>,
) -> Result<(), WantMemory>
    requires { row * width + width ≤ length rows.now }
    ensures { OnOk result
        (values.new.items ≡ slice_range rows.now (row * width) (row * width + width)) }
{
    let start = row * width;
    values.clear();
    values.extend_from_slice(&rows[start..start + width])?;
    Ok(())
}
