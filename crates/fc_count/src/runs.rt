// Counting in sorted runs.
ghost use Rattle.std.specs.Prelude.{◌≡◌, ℤ, ◌+◌, ◌*◌, ◌<◌, ◌≤◌, List, [], ◌∷◌, length, map, true, false, All, IfOk, OnOk, IsPermutation};
ghost use Rattle.std.specs.List.{AllWithin};
ghost use Rattle.std.specs.Ordering.{int_eq};
ghost use Rattle.fc_spec.specs.documents.Totals.{document_total};
ghost use Rattle.fc_spec.specs.documents.World.{Place};
ghost use Rattle.fc_spec.specs.requests.Statistics.{stats_over};
ghost use Rattle.fc_spec.specs.scripts.WorldLimits.{IsWithinLimits};
ghost use Rattle.fc_base.specs.StatisticView.{stat_view};
ghost use Rattle.fc_partial.specs.StatsView.{stats_view};
ghost use Rattle.fc_kind.specs.Columns.{HaveFields};
ghost use Rattle.fc_count.specs.Rows.{AreOfFitting, Rise, entries_of, rows_of, values_of_place};
ghost use Rattle.fc_count.specs.Runs.{AddsRuns, NumbersApart, NumbersAddUp, NumbersFit};

use crate::Keys;
use crate::countings::{Countings, Entry};
use crate::rows::{copy_row, read_rows};
use fc_base::{Stat, WantMemory};
use fc_partial::{StatValue, Stats, Tally};
use fc_segment::Segment;
use std::alloc::Global;

// In the order of their numbers; those of one number keep their order.
fn in_runs(entries: Vec<Entry>) -> Result<Vec<Entry>, WantMemory>
    ensures rising { IfOk result (λ sorted. Rise sorted.items) }
    ensures same { IfOk result (λ sorted. (n : ℤ) →
        entries_of n sorted.items ≡ entries_of n entries.items) }
    ensures moved { IfOk result (λ sorted. IsPermutation entries.items sorted.items) }
{
    let mut sorted = entries;
    sorted.sort_by_key(|entry| entry.number)?;
    Ok(sorted)
}

// How many at the front have the number of the first, which stands before them.
fn run_length(first: &Entry, others: &[Entry]) -> usize
    requires rising { Rise (first.now ∷ others.now) }
    ensures within { result ≤ length others.now }
    ensures run { AllWithin (λ e. int_eq e.number first.now.number ≡ true) others.now 0 result }
    ensures behind { AllWithin (λ e. int_eq e.number first.now.number ≡ false)
        others.now result (length others.now) }
{
    let mut end = 0;
    while end < others.len() && others[end].number == first.number {
        end += 1;
    }
    end
}

// Makes the statistics those of the documents that a run counts, which has a first one and others, each with its row.
// What is there of one document is written over.
fn run_stats(
    stats: &[Stat],
    rows: &[StatValue],
    first: &Entry,
    others: &[Entry],
    one: &mut Stats,
    over: &mut Stats,
) -> Result<(), WantMemory>
    requires within { All (λ e. e.row * length stats.now + length stats.now ≤ length rows.now)
        (first.now ∷ others.now) }
    requires fit { AreOfFitting (map stat_view stats.now)
        (rows_of (length stats.now) rows.now (first.now ∷ others.now)) }
    requires one { one.old.count ≡ 1 }
    ensures over { OnOk result ((places : List Place) →
        rows_of (length stats.now) rows.now (first.now ∷ others.now)
        ≡ map (values_of_place (map stat_view stats.now)) places
        → stats_view over.new ≡ stats_over (map stat_view stats.now) places) }
    ensures one { OnOk result (one.new.count ≡ 1) }
{
    let width = stats.len();
    over.count = 1;
    copy_row(rows, width, first.row, &mut over.values)?;
    for entry in others {
        copy_row(rows, width, entry.row, &mut one.values)?;
        over.combine(stats, one);
    }
    Ok(())
}

/// Combines into the key of each number the statistics of the documents at its positions. Each number with a
/// position is touched once, and the statistics of each row's document are read once.
pub fn add_runs<K: Keys>(
    alloc: Global,
    segment: &Segment,
    stats: &[Stat],
    countings: Countings,
    keys: &K,
    into: &mut Tally,
) -> Result<(), WantMemory>
    requires fields { HaveFields segment.now.texts (map stat_view stats.now) }
    requires limits { IsWithinLimits (segment.now.blocks ∷ []) }
    requires stats { into.old.stats ≡ map stat_view stats.now }
    requires there { All (λ c. c.at < document_total segment.now.blocks) countings }
    requires numbers { All (λ c. K.has_key keys.now c.number) countings }
    requires apart { NumbersApart (K.has_key keys.now) (K.key keys.now) }
    requires fit { NumbersFit segment.now.blocks countings }
    requires add_up { NumbersAddUp segment.now.blocks into.old.stats (K.key keys.now)
        countings into.old.entries }
    ensures { OnOk result
        (AddsRuns segment.now.blocks into.old.stats (K.key keys.now) countings into.old into.new) }
{
    let (positions, entries) = countings.into_parts();
    let rows = read_rows(alloc, segment, stats, &positions)?;
    let sorted = in_runs(entries)?;
    let mut one = Stats {
        count: 1,
        values: Vec::new(alloc),
    };
    let mut over = Stats {
        count: 1,
        values: Vec::new(alloc),
    };
    let mut rest = &sorted[..];
    while let Some((first, others)) = rest.split_first() {
        let (run, behind) = others.split_at(run_length(first, others));
        run_stats(stats, &rows, first, run, &mut one, &mut over)?;
        keys.add(first.number, &over, into)?;
        rest = behind;
    }
    Ok(())
}
