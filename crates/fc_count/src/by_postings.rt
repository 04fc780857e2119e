// Putting the documents that numbers count into a tally, number after number.
ghost use Rattle.std.specs.Prelude.{◌≡◌, ℕ, ◌<◌, ◌≤◌, false, [], ◌∷◌, length, map, pos, All, OnOk};
ghost use Rattle.std.specs.List.{filter, range_with_len};
ghost use Rattle.std.specs.Option.{ForSome};
ghost use Rattle.fc_spec.specs.documents.Totals.{document_total};
ghost use Rattle.fc_spec.specs.requests.Statistics.{stats_over};
ghost use Rattle.fc_spec.specs.scripts.WorldLimits.{IsWithinLimits};
ghost use Rattle.fc_spec.specs.words.Lists.{is_empty};
ghost use Rattle.fc_base.specs.StatisticView.{stat_view};
ghost use Rattle.fc_docset.specs.Positions.{contains, positions};
ghost use Rattle.fc_partial.specs.Adding.{AddUp};
ghost use Rattle.fc_partial.specs.Fitting.{StatisticsFit};
ghost use Rattle.fc_partial.specs.Tallying.{entry_at};
ghost use Rattle.fc_kind.specs.Collecting.{GrowsBy};
ghost use Rattle.fc_kind.specs.Columns.{HaveFields};
ghost use Rattle.fc_kind.specs.PlaceAt.{place_at};
ghost use Rattle.fc_count.specs.Added.{AreApart, CellsAddUp, HaveAdded};
ghost use Rattle.fc_count.specs.Held.{held_stats};

use crate::{Keys, Postings};
use fc_base::{Stat, WantMemory};
use fc_docset::DocSet;
use fc_kind::stats_at;
use fc_partial::Tally;
use fc_segment::Segment;
use std::alloc::Global;

// Makes the positions those of others that are in the set.
fn pick(docs: &DocSet, others: &[u32], picked: &mut Vec<u32>) -> Result<(), WantMemory>
    requires { All (λ at. at < length docs.now) others.now }
    ensures { OnOk result (picked.new.items ≡ filter (contains docs.now) others.now) }
{
    picked.clear();
    for at in others {
        if docs.contains(*at) {
            picked.push(*at)?;
        }
    }
    Ok(())
}

// Combines the statistics of the documents at these positions with those of the key of a number, where there are such
// documents.
fn add_positions<K: Keys>(
    alloc: Global,
    segment: &Segment,
    stats: &[Stat],
    positions: &[u32],
    number: usize,
    keys: &K,
    into: &mut Tally,
) -> Result<(), WantMemory>
    requires fields { HaveFields segment.now.texts (map stat_view stats.now) }
    requires limits { IsWithinLimits (segment.now.blocks ∷ []) }
    requires there { All (λ at. at < document_total segment.now.blocks) positions.now }
    requires fit { StatisticsFit (map (place_at segment.now.blocks) positions.now) }
    requires small { number < 4_294_967_296 }
    requires key { K.has_key keys.now (pos number) }
    requires stats { into.old.stats ≡ map stat_view stats.now }
    requires add_up { is_empty positions.now ≡ false
        → ForSome (entry_at into.old.entries (K.key keys.now (pos number)))
        (λ there. AddUp there
        (stats_over into.old.stats (map (place_at segment.now.blocks) positions.now))) }
    ensures { OnOk result (GrowsBy (K.key keys.now (pos number))
        (map (place_at segment.now.blocks) positions.now) into.old into.new) }
{
    if positions.is_empty() {
        return Ok(());
    }
    let over = stats_at(alloc, segment, stats, positions)?;
    keys.add(number as i64, &over, into)
}

// The same as below, where each document is in the set.
fn add_whole<P: Postings + Keys>(
    alloc: Global,
    segment: &Segment,
    docs: &DocSet,
    stats: &[Stat],
    bound: usize,
    postings: &P,
    into: &mut Tally,
) -> Result<(), WantMemory>
    requires whole { positions docs.now ≡ range_with_len 0 (length docs.now) }
    requires fields { HaveFields segment.now.texts (map stat_view stats.now) }
    requires limits { IsWithinLimits (segment.now.blocks ∷ []) }
    requires length { length docs.now ≡ document_total segment.now.blocks }
    requires positions { P.positions postings.now ≡ document_total segment.now.blocks }
    requires lists { (i : ℕ) → i < bound → P.has_list postings.now i }
    requires small { bound ≤ 4_294_967_296 }
    requires keyed { (i : ℕ) → i < bound → P.has_key postings.now (pos i) }
    requires apart { AreApart (P.key postings.now) bound }
    requires stats { into.old.stats ≡ map stat_view stats.now }
    requires add_up { CellsAddUp (P.key postings.now)
        (held_stats segment.now.blocks (P.holds postings.now) bound into.old.stats (positions docs.now))
        bound into.old.entries }
    ensures { OnOk result (HaveAdded (P.key postings.now)
        (held_stats segment.now.blocks (P.holds postings.now) bound into.old.stats (positions docs.now))
        bound into.old into.new) }
{
    for number in 0..bound {
        let there = postings.positions_of(number);
        add_positions(alloc, segment, stats, there, number, postings, into)?;
    }
    Ok(())
}

// The same as below, where some documents are not in the set.
fn add_picked<P: Postings + Keys>(
    alloc: Global,
    segment: &Segment,
    docs: &DocSet,
    stats: &[Stat],
    bound: usize,
    postings: &P,
    into: &mut Tally,
) -> Result<(), WantMemory>
    requires fields { HaveFields segment.now.texts (map stat_view stats.now) }
    requires limits { IsWithinLimits (segment.now.blocks ∷ []) }
    requires length { length docs.now ≡ document_total segment.now.blocks }
    requires positions { P.positions postings.now ≡ document_total segment.now.blocks }
    requires lists { (i : ℕ) → i < bound → P.has_list postings.now i }
    requires small { bound ≤ 4_294_967_296 }
    requires keyed { (i : ℕ) → i < bound → P.has_key postings.now (pos i) }
    requires apart { AreApart (P.key postings.now) bound }
    requires stats { into.old.stats ≡ map stat_view stats.now }
    requires add_up { CellsAddUp (P.key postings.now)
        (held_stats segment.now.blocks (P.holds postings.now) bound into.old.stats (positions docs.now))
        bound into.old.entries }
    ensures { OnOk result (HaveAdded (P.key postings.now)
        (held_stats segment.now.blocks (P.holds postings.now) bound into.old.stats (positions docs.now))
        bound into.old into.new) }
{
    let mut picked = Vec::new(alloc);
    for number in 0..bound {
        pick(docs, postings.positions_of(number), &mut picked)?;
        add_positions(alloc, segment, stats, &picked, number, postings, into)?;
    }
    Ok(())
}

/// Combines into the key of each number below the bound the statistics of the documents in the set that it counts,
/// where there are such documents. The documents of a number are read one after another.
pub fn add_postings<P: Postings + Keys>(
    alloc: Global,
    segment: &Segment,
    docs: &DocSet,
    stats: &[Stat],
    bound: usize,
    postings: &P,
    into: &mut Tally,
) -> Result<(), WantMemory>
    requires fields { HaveFields segment.now.texts (map stat_view stats.now) }
    requires limits { IsWithinLimits (segment.now.blocks ∷ []) }
    requires length { length docs.now ≡ document_total segment.now.blocks }
    requires positions { P.positions postings.now ≡ document_total segment.now.blocks }
    requires lists { (i : ℕ) → i < bound → P.has_list postings.now i }
    requires small { bound ≤ 4_294_967_296 }
    requires keyed { (i : ℕ) → i < bound → P.has_key postings.now (pos i) }
    requires apart { AreApart (P.key postings.now) bound }
    requires stats { into.old.stats ≡ map stat_view stats.now }
    requires add_up { CellsAddUp (P.key postings.now)
        (held_stats segment.now.blocks (P.holds postings.now) bound into.old.stats (positions docs.now))
        bound into.old.entries }
    ensures { OnOk result (HaveAdded (P.key postings.now)
        (held_stats segment.now.blocks (P.holds postings.now) bound into.old.stats (positions docs.now))
        bound into.old into.new) }
{
    if docs.count() == docs.len() {
        add_whole(alloc, segment, docs, stats, bound, postings, into)
    } else {
        add_picked(alloc, segment, docs, stats, bound, postings, into)
    }
}
