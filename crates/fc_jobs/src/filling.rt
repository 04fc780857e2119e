// Buckets of keys, also where they have no document.
ghost use Rattle.std.specs.Prelude.{◌≡◌, ◌∷◌, ◌++◌, [], IfOk, OnOk, map, unwrap_or};
ghost use Rattle.fc_spec.specs.replies.Printed as printed;
ghost use Rattle.fc_spec.specs.requests.Buckets.{gap as gap_key};
ghost use Rattle.fc_spec.specs.requests.Statistics.{stats_over};
ghost use Rattle.fc_spec.specs.words.Lists.{numbers_below};
ghost use Rattle.fc_partial.specs.BucketView.{bare_part, bucket_view};
ghost use Rattle.fc_partial.specs.StatsView.{stats_view};
ghost use Rattle.fc_partial.specs.Tallying.{IsTally, entry_at};
ghost use Rattle.fc_partial.specs.View.{key_view};
ghost use Rattle.fc_request.specs.FacetNode.{kind_view};
ghost use Rattle.fc_request.specs.Ranged.{IsRange, keys_of_range};
ghost use Rattle.fc_answers.specs.Listed.{entry_or_none};

use fc_base::WantMemory;
use fc_partial::{Key, PartialBucket, Stats, Tally};
use fc_request::{Kind, buckets_of_range};
use std::alloc::Global;

// The keys of so many gaps, in their order.
fn gap_keys(alloc: Global, gaps: u32) -> Result<Vec<Key>, WantMemory>
    ensures { IfOk result (λ keys. map key_view keys.items ≡ map gap_key (numbers_below gaps)) }
{
    let mut keys = Vec::new(alloc);
    for gap in 0..gaps {
        keys.push(Key::Gap(gap))?;
    }
    Ok(keys)
}

fn push_asked(keys: &mut Vec<Key>, wanted: bool, key: Key) -> Result<(), WantMemory>
    ensures { OnOk result (map key_view keys.new.items ≡ map key_view keys.old.items ++ printed.asked wanted (key_view key)) }
{
    if wanted {
        keys.push(key)?;
    }
    Ok(())
}

/// The keys of a range facet's buckets, in their order.
pub(crate) fn range_keys(alloc: Global, kind: &Kind) -> Result<Vec<Key>, WantMemory>
    requires { IsRange (kind_view kind.now) }
    ensures { IfOk result (λ keys. map key_view keys.items ≡ keys_of_range (kind_view kind.now)) }
{
    let buckets = buckets_of_range(kind);
    let mut keys = gap_keys(alloc, buckets.gaps)?;
    push_asked(&mut keys, buckets.before, Key::Before)?;
    push_asked(&mut keys, buckets.between, Key::Between)?;
    push_asked(&mut keys, buckets.after, Key::After)?;
    Ok(keys)
}

// The statistics of a key's bucket; where it has no document they are these.
fn stats_at(alloc: Global, tally: &Tally, key: &Key, none: &Stats) -> Result<Stats, WantMemory>
    requires { stats_view none.now ≡ stats_over tally.now.stats [] }
    ensures { IfOk result (λ stats. stats_view stats ≡ unwrap_or (entry_at tally.now.entries (key_view key.now)) (stats_over tally.now.stats [])) }
{
    match tally.get(key) {
        Some(stats) => {
            let copy = stats.copy(alloc)?;
            Ok(copy)
        }
        None => {
            let copy = none.copy(alloc)?;
            Ok(copy)
        }
    }
}

// The bucket of a key, with nothing nested; its statistics are these where it has no document.
fn bucket_at(
    alloc: Global,
    tally: &Tally,
    key: Key,
    none: &Stats,
) -> Result<PartialBucket, WantMemory>
    requires { stats_view none.now ≡ stats_over tally.now.stats [] }
    ensures { IfOk result (λ bucket. bucket_view bucket ≡ bare_part (entry_or_none tally.now.stats tally.now.entries (key_view key))) }
{
    let stats = stats_at(alloc, tally, &key, none)?;
    Ok(PartialBucket {
        key,
        stats,
        nodes: Vec::new(alloc),
    })
}

/// The bucket of a key, with nothing nested. It may have no document.
pub(crate) fn bucket_of(alloc: Global, tally: &Tally, key: Key) -> Result<PartialBucket, WantMemory>
    ensures bucket { IfOk result (λ bucket. bucket_view bucket ≡ bare_part (entry_or_none tally.now.stats tally.now.entries (key_view key))) }
    ensures tally { IsTally tally.now }
{
    let none = tally.neutral()?;
    let bucket = bucket_at(alloc, tally, key, &none)?;
    Ok(bucket)
}

/// The buckets of these keys; the statistics of those without documents are these.
pub(crate) fn filled(
    alloc: Global,
    tally: &Tally,
    keys: Vec<Key>,
    none: &Stats,
) -> Result<Vec<PartialBucket>, WantMemory>
    requires { stats_view none.now ≡ stats_over tally.now.stats [] }
    ensures { IfOk result (λ list. map bucket_view list.items
        ≡ map bare_part (map (entry_or_none tally.now.stats tally.now.entries) (map key_view keys.items))) }
{
    let mut list = Vec::with_capacity(alloc, keys.len())?;
    for key in keys {
        let bucket = bucket_at(alloc, tally, key, none)?;
        list.push(bucket)?;
    }
    Ok(list)
}
