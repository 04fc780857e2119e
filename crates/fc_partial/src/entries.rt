// Statistics by keys of one kind: integers, texts, or the others.
ghost use Rattle.std.specs.Prelude.{◌≡◌, ◌++◌, None, map, is_some, IfOk, OnOk, OnErr};
ghost use Rattle.std.specs.Bool.{OnTrue, OnFalse};
ghost use Rattle.std.specs.BTreeMap.{is_at};
ghost use Rattle.std.specs.Map.{lookup};
ghost use Rattle.std.specs.Option.{ForSome};
ghost use Rattle.fc_base.specs.StatisticView.{stat_view};
ghost use Rattle.fc_partial.specs.Adding.{HasShape, AddUp};
ghost use Rattle.fc_partial.specs.BucketView.{bucket_view, bare_part};
ghost use Rattle.fc_partial.specs.StatsView.{stats_view};
ghost use Rattle.fc_partial.specs.Tallying.{with_more};
ghost use Rattle.fc_partial.specs.TallyParts.{IsPart, seen_at, keyed, put_more};

use crate::{Key, PartialBucket, Stats};
use fc_base::{Name, Stat, Val, WantMemory};
use std::alloc::Global;
use std::collections::BTreeMap;

/// What is a key by itself.
pub(crate) trait OneKind: Ord + Drop {
    ghost use Rattle.fc_spec.specs.requests.Buckets as definition;
    ghost use Rattle.fc_partial.specs.View.{key_view};

    ghost key: { Self → definition.Key };

    fn into_key(self) -> Key
        ensures { key_view result ≡ key self };
}

impl OneKind for i64 {
    ghost use Rattle.fc_partial.specs.TallyParts.{long_key};

    ghost key = { long_key };

    fn into_key(self) -> Key {
        Key::Value(Val::Long(self))
    }
}

impl OneKind for Name {
    ghost use Rattle.fc_partial.specs.TallyParts.{text_key};

    ghost key = { text_key };

    fn into_key(self) -> Key {
        Key::Value(Val::Text(self))
    }
}

impl OneKind for Key {
    ghost use Rattle.fc_partial.specs.View.{key_view};

    ghost key = { key_view };

    fn into_key(self) -> Key {
        self
    }
}

// Combines statistics with those that the key has, and tells whether it has any.
pub(crate) fn combine_at<K: Ord>(
    entries: &mut BTreeMap<K, Stats>,
    statistics: &[Stat],
    key: &K,
    stats: &Stats,
) -> bool
    requires part { IsPart K.cmp (map stat_view statistics.now) entries.old }
    requires shaped { HasShape (map stat_view statistics.now) (stats_view stats.now) }
    requires fits { ForSome (lookup (is_at (K.cmp key.now)) (seen_at entries.old))
        (λ there. AddUp there (stats_view stats.now)) }
    ensures there { result ≡ is_some (lookup (is_at (K.cmp key.now)) (seen_at entries.old)) }
    ensures added { OnTrue result (seen_at entries.new
        ≡ put_more K.cmp (map stat_view statistics.now) (seen_at entries.old) key.now (stats_view stats.now)) }
    ensures same { OnFalse result (entries.new.entries ≡ entries.old.entries) }
    ensures part { IsPart K.cmp (map stat_view statistics.now) entries.new }
{
    match entries.get_mut(key) {
        Some(there) => {
            there.combine(statistics, stats);
            true
        }
        None => false,
    }
}

// Gives a key that has no statistics these.
pub(crate) fn put<K: Ord + Drop>(
    alloc: Global,
    entries: &mut BTreeMap<K, Stats>,
    statistics: &[Stat],
    key: K,
    stats: &Stats,
) -> Result<(), WantMemory>
    requires part { IsPart K.cmp (map stat_view statistics.now) entries.old }
    requires shaped { HasShape (map stat_view statistics.now) (stats_view stats.now) }
    requires absent { lookup (is_at (K.cmp key)) (seen_at entries.old) ≡ None }
    ensures added { OnOk result (seen_at entries.new
        ≡ put_more K.cmp (map stat_view statistics.now) (seen_at entries.old) key (stats_view stats.now)) }
    ensures err { OnErr result (entries.new.entries ≡ entries.old.entries) }
    ensures part { IsPart K.cmp (map stat_view statistics.now) entries.new }
{
    let copy = stats.copy(alloc)?;
    entries.insert(key, copy)?;
    Ok(())
}

// Combines statistics with those that the key has, or gives it these where it has none.
pub(crate) fn add_at<K: Ord + Drop>(
    alloc: Global,
    entries: &mut BTreeMap<K, Stats>,
    statistics: &[Stat],
    key: K,
    stats: &Stats,
) -> Result<(), WantMemory>
    requires part { IsPart K.cmp (map stat_view statistics.now) entries.old }
    requires shaped { HasShape (map stat_view statistics.now) (stats_view stats.now) }
    requires fits { ForSome (lookup (is_at (K.cmp key)) (seen_at entries.old))
        (λ there. AddUp there (stats_view stats.now)) }
    ensures added { OnOk result (seen_at entries.new
        ≡ put_more K.cmp (map stat_view statistics.now) (seen_at entries.old) key (stats_view stats.now)) }
    ensures err { OnErr result (entries.new.entries ≡ entries.old.entries) }
    ensures part { IsPart K.cmp (map stat_view statistics.now) entries.new }
{
    if combine_at(entries, statistics, &key, stats) {
        return Ok(());
    }
    put(alloc, entries, statistics, key, stats)
}

// Appends a bucket for each key, in the order of keys, with nothing nested.
pub(crate) fn push_buckets<K: OneKind>(
    alloc: Global,
    entries: BTreeMap<K, Stats>,
    buckets: &mut Vec<PartialBucket>,
) -> Result<(), WantMemory>
    ensures { OnOk result (map bucket_view buckets.new.items
        ≡ map bucket_view buckets.old.items ++ map bare_part (keyed K.key entries)) }
{
    for (key, stats) in entries {
        buckets.push(PartialBucket {
            key: key.into_key(),
            stats,
            nodes: Vec::new(alloc),
        })?;
    }
    Ok(())
}
