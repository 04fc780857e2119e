// Statistics by key.
ghost use Rattle.std.specs.Prelude.{◌≡◌, [], map, IfOk, OnOk, OnErr, option_map};
ghost use Rattle.std.specs.Option.{ForSome};
ghost use Rattle.fc_spec.specs.requests.Buckets.{value};
ghost use Rattle.fc_spec.specs.requests.Statistics.{stats_over};
ghost use Rattle.fc_base.specs.StatisticView.{stat_view};
ghost use Rattle.fc_base.specs.View.{val_view};
ghost use Rattle.fc_partial.specs.View.{key_view};
ghost use Rattle.fc_partial.specs.StatsView.{stats_view};
ghost use Rattle.fc_partial.specs.BucketView.{buckets_view, bare};
ghost use Rattle.fc_partial.specs.Adding.{HasShape, AddUp};
ghost use Rattle.fc_partial.specs.Tallying.{AddsTo, IsTally, entry_at, added};
ghost use Rattle.fc_partial.specs.TallyParts.{long_key, text_key};

use crate::entries::{add_at, combine_at, push_buckets, put};
use crate::{Key, PartialBucket, Stats};
use fc_base::{Name, Stat, Val, WantMemory};
use std::alloc::Global;
use std::collections::BTreeMap;
use std::marker::Model;

/// Statistics by key, seen as which they are and the list of entries in the order of their keys.
#[derive(Debug, Drop)]
pub struct Tally {
    alloc: Global,
    stats: Vec<Stat>,
    longs: BTreeMap<i64, Stats>,
    texts: BTreeMap<Name, Stats>,
    // Those of the keys that are no values.
    others: BTreeMap<Key, Stats>,
}

impl Model for Tally {
    ghost use Rattle.fc_partial.specs.Tallied.{Tallied};
    ghost use Rattle.fc_partial.specs.TallyView.{IsSound, tally_view};

    ghost Value = { Tallied };

    ghost view = { tally_view };

    ghost invariant = { IsSound };
}

impl Tally {
    /// A tally of these statistics without a key.
    pub fn new(alloc: Global, stats: Vec<Stat>) -> Result<Tally, WantMemory>
        ensures { IfOk result (λ tally. tally
            ≡ record { stats = map stat_view stats.items; entries = [] }) }
    {
        Ok(Tally {
            alloc,
            stats,
            longs: BTreeMap::new(alloc),
            texts: BTreeMap::new(alloc),
            others: BTreeMap::new(alloc),
        })
    }

    /// Combines statistics with those that the key has, or gives it these where it has none.
    pub fn add(&mut self, key: Key, stats: &Stats) -> Result<(), WantMemory>
        requires shaped { HasShape self.old.stats (stats_view stats.now) }
        requires fits { ForSome (entry_at self.old.entries (key_view key))
            (λ there. AddUp there (stats_view stats.now)) }
        ensures ok { OnOk result (self.new ≡ added self.old (key_view key) (stats_view stats.now)) }
        ensures keys { OnOk result
            (AddsTo self.old self.new (key_view key) (stats_view stats.now)) }
        ensures err { OnErr result (self.new ≡ self.old) }
    {
        match key {
            Key::Value(val) => self.add_val(val, stats)?,
            other => add_at(self.alloc, &mut self.others, &self.stats, other, stats)?,
        }
        Ok(())
    }

    // Adds at the key of a value.
    fn add_val(&mut self, val: Val, stats: &Stats) -> Result<(), WantMemory>
        requires shaped { HasShape self.old.stats (stats_view stats.now) }
        requires fits { ForSome (entry_at self.old.entries (value (val_view val)))
            (λ there. AddUp there (stats_view stats.now)) }
        ensures ok { OnOk result
            (self.new ≡ added self.old (value (val_view val)) (stats_view stats.now)) }
        ensures err { OnErr result (self.new ≡ self.old) }
    {
        match val {
            Val::Long(number) => self.add_long(number, stats)?,
            Val::Text(text) => add_at(self.alloc, &mut self.texts, &self.stats, text, stats)?,
        }
        Ok(())
    }

    /// Adds at the key of an integer.
    pub fn add_long(&mut self, number: i64, stats: &Stats) -> Result<(), WantMemory>
        requires shaped { HasShape self.old.stats (stats_view stats.now) }
        requires fits { ForSome (entry_at self.old.entries (long_key number))
            (λ there. AddUp there (stats_view stats.now)) }
        ensures ok { OnOk result (self.new ≡ added self.old (long_key number) (stats_view stats.now)) }
        ensures keys { OnOk result
            (AddsTo self.old self.new (long_key number) (stats_view stats.now)) }
        ensures err { OnErr result (self.new ≡ self.old) }
    {
        add_at(self.alloc, &mut self.longs, &self.stats, number, stats)?;
        Ok(())
    }

    /// Adds at the key of a text, which is copied only where it has no statistics yet.
    pub fn add_text(&mut self, text: &Name, stats: &Stats) -> Result<(), WantMemory>
        requires shaped { HasShape self.old.stats (stats_view stats.now) }
        requires fits { ForSome (entry_at self.old.entries (text_key text.now))
            (λ there. AddUp there (stats_view stats.now)) }
        ensures ok { OnOk result (self.new ≡ added self.old (text_key text.now) (stats_view stats.now)) }
        ensures keys { OnOk result
            (AddsTo self.old self.new (text_key text.now) (stats_view stats.now)) }
        ensures err { OnErr result (self.new ≡ self.old) }
    {
        if combine_at(&mut self.texts, &self.stats, text, stats) {
            return Ok(());
        }
        let name = text.copy(self.alloc)?;
        put(self.alloc, &mut self.texts, &self.stats, name, stats)?;
        Ok(())
    }

    /// The statistics of a key. There are none where it has none.
    pub fn get(&self, key: &Key) -> Option<&Stats>
        ensures found { option_map (λ stats. stats_view stats.now) result
            ≡ entry_at self.now.entries (key_view key.now) }
        ensures tally { IsTally self.now }
    {
        match key {
            Key::Value(val) => self.get_val(val),
            other => self.others.get(other),
        }
    }

    // The statistics of the key of a value.
    fn get_val(&self, val: &Val) -> Option<&Stats>
        ensures found { option_map (λ stats. stats_view stats.now) result
            ≡ entry_at self.now.entries (value (val_view val.now)) }
        ensures tally { IsTally self.now }
    {
        match val {
            Val::Long(number) => self.longs.get(number),
            Val::Text(text) => self.texts.get(text),
        }
    }

    /// The statistics of a bucket without documents.
    pub fn neutral(&self) -> Result<Stats, WantMemory>
        ensures neutral { IfOk result (λ neutral. stats_view neutral ≡ stats_over self.now.stats []) }
        ensures tally { IsTally self.now }
    {
        let neutral = Stats::neutral(self.alloc, &self.stats)?;
        Ok(neutral)
    }

    /// A bucket for each key, in the order of keys, with nothing nested.
    pub fn into_buckets(self) -> Result<Vec<PartialBucket>, WantMemory>
        ensures buckets { IfOk result (λ buckets. buckets_view buckets.items ≡ bare self.entries) }
        ensures tally { IsTally self }
    {
        let Tally {
            alloc,
            stats: _,
            longs,
            texts,
            others,
        } = self;
        let values = longs.len().saturating_add(texts.len());
        let mut buckets = Vec::with_capacity(alloc, values.saturating_add(others.len()))?;
        push_buckets(alloc, longs, &mut buckets)?;
        push_buckets(alloc, texts, &mut buckets)?;
        push_buckets(alloc, others, &mut buckets)?;
        Ok(buckets)
    }
}
