// Which keys numbers have.
ghost use Rattle.std.specs.Prelude.{◌≡◌, ℤ, OnOk};
ghost use Rattle.std.specs.Option.{ForSome};
ghost use Rattle.fc_spec.specs.requests.Buckets as definition;
ghost use Rattle.fc_partial.specs.Adding.{AddUp, HasShape};
ghost use Rattle.fc_partial.specs.StatsView.{stats_view};
ghost use Rattle.fc_partial.specs.Tallying.{AddsTo, entry_at};

use fc_base::WantMemory;
use fc_partial::{Stats, Tally};

/// The key of a tally that each number has.
pub trait Keys {
    // Which numbers have a key, and which one.
    ghost has_key: { Self → ℤ → Type 0 };

    ghost key: { Self → ℤ → definition.Key };

    /// Combines statistics with those of the key of a number.
    fn add(&self, number: i64, stats: &Stats, into: &mut Tally) -> Result<(), WantMemory>
        requires number { has_key self.now number }
        requires shaped { HasShape into.old.stats (stats_view stats.now) }
        requires fits { ForSome (entry_at into.old.entries (key self.now number))
            (λ there. AddUp there (stats_view stats.now)) }
        ensures stats { OnOk result (into.new.stats ≡ into.old.stats) }
        ensures keys { OnOk result
            (AddsTo into.old into.new (key self.now number) (stats_view stats.now)) };
}
