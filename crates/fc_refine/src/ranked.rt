// What is ranked.
ghost use Rattle.std.specs.Prelude.{◌≡◌};
ghost use Rattle.fc_spec.specs.requests.Ranks.{Entry};
ghost use Rattle.fc_base.specs.View.{val_view};
ghost use Rattle.fc_partial.specs.StatsView.{stats_view};

use fc_base::Val;
use fc_partial::Stats;

/// A value with the count and the statistics of its bucket, whatever else is kept with them.
pub trait Ranked {
    ghost entry: { Self → Entry };

    /// The value.
    fn val(&self) -> &Val
        ensures { val_view result.now ≡ (entry self.now).val };

    /// The count and the statistics of its bucket.
    fn stats(&self) -> &Stats
        ensures { stats_view result.now ≡ (entry self.now).stats };
}
