// The sums of a bucket.
ghost use Rattle.std.specs.Prelude.{◌≡◌, OnOk, map};
ghost use Rattle.fc_spec.specs.laws.SumsLaw as definition;
ghost use Rattle.fc_partial.specs.StatsView.{stats_view};
ghost use Rattle.fc_partial.specs.View.{stat_value_view};
ghost use Rattle.fc_told.specs.Adding.{sizes_added};
ghost use Rattle.fc_told.specs.Fitting as fitting;
ghost use Rattle.fc_told.specs.SumTests.{count_fits, size_fits};
ghost use Rattle.std.specs.Prelude.{option_map};
ghost use Rattle.fc_told.specs.TreeView.{tree_there};

use crate::ToldBucket;
use fc_base::WantMemory;
use fc_partial::{StatValue, Stats};

// What a value adds to a sum of absolute values.
fn size_of(value: &StatValue) -> u64
    ensures { result ≡ definition.size_of (stat_value_view value.now) }
{
    match value {
        StatValue::Number(number) => number.unsigned_abs(),
        StatValue::Extreme(_) => 0,
    }
}

/// Adds the absolute value of each number to the sum of its place.
pub(crate) fn add_sizes(sizes: &mut Vec<u64>, values: &[StatValue]) -> Result<(), WantMemory>
    ensures { OnOk result (sizes.new.items ≡ sizes_added sizes.old.items (map stat_value_view values.now)) }
{
    for (at, value) in values.iter().enumerate() {
        let size = size_of(value);
        if at < sizes.len() {
            sizes[at] = sizes[at].saturating_add(size);
        } else {
            sizes.push(size)?;
        }
    }
    Ok(())
}

fn count_fits(there: u64, count: u64) -> bool
    ensures { result ≡ count_fits there count }
{
    there.checked_add(count).is_some()
}

fn size_fits(there: u64, value: &StatValue) -> bool
    ensures { result ≡ size_fits there (stat_value_view value.now) }
{
    match there.checked_add(size_of(value)) {
        Some(sum) => sum < 1 << 63,
        None => false,
    }
}

fn sizes_fit(sizes: &[u64], values: &[StatValue]) -> bool
    ensures { result ≡ fitting.sizes_fit sizes.now (map stat_value_view values.now) }
{
    for (at, value) in values.iter().enumerate() {
        let there = match sizes.get(at) {
            Some(size) => *size,
            None => 0,
        };
        if !size_fits(there, value) {
            return false;
        }
    }
    true
}

/// Whether a count and values can be added to the sums of a bucket.
pub(crate) fn numbers_fit(told: Option<&ToldBucket>, stats: &Stats) -> bool
    ensures { result ≡ fitting.numbers_fit (tree_there (option_map (λ bucket. bucket.now) told.entry)) (stats_view stats.now) }
{
    match told {
        Some(bucket) => {
            count_fits(bucket.count, stats.count) && sizes_fit(&bucket.sizes, &stats.values)
        }
        None => count_fits(0, stats.count) && sizes_fit(&[], &stats.values),
    }
}
