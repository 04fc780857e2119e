// The keys of gaps.
ghost use Rattle.std.specs.Prelude.{◌≡◌, ◌^◌, pos, ◌≤ℤ◌, ◌<ℤ◌};
ghost use Rattle.fc_range.specs.GapKeys.{gap_key};

use fc_base::WantMemory;
use fc_count::Keys;
use fc_partial::{Key, Stats, Tally};

/// The keys of the gaps of a range facet, by their numbers.
#[derive(Debug, Drop)]
pub struct GapKeys;

impl Keys for GapKeys {
    ghost has_key = { λ _ number. (pos 0 ≤ℤ number) × (number <ℤ pos (2 ^ 32)) };

    ghost key = { λ _ number. gap_key number };

    fn add(&self, number: i64, stats: &Stats, into: &mut Tally) -> Result<(), WantMemory> {
        into.add(Key::Gap(number as u32), stats)?;
        Ok(())
    }
}
