// The keys of integers.
use fc_base::WantMemory;
use fc_count::Keys;
use fc_partial::{Stats, Tally};

/// Each number is the integer whose key it has.
#[derive(Clone, Copy)]
pub(crate) struct LongKeys;

impl Keys for LongKeys {
    ghost use Rattle.fc_partial.specs.TallyParts.{long_key};

    ghost has_key = { λ keys n. Unit {0} };

    ghost key = { λ keys n. long_key n };

    fn add(&self, number: i64, stats: &Stats, into: &mut Tally) -> Result<(), WantMemory> {
        into.add_long(number, stats)
    }
}
