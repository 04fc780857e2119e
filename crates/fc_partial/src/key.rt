// What tells buckets apart.
ghost use Rattle.std.specs.Prelude.{◌≡◌, IfOk, refl};
ghost use Rattle.std.specs.Cmp.{partial_equiv_from_equiv};
ghost use Rattle.std.specs.Ordering.{on, as_partial_cmp};
ghost use Rattle.fc_spec.specs.messages.KeyOrder.{key_cmp, same_key, key_rank};
ghost use Rattle.fc_partial.specs.View.{key_view};
ghost use Rattle.fc_partial.specs.KeyLaws.{keys_total, keys_equiv, keys_po};

use fc_base::{Val, WantMemory};
use std::alloc::Global;
use std::cmp::Ordering;

/// What tells the buckets of a facet apart. Keys stand in the order of this list; values in index
/// order, gaps by their number.
#[derive(Debug, Drop)]
pub enum Key {
    /// A value of a terms facet.
    Value(Val),
    /// A terms facet's documents without a value.
    Missing,
    /// A gap of a range facet, by its number from 0.
    Gap(u32),
    /// Below the gaps.
    Before,
    /// From the first gap to the last.
    Between,
    /// Above the gaps.
    After,
    /// A query facet's one bucket, and the root.
    Whole,
}

impl Key {
    /// Another key that is the same.
    pub fn copy(&self, alloc: Global) -> Result<Key, WantMemory>
        ensures { IfOk result (λ key. key ≡ self.now) }
    {
        Ok(match self {
            Key::Value(val) => Key::Value(val.copy(alloc)?),
            Key::Missing => Key::Missing,
            Key::Gap(number) => Key::Gap(*number),
            Key::Before => Key::Before,
            Key::Between => Key::Between,
            Key::After => Key::After,
            Key::Whole => Key::Whole,
        })
    }

    // The place of its kind in the order.
    fn rank(&self) -> u8
        ensures { result ≡ key_rank (key_view self.now) }
    {
        match self {
            Key::Value(_) => 0,
            Key::Missing => 1,
            Key::Gap(_) => 2,
            Key::Before => 3,
            Key::Between => 4,
            Key::After => 5,
            Key::Whole => 6,
        }
    }
}

impl PartialEq for Key {
    ghost eq = { on key_view same_key };

    ghost laws = { partial_equiv_from_equiv keys_equiv };

    fn eq(&self, other: &Key) -> bool {
        self.cmp(other).is_eq()
    }
}

impl Eq for Key {
    ghost laws = { keys_equiv };
}

impl Ord for Key {
    ghost cmp = { on key_view key_cmp };

    ghost total = { keys_total };

    ghost matches_partial_cmp = { λ a b. refl };

    ghost matches_eq = { λ a b. refl };

    fn cmp(&self, other: &Key) -> Ordering {
        match (self, other) {
            (Key::Value(v), Key::Value(w)) => v.cmp(w),
            (Key::Gap(i), Key::Gap(j)) => i.cmp(j),
            _ => self.rank().cmp(&other.rank()),
        }
    }
}

impl PartialOrd for Key {
    ghost partial_cmp = { as_partial_cmp (on key_view key_cmp) };

    ghost laws = { keys_po };

    fn partial_cmp(&self, other: &Key) -> Option<Ordering> {
        Some(self.cmp(other))
    }
}
