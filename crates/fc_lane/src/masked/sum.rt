// The sum of the integers that one word picks.
ghost use Rattle.std.specs.Prelude.{◌≡◌, ◌≤◌, ◌<◌, ◌^◌, [], ◌∷◌, length, nat_abs, sum_by};
ghost use Rattle.fc_spec.specs.requests.Statistics.{total_of};
ghost use Rattle.fc_spec.specs.scripts.ScriptTotals.{total_limit};
ghost use Rattle.fc_lane.specs.Masked.{masked};

use std::simd::prelude::*;

// There is a value for each bit.
pub(super) fn sum_of_word(part: &[i64], word: u64) -> i64
    requires few { length part.now ≤ 64 }
    requires within { word < 2 ^ length part.now }
    requires small { sum_by nat_abs part.now ≤ total_limit }
    ensures { result ≡ total_of (masked (word ∷ []) part.now) }
{
    match word {
        0 => 0,
        u64::MAX => sum_of_all(part),
        _ => sum_of_bits(part, word),
    }
}

// All added up.
fn sum_of_all(values: &[i64]) -> i64
    requires full { length values.now ≡ 64 }
    requires small { sum_by nat_abs values.now ≤ total_limit }
    ensures { result ≡ total_of values.now }
{
    i64x64::from_slice(values).reduce_sum()
}

fn sum_of_bits(part: &[i64], word: u64) -> i64
    requires few { length part.now ≤ 64 }
    requires within { word < 2 ^ length part.now }
    requires small { sum_by nat_abs part.now ≤ total_limit }
    ensures { result ≡ total_of (masked (word ∷ []) part.now) }
{
    let mut sum = 0;
    let mut left = word;
    while left != 0 {
        sum += part[left.trailing_zeros() as usize];
        left &= left - 1;
    }
    sum
}
