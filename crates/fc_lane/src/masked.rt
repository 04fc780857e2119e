// Sums, least and greatest of the integers that a mask picks, and how many it picks.
ghost use Rattle.std.specs.Prelude.{◌≡◌, ◌≤◌, ◌%◌, ◌^◌, length, count_by, nat_abs, sum_by, take, drop};
ghost use Rattle.fc_spec.specs.documents.Bits.{first_bits, words_for};
ghost use Rattle.fc_spec.specs.requests.Statistics.{greatest_of, least_of, total_of};
ghost use Rattle.fc_spec.specs.scripts.ScriptTotals.{total_limit};
ghost use Rattle.fc_lane.specs.Masked.{masked};

mod greatest;
mod least;
mod sum;
#[cfg(test)]
mod tests;

/// The integers whose bit is 1, added up.
pub fn masked_sum(values: &[i64], mask: &[u64]) -> i64
    requires room { words_for (length values.now) ≤ length mask.now }
    requires small { sum_by nat_abs values.now ≤ total_limit }
    ensures { result ≡ total_of (masked mask.now values.now) }
{
    let mut sum = 0;
    let mut rest = values;
    for word in mask {
        let (part, behind) = next_part(rest);
        sum += sum::sum_of_word(part, bits_below(*word, part.len()));
        rest = behind;
    }
    sum
}

/// The least of the integers whose bit is 1. There is none where no such bit is 1.
pub fn masked_min(values: &[i64], mask: &[u64]) -> Option<i64>
    requires { words_for (length values.now) ≤ length mask.now }
    ensures { result ≡ least_of (masked mask.now values.now) }
{
    let mut least = None;
    let mut rest = values;
    for word in mask {
        let (part, behind) = next_part(rest);
        least = least::least_with_word(least, part, bits_below(*word, part.len()));
        rest = behind;
    }
    least
}

/// The greatest of the integers whose bit is 1. There is none where no such bit is 1.
pub fn masked_max(values: &[i64], mask: &[u64]) -> Option<i64>
    requires { words_for (length values.now) ≤ length mask.now }
    ensures { result ≡ greatest_of (masked mask.now values.now) }
{
    let mut greatest = None;
    let mut rest = values;
    for word in mask {
        let (part, behind) = next_part(rest);
        greatest = greatest::greatest_with_word(greatest, part, bits_below(*word, part.len()));
        rest = behind;
    }
    greatest
}

/// How many of the first `len` bits are 1.
pub fn masked_count(len: usize, mask: &[u64]) -> u64
    requires { words_for len ≤ length mask.now }
    ensures { result ≡ count_by (λ here. here) (first_bits len mask.now) }
{
    let mut count = 0;
    let mut left = len;
    for word in mask {
        let here = left.min(64);
        count += u64::from(bits_below(*word, here).count_ones());
        left -= here;
    }
    count
}

// The values of one word, as far as they are there, and those behind them.
fn next_part(values: &[i64]) -> (&[i64], &[i64])
    ensures part { result.0.now ≡ take 64 values.now }
    ensures few { length result.0.now ≤ 64 }
    ensures behind { result.1.now ≡ drop 64 values.now }
{
    values.split_at(values.len().min(64))
}

// The bits of a word below a place.
fn bits_below(word: u64, len: usize) -> u64
    requires { len ≤ 64 }
    ensures { result ≡ word % 2 ^ len }
{
    if len < 64 {
        word & ((1 << len) - 1)
    } else {
        word
    }
}
