// The least of the integers that one word picks.
ghost use Rattle.std.specs.Prelude.{◌≡◌, ◌≤◌, ◌<◌, ◌^◌, Some, [], ◌∷◌, length};
ghost use Rattle.fc_spec.specs.requests.Statistics.{least_of, lesser};
ghost use Rattle.fc_lane.specs.Masked.{masked};

// The lesser of what is there and of those that the word picks. There is a value for each bit.
pub(super) fn least_with_word(least: Option<i64>, part: &[i64], word: u64) -> Option<i64>
    requires few { length part.now ≤ 64 }
    requires within { word < 2 ^ length part.now }
    ensures { result ≡ lesser least (least_of (masked (word ∷ []) part.now)) }
{
    if word == 0 {
        return least;
    }
    let start = least.unwrap_or(part[word.trailing_zeros() as usize]);
    if word == u64::MAX {
        Some(least_with_all(start, part))
    } else {
        Some(least_with_bits(start, part, word))
    }
}

// The least of one and all others.
fn least_with_all(start: i64, values: &[i64]) -> i64
    ensures { Some result ≡ lesser (Some start) (least_of values.now) }
{
    let mut least = start;
    for value in values {
        least = least.min(*value);
    }
    least
}

fn least_with_bits(start: i64, part: &[i64], word: u64) -> i64
    requires few { length part.now ≤ 64 }
    requires within { word < 2 ^ length part.now }
    ensures { Some result ≡ lesser (Some start) (least_of (masked (word ∷ []) part.now)) }
{
    let mut least = start;
    let mut left = word;
    while left != 0 {
        least = least.min(part[left.trailing_zeros() as usize]);
        left &= left - 1;
    }
    least
}
