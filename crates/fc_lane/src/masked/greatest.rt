// The greatest of the integers that one word picks.
ghost use Rattle.std.specs.Prelude.{◌≡◌, ◌≤◌, ◌<◌, ◌^◌, Some, [], ◌∷◌, length};
ghost use Rattle.fc_spec.specs.requests.Statistics.{greatest_of, greater};
ghost use Rattle.fc_lane.specs.Masked.{masked};

// The greater of what is there and of those that the word picks. There is a value for each bit.
pub(super) fn greatest_with_word(greatest: Option<i64>, part: &[i64], word: u64) -> Option<i64>
    requires few { length part.now ≤ 64 }
    requires within { word < 2 ^ length part.now }
    ensures { result ≡ greater greatest (greatest_of (masked (word ∷ []) part.now)) }
{
    if word == 0 {
        return greatest;
    }
    let start = greatest.unwrap_or(part[word.trailing_zeros() as usize]);
    if word == u64::MAX {
        Some(greatest_with_all(start, part))
    } else {
        Some(greatest_with_bits(start, part, word))
    }
}

// The greatest of one and all others.
fn greatest_with_all(start: i64, values: &[i64]) -> i64
    ensures { Some result ≡ greater (Some start) (greatest_of values.now) }
{
    let mut greatest = start;
    for value in values {
        greatest = greatest.max(*value);
    }
    greatest
}

fn greatest_with_bits(start: i64, part: &[i64], word: u64) -> i64
    requires few { length part.now ≤ 64 }
    requires within { word < 2 ^ length part.now }
    ensures { Some result ≡ greater (Some start) (greatest_of (masked (word ∷ []) part.now)) }
{
    let mut greatest = start;
    let mut left = word;
    while left != 0 {
        greatest = greatest.max(part[left.trailing_zeros() as usize]);
        left &= left - 1;
    }
    greatest
}
