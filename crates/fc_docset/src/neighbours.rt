// The bits that are next to a position, in words of 64 bits: bit j of word i stands for position 64 i + j.
ghost use Rattle.std.specs.Prelude.{◌≡◌, ◌<◌, ◌≤◌, ◌*◌, ◌^◌, ◌&&◌, length, MatchOption};
ghost use Rattle.fc_spec.specs.documents.Bits.{has_bit};
ghost use Rattle.fc_docset.specs.Neighbours.{
  HasNoneFrom,
  HasNoneUpTo,
  IsLastUpTo,
  IsNextFrom,
  is_one,
};

// The lowest bit of a word that is 1, from a bit on.
fn lowest_from(word: u64, from: u32) -> Option<u32>
    requires { from < 64 }
    ensures { MatchOption result (HasNoneFrom (is_one word) from) (IsNextFrom (is_one word) from) }
{
    let left = word & (u64::MAX << from);
    if left == 0 {
        None
    } else {
        Some(left.trailing_zeros())
    }
}

// The highest bit of a word that is 1, up to a bit.
fn highest_up_to(word: u64, to: u32) -> Option<u32>
    requires { to < 64 }
    ensures { MatchOption result (HasNoneUpTo (is_one word) to) (IsLastUpTo (is_one word) to) }
{
    let left = word & (u64::MAX >> (63 - to));
    if left == 0 {
        None
    } else {
        Some(63 - left.leading_zeros())
    }
}

/// The first position from one on whose bit is 1.
pub fn next_bit(words: &[u64], from: u32) -> Option<u32>
    requires { 64 * length words.now ≤ 2 ^ 32 }
    ensures { MatchOption result
        (HasNoneFrom (has_bit words.now) from)
        (IsNextFrom (has_bit words.now) from) }
{
    let mut low = from % 64;
    for at in (from / 64) as usize..words.len() {
        if let Some(bit) = lowest_from(words[at], low) {
            return Some(64 * at as u32 + bit);
        }
        low = 0;
    }
    None
}

/// The first position from one on whose bit is 1 in these words and in the others.
pub fn next_in_both(words: &[u64], others: &[u64], from: u32) -> Option<u32>
    requires { 64 * length words.now ≤ 2 ^ 32 }
    ensures { MatchOption result
        (HasNoneFrom (λ at. has_bit words.now at && has_bit others.now at) from)
        (IsNextFrom (λ at. has_bit words.now at && has_bit others.now at) from) }
{
    let mut low = from % 64;
    for at in (from / 64) as usize..words.len().min(others.len()) {
        if let Some(bit) = lowest_from(words[at] & others[at], low) {
            return Some(64 * at as u32 + bit);
        }
        low = 0;
    }
    None
}

/// The last position up to one whose bit is 1.
pub fn last_bit(words: &[u64], to: u32) -> Option<u32>
    requires { to < 64 * length words.now }
    ensures { MatchOption result
        (HasNoneUpTo (has_bit words.now) to)
        (IsLastUpTo (has_bit words.now) to) }
{
    let mut high = to % 64;
    for at in (0..to / 64 + 1).rev() {
        if let Some(bit) = highest_up_to(words[at as usize], high) {
            return Some(64 * at + bit);
        }
        high = 63;
    }
    None
}
