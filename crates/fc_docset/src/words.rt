// Words of 64 bits: bit j of word i stands for position 64 i + j.
ghost use Rattle.std.specs.Prelude.{◌≡◌, ◌==◌, ◌<◌, ◌≤◌, ◌*◌, ◌/◌, ◌&&◌, ◌||◌, ℕ, length, not, nat_le, nat_lt};
ghost use Rattle.fc_spec.specs.documents.Bits.{has_bit, words_for};

/// How many words hold a bit for each position below `len`.
pub fn word_count(len: u32) -> usize
    ensures { result ≡ words_for len }
{
    len.div_ceil(64) as usize
}

/// Whether the bit of a position is 1.
pub fn has_bit(words: &[u64], at: u32) -> bool
    requires { at / 64 < length words.now }
    ensures { result ≡ has_bit words.now at }
{
    words[(at / 64) as usize] >> (at % 64) & 1 == 1
}

/// Makes the bit of a position 1.
pub fn set_bit(words: &mut [u64], at: u32)
    requires { at / 64 < length words.old }
    ensures { (k : ℕ) → has_bit words.new k ≡ (has_bit words.old k || (k == at)) }
{
    words[(at / 64) as usize] |= 1 << (at % 64);
}

/// Makes the bit of a position 0.
pub fn clear_bit(words: &mut [u64], at: u32)
    requires { at / 64 < length words.old }
    ensures { (k : ℕ) → has_bit words.new k ≡ (has_bit words.old k && not (k == at)) }
{
    words[(at / 64) as usize] &= !(1 << (at % 64));
}

/// Makes the bits of the positions from one up to another, which is left out, 1.
pub fn set_bits(words: &mut [u64], from: u32, to: u32)
    requires ordered { from ≤ to }
    requires within { to ≤ 64 * length words.old }
    ensures { (k : ℕ) → has_bit words.new k
        ≡ (has_bit words.old k || (nat_le from k && nat_lt k to)) }
{
    let mut at = from;
    while at < to {
        let low = at % 64;
        let count = (64 - low).min(to - at);
        words[(at / 64) as usize] |= (u64::MAX >> (64 - count)) << low;
        at += count;
    }
}

/// Clears the bits from position `len` on, where the last of the words has the last position below
/// `len`.
pub fn clear_from(words: &mut [u64], len: u32)
    requires { length words.old ≡ words_for len }
    ensures { (k : ℕ) → has_bit words.new k ≡ (has_bit words.old k && nat_lt k len) }
{
    let used = len % 64;
    if used != 0 {
        words[(len / 64) as usize] &= (1 << used) - 1;
    }
}
