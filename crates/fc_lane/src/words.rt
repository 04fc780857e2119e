// Words of bits, word by word.
ghost use Rattle.std.specs.Prelude.{◌≡◌, ◌*◌, ◌<◌, ◌≤◌, ◌^◌, ◌&&◌, ◌||◌, ℕ, length, not, count_by, bit_and, bit_or};
ghost use Rattle.fc_spec.specs.documents.Bits.{has_bit, first_bits};
ghost use Rattle.fc_lane.specs.Joined.{AreJoinedFrom, and_not};

use std::simd::prelude::*;

/// Keeps the bits that are 1 in both.
pub fn and_words(words: &mut [u64], others: &[u64])
    requires { length words.old ≡ length others.now }
    ensures { (k : ℕ) → has_bit words.new k ≡ (has_bit words.old k && has_bit others.now k) }
{
    let mut at = 0;
    while words.len() - at >= 8 {
        let lanes = u64x8::from_slice(&words[at..]) & u64x8::from_slice(&others[at..]);
        lanes.copy_to_slice(&mut words[at..]);
        at += 8;
    }
    and_rest(words, others, at);
}

// Keeps the bits that are 1 in both, from a word on.
fn and_rest(words: &mut [u64], others: &[u64], from: usize)
    requires { length words.old ≡ length others.now }
    ensures { AreJoinedFrom bit_and from words.old others.now words.new }
{
    for i in from..words.len() {
        words[i] &= others[i];
    }
}

/// Adds the bits that are 1 in the others.
pub fn or_words(words: &mut [u64], others: &[u64])
    requires { length words.old ≡ length others.now }
    ensures { (k : ℕ) → has_bit words.new k ≡ (has_bit words.old k || has_bit others.now k) }
{
    let mut at = 0;
    while words.len() - at >= 8 {
        let lanes = u64x8::from_slice(&words[at..]) | u64x8::from_slice(&others[at..]);
        lanes.copy_to_slice(&mut words[at..]);
        at += 8;
    }
    or_rest(words, others, at);
}

// Adds the bits that are 1 in the others, from a word on.
fn or_rest(words: &mut [u64], others: &[u64], from: usize)
    requires { length words.old ≡ length others.now }
    ensures { AreJoinedFrom bit_or from words.old others.now words.new }
{
    for i in from..words.len() {
        words[i] |= others[i];
    }
}

/// Clears the bits that are 1 in the others.
pub fn and_not_words(words: &mut [u64], others: &[u64])
    requires { length words.old ≡ length others.now }
    ensures { (k : ℕ) → has_bit words.new k ≡ (has_bit words.old k && not (has_bit others.now k)) }
{
    let mut at = 0;
    while words.len() - at >= 8 {
        let lanes = u64x8::from_slice(&words[at..]) & !u64x8::from_slice(&others[at..]);
        lanes.copy_to_slice(&mut words[at..]);
        at += 8;
    }
    and_not_rest(words, others, at);
}

// Clears the bits that are 1 in the others, from a word on.
fn and_not_rest(words: &mut [u64], others: &[u64], from: usize)
    requires { length words.old ≡ length others.now }
    ensures { AreJoinedFrom and_not from words.old others.now words.new }
{
    for i in from..words.len() {
        words[i] &= !others[i];
    }
}

/// How many bits are 1.
pub fn count_bits(words: &[u64]) -> u64
    requires { length words.now < 2 ^ 58 }
    ensures { result ≡ count_by (λ here. here) (first_bits (64 * length words.now) words.now) }
{
    let mut count = 0;
    for word in words {
        count += u64::from(word.count_ones());
    }
    count
}
