// Words of 64 bits as sets of positions, and how many positions stand below one.
ghost use Rattle.std.specs.Prelude.{◌≡◌, ◌==◌, ◌+◌, ◌*◌, ◌/◌, ◌<◌, ◌≤◌, ◌^◌, ℕ, length, slice_index, sum, take, vec_len, true, All, IfOk, Option, Some, None, if◌then◌else◌};
ghost use Rattle.fc_spec.specs.documents.Bits.{has_bit, words_for, first_bits, HasBits};
ghost use Rattle.std.specs.Bool.{OnTrue};
ghost use Rattle.std.specs.List.Sorted.{IsStrictlyIncreasing};
ghost use Rattle.fc_lists.specs.Among.{is_among};
ghost use Rattle.fc_lists.specs.Ranks.{bits_below};

use crate::sums::running_sums;
use fc_base::WantMemory;
use fc_docset::word_count;
use std::alloc::Global;

/// Makes the bits exactly those of the positions. Bit j of word i stands for position 64 i + j.
pub fn mark(positions: &[u32], words: &mut [u64])
    requires { All (λ at. at / 64 < length words.old) positions.now }
    ensures { (at : ℕ) → has_bit words.new at ≡ is_among at positions.now }
{
    words.fill(0);
    for at in positions {
        words[(*at / 64) as usize] |= 1 << (*at % 64);
    }
}

/// Makes the bits those of other words, past the last of which there are only 0s.
pub fn copy_bits(words: &[u64], into: &mut [u64])
    requires { length words.now ≤ length into.old }
    ensures { (at : ℕ) → has_bit into.new at ≡ has_bit words.now at }
{
    for (i, word) in into.iter_mut().enumerate() {
        *word = if i < words.len() { words[i] } else { 0 };
    }
}

/// Makes the bits those of other words, for the positions below `len` alone: all others are 0s.
pub fn copy_front(words: &[u64], len: u32, into: &mut [u64])
    requires enough { words_for len ≤ length words.now }
    requires room { words_for len ≤ length into.old }
    ensures { HasBits into.new (first_bits len words.now) }
{
    copy_bits(&words[..word_count(len)], into);
    let used = len % 64;
    if used != 0 {
        into[(len / 64) as usize] &= (1 << used) - 1;
    }
}

/// As few words as hold the bits of the positions, which ascend.
pub fn words_of(alloc: Global, positions: &[u32]) -> Result<Vec<u64>, WantMemory>
    requires { IsStrictlyIncreasing positions.now }
    ensures bits { IfOk result (λ words. (at : ℕ) →
        has_bit words.items at ≡ is_among at positions.now) }
    ensures few { IfOk result (λ words. (len : ℕ) → All (λ at. at < len) positions.now →
        vec_len words ≤ words_for len) }
{
    let count = match positions.last() {
        Some(last) => (*last / 64) as usize + 1,
        None => 0,
    };
    let mut words = vec![in alloc; 0; count]?;
    mark(positions, &mut words);
    Ok(words)
}

/// How many bits before each word are 1.
pub fn bits_before(alloc: Global, words: &[u64]) -> Result<Vec<u32>, WantMemory>
    requires { bits_below (64 * length words.now) words.now < 2 ^ 32 }
    ensures len { IfOk result (λ before. vec_len before ≡ length words.now + 1) }
    ensures counts { IfOk result (λ before. (i : ℕ) → i ≤ length words.now →
        slice_index before.items i ≡ bits_below (64 * i) words.now) }
{
    let ones: Vec<u32> = words.iter().map(|word| word.count_ones()).collect(alloc)?;
    let before = running_sums(alloc, &ones)?;
    Ok(before)
}

/// How many bits below a position are 1, where its own is.
pub fn rank(words: &[u64], before: &[u32], at: u32) -> Option<u32>
    requires len { length words.now ≤ length before.now }
    requires before { (i : ℕ) → i < length words.now →
        slice_index before.now i ≡ bits_below (64 * i) words.now }
    ensures { result
        ≡ (if has_bit words.now at then Some (bits_below at words.now) else None) }
{
    let index = (at / 64) as usize;
    let word = *words.get(index)?;
    let bit = 1 << (at % 64);
    if word & bit == 0 {
        return None;
    }
    Some(before[index] + (word & (bit - 1)).count_ones())
}

/// How many bits below a position are 1, where its own is. Where it is known that all up to it are, none is counted.
pub fn rank_among(all: bool, words: &[u64], before: &[u32], at: u32) -> Option<u32>
    requires all { OnTrue all ((has_bit words.now at ≡ true) × (bits_below at words.now ≡ at)) }
    requires len { length words.now ≤ length before.now }
    requires before { (i : ℕ) → i < length words.now →
        slice_index before.now i ≡ bits_below (64 * i) words.now }
    ensures { result
        ≡ (if has_bit words.now at then Some (bits_below at words.now) else None) }
{
    if all {
        Some(at)
    } else {
        rank(words, before, at)
    }
}

/// How many bits are 1 from one position up to but not including another.
pub fn count_between(words: &[u64], from: u32, to: u32) -> u32
    requires order { from ≤ to }
    requires within { to ≤ 64 * length words.now }
    ensures { bits_below from words.now + result ≡ bits_below to words.now }
{
    let mut count = low_ones(words, to);
    for at in from / 64..to / 64 {
        count += words[at as usize].count_ones();
    }
    count - low_ones(words, from)
}

// How many bits are 1 in the word of a position, below the position.
fn low_ones(words: &[u64], at: u32) -> u32
    ensures { bits_below (64 * (at / 64)) words.now + result ≡ bits_below at words.now }
{
    match words.get((at / 64) as usize) {
        Some(word) => (*word & ((1 << (at % 64)) - 1)).count_ones(),
        None => 0,
    }
}
