// Which integers lie between two others, as words of bits.
ghost use Rattle.std.specs.Prelude.{◌≡◌, ◌+◌, ◌≤◌, ◌≤ℤ◌, length, map, if◌then◌else◌, FitsSigned};
ghost use Rattle.std.specs.Int.{w64};
ghost use Rattle.std.specs.List.{All};
ghost use Rattle.std.specs.Simd.Lanes.{chunk, mask_l};
ghost use Rattle.fc_spec.specs.documents.Bits.{words_for, HasBits};
ghost use Rattle.fc_lane.specs.Between.{is_between, is_outside};

use std::simd::prelude::*;

/// Makes bit j exactly whether the integer at place j lies from `lo` to `hi`, both included. All other bits become 0.
pub fn mask_between(values: &[i64], lo: i64, hi: i64, out: &mut [u64])
    requires { words_for (length values.now) ≤ length out.old }
    ensures { HasBits out.new (map (is_between lo hi) values.now) }
{
    if lo <= hi {
        read_each(values);
        mask_from_to(values, lo, hi, out);
    } else {
        out.fill(0);
    }
}

fn mask_from_to(values: &[i64], lo: i64, hi: i64, out: &mut [u64])
    requires room { words_for (length values.now) ≤ length out.old }
    requires fit { All (FitsSigned w64) values.now }
    requires ordered { lo ≤ℤ hi }
    ensures { HasBits out.new (map (is_between lo hi) values.now) }
{
    let mut at = 0;
    for word in out.iter_mut() {
        *word = word_from(values, at, lo, hi);
        at += (values.len() - at).min(64);
    }
}

// Each integer is one of its type: the loop reads them, and leaves no code.
fn read_each(values: &[i64])
    ensures { All (FitsSigned w64) values.now }
{
    for value in values {
        let _value = *value;
    }
}

// The word of the integers from a place on, 64 at most.
fn word_from(values: &[i64], at: usize, lo: i64, hi: i64) -> u64
    requires within { at ≤ length values.now }
    requires fit { All (FitsSigned w64) values.now }
    requires ordered { lo ≤ℤ hi }
    ensures { result ≡ mask_l (map (is_between lo hi) (chunk at 64 values.now)) }
{
    if values.len() - at >= 64 {
        word_at(values, at, lo, hi)
    } else {
        word_of_few(&values[at..], lo, hi)
    }
}

// The word of the 64 integers from a place on.
fn word_at(values: &[i64], at: usize, lo: i64, hi: i64) -> u64
    requires within { at + 64 ≤ length values.now }
    requires fit { All (FitsSigned w64) values.now }
    requires ordered { lo ≤ℤ hi }
    ensures { result ≡ mask_l (map (is_between lo hi) (chunk at 64 values.now)) }
{
    let low = outside_of_half(values, at, lo, hi);
    let high = outside_of_half(values, at + 32, lo, hi);
    !(low | high << 32)
}

// Which of 32 integers from a place on do not lie between.
fn outside_of_half(values: &[i64], at: usize, lo: i64, hi: i64) -> u64
    requires within { at + 32 ≤ length values.now }
    requires fit { All (FitsSigned w64) values.now }
    requires ordered { lo ≤ℤ hi }
    ensures { result ≡ mask_l (map (is_outside lo hi) (chunk at 32 values.now)) }
{
    let low = outside_of_quarter(values, at, lo, hi);
    let high = outside_of_quarter(values, at + 16, lo, hi);
    low | high << 16
}

// Which of 16 integers from a place on do not lie between. All are turned so that `lo` becomes the least: those up to `hi` come
// first, and one comparison tells.
fn outside_of_quarter(values: &[i64], at: usize, lo: i64, hi: i64) -> u64
    requires within { at + 16 ≤ length values.now }
    requires fit { All (FitsSigned w64) values.now }
    requires ordered { lo ≤ℤ hi }
    ensures { result ≡ mask_l (map (is_outside lo hi) (chunk at 16 values.now)) }
{
    let turn = lo.wrapping_sub(i64::MIN);
    let turned = i64x16::from_slice(&values[at..]) - i64x16::splat(turn);
    turned
        .simd_gt(i64x16::splat(hi.wrapping_sub(turn)))
        .to_bitmask()
}

// The word of at most 64 integers, one by one.
fn word_of_few(values: &[i64], lo: i64, hi: i64) -> u64
    requires { length values.now ≤ 64 }
    ensures { result ≡ mask_l (map (is_between lo hi) values.now) }
{
    let mut word = 0;
    let mut at = values.len();
    while at > 0 {
        at -= 1;
        word = 2 * word + bit_of(values[at], lo, hi);
    }
    word
}

fn bit_of(value: i64, lo: i64, hi: i64) -> u64
    ensures { result ≡ (if is_between lo hi value then 1 else 0) }
{
    u64::from(lo <= value && value <= hi)
}
