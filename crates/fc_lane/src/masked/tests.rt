// The masked statistics, against a plain loop.
ghost use Rattle.std.specs.Prelude.{◌≤◌, ◌*◌, length, nat_abs, sum_by};
ghost use Rattle.fc_spec.specs.documents.Bits.{words_for};
ghost use Rattle.fc_spec.specs.scripts.ScriptTotals.{total_limit};

use crate::{masked_count, masked_max, masked_min, masked_sum};
use std::process::Abort;

// Of both signs, and in no order.
fn values() -> [i64; 129]
    ensures { sum_by nat_abs result ≤ 50 * 129 }
{
    let mut values = [0; 129];
    for at in 0..129 {
        values[at] = (37 * at % 101) as i64 - 50;
    }
    values
}

fn check_against_loop(rt: &impl Abort, values: &[i64], mask: &[u64])
    requires room { words_for (length values.now) ≤ length mask.now }
    requires small { sum_by nat_abs values.now ≤ total_limit }
{
    let mut sum = 0i64;
    let mut least = None;
    let mut greatest = None;
    let mut count = 0u64;
    for (at, value) in values.iter().enumerate() {
        if mask[at / 64] >> (at % 64) & 1 == 1 {
            sum = sum.wrapping_add(*value);
            least = Some(least.unwrap_or(*value).min(*value));
            greatest = Some(greatest.unwrap_or(*value).max(*value));
            count = count.wrapping_add(1);
        }
    }
    assert!(rt; masked_sum(values, mask) == sum);
    assert!(rt; masked_min(values, mask) == least);
    assert!(rt; masked_max(values, mask) == greatest);
    assert!(rt; masked_count(values.len(), mask) == count);
}

#[test]
fn bits_of_one_word(rt: HostRuntime) {
    let values = [5, -7, 9];
    assert!(rt; masked_sum(&values, &[5]) == 14);
    assert!(rt; masked_min(&values, &[5]) == Some(5));
    assert!(rt; masked_max(&values, &[5]) == Some(9));
    assert!(rt; masked_min(&values, &[0]) == None);
    assert!(rt; masked_max(&values, &[0]) == None);
}

#[test]
fn lists_of_several_lengths(rt: HostRuntime) {
    let values = values();
    for len in [0usize, 1, 63, 64, 65, 129] {
        for word in [u64::MAX, 0xaaaa_aaaa_aaaa_aaaa, 1 << 63, u64::MAX - 1, 0] {
            check_against_loop(&rt, &values[..len.min(129)], &[word; 3]);
        }
    }
}
