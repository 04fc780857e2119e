// The kernels against plain loops, at lengths around whole vectors.
use crate::{and_not_words, and_words, count_bits, mask_between, or_words};
use std::alloc::Global;
use std::process::Abort;
use std::test::Fail;

fn check_words(rt: &impl Abort, words: &[u64], others: &[u64], alloc: Global) -> Result<(), Fail> {
    assert!(rt; words.len() == others.len());
    let mut both = words.to_vec(alloc)?;
    and_words(&mut both, others);
    let mut either = words.to_vec(alloc)?;
    or_words(&mut either, others);
    let mut without = words.to_vec(alloc)?;
    and_not_words(&mut without, others);
    for (i, word) in words.iter().enumerate() {
        assert!(rt; both[i] == *word & others[i]);
        assert!(rt; either[i] == *word | others[i]);
        assert!(rt; without[i] == *word & !others[i]);
    }
    Ok(())
}

fn check_mask(rt: &impl Abort, values: &[i64], alloc: Global) -> Result<(), Fail> {
    assert!(rt; values.len() <= 192);
    let mut mask = vec![in alloc; u64::MAX; 3]?;
    mask_between(values, 20, 60, &mut mask);
    let mut wanted = 0u64;
    for (at, value) in values.iter().enumerate() {
        let within = 20 <= *value && *value <= 60;
        assert!(rt; (mask[at / 64] >> (at % 64) & 1 == 1) == within);
        wanted = wanted.wrapping_add(u64::from(within));
    }
    assert!(rt; count_bits(&mask) == wanted);
    Ok(())
}

#[test]
fn kernels_are_loops(rt: HostRuntime) -> Result<(), Fail> {
    let alloc = rt.alloc();
    let mut word = [u64::MAX];
    mask_between(&[i64::MIN, -1, 0, i64::MAX], -1, 0, &mut word);
    assert!(rt; word[0] == 6);
    for count in [0i64, 1, 63, 64, 65, 129] {
        let mut values = Vec::new(alloc);
        let mut words = Vec::new(alloc);
        let mut others = Vec::new(alloc);
        for i in 0..count {
            values.push(i.wrapping_mul(37) % 101)?;
            words.push(i.unsigned_abs().wrapping_mul(0x9e37_79b9_7f4a_7c15))?;
            others.push(i.unsigned_abs().wrapping_mul(0xc2b2_ae3d_27d4_eb4f))?;
        }
        check_words(&rt, &words, &others, alloc)?;
        check_mask(&rt, &values, alloc)?;
    }
    Ok(())
}
