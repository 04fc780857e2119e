// Running sums.
ghost use Rattle.std.specs.Prelude.{◌≡◌, ◌+◌, ◌<◌, ◌≤◌, ◌^◌, ℕ, length, slice_index, sum, take, vec_len, IfOk};

use fc_base::WantMemory;
use std::alloc::Global;

/// The sum of the counts before each place, and that of all.
pub fn running_sums(alloc: Global, counts: &[u32]) -> Result<Vec<u32>, WantMemory>
    requires { sum counts.now < 2 ^ 32 }
    ensures len { IfOk result (λ sums. vec_len sums ≡ length counts.now + 1) }
    ensures sums { IfOk result (λ sums. (k : ℕ) → k ≤ length counts.now →
        slice_index sums.items k ≡ sum (take k counts.now)) }
{
    let mut sums = Vec::with_capacity(alloc, counts.len() + 1)?;
    let mut total = 0;
    for count in counts {
        sums.push(total)?;
        total += *count;
    }
    sums.push(total)?;
    Ok(sums)
}
