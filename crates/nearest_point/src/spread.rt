ghost use Rattle.limits.specs.declared.TheConstants.{MOST_WINNERS};
ghost use Rattle.nearest_point.specs.Numbers.{AreBelow, place, spread};
ghost use Rattle.std.specs.Prelude.{IfOk, length, ℕ, ◌<◌, ◌^◌, ◌≡◌, ◌≤◌};
ghost use Rattle.wide_num.specs.Sums.{nth};

use std::alloc::{AllocError, Global};

/// One number for each of `count` rows: the sum of the multipliers at the places that list it.
pub(crate) fn spread_out(
    alloc: Global,
    count: usize,
    rows: &[usize],
    multipliers: &[i128],
) -> Result<Vec<i128>, AllocError>
    requires few { (length rows.now ≤ MOST_WINNERS) × (length multipliers.now ≡ length rows.now) }
    requires within { (i : ℕ) → i < length rows.now → place rows.now i < count }
    requires small { AreBelow (2 ^ 106) multipliers.now }
    ensures lengths { IfOk result (λ v. length v.items ≡ count) }
    ensures numbers { IfOk result
        (λ v. (q : ℕ) → q < count
        → nth v.items q ≡ spread (length rows.now) (place rows.now) (nth multipliers.now) q) }
    ensures small { IfOk result (λ v. AreBelow (2 ^ 109) v.items) }
{
    let mut list = vec![in alloc; 0i128; count]?;
    for (i, row) in rows.iter().enumerate() {
        list[*row] += multipliers[i];
    }
    Ok(list)
}
