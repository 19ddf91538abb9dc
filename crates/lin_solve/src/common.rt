ghost use Rattle.far_num.specs.Pairs.{far_at, near_at};
ghost use Rattle.lin_solve.specs.Pivots.{ArePivots, AreValues, HaveCommon, IsCommonDen};
ghost use Rattle.lin_solve.specs.Matrix.{OnlyZero};
ghost use Rattle.lin_solve.specs.Solved.{IsSystem};
ghost use Rattle.std.specs.Prelude.{IfOk, length, pos, unsigned_abs, ◌*ℤ◌, ◌*◌, ◌<◌, ◌^◌, ◌≡◌, ◌≢◌};
ghost use Rattle.wide_num.specs.Range.{Divides};
ghost use Rattle.wide_num.specs.Sums.{nth};

use crate::pivots::{Pivot, grow, pivot_at};
use crate::rows::times;
use far_num::{Far, FarList};
use std::alloc::{AllocError, Global};
use wide_num::{NumList, div_exact};

/// The pivots of all places.
pub fn all_pivots(
    alloc: Global,
    lines: &[NumList],
    fars: &[i128],
    nears: &[i128],
) -> Result<Vec<Pivot>, AllocError>
    requires system { IsSystem lines.now fars.now nears.now }
    requires only { OnlyZero (length lines.now) lines.now }
    ensures long { IfOk result (λ all. length all.items ≡ length lines.now) }
    ensures pivots { IfOk result (λ all.
        ArePivots lines.now (nth fars.now) (nth nears.now) (length lines.now) all.items) }
{
    let mut all = Vec::with_capacity(alloc, lines.len())?;
    for i in 0..lines.len() {
        all.push(pivot_at(alloc, lines, i, fars, nears)?)?;
    }
    Ok(all)
}

/// The least denominator over which all values are whole.
pub fn common_den(pivots: &[Pivot]) -> i128
    requires { HaveCommon pivots.now }
    ensures { IsCommonDen pivots.now result }
{
    let mut den = 1;
    for pivot in pivots {
        den = grow(den, pivot.c, pivot.far, pivot.near);
    }
    den
}

/// `den * part / c`, which is whole.
fn quotient(den: i128, c: i128, part: i128) -> i128
    requires apart { c ≢ pos 0 }
    requires room { unsigned_abs den * unsigned_abs part < 2 ^ 120 }
    requires whole { Divides c (den *ℤ part) }
    ensures { c *ℤ result ≡ den *ℤ part }
{
    let product = times(den, part);
    div_exact(product, c)
}

/// The values over the denominator.
pub fn values(alloc: Global, den: i128, pivots: &[Pivot]) -> Result<FarList, AllocError>
    requires common { HaveCommon pivots.now }
    requires den { IsCommonDen pivots.now den }
    ensures long { IfOk result (λ out. length out ≡ length pivots.now) }
    ensures values { IfOk result (λ out. AreValues pivots.now den (length pivots.now) (far_at out) (near_at out)) }
{
    let mut out = FarList::with_capacity(alloc, pivots.len())?;
    for pivot in pivots {
        let far = quotient(den, pivot.c, pivot.far);
        let near = quotient(den, pivot.c, pivot.near);
        out.push(Far { far, near })?;
    }
    Ok(out)
}
