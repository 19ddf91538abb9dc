ghost use Rattle.lin_solve.specs.Matrix.{OnlyZero};
ghost use Rattle.lin_solve.specs.Clearing.{IsGrown, IsPivot};
ghost use Rattle.lin_solve.specs.Solved.{IsSystem};
ghost use Rattle.std.specs.Prelude.{IfOk, length, pos, unsigned_abs, ◌*◌, ◌<◌, ◌^◌, ◌≡◌, ◌≢◌, ◌≤ℤ◌};
ghost use Rattle.wide_num.specs.Sums.{nth};

use crate::columns::{clearing, column};
use crate::rows::{dot, times};
use std::alloc::{AllocError, Global};
use wide_num::{NumList, div_exact, gcd};

/// The products of a row that clears all columns but one: value `i` of the solution is `far / c` and `near / c`.
#[derive(Clone, Copy, Drop)]
pub struct Pivot {
    /// The product with the column that is left, which isn't 0.
    pub c: i128,
    /// The product with the far parts of the right side.
    pub far: i128,
    /// The product with the near parts of the right side.
    pub near: i128,
}

/// The products of the row that clears all columns but the one at `i`.
pub fn pivot_at(
    alloc: Global,
    lines: &[NumList],
    i: usize,
    fars: &[i128],
    nears: &[i128],
) -> Result<Pivot, AllocError>
    requires system { IsSystem lines.now fars.now nears.now }
    requires only { OnlyZero (length lines.now) lines.now }
    requires within { i < length lines.now }
    ensures { IfOk result (λ p. IsPivot lines.now i (nth fars.now) (nth nears.now) p.c p.far p.near) }
{
    let row = clearing(alloc, lines, i)?;
    let own = column(alloc, lines, i)?;
    let c = dot(own.items(), row.items());
    let far = dot(row.items(), fars);
    let near = dot(row.items(), nears);
    Ok(Pivot { c, far, near })
}

/// The least multiple of `den` over which `far / c` and `near / c` are whole too.
pub fn grow(den: i128, c: i128, far: i128, near: i128) -> i128
    requires positive { pos 1 ≤ℤ den }
    requires apart { c ≢ pos 0 }
    requires sizes { unsigned_abs den * unsigned_abs c < 2 ^ 120 }
    requires far { unsigned_abs den * unsigned_abs far < 2 ^ 120 }
    requires near { unsigned_abs den * unsigned_abs near < 2 ^ 120 }
    requires small { unsigned_abs c < 2 ^ 120 }
    ensures { IsGrown den c far near result }
{
    let left = times(den, far);
    let right = times(den, near);
    let size = c.unsigned_abs() as i128;
    let inner = gcd(left, right);
    let shared = gcd(size, inner);
    times(den, div_exact(size, shared))
}
