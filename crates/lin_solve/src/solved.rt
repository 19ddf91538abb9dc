ghost use Rattle.far_num.specs.Pairs.{far_at, near_at};
ghost use Rattle.lin_solve.specs.Solved.{AreParts, IsAnswer, IsPlainSystem, IsSmallAnswer, IsSystem, IsWeightedSystem, IsWithinLimits, most};
ghost use Rattle.lin_solve.specs.Matrix.{OnlyZero};
ghost use Rattle.std.specs.Prelude.{IfOk, length, ℕ, ◌+◌, ◌^◌, ◌≡◌, ◌⊎◌};
ghost use Rattle.wide_num.specs.Sums.{nth};

use crate::common::{all_pivots, common_den, values};
use crate::kernel::kernel;
use crate::square::Square;
use far_num::{Far, FarList};
use std::alloc::{AllocError, Global};
use wide_num::NumList;

/// What a linear system has: one solution, or a dependence.
#[derive(Debug, Drop)]
pub enum Solved {
    /// The values over `den`, which is at least 1, are the only solution.
    One { den: i128, values: FarList },
    /// The matrix sends these numbers, which aren't all 0, to 0.
    Dependent { combination: NumList },
}

/// The only solution, if the lines send only 0 to 0.
fn one_solution(
    alloc: Global,
    lines: &[NumList],
    fars: &[i128],
    nears: &[i128],
) -> Result<Solved, AllocError>
    requires system { IsSystem lines.now fars.now nears.now }
    requires only { OnlyZero (length lines.now) lines.now }
    ensures answer { IfOk result (λ s. IsAnswer lines.now (nth fars.now) (nth nears.now) s) }
    ensures small { (limit edge : ℕ) → IsWithinLimits limit edge lines.now fars.now nears.now
        → IfOk result (λ s. IsSmallAnswer (limit ^ length lines.now + 1) (most limit edge (length lines.now) + 1) s) }
{
    let pivots = all_pivots(alloc, lines, fars, nears)?;
    let den = common_den(&pivots);
    let values = values(alloc, den, &pivots)?;
    Ok(Solved::One { den, values })
}

/// The solution of a system whose limits leave room. By each limit of the system the solution is small.
fn solve_within(
    alloc: Global,
    lines: &[NumList],
    fars: &[i128],
    nears: &[i128],
) -> Result<Solved, AllocError>
    requires { IsSystem lines.now fars.now nears.now }
    ensures answer { IfOk result (λ s. IsAnswer lines.now (nth fars.now) (nth nears.now) s) }
    ensures small { (limit edge : ℕ) → IsWithinLimits limit edge lines.now fars.now nears.now
        → IfOk result (λ s. IsSmallAnswer (limit ^ length lines.now + 1) (most limit edge (length lines.now) + 1) s) }
{
    match kernel(alloc, lines.len(), lines)? {
        Some(combination) => Ok(Solved::Dependent { combination }),
        None => one_solution(alloc, lines, fars, nears),
    }
}

fn far_parts(alloc: Global, right: &[Far]) -> Result<NumList, AllocError>
    ensures { IfOk result (λ y. AreParts (length right.now) (far_at right.now) y) }
{
    let mut out = NumList::with_capacity(alloc, right.len())?;
    for pair in right {
        out.push(pair.far)?;
    }
    Ok(out)
}

fn near_parts(alloc: Global, right: &[Far]) -> Result<NumList, AllocError>
    ensures { IfOk result (λ y. AreParts (length right.now) (near_at right.now) y) }
{
    let mut out = NumList::with_capacity(alloc, right.len())?;
    for pair in right {
        out.push(pair.near)?;
    }
    Ok(out)
}

/// Solves the system that has `matrix` and the right side `right`, both parts of it at once.
///
/// If the only row that the matrix sends to 0 is 0 itself, the answer is the only solution, and else a row other
/// than 0 that the matrix sends to 0. The method and its bounds are reported at the head of this crate.
///
/// The entries aren't negative. The system is for at most `MOST_WINNERS` winners with weights of 1, or for at most
/// `MOST_WEIGHTED_WINNERS` winners with any weights. `limits` lists how large its numbers are.
pub fn solve(alloc: Global, matrix: &Square, right: &[Far]) -> Result<Solved, AllocError>
    requires long { length right.now ≡ length matrix.now }
    requires small { IsPlainSystem matrix.now right.now ⊎ IsWeightedSystem matrix.now right.now }
    ensures answer { IfOk result (λ s. IsAnswer matrix.now (far_at right.now) (near_at right.now) s) }
    ensures bounds { IfOk result (λ s. IsSmallAnswer (320 ^ 4 + 1) (2 ^ 106) s) }
    ensures smaller { IsPlainSystem matrix.now right.now
        → IfOk result (λ s. IsSmallAnswer (2 ^ 32) (2 ^ 106) s) }
{
    let fars = far_parts(alloc, right)?;
    let nears = near_parts(alloc, right)?;
    solve_within(alloc, matrix.lines(), fars.items(), nears.items())
}
