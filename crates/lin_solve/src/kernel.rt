ghost use Rattle.lin_solve.specs.Matrix.{OnlyZero};
ghost use Rattle.lin_solve.specs.Bounds.{AreLines};
ghost use Rattle.lin_solve.specs.Elimination.{CanClear, CanCombine, IsKernelRow, IsNext, IsUnit, NoneCanClear, Ready, Reduces, flag, product};
ghost use Rattle.std.specs.Prelude.{IfOk, MatchOption, [], false, length, pos, slice_index_or, true, ℕ, ◌<◌, ◌≡◌, ◌≢◌, ◌≤◌};
ghost use Rattle.wide_num.specs.Sums.{nth};

use crate::rows::{dot, reduced};
use std::alloc::{AllocError, Global};
use wide_num::NumList;

/// The combination of the row `v` and the pivot's row `w` that `line` sends to 0, divided by what its numbers share.
fn cleared_row(alloc: Global, line: &[i128], v: &[i128], w: &[i128]) -> Result<NumList, AllocError>
    requires long { (length line.now ≡ length v.now) × (length line.now ≡ length w.now) }
    requires small { CanCombine line.now v.now w.now }
    requires apart { (p : ℕ) × (p < length v.now) × (nth v.now p ≢ pos 0) × (nth w.now p ≡ pos 0)
        × (product line.now w.now ≢ pos 0) }
    ensures { IfOk result (λ y. Reduces (product line.now w.now) (product line.now v.now) v.now w.now y) }
{
    let s = dot(line, w);
    let t = dot(line, v);
    reduced(alloc, s, v, t, w)
}

/// The first free coordinate whose row `line` doesn't send to 0.
fn find_pivot(line: &[i128], basis: &[NumList], free: &[bool]) -> Option<usize>
    requires { Ready line.now basis.now free.now }
    ensures { MatchOption result (NoneCanClear line.now basis.now free.now) (CanClear line.now basis.now free.now) }
{
    for j in 0..free.len() {
        if free[j] {
            let value = dot(line, basis[j].items());
            if value != 0 {
                return Some(j);
            }
        }
    }
    None
}

/// The row of `j` after `line` is cleared at `pivot`, and an empty one if `j` isn't free or is the pivot.
fn next_row(
    alloc: Global,
    line: &[i128],
    pivot: usize,
    j: usize,
    basis: &[NumList],
    free: &[bool],
) -> Result<NumList, AllocError>
    requires ready { Ready line.now basis.now free.now }
    requires pivot { CanClear line.now basis.now free.now pivot }
    requires within { j < length free.now }
    ensures { IfOk result (λ y. flag free.now j ≡ true → j ≢ pivot → IsNext line.now basis.now pivot j y) }
{
    if free[j] && j != pivot {
        cleared_row(alloc, line, basis[j].items(), basis[pivot].items())
    } else {
        Ok(NumList::new(alloc))
    }
}

/// The rows after `line` is cleared at `pivot`.
fn cleared(
    alloc: Global,
    line: &[i128],
    pivot: usize,
    basis: &[NumList],
    free: &[bool],
) -> Result<Vec<NumList>, AllocError>
    requires ready { Ready line.now basis.now free.now }
    requires pivot { CanClear line.now basis.now free.now pivot }
    ensures long { IfOk result (λ next. length next.items ≡ length free.now) }
    ensures rows { IfOk result (λ next. (j : ℕ) → j < length free.now → flag free.now j ≡ true → j ≢ pivot
        → IsNext line.now basis.now pivot j (slice_index_or next.items j [])) }
{
    let mut next = Vec::with_capacity(alloc, free.len())?;
    for j in 0..free.len() {
        next.push(next_row(alloc, line, pivot, j, basis, free)?)?;
    }
    Ok(next)
}

/// The row that is 1 at `j` and 0 elsewhere.
fn unit(alloc: Global, width: usize, j: usize) -> Result<NumList, AllocError>
    ensures { IfOk result (λ v. IsUnit width j v) }
{
    let mut out = NumList::with_capacity(alloc, width)?;
    for i in 0..width {
        out.push(if i == j { 1 } else { 0 })?;
    }
    Ok(out)
}

/// The unit rows of all coordinates.
fn units(alloc: Global, width: usize) -> Result<Vec<NumList>, AllocError>
    ensures long { IfOk result (λ rows. length rows.items ≡ width) }
    ensures units { IfOk result (λ rows. (j : ℕ) → j < width → IsUnit width j (slice_index_or rows.items j [])) }
{
    let mut rows = Vec::with_capacity(alloc, width)?;
    for j in 0..width {
        rows.push(unit(alloc, width, j)?)?;
    }
    Ok(rows)
}

/// The row of the first free coordinate.
fn take_free(mut basis: Vec<NumList>, free: &[bool]) -> Option<NumList>
    requires { length basis.items ≡ length free.now }
    ensures { MatchOption result
        ((j : ℕ) → j < length free.now → flag free.now j ≡ false)
        (λ v. (j : ℕ) × (j < length free.now) × (flag free.now j ≡ true) × (v ≡ slice_index_or basis.items j [])) }
{
    for j in 0..free.len() {
        if free[j] {
            return Some(basis.remove(j));
        }
    }
    None
}

/// A small row other than 0 that all lines send to 0, or None if they send only 0 to 0.
///
/// There is one row for each coordinate, and a coordinate is free until a line is cleared at it. The rows of the free
/// coordinates span what all lines so far send to 0, and each is 0 at the other free coordinates.
pub fn kernel(alloc: Global, width: usize, lines: &[NumList]) -> Result<Option<NumList>, AllocError>
    requires { AreLines width lines.now }
    ensures { IfOk result (λ found. MatchOption found (OnlyZero width lines.now)
        (IsKernelRow width lines.now)) }
{
    let mut basis = units(alloc, width)?;
    let mut free = vec![in alloc; true; width]?;
    for line in lines {
        let numbers = line.items();
        if let Some(pivot) = find_pivot(numbers, &basis, &free) {
            basis = cleared(alloc, numbers, pivot, &basis, &free)?;
            free[pivot] = false;
        }
    }
    Ok(take_free(basis, &free))
}
