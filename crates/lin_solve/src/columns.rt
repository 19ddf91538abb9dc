ghost use Rattle.lin_solve.specs.Matrix.{OnlyZero};
ghost use Rattle.lin_solve.specs.Bounds.{IsBounded};
ghost use Rattle.lin_solve.specs.Clearing.{IsClearing, IsColumn, IsKeptColumn};
ghost use Rattle.std.specs.Prelude.{IfOk, [], length, pos, slice_index_or, ℕ, ◌<◌, ◌≡◌};
ghost use Rattle.wide_num.specs.Sums.{nth};

use crate::kernel::kernel;
use std::alloc::{AllocError, Global};
use wide_num::NumList;

/// Column `i`.
pub fn column(alloc: Global, lines: &[NumList], i: usize) -> Result<NumList, AllocError>
    requires { (k : ℕ) → k < length lines.now → i < length (slice_index_or lines.now k []) }
    ensures { IfOk result (λ y. IsColumn lines.now i y) }
{
    let mut out = NumList::with_capacity(alloc, lines.len())?;
    for line in lines {
        out.push(line.items()[i])?;
    }
    Ok(out)
}

/// As many zeros.
fn zeros(alloc: Global, width: usize) -> Result<NumList, AllocError>
    ensures long { IfOk result (λ y. length y ≡ width) }
    ensures zero { IfOk result (λ y. (k : ℕ) → k < width → nth y k ≡ pos 0) }
{
    let mut out = NumList::with_capacity(alloc, width)?;
    for _k in 0..width {
        out.push(0)?;
    }
    Ok(out)
}

/// Column `i`, and zeros instead of the column `left_out`.
fn kept_column(
    alloc: Global,
    lines: &[NumList],
    left_out: usize,
    i: usize,
) -> Result<NumList, AllocError>
    requires { (k : ℕ) → k < length lines.now → i < length (slice_index_or lines.now k []) }
    ensures { IfOk result (λ y. IsKeptColumn lines.now left_out i y) }
{
    if i == left_out {
        zeros(alloc, lines.len())
    } else {
        column(alloc, lines, i)
    }
}

/// The columns of a square matrix, with zeros instead of the column `left_out`.
fn kept_columns(
    alloc: Global,
    lines: &[NumList],
    left_out: usize,
) -> Result<Vec<NumList>, AllocError>
    requires { (k : ℕ) → k < length lines.now → length (slice_index_or lines.now k []) ≡ length lines.now }
    ensures long { IfOk result (λ all. length all.items ≡ length lines.now) }
    ensures columns { IfOk result (λ all. (i : ℕ) → i < length lines.now
        → IsKeptColumn lines.now left_out i (slice_index_or all.items i [])) }
{
    let mut all = Vec::with_capacity(alloc, lines.len())?;
    for i in 0..lines.len() {
        all.push(kept_column(alloc, lines, left_out, i)?)?;
    }
    Ok(all)
}

/// A small row whose product with each column but the one at `i` is 0.
pub fn clearing(alloc: Global, lines: &[NumList], i: usize) -> Result<NumList, AllocError>
    requires bounded { IsBounded lines.now }
    requires only { OnlyZero (length lines.now) lines.now }
    requires within { i < length lines.now }
    ensures { IfOk result (λ f. IsClearing lines.now i f) }
{
    let columns = kept_columns(alloc, lines, i)?;
    match kernel(alloc, lines.len(), &columns)? {
        Some(row) => Ok(row),
        None => unreachable!(),
    }
}
