ghost use Rattle.nearest_point.specs.Found.{IsSized, Passes, multiplier_at, point_at};
ghost use Rattle.nearest_point.specs.Problem.{AreBounds, bounds, coefficients};
ghost use Rattle.std.specs.Prelude.{IfNone, IfOk, IsTrue, length, pos, ℕ, ◌*ℤ◌, ◌<◌, ◌≤ℤ◌};
ghost use Rattle.wide_num.specs.Sums.{dot};

use crate::members::{is_less, sum_over};
use crate::settle::{Held, is_violated};
use far_num::Row;
use std::alloc::{AllocError, Global};

/// The set to be tried after the point's set, or None if the point passes the test: no multiplier is below 0, and it meets
/// all rows.
///
/// The next set is the point's set without the rows whose multipliers are below 0. If there are none, it has the row that
/// the point violates most too, as its last one, and the others are in the order of their multipliers.
pub(crate) fn next_set(
    alloc: Global,
    held: &Held,
    rows: &[Row],
) -> Result<Option<Vec<usize>>, AllocError>
    requires sized { IsSized held.now }
    requires bounds { AreBounds rows.now }
    ensures { IfOk result (λ next. IfNone next (Passes rows.now held.now)) }
{
    if !has_signs(held) {
        return Ok(Some(rows_with_signs(alloc, held)?));
    }
    if !meets_all(held, rows) {
        let mut longer = rows_by_multiplier(alloc, held)?;
        longer.push(most_violated(held, rows))?;
        return Ok(Some(longer));
    }
    Ok(None)
}

// Whether no multiplier is below 0.
fn has_signs(held: &Held) -> bool
    requires { IsSized held.now }
    ensures { IsTrue result → (i : ℕ) → i < length held.now.rows.items → pos 0 ≤ℤ multiplier_at held.now i }
{
    for i in 0..held.rows.len() {
        if is_less(held.first[i], held.second[i], 0) {
            return false;
        }
    }
    true
}

// The rows whose multipliers aren't below 0.
fn rows_with_signs(alloc: Global, held: &Held) -> Result<Vec<usize>, AllocError>
    requires { IsSized held.now }
{
    let mut kept = Vec::with_capacity(alloc, held.rows.len())?;
    for (i, row) in held.rows.iter().enumerate() {
        if !is_less(held.first[i], held.second[i], 0) {
            kept.push(*row)?;
        }
    }
    Ok(kept)
}

// The rows, in the order of their multipliers.
fn rows_by_multiplier(alloc: Global, held: &Held) -> Result<Vec<usize>, AllocError>
    requires { IsSized held.now }
{
    let mut list = Vec::with_capacity(alloc, held.rows.len())?;
    for (i, row) in held.rows.iter().enumerate() {
        list.push((held.first[i], held.second[i], *row))?;
    }
    list.sort()?;
    rows_of(alloc, &list)
}

fn rows_of(alloc: Global, list: &[(i128, i128, usize)]) -> Result<Vec<usize>, AllocError> {
    let mut rows = Vec::with_capacity(alloc, list.len())?;
    for (_, _, row) in list {
        rows.push(*row)?;
    }
    Ok(rows)
}

// Whether the point meets all rows.
fn meets_all(held: &Held, rows: &[Row]) -> bool
    requires sized { IsSized held.now }
    requires bounds { AreBounds rows.now }
    ensures { IsTrue result → (k : ℕ) → k < length rows.now
        → (held.now.den *ℤ bounds rows.now k)
        ≤ℤ dot (length held.now.far.items) (coefficients rows.now k) (point_at held.now) }
{
    for k in 0..rows.len() {
        if is_violated(held, rows, k) {
            return false;
        }
    }
    true
}

// The row whose sum is the farthest below its bound.
fn most_violated(held: &Held, rows: &[Row]) -> usize
    requires sized { IsSized held.now }
    requires bounds { AreBounds rows.now }
{
    let mut found = 0;
    let mut most = 0;
    let mut most_near = 0;
    for (k, row) in rows.iter().enumerate() {
        let far = -sum_over(row.members, &held.far);
        let near = (held.den * row.bound).saturating_sub(sum_over(row.members, &held.near));
        if far > most || (far == most && near >= most_near) {
            found = k;
            most = far;
            most_near = near;
        }
    }
    found
}
