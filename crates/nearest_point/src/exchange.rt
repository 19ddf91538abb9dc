ghost use Rattle.limits.specs.declared.TheConstants.{MOST_WEIGHT, MOST_WINNERS};
ghost use Rattle.nearest_point.specs.Found.{AreWithin, IsBelowBy};
ghost use Rattle.nearest_point.specs.Problem.{IsProblem};
ghost use Rattle.std.specs.Prelude.{IfOk, length, ◌<◌, ◌≡◌, ◌≤◌};

use crate::members::member_part;
use crate::settle::lowered_target;
use crate::system::{far_parts, gram_matrix, right_sides};
use far_num::Row;
use lin_solve::{Solved, solve};
use std::alloc::{AllocError, Global};

/// The set with its last row instead of another: the first of those that the last row is made of with a factor above 0.
///
/// So if the rows before are in the order of their multipliers, one of the least goes.
pub(crate) fn exchanged(
    alloc: Global,
    target: &[i128],
    weights: &[u32],
    rows: &[Row],
    places: &[usize],
) -> Result<Vec<usize>, AllocError>
    requires problem { IsProblem target.now weights.now rows.now }
    requires within { AreWithin places.now rows.now }
{
    let count = places.len();
    if count < 2 || count - 1 > target.len() {
        return Ok(Vec::new(alloc));
    }
    let front = &places[..count - 1];
    let last = places[count - 1];
    let factors = factors(alloc, target, weights, rows, front, last)?;
    let mut kept = without_positive(alloc, front, &factors)?;
    kept.push(last)?;
    Ok(kept)
}

// The rows without the first one whose factor is above 0.
fn without_positive(
    alloc: Global,
    places: &[usize],
    factors: &[i128],
) -> Result<Vec<usize>, AllocError> {
    let mut kept = Vec::with_capacity(alloc, places.len())?;
    let mut is_out = false;
    for (place, factor) in places.iter().zip(factors) {
        if *factor > 0 && !is_out {
            is_out = true;
        } else {
            kept.push(*place)?;
        }
    }
    Ok(kept)
}

// The factors whose combination of the forced rows is row `k`, or nearest to it, over some denominator.
fn factors(
    alloc: Global,
    target: &[i128],
    weights: &[u32],
    rows: &[Row],
    forced: &[usize],
    k: usize,
) -> Result<Vec<i128>, AllocError>
    requires problem { IsProblem target.now weights.now rows.now }
    requires within { AreWithin forced.now rows.now }
    requires few { (1 ≤ length forced.now) × (length forced.now ≤ length target.now) }
    requires k { k < length rows.now }
{
    let lowered = lowered_target(alloc, weights)?;
    let shared = shared_part(alloc, rows[k].members, &lowered)?;
    let matrix = gram_matrix(alloc, &lowered, rows, forced)?;
    let right = right_sides(alloc, &shared, target, rows, forced)?;
    match solve(alloc, &matrix, right.items())? {
        Solved::One { values, .. } => far_parts(alloc, values.items()),
        Solved::Dependent { .. } => Ok(Vec::new(alloc)),
    }
}

// The numbers of the members, and 0 for the others.
fn shared_part(alloc: Global, members: u16, lowered: &[i128]) -> Result<Vec<i128>, AllocError>
    requires few { length lowered.now ≤ MOST_WINNERS }
    requires lowered { IsBelowBy MOST_WEIGHT lowered.now }
    ensures long { IfOk result (λ v. length v.items ≡ length lowered.now) }
    ensures small { IfOk result (λ v. IsBelowBy MOST_WEIGHT v.items) }
{
    let mut out = Vec::with_capacity(alloc, lowered.len())?;
    for (j, x) in lowered.iter().enumerate() {
        out.push(member_part(members, j, *x))?;
    }
    Ok(out)
}
