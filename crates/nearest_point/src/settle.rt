ghost use Rattle.limits.specs.declared.TheConstants.{MOST_VALUE, MOST_WEIGHT, MOST_WINNERS};
ghost use Rattle.nearest_point.specs.Found.{AreDependent, AreWithin, HasParts, IsLowered, IsNear, IsPart, IsSettledFor, IsSolved, point_at, row_of};
ghost use Rattle.nearest_point.specs.Numbers.{AreBelow};
ghost use Rattle.auction_model.specs.Prices.{AreWeights};
ghost use Rattle.nearest_point.specs.Problem.{IsProblem, bounds, coefficients, weight_at};
ghost use Rattle.nearest_point.specs.Search.{Independent};
ghost use Rattle.std.specs.Prelude.{IfOk, IsTrue, MatchOption, length, not, pos, unsigned_abs, ℕ, ◌*ℤ◌, ◌*◌, ◌+ℤ◌, ◌<ℤ◌, ◌<◌, ◌^◌, ◌≡◌, ◌≤ℤ◌, ◌≤◌};
ghost use Rattle.wide_num.specs.Sums.{dot, nth, total};

use crate::members::{is_below, member_part};
use crate::system::{far_parts, gram_matrix, near_parts, right_sides};
use far_num::Row;
use lin_solve::{Solved, solve};
use std::alloc::{AllocError, Global};

/// A point by far and near parts over one denominator, with the places of the rows that made it and their multipliers by
/// far parts (`first`) and near parts (`second`).
#[derive(Drop)]
pub(crate) struct Held {
    pub(crate) den: i128,
    pub(crate) far: Vec<i128>,
    pub(crate) near: Vec<i128>,
    pub(crate) rows: Vec<usize>,
    pub(crate) first: Vec<i128>,
    pub(crate) second: Vec<i128>,
}

/// Whether the point is below the bound of row `k`.
pub(crate) fn is_violated(held: &Held, rows: &[Row], k: usize) -> bool
    requires k { k < length rows.now }
    requires few { (length held.now.far.items ≤ MOST_WINNERS) × (length held.now.near.items ≡ length held.now.far.items) }
    requires far { AreBelow (2 ^ 113) held.now.far.items }
    requires near { AreBelow (2 ^ 113) held.now.near.items }
    requires den { (pos 0 <ℤ held.now.den) × (held.now.den ≤ℤ pos (320 ^ 4)) }
    requires bound { (pos 0 ≤ℤ bounds rows.now k) × (bounds rows.now k ≤ℤ pos MOST_VALUE) }
    ensures below { IsTrue result
        → dot (length held.now.far.items) (coefficients rows.now k) (point_at held.now)
        <ℤ (held.now.den *ℤ bounds rows.now k) }
    ensures above { IsTrue (not result)
        → (held.now.den *ℤ bounds rows.now k)
        ≤ℤ dot (length held.now.far.items) (coefficients rows.now k) (point_at held.now) }
{
    is_below(&held.far, &held.near, held.den, rows[k])
}

// The multipliers of the forced rows by parts, over one denominator.
#[derive(Drop)]
struct Multipliers {
    den: i128,
    first: Vec<i128>,
    second: Vec<i128>,
}

/// The point nearest to the lowered target with equality in the forced rows, which are independent.
pub(crate) fn settle(
    alloc: Global,
    target: &[i128],
    weights: &[u32],
    rows: &[Row],
    forced: &[usize],
) -> Result<Held, AllocError>
    requires problem { IsProblem target.now weights.now rows.now }
    requires within { AreWithin forced.now rows.now }
    requires independent { Independent (length target.now) (length forced.now) (row_of rows.now forced.now) }
    ensures near { IfOk result (λ h. IsNear target.now weights.now rows.now forced.now (length rows.now) h) }
    ensures parts { IfOk result (λ h. HasParts target.now weights.now rows.now h) }
{
    match settle_if_independent(alloc, target, weights, rows, forced)? {
        Some(held) => Ok(held),
        None => unreachable!(),
    }
}

/// The point nearest to the lowered target with equality in the forced rows, or None if these aren't independent.
pub(crate) fn settle_if_independent(
    alloc: Global,
    target: &[i128],
    weights: &[u32],
    rows: &[Row],
    forced: &[usize],
) -> Result<Option<Held>, AllocError>
    requires problem { IsProblem target.now weights.now rows.now }
    requires within { AreWithin forced.now rows.now }
    requires few { length forced.now ≤ length target.now }
    ensures { IfOk result
        (λ found. MatchOption found (AreDependent target.now rows.now forced.now)
        (IsSettledFor target.now weights.now rows.now forced.now)) }
{
    let lowered = lowered_target(alloc, weights)?;
    match solve_forced(alloc, target, weights, &lowered, rows, forced)? {
        Some(found) => {
            let held = point_of(alloc, target, weights, &lowered, rows, forced, found)?;
            Ok(Some(held))
        }
        None => Ok(None),
    }
}

// The point that solved multipliers give.
fn point_of(
    alloc: Global,
    target: &[i128],
    weights: &[u32],
    lowered: &[i128],
    rows: &[Row],
    forced: &[usize],
    found: Multipliers,
) -> Result<Held, AllocError>
    requires problem { IsProblem target.now weights.now rows.now }
    requires lowered { IsLowered weights.now lowered.now }
    requires within { AreWithin forced.now rows.now }
    requires few { length forced.now ≤ length target.now }
    requires solved { IsSolved target.now weights.now rows.now forced.now found }
    ensures { IfOk result (IsSettledFor target.now weights.now rows.now forced.now) }
{
    let far = point_part(
        alloc,
        found.den,
        lowered,
        weights,
        rows,
        forced,
        &found.first,
    )?;
    let near = point_part(
        alloc,
        found.den,
        target,
        weights,
        rows,
        forced,
        &found.second,
    )?;
    let rows = Vec::from_slice(alloc, forced)?;
    Ok(Held {
        den: found.den,
        far,
        near,
        rows,
        first: found.first,
        second: found.second,
    })
}

/// The far part of the lowered target.
pub(crate) fn lowered_target(alloc: Global, weights: &[u32]) -> Result<Vec<i128>, AllocError>
    ensures { IfOk result (λ v. IsLowered weights.now v.items) }
{
    let mut out = Vec::with_capacity(alloc, weights.len())?;
    for weight in weights {
        out.push(-(*weight as i128))?;
    }
    Ok(out)
}

// The multipliers that make the point meet the forced rows with equality, or None if these aren't independent.
fn solve_forced(
    alloc: Global,
    target: &[i128],
    weights: &[u32],
    lowered: &[i128],
    rows: &[Row],
    forced: &[usize],
) -> Result<Option<Multipliers>, AllocError>
    requires problem { IsProblem target.now weights.now rows.now }
    requires lowered { IsLowered weights.now lowered.now }
    requires within { AreWithin forced.now rows.now }
    requires few { length forced.now ≤ length target.now }
    ensures { IfOk result
        (λ found. MatchOption found (AreDependent target.now rows.now forced.now)
        (IsSolved target.now weights.now rows.now forced.now)) }
{
    if forced.is_empty() {
        return Ok(Some(Multipliers {
            den: 1,
            first: Vec::new(alloc),
            second: Vec::new(alloc),
        }));
    }
    let matrix = gram_matrix(alloc, lowered, rows, forced)?;
    let right = right_sides(alloc, lowered, target, rows, forced)?;
    match solve(alloc, &matrix, right.items())? {
        Solved::One { den, values } => {
            let first = far_parts(alloc, values.items())?;
            let second = near_parts(alloc, values.items())?;
            Ok(Some(Multipliers { den, first, second }))
        }
        Solved::Dependent { .. } => Ok(None),
    }
}

// One part of the point: the target times the denominator, moved by the multipliers of the rows.
fn point_part(
    alloc: Global,
    den: i128,
    target: &[i128],
    weights: &[u32],
    rows: &[Row],
    forced: &[usize],
    multipliers: &[i128],
) -> Result<Vec<i128>, AllocError>
    requires few { (length target.now ≤ MOST_WINNERS) × (length forced.now ≤ MOST_WINNERS) × (length multipliers.now ≡ length forced.now) }
    requires weights { AreWeights (length target.now) weights.now }
    requires within { AreWithin forced.now rows.now }
    requires den { (pos 0 <ℤ den) × (den ≤ℤ pos (320 ^ 4)) }
    requires target { (j : ℕ) → j < length target.now → unsigned_abs (nth target.now j) ≤ MOST_VALUE }
    requires multipliers { AreBelow (2 ^ 106) multipliers.now }
    ensures part { IfOk result
        (λ v. IsPart rows.now forced.now (weight_at weights.now) den target.now multipliers.now v.items) }
    ensures small { IfOk result (λ v. AreBelow (2 ^ 113) v.items) }
{
    let mut out = Vec::with_capacity(alloc, target.len())?;
    for (j, aim) in target.iter().enumerate() {
        let moved = column(rows, forced, multipliers, j);
        out.push(coordinate(den, *aim, weights[j], moved))?;
    }
    Ok(out)
}

fn coordinate(den: i128, aim: i128, weight: u32, moved: i128) -> i128
    requires den { (pos 0 <ℤ den) × (den ≤ℤ pos (320 ^ 4)) }
    requires aim { unsigned_abs aim ≤ MOST_VALUE }
    requires weight { weight ≤ MOST_WEIGHT }
    requires moved { unsigned_abs moved ≤ MOST_WINNERS * 2 ^ 106 }
    ensures value { result ≡ (den *ℤ aim) +ℤ (pos weight *ℤ moved) }
    ensures small { unsigned_abs result < 2 ^ 113 }
{
    den * aim + weight as i128 * moved
}

// The sum of the multipliers of the forced rows that have the member `j`.
fn column(rows: &[Row], forced: &[usize], multipliers: &[i128], j: usize) -> i128
    requires few { (length forced.now ≤ MOST_WINNERS) × (length multipliers.now ≡ length forced.now) }
    requires within { AreWithin forced.now rows.now }
    requires j { j < 16 }
    requires multipliers { AreBelow (2 ^ 106) multipliers.now }
    ensures value { result ≡ total (length forced.now) (λ i. nth multipliers.now i *ℤ row_of rows.now forced.now i j) }
    ensures small { unsigned_abs result ≤ MOST_WINNERS * 2 ^ 106 }
{
    let mut sum: i128 = 0;
    for (i, place) in forced.iter().enumerate() {
        sum += member_part(rows[*place].members, j, multipliers[i]);
    }
    sum
}
