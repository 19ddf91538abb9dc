ghost use Rattle.far_num.specs.Members.{holds};
ghost use Rattle.far_num.specs.Pairs.{far_at, near_at};
ghost use Rattle.limits.specs.declared.TheConstants.{MOST_VALUE, MOST_WEIGHT, MOST_WINNERS};
ghost use Rattle.lin_solve.specs.Matrix.{row};
ghost use Rattle.nearest_point.specs.Found.{AreWithin, IsBelowBy, IsEdge, common, row_of};
ghost use Rattle.nearest_point.specs.Numbers.{place};
ghost use Rattle.nearest_point.specs.Problem.{AreBounds, AreTargets, bounds};
ghost use Rattle.std.specs.Prelude.{IfOk, length, pos, unsigned_abs, ℕ, ◌*◌, ◌-ℤ◌, ◌<◌, ◌^◌, ◌≡◌, ◌≤ℤ◌, ◌≤◌};
ghost use Rattle.wide_num.specs.Sums.{dot, nth, total};

use crate::members::sum_over;
use far_num::{Far, FarList, Row};
use lin_solve::Square;
use std::alloc::{AllocError, Global};

/// The matrix of the forced rows: what the common members of each two weigh.
pub(crate) fn gram_matrix(
    alloc: Global,
    lowered: &[i128],
    rows: &[Row],
    forced: &[usize],
) -> Result<Square, AllocError>
    requires few { (length lowered.now ≤ MOST_WINNERS) × (1 ≤ length forced.now) × (length forced.now ≤ MOST_WINNERS) }
    requires lowered { IsBelowBy MOST_WEIGHT lowered.now }
    requires within { AreWithin forced.now rows.now }
    ensures long { IfOk result (λ m. length m ≡ length forced.now) }
    ensures entries { IfOk result (λ m. (i k : ℕ) → i < length forced.now → k < length forced.now
        → row m i k ≡ common (length lowered.now) (row_of rows.now forced.now i) (row_of rows.now forced.now k)
        (nth lowered.now)) }
    ensures small { IfOk result
        (λ m. (top i k : ℕ) → IsBelowBy top lowered.now → i < length forced.now → k < length forced.now
        → (pos 0 ≤ℤ row m i k) × (row m i k ≤ℤ pos (length lowered.now * top))) }
{
    let size = forced.len();
    let mut entries = Vec::with_capacity(alloc, size * size)?;
    for place in 0..size * size {
        let one = rows[forced[place / size]];
        let other = rows[forced[place % size]];
        entries.push(common_weight(one, other, lowered))?;
    }
    Square::new(alloc, size, &entries)
}

// What the common members weigh.
fn common_weight(one: Row, other: Row, lowered: &[i128]) -> i128
    requires few { length lowered.now ≤ MOST_WINNERS }
    requires lowered { IsBelowBy MOST_WEIGHT lowered.now }
    ensures value { result ≡ common (length lowered.now) (holds one.members) (holds other.members) (nth lowered.now) }
    ensures small { (top : ℕ) → IsBelowBy top lowered.now
        → (pos 0 ≤ℤ result) × (result ≤ℤ pos (length lowered.now * top)) }
{
    -sum_over(one.members & other.members, lowered)
}

/// What each forced row asks for beyond the lowered target.
pub(crate) fn right_sides(
    alloc: Global,
    lowered: &[i128],
    target: &[i128],
    rows: &[Row],
    forced: &[usize],
) -> Result<FarList, AllocError>
    requires few { (length target.now ≤ MOST_WINNERS) × (length lowered.now ≡ length target.now) }
    requires lowered { IsBelowBy MOST_WEIGHT lowered.now }
    requires target { AreTargets target.now }
    requires bounds { AreBounds rows.now }
    requires within { AreWithin forced.now rows.now }
    ensures long { IfOk result (λ y. length y ≡ length forced.now) }
    ensures far { IfOk result
        (λ y. (i : ℕ) → i < length forced.now
        → far_at y i ≡ pos 0 -ℤ dot (length target.now) (row_of rows.now forced.now i) (nth lowered.now)) }
    ensures near { IfOk result
        (λ y. (i : ℕ) → i < length forced.now
        → near_at y i ≡ bounds rows.now (place forced.now i)
        -ℤ dot (length target.now) (row_of rows.now forced.now i) (nth target.now)) }
    ensures small_far { IfOk result (λ y. (i : ℕ) → i < length forced.now → unsigned_abs (far_at y i) ≤ MOST_WINNERS * MOST_WEIGHT) }
    ensures small_near { IfOk result
        (λ y. (edge i : ℕ) → IsEdge edge target.now rows.now → i < length forced.now
        → unsigned_abs (near_at y i) ≤ edge) }
{
    let mut out = FarList::with_capacity(alloc, forced.len())?;
    for place in forced {
        out.push(right_side(lowered, target, rows[*place]))?;
    }
    Ok(out)
}

// What one row asks for beyond the lowered target.
fn right_side(lowered: &[i128], target: &[i128], row: Row) -> Far
    requires few { (length target.now ≤ MOST_WINNERS) × (length lowered.now ≡ length target.now) }
    requires lowered { IsBelowBy MOST_WEIGHT lowered.now }
    requires target { AreTargets target.now }
    requires bound { (pos 0 ≤ℤ row.bound) × (row.bound ≤ℤ pos MOST_VALUE) }
    ensures far { result.far ≡ pos 0 -ℤ dot (length target.now) (holds row.members) (nth lowered.now) }
    ensures near { result.near ≡ row.bound -ℤ dot (length target.now) (holds row.members) (nth target.now) }
    ensures small_far { unsigned_abs result.far ≤ MOST_WINNERS * MOST_WEIGHT }
    ensures small_near { (edge : ℕ) → total (length target.now) (nth target.now) ≤ℤ pos edge → row.bound ≤ℤ pos edge
        → unsigned_abs result.near ≤ edge }
{
    let far = -sum_over(row.members, lowered);
    let near = row.bound - sum_over(row.members, target);
    Far { far, near }
}

/// The far parts of the pairs.
pub(crate) fn far_parts(alloc: Global, pairs: &[Far]) -> Result<Vec<i128>, AllocError>
    ensures long { IfOk result (λ v. length v.items ≡ length pairs.now) }
    ensures parts { IfOk result (λ v. (i : ℕ) → i < length pairs.now → nth v.items i ≡ far_at pairs.now i) }
{
    let mut out = Vec::with_capacity(alloc, pairs.len())?;
    for pair in pairs {
        out.push(pair.far)?;
    }
    Ok(out)
}

/// The near parts of the pairs.
pub(crate) fn near_parts(alloc: Global, pairs: &[Far]) -> Result<Vec<i128>, AllocError>
    ensures long { IfOk result (λ v. length v.items ≡ length pairs.now) }
    ensures parts { IfOk result (λ v. (i : ℕ) → i < length pairs.now → nth v.items i ≡ near_at pairs.now i) }
{
    let mut out = Vec::with_capacity(alloc, pairs.len())?;
    for pair in pairs {
        out.push(pair.near)?;
    }
    Ok(out)
}
