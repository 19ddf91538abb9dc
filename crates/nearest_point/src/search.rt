ghost use Rattle.nearest_point.specs.Found.{AreWithin, HasParts, IsNear, IsOwed};
ghost use Rattle.nearest_point.specs.Problem.{IsProblem};
ghost use Rattle.std.specs.Prelude.{IfOk, [], length, ◌++◌, ◌+◌, ◌<◌, ◌∷◌, ◌≤◌};

use crate::settle::{Held, is_violated, settle};
use far_num::Row;
use std::alloc::{AllocError, Global};

/// The nearest point with equality in the forced rows that meets the rows from `from` on.
///
/// The rows are taken from the last one down. One that the point violates is forced, and the rows after it are taken
/// again with it. `systems` counts the systems that are solved.
#[cycle(search)]
pub(crate) fn search_from(
    alloc: Global,
    target: &[i128],
    weights: &[u32],
    rows: &[Row],
    forced: &[usize],
    from: usize,
    systems: &mut u32,
) -> Result<Held, AllocError>
    requires problem { IsProblem target.now weights.now rows.now }
    requires owed { IsOwed target.now rows.now forced.now from }
    requires within { AreWithin forced.now rows.now }
    requires from { from ≤ length rows.now }
    ensures near { IfOk result (λ h. IsNear target.now weights.now rows.now forced.now from h) }
    ensures parts { IfOk result (λ h. HasParts target.now weights.now rows.now h) }
{
    *systems = systems.saturating_add(1);
    let mut best = settle(alloc, target, weights, rows, forced)?;
    let mut k = rows.len();
    while k > from {
        k -= 1;
        if is_violated(&best, rows, k) {
            best = force(alloc, target, weights, rows, forced, k, systems)?;
        }
    }
    Ok(best)
}

// Searches with row `k` forced too.
#[cycle(search)]
fn force(
    alloc: Global,
    target: &[i128],
    weights: &[u32],
    rows: &[Row],
    forced: &[usize],
    k: usize,
    systems: &mut u32,
) -> Result<Held, AllocError>
    requires problem { IsProblem target.now weights.now rows.now }
    requires k { k < length rows.now }
    requires owed { IsOwed target.now rows.now (forced.now ++ k ∷ []) (k + 1) }
    requires within { AreWithin forced.now rows.now }
    ensures near { IfOk result (λ h. IsNear target.now weights.now rows.now (forced.now ++ k ∷ []) (k + 1) h) }
    ensures parts { IfOk result (λ h. HasParts target.now weights.now rows.now h) }
{
    let mut longer = Vec::from_slice(alloc, forced)?;
    longer.push(k)?;
    search_from(alloc, target, weights, rows, &longer, k + 1, systems)
}
