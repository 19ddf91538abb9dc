ghost use Rattle.nearest_point.specs.Found.{IsRight};
ghost use Rattle.nearest_point.specs.Numbers.{place};
ghost use Rattle.nearest_point.specs.Problem.{IsProblem};
ghost use Rattle.nearest_point.specs.Tried.{IsStep};
ghost use Rattle.std.specs.Prelude.{IfOk, IfSome, IsTrue, length, ℕ, ◌<◌};

use crate::exchange::exchanged;
use crate::judge::next_set;
use crate::settle::{Held, settle_if_independent};
use far_num::Row;
use std::alloc::{AllocError, Global};

// That many sets of rows are tried. In a turn two are usual and seventeen the most that were seen, on drawn rows twenty-nine.
const MOST_TRIES: u32 = 64;

/// The nearest point that meets all rows, where a few sets of rows lead to one that passes the test.
///
/// A set gives the point that meets its rows with equality. That point is the nearest of all if no multiplier is below 0 and
/// no row is violated, so nothing has to be known of how the sets are chosen. The first has the last rows that are
/// independent. The next set is made without the rows whose multipliers are below 0, or with the row that is violated most,
/// instead of another one if it depends on the others. `systems` counts the systems that are solved.
pub(crate) fn guess(
    alloc: Global,
    target: &[i128],
    weights: &[u32],
    rows: &[Row],
    systems: &mut u32,
) -> Result<Option<Held>, AllocError>
    requires problem { IsProblem target.now weights.now rows.now }
    ensures { IfOk result (λ found. IfSome found (IsRight target.now weights.now rows.now)) }
{
    let mut places = last_independent(alloc, rows)?;
    for _try in 0..MOST_TRIES {
        match take_step(alloc, target, weights, rows, &places, systems)? {
            Step::Right(held) => return Ok(Some(held)),
            Step::Next(next) => places = next,
        }
    }
    Ok(None)
}

/// What a set of rows leads to.
#[derive(Drop)]
enum Step {
    /// The point that is right for all rows.
    Right(Held),
    /// The set to be tried next.
    Next(Vec<usize>),
}

// The last rows, each with a member that the exclusive or of no others has: a quick way to independent ones.
fn last_independent(alloc: Global, rows: &[Row]) -> Result<Vec<usize>, AllocError> {
    let mut places = Vec::new(alloc);
    let mut basis = Vec::new(alloc);
    let mut k = rows.len();
    while k > 0 {
        k -= 1;
        let rest = without(rows[k].members, &basis);
        if rest != 0 {
            basis.push(rest)?;
            places.push(k)?;
        }
    }
    Ok(places)
}

// The least value of the members by exclusive or with elements of the basis.
fn without(members: u16, basis: &[u16]) -> u16 {
    let mut rest = members;
    for other in basis {
        rest = rest.min(rest ^ *other);
    }
    rest
}

// Where the set of rows leads to.
fn take_step(
    alloc: Global,
    target: &[i128],
    weights: &[u32],
    rows: &[Row],
    places: &[usize],
    systems: &mut u32,
) -> Result<Step, AllocError>
    requires problem { IsProblem target.now weights.now rows.now }
    ensures { IfOk result (IsStep target.now weights.now rows.now) }
{
    if !are_within(places, rows.len()) {
        return Ok(Step::Next(Vec::new(alloc)));
    }
    *systems = systems.saturating_add(1);
    if places.len() > target.len() {
        return Ok(Step::Next(exchanged(alloc, target, weights, rows, places)?));
    }
    match settle_if_independent(alloc, target, weights, rows, places)? {
        Some(held) => match next_set(alloc, &held, rows)? {
            Some(next) => Ok(Step::Next(next)),
            None => Ok(Step::Right(held)),
        },
        None => Ok(Step::Next(exchanged(alloc, target, weights, rows, places)?)),
    }
}

// Whether each place is one of that many rows.
fn are_within(places: &[usize], count: usize) -> bool
    ensures { IsTrue result → (i : ℕ) → i < length places.now → place places.now i < count }
{
    for place in places {
        if *place >= count {
            return false;
        }
    }
    true
}
