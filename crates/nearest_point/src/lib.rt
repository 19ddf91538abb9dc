//! The point of least sum that meets all rows and is nearest to a target among these, with its multipliers.
//!
//! The target is lowered by `t` times the weight in each coordinate, where `t` is above every number. The point nearest
//! to the lowered target has the least sum, and is the nearest to the target among the points of that sum. Its multipliers
//! are pairs: the far part is the first multiplier, the near part the second.
//!
//! A point whose multipliers aren't below 0 and that meets all rows is that point, however its rows were found. So a guess
//! comes first, and a search only if it finds none.
#![tactic(auto)]

ghost use Rattle.nearest_point.specs.Found.{IsRight};
ghost use Rattle.nearest_point.specs.Problem.{IsProblem, bounds, coefficients, share_at};
ghost use Rattle.nearest_point.specs.Shown.{IsShownNearest};
ghost use Rattle.projection_laws.specs.Points.{HasLeastSum, IsNearestTo, MeetsRows};
ghost use Rattle.std.specs.Prelude.{IfOk, length, ◌≤◌};
ghost use Rattle.wide_num.specs.Sums.{nth};

use far_num::Row;
use std::alloc::{AllocError, Global};
use wide_num::NumList;

mod exchange;
mod found;
mod guess;
mod judge;
mod members;
mod search;
mod settle;
mod spread;
mod system;
#[cfg(test)]
mod tests;

pub use found::Nearest;
use guess::guess;
use search::search_from;
use settle::Held;
use spread::spread_out;

/// The point of least sum that meets all rows, and of these the nearest to the target by the sum of squares, each divided
/// by its weight; with one first and one second multiplier for each row.
///
/// `target` and `weights` have one number for each of 1 to `MOST_WINNERS` coordinates, and each weight is 1 to `MOST_WEIGHT`.
/// Bit `j` of the members of a row stands for coordinate `j`. Each row has a member, and each single coordinate is a row, so
/// a point exists. No target and no bound is negative. The sum of the targets and each bound are at most `MOST_VALUE`. If a
/// weight isn't 1, there are at most `MOST_WEIGHTED_WINNERS` coordinates, and the sum and each bound are at most
/// `MOST_WEIGHTED_VALUE`. The only error is out of memory.
///
/// The rule is by Day and Cramton (Quadratic core-selecting payment rules for combinatorial auctions, Operations Research 60,
/// 2012).
pub fn nearest(
    alloc: Global,
    target: &[i128],
    weights: &[u32],
    rows: &[Row],
) -> Result<Nearest, AllocError>
    requires some { 1 ≤ length target.now }
    requires problem { IsProblem target.now weights.now rows.now }
    ensures shown { IfOk result
        (λ p. IsShownNearest target.now weights.now rows.now p.den p.at p.first p.second) }
    ensures least { IfOk result
        (λ p. HasLeastSum (length target.now)
        (MeetsRows (length target.now) (length rows.now) (coefficients rows.now) (bounds rows.now)) p.den
        (nth p.at)) }
    ensures nearest { IfOk result
        (λ p. IsNearestTo (length target.now) (share_at weights.now) (nth target.now)
        (MeetsRows (length target.now) (length rows.now) (coefficients rows.now) (bounds rows.now)) p.den
        (nth p.at)) }
{
    let held = guess_or_search(alloc, target, weights, rows)?;
    let first = spread_out(alloc, rows.len(), &held.rows, &held.first)?;
    let second = spread_out(alloc, rows.len(), &held.rows, &held.second)?;
    Ok(Nearest {
        den: held.den,
        at: NumList::from_vec(held.near),
        first: NumList::from_vec(first),
        second: NumList::from_vec(second),
    })
}

// The point by parts: a guess that passes the test, and else what the search finds.
fn guess_or_search(
    alloc: Global,
    target: &[i128],
    weights: &[u32],
    rows: &[Row],
) -> Result<Held, AllocError>
    requires problem { IsProblem target.now weights.now rows.now }
    ensures { IfOk result (IsRight target.now weights.now rows.now) }
{
    match guess(alloc, target, weights, rows, &mut 0)? {
        Some(held) => Ok(held),
        None => search_all(alloc, target, weights, rows, &mut 0),
    }
}

// The point by parts, only by the search. `systems` counts the systems that are solved.
fn search_all(
    alloc: Global,
    target: &[i128],
    weights: &[u32],
    rows: &[Row],
    systems: &mut u32,
) -> Result<Held, AllocError>
    requires problem { IsProblem target.now weights.now rows.now }
    ensures { IfOk result (IsRight target.now weights.now rows.now) }
{
    let held = search_from(alloc, target, weights, rows, &[], 0, systems)?;
    Ok(held)
}
