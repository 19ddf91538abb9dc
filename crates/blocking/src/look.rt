// The search for a block.
ghost use Rattle.std.specs.Prelude.{◌≡◌, ℕ, pos, ◌^◌, ◌≤◌, ◌≤ℤ◌, ◌<ℤ◌, length, IfOk};
ghost use Rattle.auction_model.specs.Lowered.{of_bidder};
ghost use Rattle.auction_model.specs.Prices.{IsUnblocked, everyone, sum_over};
ghost use Rattle.core_laws.specs.Surplus.{surpluses_of};
ghost use Rattle.blocking.specs.Look.{CanLook, IfFree, IfBlocked, IsFound, IsBlock, payments};

use crate::row::row_given;
use crate::surplus::surpluses;
use choices::{Choice, Chooser, Found};
use far_num::Row;
use std::alloc::{AllocError, Global};

/// What blocks a point most.
#[derive(Drop)]
pub struct Block {
    /// The winners that the choice leaves out, as a set of bits, with the least that they have to pay together, net of
    /// reserve. Bit `i` stands for the winner `i + 1` in order.
    pub row: Row,
    /// The first of the choices with the greatest excess.
    pub choice: Choice,
    /// What the choice gives above all payments, times the denominator of the point.
    pub excess: i128,
}

/// Whether a point is blocked.
#[derive(Drop)]
pub enum Looked<T> {
    /// No coalition blocks the point. What the search found shows it: its sum isn't above all payments.
    Free(Found<T>),
    /// Some coalition blocks the point.
    Block(Block),
}

/// Whether some coalition blocks the point, and if so, what blocks it most.
///
/// `at` has what each bidder pays, net of reserve and times `den`: nothing for losers, and for no bidder less than nothing.
/// There are at most 16 winners. The excess of a choice over a set of winners that it doesn't use is its value less what
/// the other winners win with and less what the set pays. Of all choices and sets the block has the greatest excess: the
/// first choice by the order of ties, and with it the largest set. Its bound is the value of the choice less what the
/// winners outside the set win with. The only error is out of memory.
///
/// The choice is found by one search with worths that are lowered by the surpluses at the point. (Day and Raghavan, Fair
/// payments for efficient allocations in public sector combinatorial auctions, Management Science 53, 2007: core
/// constraint generation. The sets follow Day and Cramton, Quadratic core-selecting payment rules for combinatorial
/// auctions, Operations Research 60, 2012.)
pub fn find_block<C: Chooser>(
    alloc: Global,
    chooser: &C,
    den: i128,
    at: &[i128],
) -> Result<Looked<C::Table>, AllocError>
    requires { CanLook (C.market chooser.now) (C.chosen chooser.now) den at.now }
    ensures free { IfOk result
        (λ l. IfFree l (λ f. IsUnblocked (C.market chooser.now) (C.chosen chooser.now) (payments den at.now))) }
    ensures found { IfOk result
        (λ l. IfFree l (λ f. IsFound (C.market chooser.now) (C.chosen chooser.now) den at.now f.choice f.sum)) }
    ensures table { IfOk result
        (λ l. IfFree l
        (λ f. C.is_table chooser.now den
        (surpluses_of (C.market chooser.now) (C.chosen chooser.now) den at.now) f.table)) }
    ensures block { IfOk result
        (λ l. IfBlocked l (λ b. IsBlock (C.market chooser.now) (C.chosen chooser.now) den at.now b)) }
    ensures blocks { IfOk result
        (λ l. IfBlocked l
        (λ b. ¬ IsUnblocked (C.market chooser.now) (C.chosen chooser.now) (payments den at.now))) }
{
    let found = best_choice(alloc, chooser, den, at)?;
    let paid = paid_by_all(at);
    if found.sum <= paid {
        return Ok(Looked::Free(found));
    }
    let excess = found.sum - paid;
    let row = row_given(chooser, den, at, &found.choice, excess);
    Ok(Looked::Block(Block {
        row,
        choice: found.choice,
        excess,
    }))
}

/// The first choice of greatest sum, its worths lowered by the surpluses at the point.
fn best_choice<C: Chooser>(
    alloc: Global,
    chooser: &C,
    den: i128,
    at: &[i128],
) -> Result<Found<C::Table>, AllocError>
    requires { CanLook (C.market chooser.now) (C.chosen chooser.now) den at.now }
    ensures found { IfOk result (λ f. IsFound (C.market chooser.now) (C.chosen chooser.now) den at.now f.choice f.sum) }
    ensures table { IfOk result
        (λ f. C.is_table chooser.now den
        (surpluses_of (C.market chooser.now) (C.chosen chooser.now) den at.now) f.table) }
{
    let surplus = surpluses(alloc, chooser, den, at)?;
    let found = chooser.best_lowered(alloc, den, &surplus)?;
    Ok(found)
}

/// What all bidders pay, times the denominator.
fn paid_by_all(at: &[i128]) -> i128
    requires small { (k : ℕ) → k ≤ length at.now
        → (pos 0 ≤ℤ sum_over everyone (of_bidder at.now) k)
        × (sum_over everyone (of_bidder at.now) k <ℤ pos (2 ^ 120)) }
    ensures { result ≡ sum_over everyone (of_bidder at.now) (length at.now) }
{
    let mut sum: i128 = 0;
    for paid in at {
        sum += *paid;
    }
    sum
}
