//! Core-selecting prices: rows are added, turn after turn, until no coalition blocks the point.
#![tactic(auto)]

ghost use Rattle.auction_model.specs.Market.{value_of};
ghost use Rattle.auction_model.specs.Prices.{AreWeights};
ghost use Rattle.choices.specs.Singles.{AreSingles};
ghost use Rattle.core_price.specs.Priced.{IsPriced};
ghost use Rattle.core_price.specs.Stops.{IsStop};
ghost use Rattle.core_laws.specs.Weights.{FewWin};
ghost use Rattle.limits.specs.declared.TheConstants.{MOST_AMOUNT};
ghost use Rattle.core_laws.specs.Surplus.{surpluses_of};
ghost use Rattle.core_laws.specs.Winners.{for_bidders, winners_in};
ghost use Rattle.std.specs.Prelude.{IfErr, IfOk, length, pos, ◌*◌, ◌^◌, ◌≡◌, ◌≤ℤ◌, ◌≤◌};

use choices::{Chooser, Single};
use std::alloc::{AllocError, Global};

mod bidders;
mod kept;
mod lists;
mod priced;
mod reduce;
mod start;
mod turns;
mod weights;

pub use bidders::{count_winners, for_bidders, members_of};
use kept::kept_rows;
pub use lists::{RowList, TurnList};
pub use priced::{PriceStop, Priced, PricedRow, Turn};
use start::{first_rows, prices_of};
use turns::{PricingEnd, take_turns};
pub use weights::many_win;

/// The core-selecting prices of the winning choice, found by rows: the core point of least sum, and of these the nearest
/// to the Vickrey prices. All amounts are net of reserve.
///
/// The first rows are the single winners, in order, each with its Vickrey price as bound. In each turn, among the points of
/// least sum that meet all rows, the nearest to the Vickrey prices is tested for a coalition that blocks it. If one does, its
/// row is added. If none does, the point is the result. No row comes twice, so with `m` winners there are at most `2^m` turns.
///
/// `singles` are all winners in order, each with its Vickrey price and its best choice. `weights` has one weight of 1 to 20
/// for each bidder; distances are by squares, each divided by the bidder's weight. There are at most 64 bidders, and the
/// winning choice is worth at most `MOST_AMOUNT` times the number of winners.
///
/// # Errors
///
/// `Winners`, with their number, exactly if more than `MOST_WINNERS` win, or more than `MOST_WEIGHTED_WINNERS` with weights
/// that aren't all 1. `Memory` if it is out of memory.
///
/// The rule is by Day and Cramton (Quadratic core-selecting payment rules for combinatorial auctions, Operations Research 60,
/// 2012), the turns are by Day and Raghavan (Fair payments for efficient allocations in public sector combinatorial auctions,
/// Management Science 53, 2007).
pub fn price<C: Chooser>(
    alloc: Global,
    chooser: &C,
    singles: &[Single],
    weights: &[u32],
) -> Result<Priced<C::Table>, PriceStop>
    requires singles { AreSingles (C.market chooser.now) (C.chosen chooser.now) singles.now }
    requires weights { AreWeights (C.market chooser.now).bidders weights.now }
    requires members { (C.market chooser.now).bidders ≤ 64 }
    requires worth { value_of (C.market chooser.now) (C.chosen chooser.now)
        ≤ℤ pos (winners_in (C.chosen chooser.now) * MOST_AMOUNT) }
    ensures priced { IfOk result (IsPriced (C.market chooser.now) (C.chosen chooser.now) weights.now singles.now) }
    ensures table { IfOk result (λ p. C.is_table chooser.now p.den
        (surpluses_of (C.market chooser.now) (C.chosen chooser.now) p.den
        (for_bidders (C.chosen chooser.now) p.at)) p.last.table) }
    ensures few { IfOk result (λ p. FewWin (C.chosen chooser.now) weights.now) }
    ensures stops { IfErr result (IsStop (C.chosen chooser.now) weights.now) }
{
    if many_win(singles.len(), chooser.winners(), weights) {
        return Err(PriceStop::Winners(singles.len() as u64));
    }
    Ok(price_by_rows(alloc, chooser, singles, weights)?)
}

// The prices by rows, if no more bidders win than can be priced.
fn price_by_rows<C: Chooser>(
    alloc: Global,
    chooser: &C,
    singles: &[Single],
    weights: &[u32],
) -> Result<Priced<C::Table>, AllocError>
    requires singles { AreSingles (C.market chooser.now) (C.chosen chooser.now) singles.now }
    requires weights { AreWeights (C.market chooser.now).bidders weights.now }
    requires members { (C.market chooser.now).bidders ≤ 64 }
    requires worth { value_of (C.market chooser.now) (C.chosen chooser.now)
        ≤ℤ pos (winners_in (C.chosen chooser.now) * MOST_AMOUNT) }
    requires few { FewWin (C.chosen chooser.now) weights.now }
    ensures priced { IfOk result (IsPriced (C.market chooser.now) (C.chosen chooser.now) weights.now singles.now) }
    ensures table { IfOk result (λ p. C.is_table chooser.now p.den
        (surpluses_of (C.market chooser.now) (C.chosen chooser.now) p.den
        (for_bidders (C.chosen chooser.now) p.at)) p.last.table) }
{
    let prices = prices_of(alloc, singles)?;
    let asked = first_rows(alloc, singles)?;
    let PricingEnd {
        near,
        last,
        asked,
        turns,
    } = take_turns(alloc, chooser, &prices, weights, asked)?;
    let rows = kept_rows(alloc, &asked, &near)?;
    Ok(Priced {
        den: near.den,
        at: near.at,
        rows,
        last,
        turns,
    })
}
