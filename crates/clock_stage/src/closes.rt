// What the close of a round leads to.
ghost use Rattle.std.specs.Prelude.{◌≡◌, All, IfOk, length, true};
ghost use Rattle.clock_stage.specs.Closing.{IsClosing};
ghost use Rattle.clock_stage.specs.ClockState.{clock_with, next_round};
ghost use Rattle.clock_stage.specs.Kept.{IsClock, IsFor, IsHeld};
ghost use Rattle.clock_stage.specs.Rounds.{round_value};

use crate::demand::{demand_of, first_above_top, is_met};
use crate::rounds::{ClockRound, History, empty_packages, points_of};
use crate::steps::raised_prices;
use award_file::Award;
use limits::MOST_ROUNDS;
use lots::Package;
use std::alloc::{AllocError, Global};

/// What the close of a round answers. Categories are numbered from 1.
#[derive(Clone, Copy, Debug, PartialEq, Eq)]
pub enum Closed {
    /// There was excess demand, and the round of this number is posted.
    NextRound(u32),
    /// There was none, so the clock stage ends.
    StageEnds,
    /// There was excess demand in the last round that there may be.
    Full(u64),
    /// There was excess demand, and the price of this category would rise to this, above the greatest price; the first such category.
    PriceTop { category: u16, price: u64 },
    /// Out of memory.
    Memory,
}

/// The result of a close, with all its memory except the history's.
#[derive(Drop)]
pub enum CloseStep {
    /// This round is posted next.
    Next(ClockRound),
    /// The clock ends, and this is the final round again.
    Ends(ClockRound),
    /// The close is refused.
    Refused(Closed),
}

/// The round that follows one with these packages held, at these prices.
fn round_after(
    alloc: Global,
    award: &Award,
    prices: Vec<u64>,
    posted: &ClockRound,
) -> Result<ClockRound, AllocError>
    requires { All (IsHeld (length award.now.supply)) posted.now.held.items }
    ensures { IfOk result (λ r. round_value r ≡ next_round award.now prices.items (round_value posted.now)) }
{
    Ok(ClockRound {
        prices,
        eligibility: points_of(alloc, award.points(), &posted.held)?,
        held: empty_packages(alloc, award.supply(), posted.held.len())?,
    })
}

/// What the close of the posted round leads to.
pub fn closing_of(
    alloc: Global,
    award: &Award,
    history: &History,
    posted: &ClockRound,
) -> Result<CloseStep, AllocError>
    requires clock { IsClock (clock_with true history.now (round_value posted.now)) }
    requires award { IsFor award.now (clock_with true history.now (round_value posted.now)) }
    ensures { IfOk result (IsClosing award.now (clock_with true history.now (round_value posted.now))) }
{
    let supply = award.supply();
    let demand = demand_of(alloc, supply, &posted.held)?;
    if is_met(&demand, supply.counts()) {
        return Ok(CloseStep::Ends(posted.copied(alloc)?));
    }
    if u64::from(history.rounds()) + 1 >= MOST_ROUNDS {
        return Ok(CloseStep::Refused(Closed::Full(MOST_ROUNDS)));
    }
    let prices = raised_prices(
        alloc,
        award.steps(),
        &posted.prices,
        &demand,
        supply.counts(),
    )?;
    if let Some((category, price)) = first_above_top(&prices) {
        return Ok(CloseStep::Refused(Closed::PriceTop { category, price }));
    }
    Ok(CloseStep::Next(round_after(alloc, award, prices, posted)?))
}
