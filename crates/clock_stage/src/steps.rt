// The price step.
ghost use Rattle.std.specs.Prelude.{◌≡◌, ◌≤◌, ◌^◌, All, IfOk, length};
ghost use Rattle.limits.specs.declared.TheConstants.{MOST_PRICE};
ghost use Rattle.auction_rules.specs.Rounds.{raised_prices};
ghost use Rattle.auction_rules.specs.Step.{permille_at, stepped};
ghost use Rattle.clock_stage.specs.Raised.{IsRaisedPrice};

use auction_rules::{greatest_threshold, raise_is_least};
use award_file::StepTable;
use std::alloc::{AllocError, Global};

/// The permille of the last threshold whose excess is reached, and 0 if none is.
fn permille_of(excess: u64, thresholds: &[(u64, u64)]) -> u64
    requires { All (λ t. t.1 ≤ 1000) thresholds.now }
    ensures permille { result ≡ permille_at thresholds.now excess }
    ensures most { result ≤ 1000 }
{
    let mut permille = 0;
    for (from, share) in thresholds {
        if *from <= excess {
            permille = *share;
        }
    }
    permille
}

/// The price after a round with this excess demand: it rises by the least multiple of the tick that is at least the tick and at
/// least the thousandths of the price in the table for the greatest threshold that the excess reaches.
pub fn step(price: u64, excess: u64, table: &StepTable) -> u64
    requires { price ≤ MOST_PRICE }
    ensures price { result ≡ stepped table.now.tick table.now.thresholds price excess }
    ensures least { 1 ≤ excess → IsRaisedPrice table.now price excess result }
    ensures rises { price ≤ result }
    ensures top { result ≤ 2 ^ 38 }
{
    greatest_threshold();
    raise_is_least();
    let permille = permille_of(excess, table.thresholds());
    let tick = table.tick();
    let part = 1000 * tick;
    let ticks = (price * permille + (part - 1)) / part;
    price + ticks.max(1) * tick
}

/// The prices after a round with this demand: each is raised if the demand is above the supply.
pub fn raised_prices(
    alloc: Global,
    table: &StepTable,
    prices: &[u64],
    demand: &[u64],
    supply: &[u16],
) -> Result<Vec<u64>, AllocError>
    requires demand { length demand.now ≡ length prices.now }
    requires supply { length supply.now ≡ length prices.now }
    requires most { All (λ p. p ≤ MOST_PRICE) prices.now }
    ensures { IfOk result
        (λ v. v.items ≡ raised_prices table.now.tick table.now.thresholds prices.now demand.now supply.now) }
{
    let mut next = Vec::with_capacity(alloc, prices.len())?;
    for (category, price) in prices.iter().enumerate() {
        let units = supply[category] as u64;
        if demand[category] > units {
            next.push(step(*price, demand[category] - units, table))?;
        } else {
            next.push(*price)?;
        }
    }
    Ok(next)
}
