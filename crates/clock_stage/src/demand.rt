// What all bidders ask for.
ghost use Rattle.std.specs.Prelude.{◌≡◌, ◌≤◌, ◌+◌, ◌^◌, All, IfOk, List, [], ℕ, length, map, option_map, slice_index_or};
ghost use Rattle.limits.specs.declared.TheConstants.{MOST_BIDDERS, MOST_CATEGORIES};
ghost use Rattle.auction_model.specs.Package.{is_within, together};
ghost use Rattle.auction_rules.specs.Replies.{price_top};
ghost use Rattle.auction_rules.specs.Rounds.{sum_of};
ghost use Rattle.auction_rules.specs.State.{asked_of};
ghost use Rattle.clock_stage.specs.ClockState.{top_reply};
ghost use Rattle.clock_stage.specs.Kept.{IsHeld};

use limits::MOST_PRICE;
use lots::{Package, Supply};
use std::alloc::{AllocError, Global};

/// Adds the counts of a package to a sum.
fn add_package(sum: &mut [u64], package: &Package)
    requires categories { length «package».now ≡ length sum.old }
    requires room { All (λ n. n ≤ 2 ^ 32) sum.old }
    ensures { sum.new ≡ together sum.old «package».now }
{
    let counts = package.counts();
    for category in 0..counts.len() {
        sum[category] += counts[category] as u64;
    }
}

/// The sum of the packages of all bidders. Each package has as many categories as the supply.
pub fn demand_of(alloc: Global, supply: &Supply, held: &[Package]) -> Result<Vec<u64>, AllocError>
    requires few { length held.now ≤ MOST_BIDDERS }
    requires packages { All (IsHeld (length supply.now)) held.now }
    ensures demand { IfOk result (λ v. v.items ≡ asked_of supply.now held.now) }
    ensures categories { IfOk result (λ v. length v.items ≡ length supply.now) }
{
    let mut demand = vec![in alloc; 0u64; supply.categories()]?;
    for package in held {
        add_package(&mut demand, package);
    }
    Ok(demand)
}

/// Whether no count of the demand is above the supply.
pub fn is_met(demand: &[u64], supply: &[u16]) -> bool
    requires { length demand.now ≡ length supply.now }
    ensures { result ≡ is_within demand.now supply.now }
{
    for category in 0..demand.len() {
        if demand[category] > supply[category] as u64 {
            return false;
        }
    }
    true
}

/// The first category, counted from 1, whose price is above the greatest price, with its price.
pub fn first_above_top(prices: &[u64]) -> Option<(u16, u64)>
    requires { length prices.now ≤ MOST_CATEGORIES }
    ensures { option_map top_reply result ≡ price_top 1 prices.now }
{
    for (category, price) in prices.iter().enumerate() {
        if *price > MOST_PRICE {
            return Some((category as u16 + 1, *price));
        }
    }
    None
}
