// Tests and sums over the counts of a package or a supply.
ghost use Rattle.std.specs.Prelude.{◌≡◌, ◌≤◌, ◌<◌, ◌^◌, ◌==◌, length, sum, position, All, IfOk, IfErr, None, Some};
ghost use Rattle.std.specs.List.{list_all};
ghost use Rattle.auction_model.specs.Package.{is_within, cost_of, IsNothingFrom};
ghost use Rattle.auction_model.specs.PackageTests.{first_over};
ghost use Rattle.auction_model.specs.Place.{states_of};
ghost use Rattle.limits.specs.declared.TheConstants.{MOST_CATEGORIES, MOST_LOTS, MOST_POINTS, MOST_PRICE};
ghost use Rattle.lots.specs.Limits.{categories_stop, supply_stop, IsPackage, IsSupply};

use crate::LotStop;
use limits::{MOST_CATEGORIES, MOST_LOTS, MOST_STATES};

/// Tests that there are 1 to 6 categories.
pub fn check_categories(counts: &[u16]) -> Result<(), LotStop>
    ensures passed { IfOk result (λ _. (categories_stop counts.now ≡ None) × IsPackage counts.now) }
    ensures stopped { IfErr result (λ stop. categories_stop counts.now ≡ Some stop) }
{
    if counts.is_empty() || counts.len() > MOST_CATEGORIES {
        return Err(LotStop::Categories(counts.len() as u64));
    }
    Ok(())
}

/// The first category that has no lot, counted from 0.
fn first_zero(counts: &[u16]) -> Option<usize>
    ensures { result ≡ position (λ n. n == 0) counts.now }
{
    counts.iter().position(|count| *count == 0)
}

/// How many lots there are over all categories.
fn lots_among(counts: &[u16]) -> u64
    requires { length counts.now ≤ MOST_CATEGORIES }
    ensures { result ≡ sum counts.now }
{
    let mut lots = 0u64;
    for count in counts {
        lots += *count as u64;
    }
    lots
}

/// How many states there are.
fn states_among(counts: &[u16]) -> u64
    requires categories { length counts.now ≤ MOST_CATEGORIES }
    requires lots { sum counts.now ≤ MOST_LOTS }
    ensures { result ≡ states_of counts.now }
{
    let mut states = 1u64;
    for count in counts {
        states *= *count as u64 + 1;
    }
    states
}

/// Tests the rules of a supply, and counts its states.
pub fn check_supply(counts: &[u16]) -> Result<usize, LotStop>
    ensures passed { IfOk result (λ states. (states ≡ states_of counts.now) × IsSupply counts.now) }
    ensures stopped { IfErr result (λ stop. supply_stop counts.now ≡ Some stop) }
{
    check_categories(counts)?;
    if let Some(category) = first_zero(counts) {
        return Err(LotStop::Zero(category as u64 + 1));
    }
    let lots = lots_among(counts);
    if lots > MOST_LOTS {
        return Err(LotStop::Lots(lots));
    }
    let states = states_among(counts);
    if states > MOST_STATES {
        return Err(LotStop::States(states));
    }
    Ok(states as usize)
}

/// Whether all counts are 0.
pub fn have_none(counts: &[u16]) -> bool
    ensures { result ≡ list_all (λ n. n == 0) counts.now }
{
    counts.iter().all(|count| *count == 0)
}

/// Whether no count is above the supply's.
pub fn are_within(counts: &[u16], supply: &[u16]) -> bool
    requires { length counts.now ≡ length supply.now }
    ensures { result ≡ is_within counts.now supply.now }
{
    for i in 0..counts.len() {
        if counts[i] > supply[i] {
            return false;
        }
    }
    true
}

/// The first category whose count is above the supply's, counted from 1.
pub fn first_above(counts: &[u16], supply: &[u16]) -> Option<u16>
    requires categories { length counts.now ≡ length supply.now }
    requires few { length supply.now ≤ MOST_CATEGORIES }
    ensures { result ≡ first_over 1 counts.now supply.now }
{
    for category in 0..counts.len() {
        if counts[category] > supply[category] {
            return Some(category as u16 + 1);
        }
    }
    None
}

/// The sum of price times count.
pub fn cost_among(prices: &[u64], counts: &[u16]) -> u64
    requires categories { length counts.now ≤ MOST_CATEGORIES }
    requires prices { length prices.now ≡ length counts.now }
    requires most { All (λ p. p ≤ MOST_PRICE) prices.now }
    ensures { result ≡ cost_of prices.now counts.now }
{
    let mut cost = 0u64;
    for i in 0..counts.len() {
        cost += prices[i] * counts[i] as u64;
    }
    cost
}

/// The sum of points times count.
pub fn points_among(points: &[u32], counts: &[u16]) -> u64
    requires categories { length counts.now ≤ MOST_CATEGORIES }
    requires points { length points.now ≡ length counts.now }
    requires most { All (λ p. p ≤ MOST_POINTS) points.now }
    ensures { result ≡ cost_of points.now counts.now }
{
    let mut sum = 0u64;
    for i in 0..counts.len() {
        sum += points[i] as u64 * counts[i] as u64;
    }
    sum
}

/// The number of categories up to the last one with lots in a package, at least one.
pub fn used_categories(counts: &[u16]) -> usize
    requires { 0 < length counts.now }
    ensures some { 0 < result }
    ensures most { result ≤ length counts.now }
    ensures rest { IsNothingFrom result counts.now }
{
    let mut used = 1;
    for i in 1..counts.len() {
        if counts[i] != 0 {
            used = i + 1;
        }
    }
    used
}
