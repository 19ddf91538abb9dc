// Caps, and the first entry above its cap.
ghost use Rattle.std.specs.Prelude.{◌≡◌, ◌-◌, ◌≤◌, ◌<◌, ◌^◌, [], All, length, map, option_map, slice_index};
ghost use Rattle.limits.specs.declared.TheConstants.{MOST_AMOUNT};
ghost use Rattle.auction_model.specs.Package.{cost_of};
ghost use Rattle.auction_rules.specs.Caps.{cap_by, cap_of, excess_cap, list_fault};
ghost use Rattle.auction_model.specs.PackageTests.{InOrder};
ghost use Rattle.clock_stage.specs.Kept.{IsHeld, categories_in};
ghost use Rattle.relative_cap.specs.Asked.{ArePoints, IsBidderOf, IsEligible, IsEntry};
ghost use Rattle.relative_cap.specs.Levels.{AreLevels, IsHigh};
ghost use Rattle.relative_cap.specs.Answer.{cap_value, excess_value};
ghost use Rattle.relative_cap.specs.OwnRounds.{entry_lots, bid_value, cap_at, eligibility_in, own_in, rounds_of};

use crate::amounts::highest;
use crate::answer::{Cap, OverCap};
use crate::levels::{RoundLevels, fill_levels, high_over, last_peak};
use crate::packages::is_same;
use crate::rounds::constraining_round;
use clock_stage::History;
use limits::MOST_ROUNDS;
use lots::{Bid, Package};

/// What the package may cost by round `r`: the highest amount for what bidder `j` held in it, which is given, and the price of the
/// difference.
fn cap_from(history: &History, j: u16, r: u32, high: u64, package: &Package) -> u64
    requires bidder { IsBidderOf history.now j }
    requires round { (1 ≤ r) × (r ≤ length history.now) }
    requires categories { IsHeld (categories_in history.now) «package».now }
    requires least { cost_of (own_in history.now j r).prices (own_in history.now j r).held ≤ high }
    requires most { high ≤ MOST_AMOUNT }
    ensures { result ≡ cap_at high (own_in history.now j r) «package».now }
{
    let prices = history.prices(r);
    high + package.cost(prices) - history.package(r, j).cost(prices)
}

/// What the package may cost by round `r`: the highest amount for what bidder `j` held in it, and the price of the difference.
fn cap_by(history: &History, j: u16, r: u32, list: &[Bid], package: &Package) -> u64
    requires bidder { IsBidderOf history.now j }
    requires round { (1 ≤ r) × (r ≤ length history.now) }
    requires list { All (IsEntry (categories_in history.now)) list.now }
    requires order { InOrder (map entry_lots list.now) }
    requires categories { IsHeld (categories_in history.now) «package».now }
    ensures { result
        ≡ cap_by (rounds_of j history.now) (map bid_value list.now) (own_in history.now j r) «package».now }
{
    let high = highest(history, j, list, history.package(r, j));
    cap_from(history, j, r, high, package)
}

/// The cap of a package for bidder `j` over a list, in whole units of money: the highest amount for what the bidder held in the
/// constraining round, and the price of the difference at the prices of that round. With a final cap it is the lesser of this
/// and the cap by the final round, which is the last of the history. What the bidder held in the final round has no cap. The
/// list is in the order of packages. It takes no memory. It is for a single package; lists are tested by `list_fault` or a
/// `ListTester`.
pub fn cap(
    history: &History,
    points: &[u32],
    final_cap: bool,
    j: u16,
    list: &[Bid],
    package: &Package,
) -> Cap
    requires bidder { IsBidderOf history.now j }
    requires points { ArePoints history.now points.now }
    requires list { All (IsEntry (categories_in history.now)) list.now }
    requires order { InOrder (map entry_lots list.now) }
    requires categories { IsHeld (categories_in history.now) «package».now }
    requires eligible { cost_of points.now «package».now ≤ eligibility_in history.now j 1 }
    ensures { cap_value result
        ≡ cap_of final_cap points.now (rounds_of j history.now) (map bid_value list.now) «package».now }
{
    let last = history.rounds();
    if is_same(package, history.package(last, j)) {
        return Cap::NoCap;
    }
    let r = constraining_round(history, points, j, package);
    let round_cap = cap_by(history, j, r, list, package);
    if final_cap {
        Cap::At(round_cap.min(cap_by(history, j, last, list, package)))
    } else {
        Cap::At(round_cap)
    }
}

/// The cap, if the amount is above it.
pub fn excess(cap: Cap, amount: u64) -> Option<u64>
    ensures { result ≡ excess_cap (cap_value cap) amount }
{
    match cap {
        Cap::At(limit) if amount > limit => Some(limit),
        _ => None,
    }
}

/// What the package may cost by round `r`, if the greatest clock bids for what bidder `j` held are given.
fn level_cap_by(
    history: &History,
    j: u16,
    r: u32,
    list: &[Bid],
    highs: &[u64],
    package: &Package,
) -> u64
    requires bidder { IsBidderOf history.now j }
    requires round { (1 ≤ r) × (r ≤ length history.now) }
    requires list { All (IsEntry (categories_in history.now)) list.now }
    requires order { InOrder (map entry_lots list.now) }
    requires room { length history.now ≤ length highs.now }
    requires high { IsHigh history.now j [] (r - 1) (slice_index highs.now (r - 1)) }
    requires categories { IsHeld (categories_in history.now) «package».now }
    ensures { result
        ≡ cap_by (rounds_of j history.now) (map bid_value list.now) (own_in history.now j r) «package».now }
{
    let high = high_over(history, j, r, list, highs[r as usize - 1]);
    cap_from(history, j, r, high, package)
}

/// The cap of a package over the list, if the levels of bidder `j` are given.
fn level_cap(
    history: &History,
    points: &[u32],
    final_cap: bool,
    j: u16,
    levels: RoundLevels<'_>,
    list: &[Bid],
    package: &Package,
) -> Cap
    requires bidder { IsBidderOf history.now j }
    requires points { ArePoints history.now points.now }
    requires levels { AreLevels history.now j levels.peaks.now levels.highs.now }
    requires list { All (IsEntry (categories_in history.now)) list.now }
    requires order { InOrder (map entry_lots list.now) }
    requires categories { IsHeld (categories_in history.now) «package».now }
    requires eligible { cost_of points.now «package».now ≤ eligibility_in history.now j 1 }
    ensures { cap_value result
        ≡ cap_of final_cap points.now (rounds_of j history.now) (map bid_value list.now) «package».now }
{
    let last = history.rounds();
    if is_same(package, history.package(last, j)) {
        return Cap::NoCap;
    }
    let r = last_peak(levels.peaks, last, package.points(points));
    let round_cap = level_cap_by(history, j, r, list, levels.highs, package);
    if final_cap {
        Cap::At(round_cap.min(level_cap_by(history, j, last, list, levels.highs, package)))
    } else {
        Cap::At(round_cap)
    }
}

/// The first entry above its cap over the list, if the levels of bidder `j` are given.
fn first_fault(
    history: &History,
    points: &[u32],
    final_cap: bool,
    j: u16,
    levels: RoundLevels<'_>,
    list: &[Bid],
) -> Option<OverCap>
    requires bidder { IsBidderOf history.now j }
    requires points { ArePoints history.now points.now }
    requires levels { AreLevels history.now j levels.peaks.now levels.highs.now }
    requires list { All (IsEntry (categories_in history.now)) list.now }
    requires order { InOrder (map entry_lots list.now) }
    requires eligible { All (IsEligible points.now history.now j) list.now }
    requires few { length list.now < 2 ^ 32 }
    ensures { option_map excess_value result
        ≡ list_fault final_cap points.now (rounds_of j history.now) (map bid_value list.now) }
{
    for (index, bid) in list.iter().enumerate() {
        let cap = level_cap(history, points, final_cap, j, levels, list, &bid.package);
        if let Some(limit) = excess(cap, bid.amount) {
            let entry = index as u32 + 1;
            return Some(OverCap { entry, limit });
        }
    }
    None
}

/// How many rounds a history has at most.
const ROUNDS: usize = MOST_ROUNDS as usize;

/// The first entry of the list of bidder `j` whose amount is above its cap over the list, if there is one: its number, counted
/// from 1, with its cap. The list is in the order of packages. It takes no memory, and computes once for the whole list what the
/// rounds say. It is for a single list; of many lists of one bidder a `ListTester` tests each after the first faster.
pub fn list_fault(
    history: &History,
    points: &[u32],
    final_cap: bool,
    j: u16,
    list: &[Bid],
) -> Option<OverCap>
    requires bidder { IsBidderOf history.now j }
    requires points { ArePoints history.now points.now }
    requires list { All (IsEntry (categories_in history.now)) list.now }
    requires order { InOrder (map entry_lots list.now) }
    requires eligible { All (IsEligible points.now history.now j) list.now }
    requires few { length list.now < 2 ^ 32 }
    ensures { option_map excess_value result
        ≡ list_fault final_cap points.now (rounds_of j history.now) (map bid_value list.now) }
{
    let mut peaks = [0; ROUNDS];
    let mut highs = [0; ROUNDS];
    fill_levels(history, history.rounds(), j, &mut peaks, &mut highs);
    let levels = RoundLevels {
        peaks: &peaks,
        highs: &highs,
    };
    first_fault(history, points, final_cap, j, levels, list)
}
