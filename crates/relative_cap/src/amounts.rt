// Greatest amounts.
ghost use Rattle.std.specs.Prelude.{◌≡◌, ◌≤◌, All, length, map};
ghost use Rattle.limits.specs.declared.TheConstants.{MOST_AMOUNT};
ghost use Rattle.auction_rules.specs.Caps.{clock_bid, greatest, highest};
ghost use Rattle.auction_model.specs.PackageTests.{InOrder};
ghost use Rattle.clock_stage.specs.Kept.{IsHeld, categories_in};
ghost use Rattle.relative_cap.specs.Asked.{IsBidderOf, IsEntry};
ghost use Rattle.relative_cap.specs.Place.{IsPlace};
ghost use Rattle.relative_cap.specs.OwnRounds.{amount_for, bid_value, entry_lots, own_in, rounds_of};

use crate::packages::{is_before, is_same};
use clock_stage::History;
use lots::{Bid, Package};

/// The amount of the clock bid of bidder `j` in round `r` if it is for the package, and else 0.
fn clock_amount(history: &History, j: u16, r: u32, package: &Package) -> u64
    requires bidder { IsBidderOf history.now j }
    requires round { (1 ≤ r) × (r ≤ length history.now) }
    requires categories { IsHeld (categories_in history.now) «package».now }
    ensures amount { result ≡ amount_for «package».now (clock_bid (own_in history.now j r)) }
    ensures most { result ≤ MOST_AMOUNT }
{
    let held = history.package(r, j);
    if is_same(held, package) {
        held.cost(history.prices(r))
    } else {
        0
    }
}

/// The greatest amount for the package among the clock bids of bidder `j`, and 0 if there is none.
fn greatest_clock(history: &History, j: u16, package: &Package) -> u64
    requires bidder { IsBidderOf history.now j }
    requires categories { IsHeld (categories_in history.now) «package».now }
    ensures greatest { result ≡ greatest «package».now (map clock_bid (rounds_of j history.now)) }
    ensures most { result ≤ MOST_AMOUNT }
{
    let mut best = 0;
    for r in 0..history.rounds() {
        best = best.max(clock_amount(history, j, r + 1, package));
    }
    best
}

/// The place of a package in a list in the order of packages: the packages before this place, counted from 0, come before the
/// package, and from it on none does. It halves, and takes no memory.
pub fn place_of(list: &[Bid], package: &Package) -> usize
    requires list { All (IsEntry (length «package».now)) list.now }
    requires order { InOrder (map entry_lots list.now) }
    ensures { IsPlace list.now «package».now result }
{
    let mut low = 0;
    let mut high = list.len();
    while low < high {
        let middle = low + (high - low) / 2;
        if is_before(&list[middle].package, package) {
            low = middle + 1;
        } else {
            high = middle;
        }
    }
    low
}

/// The amount for the package in a list in the order of packages, and 0 if there is none. It halves, and takes no memory.
pub fn amount_listed(list: &[Bid], package: &Package) -> u64
    requires list { All (IsEntry (length «package».now)) list.now }
    requires order { InOrder (map entry_lots list.now) }
    ensures greatest { result ≡ greatest «package».now (map bid_value list.now) }
    ensures most { result ≤ MOST_AMOUNT }
{
    let place = place_of(list, package);
    if place < list.len() && is_same(&list[place].package, package) {
        list[place].amount
    } else {
        0
    }
}

/// The greatest amount for a package among the clock bids of bidder `j` and the list, in whole units of money: the price of what
/// the bidder held in a round at the prices of that round, and the amounts of the list. It is 0 for the empty package, and for a
/// package without a clock bid and without an entry. The list is in the order of packages. It takes no memory, and looks through all
/// rounds, for a single package.
pub fn highest(history: &History, j: u16, list: &[Bid], package: &Package) -> u64
    requires bidder { IsBidderOf history.now j }
    requires list { All (IsEntry (categories_in history.now)) list.now }
    requires order { InOrder (map entry_lots list.now) }
    requires categories { IsHeld (categories_in history.now) «package».now }
    ensures highest { result ≡ highest (rounds_of j history.now) (map bid_value list.now) «package».now }
    ensures most { result ≤ MOST_AMOUNT }
{
    if package.is_empty() {
        return 0;
    }
    greatest_clock(history, j, package).max(amount_listed(list, package))
}
