// The rules of tables over sets.
ghost use Rattle.std.specs.Prelude.{IsTrue, IsFalse, length, ◌≡◌, ◌+◌, ◌-◌, ◌≤◌, ◌<◌, ◌^◌, ◌↔◌, ◌≤ℤ◌, ◌+ℤ◌, pos, unsigned_abs};
ghost use Rattle.auction_model.specs.Table.{entry_at};
ghost use Rattle.placement_cert.specs.PlaceText.{HasSets};
ghost use Rattle.placement_check.specs.PlaceTests.{ObeysSet, ObeysSets};
ghost use Rattle.slot_places.specs.Board.{board_without};
ghost use Rattle.slot_places.specs.SetTable.{holds};
ghost use Rattle.placement_check.specs.OfferRules.{worth_with, KeepsBid, KeepsBidder, SetTableAt};

use crate::offers::TestedBids;
use choices::Grid;
use slot_places::sets::{is_in, weight};

/// Whether a table obeys the rules at a place: a set, or after all sets the upper limit of the empty set's entry.
pub(crate) fn table_holds(offers: &TestedBids, table: &Grid, most: i128, place: usize) -> bool
    requires shape { HasSets (length offers.now.slots.now.bidders) table.now }
    ensures { IsTrue result
        ↔ SetTableAt (board_without offers.now.slots.now offers.now.skip)
        (worth_with offers.now.slots.now offers.now.den offers.now.gains.now) table.now most place }
{
    let sets: usize = 1 << offers.slots.bidders();
    if place < sets {
        return obeys_set(offers, table, place);
    }
    if place > sets {
        return true;
    }
    is_at_most(table.entry(0, 0), most)
}

pub(crate) fn is_at_most(entry: i128, most: i128) -> bool
    ensures { IsTrue result ↔ (entry ≤ℤ most) }
{
    entry <= most
}

/// Whether the table obeys the rules at all sets.
pub(crate) fn obeys_sets(offers: &TestedBids, table: &Grid) -> bool
    requires shape { HasSets (length offers.now.slots.now.bidders) table.now }
    ensures { IsTrue result
        ↔ ObeysSets (board_without offers.now.slots.now offers.now.skip)
        (worth_with offers.now.slots.now offers.now.den offers.now.gains.now) table.now }
{
    let sets: usize = 1 << offers.slots.bidders();
    for set in 0..sets {
        if !obeys_set(offers, table, set) {
            return false;
        }
    }
    true
}

/// Whether the table obeys the rules at a set.
fn obeys_set(offers: &TestedBids, table: &Grid, set: usize) -> bool
    requires shape { HasSets (length offers.now.slots.now.bidders) table.now }
    requires set { set < 2 ^ length offers.now.slots.now.bidders }
    ensures { IsTrue result
        ↔ ObeysSet (board_without offers.now.slots.now offers.now.skip)
        (worth_with offers.now.slots.now offers.now.den offers.now.gains.now) table.now set }
{
    let bidders = offers.slots.bidders() as u16;
    if !is_last_kept(offers, table, set) {
        return false;
    }
    for j in 1..bidders + 1 {
        if !keeps_bidder(offers, table, set, j) {
            return false;
        }
    }
    true
}

/// Whether the entry of the set of all bidders isn't below 0.
fn is_last_kept(offers: &TestedBids, table: &Grid, set: usize) -> bool
    requires shape { HasSets (length offers.now.slots.now.bidders) table.now }
    requires set { set < 2 ^ length offers.now.slots.now.bidders }
    ensures { IsTrue result ↔ (set ≡ 2 ^ length offers.now.slots.now.bidders - 1 → pos 0 ≤ℤ entry_at table.now 0 set) }
{
    let sets: usize = 1 << offers.slots.bidders();
    if set + 1 < sets {
        return true;
    }
    is_at_most(0, table.entry(0, set))
}

/// Whether the entry of a set has what a bidder asks that isn't in it.
fn keeps_bidder(offers: &TestedBids, table: &Grid, set: usize, j: u16) -> bool
    requires shape { HasSets (length offers.now.slots.now.bidders) table.now }
    requires set { set < 2 ^ length offers.now.slots.now.bidders }
    requires bidder { (0 < j) × (j ≤ length offers.now.slots.now.bidders) }
    ensures { IsTrue result
        ↔ KeepsBidder (board_without offers.now.slots.now offers.now.skip)
        (worth_with offers.now.slots.now offers.now.den offers.now.gains.now) table.now set j
        ((board_without offers.now.slots.now offers.now.skip).bids j) }
{
    offers.slots.kept();
    if is_in(set, j) {
        return true;
    }
    if !is_at_most(table.entry(0, set + weight(j)), table.entry(0, set)) {
        return false;
    }
    for i in 1..offers.bids(j) + 1 {
        if !keeps_bid(offers, table, set, j, i) {
            return false;
        }
    }
    true
}

/// Whether the entry of a set has what a bid asks, if it can be given after the set.
fn keeps_bid(offers: &TestedBids, table: &Grid, set: usize, j: u16, i: u16) -> bool
    requires shape { HasSets (length offers.now.slots.now.bidders) table.now }
    requires set { set < 2 ^ length offers.now.slots.now.bidders }
    requires bidder { (0 < j) × (j ≤ length offers.now.slots.now.bidders) }
    requires new { IsFalse (holds set j) }
    requires bid { (0 < i) × (i ≤ (board_without offers.now.slots.now offers.now.skip).bids j) }
    ensures { IsTrue result
        ↔ KeepsBid (board_without offers.now.slots.now offers.now.skip)
        (worth_with offers.now.slots.now offers.now.den offers.now.gains.now) table.now set j i }
{
    offers.slots.kept();
    if !starts_after(offers, set, j, i) {
        return true;
    }
    let behind = table.entry(0, set + weight(j));
    covers(offers.worth(j, i), behind, table.entry(0, set))
}

/// Whether a bid is for the first slot after a set.
fn starts_after(offers: &TestedBids, set: usize, j: u16, i: u16) -> bool
    requires bidder { (0 < j) × (j ≤ length offers.now.slots.now.bidders) }
    requires bid { (0 < i) × (i ≤ (board_without offers.now.slots.now offers.now.skip).bids j) }
    ensures { result ≡ (board_without offers.now.slots.now offers.now.skip).may (holds set) j i }
{
    let place = offers.slots.place(j, i);
    place.start == offers.slots.start_after(set)
}

/// Whether the sum of a bid and an entry is at most another entry.
fn covers(worth: i128, behind: i128, entry: i128) -> bool
    requires worth { unsigned_abs worth < 2 ^ 121 }
    requires behind { unsigned_abs behind < 2 ^ 120 }
    ensures { IsTrue result ↔ ((worth +ℤ behind) ≤ℤ entry) }
{
    worth + behind <= entry
}
