// The book.
ghost use Rattle.std.specs.Prelude.{◌≡◌, ◌≤◌, ◌++◌, IfOk, OnOk, length, map};
ghost use Rattle.book_grammar.specs.BookLines.{IsBookWithinLimits};
ghost use Rattle.auction_rules.specs.BookOfLog.{best_bids, book_bidder, book_by};
ghost use Rattle.auction_rules.specs.Caps.{clock_bid};
ghost use Rattle.auction_rules.specs.Rounds.{listing};
ghost use Rattle.auction_rules.specs.Terms.{entrant};
ghost use Rattle.clock_stage.specs.Kept.{categories_in};
ghost use Rattle.relative_cap.specs.Asked.{IsBidderOf};
ghost use Rattle.relative_cap.specs.OwnRounds.{bid_value, own_in, rounds_of};
ghost use Rattle.bid_desk.specs.BookBids.{AreBooked, IsBooked, bids_by, submitted_in, with_greater, with_most};
ghost use Rattle.bid_desk.specs.Lists.{IsKept};

use crate::lists::BidderLists;
use crate::slots::{copied_entries, put_entry};
use award_file::Award;
use bid_book::{BidBook, BidList, BidderBids, Bidders, Name, Reserves};
use clock_stage::History;
use lots::{Bid, Package, Supply};
use relative_cap::amount_listed;
use std::alloc::{AllocError, Global};

/// Sets the amount for the package in a list, or leaves the list's own if that is greater.
fn raise_to(list: &mut Vec<Bid>, package: &Package, amount: u64) -> Result<(), AllocError>
    requires { IsKept (length «package».now) (map bid_value list.old.items) }
    ensures { OnOk result
        (map bid_value list.new.items ≡ with_greater «package».now amount (map bid_value list.old.items)) }
{
    let most = amount.max(amount_listed(list, package));
    put_entry(list, package, most)?;
    Ok(())
}

/// Puts the clock bid of bidder `j` in round `r` into the list, unless it is for the empty package or the list's own amount is
/// greater.
fn put_clock_bid(history: &History, j: u16, r: u32, list: &mut Vec<Bid>) -> Result<(), AllocError>
    requires bidder { IsBidderOf history.now j }
    requires round { (1 ≤ r) × (r ≤ length history.now) }
    requires kept { IsKept (categories_in history.now) (map bid_value list.old.items) }
    ensures bids { OnOk result
        (map bid_value list.new.items
        ≡ with_most (clock_bid (own_in history.now j r)) (map bid_value list.old.items)) }
    ensures kept { OnOk result (IsKept (categories_in history.now) (map bid_value list.new.items)) }
{
    let held = history.package(r, j);
    if held.is_empty() {
        return Ok(());
    }
    raise_to(list, held, held.cost(history.prices(r)))?;
    Ok(())
}

/// The list of these bids.
fn listed(alloc: Global, bids: Vec<Bid>) -> Result<BidList, AllocError>
    ensures { IfOk result (λ list. list ≡ map bid_value bids.items) }
{
    let mut list = BidList::new(alloc);
    for bid in bids {
        list.push(bid)?;
    }
    Ok(list)
}

/// The bids of bidder `j` in the book: for each package that isn't empty and is among its clock bids or in its submitted list
/// the greatest amount there, in the order of packages.
fn bids_of(
    alloc: Global,
    history: &History,
    j: u16,
    submitted: &[Bid],
) -> Result<BidList, AllocError>
    requires bidder { IsBidderOf history.now j }
    requires submitted { IsBooked (categories_in history.now) (map bid_value submitted.now) }
    ensures { IfOk result
        (λ list. list ≡ best_bids (map clock_bid (rounds_of j history.now) ++ map bid_value submitted.now)) }
{
    let mut bids = copied_entries(alloc, submitted)?;
    for r in (0..history.rounds()).rev() {
        put_clock_bid(history, j, r + 1, &mut bids)?;
    }
    let list = listed(alloc, bids)?;
    Ok(list)
}

/// Bidder `j` of the award with its bids in the book.
fn bidder_of(
    alloc: Global,
    award: &Award,
    history: &History,
    j: u16,
    submitted: &[Bid],
) -> Result<BidderBids, AllocError>
    requires known { (1 ≤ j) × (j ≤ length award.now.bidders) }
    requires bidder { IsBidderOf history.now j }
    requires submitted { IsBooked (categories_in history.now) (map bid_value submitted.now) }
    ensures name { IfOk result (λ b. b.name ≡ (entrant award.now j).name) }
    ensures bids { IfOk result
        (λ b. b.bids ≡ best_bids (map clock_bid (rounds_of j history.now) ++ map bid_value submitted.now)) }
{
    let name = Name::new(alloc, award.name(j))?;
    let bids = bids_of(alloc, history, j, submitted)?;
    Ok(BidderBids { name, bids })
}

/// The bidders of the award in order, each with its bids in the book.
fn bidders_of(
    alloc: Global,
    award: &Award,
    history: &History,
    lists: &[BidderLists],
) -> Result<Bidders, AllocError>
    requires { AreBooked award.now history.now (map submitted_in lists.now) }
    ensures { IfOk result
        (λ b. b ≡ listing (book_bidder award.now (bids_by history.now (map submitted_in lists.now)))
        (length award.now.bidders)) }
{
    award.kept();
    let mut bidders = Bidders::new(alloc);
    for (place, own) in lists.iter().enumerate() {
        let bidder = bidder_of(alloc, award, history, place as u16 + 1, own.submitted())?;
        bidders.push(bidder)?;
    }
    Ok(bidders)
}

/// A copy of the supply. Its counts obey all rules of a supply, so the only error is out of memory.
fn supply_copied(alloc: Global, supply: &Supply) -> Result<Supply, AllocError>
    ensures { IfOk result (λ s. s ≡ supply.now) }
{
    match Supply::new(alloc, supply.counts()) {
        Ok(copy) => Ok(copy),
        Err(_) => Err(AllocError),
    }
}

/// A copy of the reserves.
fn reserves_copied(alloc: Global, reserves: &[u64]) -> Result<Reserves, AllocError>
    ensures { IfOk result (λ r. r ≡ reserves.now) }
{
    let mut copies = Reserves::new(alloc);
    for reserve in reserves {
        copies.push(*reserve)?;
    }
    Ok(copies)
}

/// The book of the award with the clock bids of the closed rounds and with the submitted lists. The only error is out of memory.
pub fn book_of(
    alloc: Global,
    award: &Award,
    history: &History,
    lists: &[BidderLists],
) -> Result<BidBook, AllocError>
    requires booked { AreBooked award.now history.now (map submitted_in lists.now) }
    requires limits { IsBookWithinLimits (book_by award.now (bids_by history.now (map submitted_in lists.now))) }
    ensures { IfOk result (λ book. book ≡ book_by award.now (bids_by history.now (map submitted_in lists.now))) }
{
    let supply = supply_copied(alloc, award.supply())?;
    let reserves = reserves_copied(alloc, award.reserves())?;
    let bidders = bidders_of(alloc, award, history, lists)?;
    let book = BidBook::from_lists(alloc, supply, reserves, bidders)?;
    Ok(book)
}
