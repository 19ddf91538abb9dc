// Bidders with their bids as a book keeps them.
ghost use Rattle.std.specs.Prelude.{◌≡◌, ◌≤◌, All, IfOk, length, map};
ghost use Rattle.std.specs.List.{AllByRecursion};
ghost use Rattle.bid_book.specs.Fields.{HasNet, bid_value};
ghost use Rattle.bid_book.specs.Gathered.{AreBookBidders, AreEntries};
ghost use Rattle.bid_book.specs.Lists.{bid_of};
ghost use Rattle.bid_book.specs.Sound.{IsSoundBid, IsSoundBidder};
ghost use Rattle.limits.specs.declared.TheConstants.{MOST_PRICE};

use crate::Bidders;
use crate::book::better::better_among;
use crate::book::rivals::Rivals;
use crate::book::{BookBidder, Entry};
use lots::{Bid, Supply};
use std::alloc::{AllocError, Global};

/// The bidders with the net amounts of their bids.
pub fn book_bidders(
    alloc: Global,
    supply: &Supply,
    reserves: &[u64],
    bidders: Bidders,
) -> Result<Vec<BookBidder>, AllocError>
    requires count { length reserves.now ≡ length supply.now }
    requires most { All (λ p. p ≤ MOST_PRICE) reserves.now }
    requires sound { AllByRecursion (IsSoundBidder supply.now reserves.now) bidders }
    ensures { IfOk result (λ v. AreBookBidders reserves.now bidders v.items) }
{
    let mut held = Vec::new(alloc);
    let mut rivals = Rivals::new(alloc);
    for bidder in bidders.into_vec() {
        rivals.clear();
        let bids = bidder.bids.into_vec();
        let bids = entries_of(alloc, supply, reserves, &mut rivals, bids)?;
        held.push(BookBidder::new(bidder.name, bids))?;
    }
    Ok(held)
}

/// The bids of one bidder with their net amounts. No rivals are known yet.
fn entries_of(
    alloc: Global,
    supply: &Supply,
    reserves: &[u64],
    rivals: &mut Rivals,
    bids: Vec<Bid>,
) -> Result<Vec<Entry>, AllocError>
    requires count { length reserves.now ≡ length supply.now }
    requires most { All (λ p. p ≤ MOST_PRICE) reserves.now }
    requires sound { AllByRecursion (IsSoundBid supply.now reserves.now) (map bid_of bids.items) }
    ensures { IfOk result (λ v. AreEntries reserves.now (map bid_of bids.items) v.items) }
{
    let mut entries = Vec::new(alloc);
    for bid in bids {
        let mut entry = with_net(reserves, bid);
        let rival = rivals.take(supply, &entry.bid.package, entry.net)?;
        entry.better = better_among(&entries, &entry, rival);
        entries.push(entry)?;
    }
    Ok(entries)
}

/// The bid with its net amount: its amount less the reserve of its package. There is no rival yet.
pub fn with_net(reserves: &[u64], bid: Bid) -> Entry
    requires count { length reserves.now ≡ length bid.package }
    requires most { All (λ p. p ≤ MOST_PRICE) reserves.now }
    ensures bid { bid_value result ≡ bid_of bid }
    ensures net { HasNet reserves.now result }
{
    let net = bid.amount as i128 - bid.package.cost(reserves) as i128;
    Entry {
        bid,
        net,
        better: 0,
    }
}
