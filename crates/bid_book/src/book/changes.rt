// Bids that are inserted into the bids of a bidder, and removed.
ghost use Rattle.std.specs.Prelude.{◌≡◌, ℕ, ◌<◌, ◌≤◌, ◌↔◌, All, IsOk, IsTrue, OnErr, OnOk, length, map, slice_index_or, slice_set, take};
ghost use Rattle.std.specs.List.{insert, remove};
ghost use Rattle.auction_model.specs.Book.{no_bid};
ghost use Rattle.bid_book.specs.Better.{BeatsAmong};
ghost use Rattle.bid_book.specs.Changes.{InPackageOrder, IsPlaceIn};
ghost use Rattle.bid_book.specs.Fields.{bid_value};
ghost use Rattle.bid_book.specs.Moved.{AreSettled, IsPutIn};

use crate::book::Entry;
use crate::book::better::better_among;
use crate::read::entries::comes_before;
use limits::MOST_BIDS;
use lots::Package;
use std::alloc::AllocError;

/// What happened to the bid of a number.
#[derive(Clone, Copy)]
enum Change {
    /// It has another amount.
    Set(u16),
    /// It was put in, so that the later ones moved one number up.
    PutIn(u16),
    /// It was taken out, so that the later ones moved one number down. What was kept with it as better is the second number.
    TakenOut(u16, u16),
}

/// Puts a bid in: in the place of the one for its package, or else in the order of packages. It takes memory only for one more,
/// and for want of it all stay as they are.
pub fn put_entry(bids: &mut Vec<Entry>, entry: Entry) -> Result<(), AllocError>
    requires categories { All (λ e. length e.bid.package ≡ length entry.bid.package) bids.old.items }
    requires order { InPackageOrder (map bid_value bids.old.items) }
    ensures put { OnOk result (IsPutIn bids.old.items entry bids.new.items) }
    ensures unchanged { OnErr result (bids.new.items ≡ bids.old.items) }
    ensures known { (i : ℕ) → i < length bids.old.items
        → (slice_index_or (map bid_value bids.old.items) i no_bid).lots ≡ entry.bid.package → IsOk result }
{
    let place = place_of(bids, &entry.bid.package);
    if is_there(bids, place, &entry.bid.package) {
        set_entry(bids, place, entry);
        return Ok(());
    }
    add_entry(bids, place, entry)?;
    Ok(())
}

/// Takes out the bid at a place.
pub fn remove_entry(bids: &mut Vec<Entry>, place: usize)
    requires { place < length bids.old.items }
    ensures { AreSettled (remove bids.old.items place) bids.new.items }
{
    let gone = bids.remove(place);
    settle(bids, Change::TakenOut(number_at(place), gone.better));
}

/// How many bids come before those for the package, if they are in order.
fn place_of(bids: &[Entry], wanted: &Package) -> usize
    requires { All (λ e. length e.bid.package ≡ length wanted.now) bids.now }
    ensures { IsPlaceIn (map bid_value bids.now) wanted.now result }
{
    for place in 0..bids.len() {
        if !comes_before(bids[place].bid.package.counts(), wanted.counts()) {
            return place;
        }
    }
    bids.len()
}

/// Whether the bid at a place is for the package.
fn is_there(bids: &[Entry], place: usize, wanted: &Package) -> bool
    ensures { IsTrue result
        ↔ ((place < length bids.now) × ((slice_index_or (map bid_value bids.now) place no_bid).lots ≡ wanted.now)) }
{
    if place >= bids.len() {
        return false;
    }
    bids[place].bid.package.counts() == wanted.counts()
}

/// Puts an entry in the place of another.
fn set_entry(bids: &mut Vec<Entry>, place: usize, entry: Entry)
    requires { place < length bids.old.items }
    ensures { AreSettled (slice_set bids.old.items place entry) bids.new.items }
{
    bids[place] = entry;
    settle(bids, Change::Set(number_at(place)));
}

/// Puts an entry before the one at a place.
fn add_entry(bids: &mut Vec<Entry>, place: usize, entry: Entry) -> Result<(), AllocError>
    requires { place ≤ length bids.old.items }
    ensures put { OnOk result (AreSettled (insert bids.old.items place entry) bids.new.items) }
    ensures unchanged { OnErr result (bids.new.items ≡ bids.old.items) }
{
    bids.insert(place, entry)?;
    settle(bids, Change::PutIn(number_at(place)));
    Ok(())
}

/// The number of the bid at a place.
fn number_at(place: usize) -> u16 {
    place.min(MOST_BIDS as usize) as u16 + 1
}

/// Tests again, after a change, which bid makes each bid needless.
fn settle(bids: &mut [Entry], change: Change)
    ensures { AreSettled bids.old bids.new }
{
    for i in 0..bids.len() {
        let rival = rival_after(change, bids[i].better);
        let better = better_at(bids, i, rival);
        bids[i].better = better;
    }
}

/// The rival, if it makes the bid at a place needless, and else 0.
fn better_at(bids: &[Entry], place: usize, rival: u16) -> u16
    requires { place < length bids.now }
    ensures { (e : Entry) → e ≡ slice_index_or bids.now place e → BeatsAmong (take place bids.now) e result }
{
    better_among(&bids[..place], &bids[place], rival)
}

/// Guesses which bid makes another needless after a change, from the number that was kept with it. Nothing is proved of a guess:
/// the caller tests it.
fn rival_after(change: Change, better: u16) -> u16 {
    match change {
        Change::Set(number) => guess(better, number, better),
        Change::PutIn(number) if better >= number => better.saturating_add(1),
        Change::PutIn(number) => guess(better, number, better),
        Change::TakenOut(number, own) if better == number => own,
        Change::TakenOut(number, _) if better > number => better.saturating_sub(1),
        Change::TakenOut(_, _) => better,
    }
}

/// The number that was changed, if none was there, and else the other.
fn guess(better: u16, changed: u16, other: u16) -> u16 {
    if better == 0 { changed } else { other }
}
