// Books, and the calls that read them.
ghost use Rattle.std.specs.Prelude.{◌≡◌, ℕ, ◌≤◌, ◌<◌, [], ◌∷◌, ◌++◌, IfOk, IsOk, OnErr, OnOk, length};
ghost use Rattle.auction_model.specs.Book.{bid_of, bidder_of, bidder_with, bids_of, lots_of, net_of, with_bidders};
ghost use Rattle.bid_book.specs.Kept.{IsBidBook};
ghost use Rattle.limits.specs.declared.TheConstants.{MOST_BIDDERS, MOST_BIDS};

pub(crate) mod better;
pub(crate) mod changes;
pub(crate) mod gather;
pub(crate) mod rivals;

use crate::book::better::better_among;
use crate::book::changes::{put_entry, remove_entry};
use crate::book::gather::{book_bidders, with_net};
use crate::{Bidders, Name, Reserves};
use lots::{Bid, Supply};
use std::alloc::{AllocError, Global};
use std::marker::Model;

/// A bid with its net amount.
#[derive(Drop)]
pub struct Entry {
    /// The package with its amount.
    pub bid: Bid,
    /// An earlier bid of the same bidder that is no larger in any category and worth at least as much, or 0.
    pub better: u16,
    /// The amount less the reserve of the package.
    pub net: i128,
}

/// A bidder with its bids, in the order of their packages.
#[derive(Drop)]
pub struct BookBidder {
    name: Name,
    bids: Vec<Entry>,
}

impl BookBidder {
    /// The bidder of this name with these bids.
    pub fn new(name: Name, bids: Vec<Entry>) -> BookBidder
        ensures { (result.name ≡ name) × (result.bids ≡ bids) }
    {
        BookBidder { name, bids }
    }
}

/// A book: what is sold, the reserves, and the bids of each bidder in the order of their packages. It keeps the rules of
/// its text and all limits. Bidders and bids are numbered from 1.
#[derive(Drop)]
pub struct BidBook {
    supply: Supply,
    reserves: Vec<u64>,
    bidders: Vec<BookBidder>,
}

impl Model for BidBook {
    ghost use Rattle.auction_model.specs.Book.{Book};

    ghost Value = { Book };

    ghost use Rattle.bid_book.specs.Kept.{IsBidBook};
    ghost use Rattle.bid_book.specs.Fields.{book_value, NetsAreKept};
    ghost use Rattle.bid_book.specs.Better.{BettersAreKept};

    ghost view = { book_value };

    ghost invariant = { λ b. IsBidBook (book_value b) × NetsAreKept b × BettersAreKept b };
}

impl BidBook {
    ghost use Rattle.book_grammar.specs.BookForm.{AreReserves};
    ghost use Rattle.book_grammar.specs.BookLines.{IsBookWithinLimits};
    ghost use Rattle.bid_book.specs.Fields.{HasNet, bid_value};
    ghost use Rattle.lots.specs.Limits.{IsSupply};
    ghost use Rattle.bid_book.specs.Stages.{opened, with_bid};
    ghost use Rattle.bid_book.specs.Better.{IsBetter};
    ghost use Rattle.bid_book.specs.Lists.{bid_of as put_value, book_of};
    ghost use Rattle.bid_book.specs.Changes.{with_put, without_bid, IsBidFor};

    /// The book of this supply, these reserves and these bidders. The condition is that they keep the rules of a book's text and
    /// all limits: a reserve for each category, names that differ, and the bids of each bidder in the order of their packages,
    /// each within the supply and at least at the reserve. The only error is out of memory.
    pub fn from_lists(
        alloc: Global,
        supply: Supply,
        reserves: Reserves,
        bidders: Bidders,
    ) -> Result<BidBook, AllocError>
        requires { IsBookWithinLimits (book_of supply reserves bidders) }
        ensures { IfOk result (λ book. book ≡ book_of supply reserves bidders) }
    {
        let reserves = reserves.into_vec();
        let bidders = book_bidders(alloc, &supply, &reserves, bidders)?;
        Ok(BidBook {
            supply,
            reserves,
            bidders,
        })
    }

    /// The book of this supply with these reserves, before its first bidder.
    pub(crate) fn open(alloc: Global, supply: Supply, reserves: Vec<u64>) -> BidBook
        requires supply { IsSupply supply }
        requires reserves { AreReserves supply reserves.items }
        ensures { result ≡ opened supply reserves.items }
    {
        BidBook {
            supply,
            reserves,
            bidders: Vec::new(alloc),
        }
    }

    /// Puts a bidder without bids after the others.
    pub(crate) fn add_bidder(&mut self, alloc: Global, name: Name) -> Result<(), AllocError>
        requires { IsBookWithinLimits (with_bidders self.old (self.old.bidders ++ bidder_with name [] ∷ [])) }
        ensures { OnOk result (self.new ≡ with_bidders self.old (self.old.bidders ++ bidder_with name [] ∷ [])) }
    {
        let bids = Vec::new(alloc);
        self.bidders.push(BookBidder { name, bids })?;
        Ok(())
    }

    /// Puts a bid after the bids of the last bidder. The rival is a number that may make it needless, or any other number.
    pub(crate) fn add_bid(&mut self, entry: Entry, rival: u16) -> Result<(), AllocError>
        requires some { 0 < length self.old.bidders }
        requires kept { IsBookWithinLimits (with_bid self.old (bid_value entry)) }
        requires net { HasNet self.old.reserves entry }
        ensures { OnOk result (self.new ≡ with_bid self.old (bid_value entry)) }
    {
        let last = self.bidders.len() - 1;
        let bidder = &mut self.bidders[last];
        let better = better_among(&bidder.bids, &entry, rival);
        bidder.bids.push(Entry { better, ..entry })?;
        Ok(())
    }

    /// Sets the amount of bidder `j` for a package. Its bid for the package keeps its number. If there is none, a bid is
    /// inserted in the order of packages, and the later ones move one number up. The condition is that the book then keeps its
    /// rules. Only a new bid takes memory, and if there is none the book is unchanged.
    pub fn put_bid(&mut self, j: u16, bid: Bid) -> Result<(), AllocError>
        requires bidder { (0 < j) × (j ≤ length self.old.bidders) }
        requires kept { IsBookWithinLimits (with_put self.old j (put_value bid)) }
        ensures put { OnOk result (self.new ≡ with_put self.old j (put_value bid)) }
        ensures unchanged { OnErr result (self.new ≡ self.old) }
        ensures known { (i : ℕ) → IsBidFor self.old j bid.package i → IsOk result }
    {
        let entry = with_net(&self.reserves, bid);
        let bidder = &mut self.bidders[j as usize - 1];
        put_entry(&mut bidder.bids, entry)?;
        Ok(())
    }

    /// Takes bid `i` of bidder `j` out; the later ones move one number down. It takes no memory.
    pub fn remove_bid(&mut self, j: u16, i: u16)
        requires bidder { (0 < j) × (j ≤ length self.old.bidders) }
        requires bid { (0 < i) × (i ≤ length (bids_of self.old j)) }
        ensures { self.new ≡ without_bid self.old j i }
    {
        let bidder = &mut self.bidders[j as usize - 1];
        remove_entry(&mut bidder.bids, i as usize - 1);
    }

    /// The rules that each book keeps. Nothing is done: proofs read the clause.
    pub fn kept(&self)
        ensures { IsBidBook self.now }
    {
        // The rules of a type are known once its field is used.
        let _ = &self.supply;
    }

    /// What is sold.
    pub fn supply(&self) -> &Supply
        ensures supply { result.now ≡ self.now.supply }
        ensures kept { IsBidBook self.now }
    {
        &self.supply
    }

    /// The reserve of each category, for one lot.
    pub fn reserves(&self) -> &[u64]
        ensures { result.now ≡ self.now.reserves }
    {
        &self.reserves
    }

    /// How many bidders there are.
    pub fn bidders(&self) -> usize
        ensures bidders { result ≡ length self.now.bidders }
        ensures most { result ≤ MOST_BIDDERS }
        ensures kept { IsBidBook self.now }
    {
        self.bidders.len()
    }

    /// The name of bidder `j`.
    pub fn name(&self, j: u16) -> &str
        requires { (0 < j) × (j ≤ length self.now.bidders) }
        ensures { result.now ≡ (bidder_of self.now j).name }
    {
        let bidder = &self.bidders[j as usize - 1];
        bidder.name.text()
    }

    /// How many bids bidder `j` has.
    pub fn bids(&self, j: u16) -> u16
        requires { (0 < j) × (j ≤ length self.now.bidders) }
        ensures bids { result ≡ length (bids_of self.now j) }
        ensures most { result ≤ MOST_BIDS }
        ensures kept { IsBidBook self.now }
    {
        let bidder = &self.bidders[j as usize - 1];
        bidder.bids.len() as u16
    }

    /// Bid `i` of bidder `j`.
    pub fn bid(&self, j: u16, i: u16) -> &Bid
        requires bidder { (0 < j) × (j ≤ length self.now.bidders) }
        requires bid { (0 < i) × (i ≤ length (bids_of self.now j)) }
        ensures lots { result.now.package ≡ lots_of self.now j i }
        ensures amount { result.now.amount ≡ (bid_of self.now j i).amount }
        ensures categories { length result.now.package ≡ length self.now.supply }
        ensures kept { IsBidBook self.now }
    {
        let bidder = &self.bidders[j as usize - 1];
        let chosen = &bidder.bids[i as usize - 1];
        &chosen.bid
    }

    /// The net amount of bid `i` of bidder `j`: its amount less the reserve of its package. It is at least 0.
    pub fn net(&self, j: u16, i: u16) -> i128
        requires bidder { (0 < j) × (j ≤ length self.now.bidders) }
        requires bid { (0 < i) × (i ≤ length (bids_of self.now j)) }
        ensures { result ≡ net_of self.now j i }
    {
        let bidder = &self.bidders[j as usize - 1];
        let entry = &bidder.bids[i as usize - 1];
        entry.net
    }

    /// An earlier bid of bidder `j` that is no larger than its bid `i` in any category and worth at least as much, and 0 if
    /// none was found. Anyone who looks for the first of the greatest choices can leave such a bid `i` out.
    pub fn better(&self, j: u16, i: u16) -> u16
        requires bidder { (0 < j) × (j ≤ length self.now.bidders) }
        requires bid { (0 < i) × (i ≤ length (bids_of self.now j)) }
        ensures { 0 < result → IsBetter self.now j i result }
    {
        let bidder = &self.bidders[j as usize - 1];
        let entry = &bidder.bids[i as usize - 1];
        entry.better
    }
}
