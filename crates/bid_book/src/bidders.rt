// Lists of bidders with their bids, to make a book.
ghost use Rattle.std.specs.Prelude.{◌≡◌, ◌∷◌, ◌++◌, [], OnErr, OnOk, map};
ghost use Rattle.bid_book.specs.Listed.{bidder_of};

use crate::{BidList, Name};
use std::alloc::{AllocError, Global};
use std::marker::Model;

/// A bidder with its bids.
#[derive(Drop)]
pub struct BidderBids {
    /// Its name.
    pub name: Name,
    /// Its bids, in the order of their packages.
    pub bids: BidList,
}

/// A list of bidders with their bids.
#[derive(Drop)]
pub struct Bidders {
    bidders: Vec<BidderBids>,
}

impl Model for Bidders {
    ghost use Rattle.std.specs.Prelude.{List, map};
    ghost use Rattle.auction_model.specs.Book.{Bidder};
    ghost use Rattle.bid_book.specs.Listed.{bidder_of};

    ghost Value = { List Bidder };

    ghost view = { λ list. map bidder_of list.bidders.items };
}

impl Bidders {
    /// The empty list. It takes no memory.
    pub fn new(alloc: Global) -> Bidders
        ensures { result ≡ [] }
    {
        Bidders {
            bidders: Vec::new(alloc),
        }
    }

    /// Appends one bidder. If memory runs out, the list stays as it is.
    pub fn push(&mut self, item: BidderBids) -> Result<(), AllocError>
        ensures pushed { OnOk result (self.new ≡ self.old ++ bidder_of item ∷ []) }
        ensures unchanged { OnErr result (self.new ≡ self.old) }
    {
        self.bidders.push(item)?;
        Ok(())
    }

    /// The bidders in order.
    pub fn items(&self) -> &[BidderBids]
        ensures { map bidder_of result.now ≡ self.now }
    {
        self.bidders.as_slice()
    }

    /// The bidders in order.
    pub(crate) fn into_vec(self) -> Vec<BidderBids>
        ensures { map bidder_of result.items ≡ self }
    {
        self.bidders
    }
}
