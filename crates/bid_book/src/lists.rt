// Lists of bids and of reserves, to make a book.
ghost use Rattle.std.specs.Prelude.{◌≡◌, ◌∷◌, ◌++◌, [], OnErr, OnOk, map};
ghost use Rattle.bid_book.specs.Lists.{bid_of};

use lots::Bid;
use std::alloc::{AllocError, Global};
use std::marker::Model;
use wide_num::ItemList;

/// A list of bids.
#[derive(Drop)]
pub struct BidList {
    bids: Vec<Bid>,
}

impl Model for BidList {
    ghost use Rattle.std.specs.Prelude.{List, map};
    ghost use Rattle.auction_model.specs.Book.{BookBid};
    ghost use Rattle.bid_book.specs.Lists.{bid_of};

    ghost Value = { List BookBid };

    ghost view = { λ list. map bid_of list.bids.items };
}

impl BidList {
    /// The empty list. It takes no memory.
    pub fn new(alloc: Global) -> BidList
        ensures { result ≡ [] }
    {
        BidList {
            bids: Vec::new(alloc),
        }
    }

    /// Appends one bid. If memory runs out, the list stays as it is.
    pub fn push(&mut self, item: Bid) -> Result<(), AllocError>
        ensures pushed { OnOk result (self.new ≡ self.old ++ bid_of item ∷ []) }
        ensures unchanged { OnErr result (self.new ≡ self.old) }
    {
        self.bids.push(item)?;
        Ok(())
    }

    /// The bids in order.
    pub fn items(&self) -> &[Bid]
        ensures { map bid_of result.now ≡ self.now }
    {
        self.bids.as_slice()
    }

    /// The bids in order.
    pub(crate) fn into_vec(self) -> Vec<Bid>
        ensures { map bid_of result.items ≡ self }
    {
        self.bids
    }
}

/// A list of reserves, each of one lot.
pub type Reserves = ItemList<u64>;
