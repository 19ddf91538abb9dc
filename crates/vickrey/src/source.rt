// From what the values without a winner are taken.
ghost use Rattle.std.specs.Prelude.{◌≤◌, ◌<◌, ◌^◌, length, unsigned_abs};
ghost use Rattle.auction_model.specs.Book.{Book, market_of};
ghost use Rattle.auction_model.specs.Greatest.{IsGreatestValue};
ghost use Rattle.auction_model.specs.Market.{value_of};
ghost use Rattle.auction_model.specs.Prices.{allowed_without};
ghost use Rattle.value_table.specs.TableValue.{IsTableOf, IsPlain, IsPlainWithout};
ghost use Rattle.vickrey.specs.Sources.{IsSourceOf};

use bid_book::BidBook;
use value_table::{Sides, ValueTable};

/// What is already computed for a book: its sides, or only its table of all bids.
#[derive(Drop)]
pub enum Source<'a> {
    BothSides(&'a Sides),
    WholeTable(&'a ValueTable),
}

impl<'a> Source<'a> {
    /// The table of all bids.
    pub fn whole(&self) -> &ValueTable
        ensures { (book : Book) → IsSourceOf book self.now → IsTableOf book result.now × IsPlain result.now }
    {
        match self {
            Source::BothSides(sides) => sides.table(),
            Source::WholeTable(table) => table,
        }
    }

    /// The greatest value of a choice that doesn't use bidder `j`. The table is the one without it.
    pub fn most_without(&self, book: &BidBook, table: &ValueTable, j: u16) -> i128
        requires bidder { (0 < j) × (j ≤ length book.now.bidders) }
        requires source { IsSourceOf book.now self.now }
        requires table { IsTableOf book.now table.now }
        requires plain { IsPlainWithout j table.now }
        ensures most { IsGreatestValue (allowed_without (market_of book.now) j) (value_of (market_of book.now)) result }
        ensures size { unsigned_abs result ≤ 2 ^ 121 }
    {
        match self {
            Source::BothSides(sides) => sides.without(j),
            Source::WholeTable(_) => table.most(book),
        }
    }
}
