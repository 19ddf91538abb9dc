// Tables from two sides.
ghost use Rattle.std.specs.Prelude.{◌≡◌, ℕ, ◌+◌, ◌^◌, ◌≤◌, ◌<◌, [], length, IfOk, slice_index_or, pos, unsigned_abs};
ghost use Rattle.auction_model.specs.Book.{Book, market_of};
ghost use Rattle.auction_model.specs.Greatest.{IsGreatestValue};
ghost use Rattle.auction_model.specs.Market.{value_of};
ghost use Rattle.auction_model.specs.Place.{left_at};
ghost use Rattle.auction_model.specs.Prices.{allowed_without};
ghost use Rattle.choices.specs.Lines.{width_of};
ghost use Rattle.value_table.specs.SideValues.{AreSidesOf, IsLeftEntry, IsRightEntry, IsTurnedTable, IsGreatestPair, AreFullLines};
ghost use Rattle.value_table.specs.TableValue.{IsTableOf, IsPlainWithout};

use crate::lowered_bids::LoweredBids;
use crate::table::{ValueTable, plain_table, zeros};
use crate::turn_lines::all_lines;
use bid_book::BidBook;
use choices::Grid;
use std::alloc::{AllocError, Global};
use std::marker::Model;

/// The greatest net values from both sides of a book: of the bidders up to one, and of the bidders after it, within each
/// remaining supply. Together they determine the value without any bidder, and the tables without it.
#[derive(Drop)]
pub struct Sides {
    bidders: usize,
    states: usize,
    right: ValueTable,
    left: Grid,
}

impl Model for Sides {
    ghost use Rattle.value_table.specs.SideValues.{SidesValue, AreFullSides};

    ghost Value = { SidesValue };

    ghost view = { λ s. record { bidders = s.bidders; states = s.states; right = s.right; left = s.left } };

    ghost invariant = { λ s. AreFullSides
        (record { bidders = s.bidders; states = s.states; right = s.right; left = s.left }) };
}

impl Sides {
    /// The sides of a book: two tables. The only error is out of memory.
    pub fn build(alloc: Global, book: &BidBook) -> Result<Sides, AllocError>
        ensures { IfOk result (λ s. AreSidesOf book.now s) }
    {
        let right = plain_table(alloc, book)?;
        let left = reversed_lines(alloc, book)?;
        Ok(Sides {
            bidders: book.bidders(),
            states: book.supply().states(),
            right,
            left,
        })
    }

    /// The greatest net value of a choice that uses only bidders after `k`, within what a place leaves: the entry of the exact
    /// table.
    pub fn right(&self, k: usize, place: usize) -> i128
        requires bidder { k ≤ self.now.bidders }
        requires place { place < self.now.states }
        ensures { (book : Book) → AreSidesOf book self.now → IsRightEntry book k (left_at book.supply place) result }
    {
        self.right.entry(k, place)
    }

    /// The greatest net value of a choice that uses only bidders 1 to `k`, within what a place leaves.
    pub fn left(&self, k: usize, place: usize) -> i128
        requires bidder { k ≤ self.now.bidders }
        requires place { place < self.now.states }
        ensures { (book : Book) → AreSidesOf book self.now → IsLeftEntry book k (left_at book.supply place) result }
    {
        self.left.entry(self.bidders - k, place)
    }

    /// The greatest value of a choice that doesn't use bidder `j`.
    pub fn without(&self, j: u16) -> i128
        requires { (0 < j) × (j ≤ self.now.bidders) }
        ensures most { (book : Book) → AreSidesOf book self.now
            → IsGreatestValue (allowed_without (market_of book) j) (value_of (market_of book)) result }
        ensures size { unsigned_abs result ≤ 2 ^ 121 }
    {
        let before = self.bidders - (j as usize - 1);
        greatest_pair(&self.left, before, self.right.grid(), j as usize)
    }

    /// The exact table of the net amounts without bidder `j` that `ValueTable::build` makes. The lines from `j` on are shared
    /// with the table of all bids, and only those below are computed. The book is the one that the sides were built from.
    pub fn table_without(
        &self,
        alloc: Global,
        book: &BidBook,
        j: u16,
    ) -> Result<ValueTable, AllocError>
        requires bidder { (0 < j) × (j ≤ length book.now.bidders) }
        requires sides { AreSidesOf book.now self.now }
        ensures plain { IfOk result (λ t. IsPlainWithout j t) }
        ensures exact { IfOk result (λ t. IsTableOf book.now t) }
    {
        let table = self.right.without(alloc, book, j)?;
        Ok(table)
    }

    /// The exact table of all bids.
    pub fn table(&self) -> &ValueTable
        ensures { result.now ≡ self.now.right }
    {
        &self.right
    }
}

/// The exact table of the net amounts with the bidders turned round: line `k` counts the bidders up to the `k`th from the end.
fn reversed_lines(alloc: Global, book: &BidBook) -> Result<Grid, AllocError>
    ensures exact { IfOk result (λ g. IsTurnedTable book.now g) }
{
    let surplus = zeros(alloc, book.bidders())?;
    let lowered = LoweredBids {
        book,
        turned: true,
        skip: 0,
        den: 1,
        surplus: &surplus,
    };
    let lines = all_lines(alloc, &lowered)?;
    Ok(lines)
}

/// The greatest sum of a number of a line of one grid and the number of a line of the other as far from its end.
fn greatest_pair(left: &Grid, before: usize, right: &Grid, after: usize) -> i128
    requires before_line { before < length left.now }
    requires after_line { after < length right.now }
    requires some { 0 < width_of left.now }
    requires places { width_of left.now ≡ width_of right.now }
    requires before { (s : ℕ) → unsigned_abs (slice_index_or (slice_index_or left.now before []) s (pos 0)) ≤ 2 ^ 120 }
    requires after { (s : ℕ) → unsigned_abs (slice_index_or (slice_index_or right.now after []) s (pos 0)) ≤ 2 ^ 120 }
    ensures most { IsGreatestPair (width_of left.now)
        (slice_index_or left.now before [])
        (slice_index_or right.now after []) result }
    ensures size { unsigned_abs result ≤ 2 ^ 121 }
{
    let places = left.width();
    let mut most = left.entry(before, 0) + right.entry(after, places - 1);
    for s in 1..places {
        most = most.max(left.entry(before, s) + right.entry(after, places - 1 - s));
    }
    most
}
