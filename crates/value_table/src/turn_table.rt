// Tables of turns of pricing.
ghost use Rattle.std.specs.Prelude.{◌≡◌, ◌^◌, ◌≤◌, length, IfOk, unsigned_abs};
ghost use Rattle.auction_model.specs.Book.{net_of};
ghost use Rattle.auction_model.specs.Greatest.{IsFirstGreatest};
ghost use Rattle.auction_model.specs.Lowered.{lowered};
ghost use Rattle.auction_model.specs.Market.{sum_after};
ghost use Rattle.auction_model.specs.Menu.{fits_after};
ghost use Rattle.auction_model.specs.Table.{IsEntry};
ghost use Rattle.value_table.specs.BookTable.{menu_without, IsInRange};
ghost use Rattle.value_table.specs.Counted.{AreLoweredBids};
ghost use Rattle.value_table.specs.TableValue.{IsTableOf};

use crate::lowered_bids::LoweredBids;
use crate::turn_lines::TurnLines;
use bid_book::BidBook;
use choices::{Choice, Grid};
use std::alloc::{AllocError, Global};
use std::marker::Model;

/// The exact table of all bids of a book for lowered worths that `ValueTable::build` makes. Its lines have 32 or 64 bits if
/// no sum is larger: a turn of pricing that isn't the last needs only its greatest sum and its choice.
#[derive(Drop)]
pub struct TurnTable {
    den: i128,
    surplus: Vec<i128>,
    lines: TurnLines,
}

impl Model for TurnTable {
    ghost use Rattle.value_table.specs.TableValue.{TableValue};
    ghost use Rattle.value_table.specs.TurnLines.{lines_in};

    ghost Value = { TableValue };

    ghost view = { λ t. record { skip = 0; den = t.den; surplus = t.surplus.items; lines = lines_in t.lines } };
}

impl TurnTable {
    /// The exact table of a book, line by line from the last, with the conditions of `ValueTable::build`.
    pub fn build(
        alloc: Global,
        book: &BidBook,
        den: i128,
        surplus: &[i128],
    ) -> Result<TurnTable, AllocError>
        requires surplus { length surplus.now ≡ length book.now.bidders }
        requires range { IsInRange book.now 0 den surplus.now }
        ensures made { IfOk result (λ t. (t.skip ≡ 0) × (t.den ≡ den) × (t.surplus ≡ surplus.now)) }
        ensures exact { IfOk result (λ t. IsTableOf book.now t) }
    {
        let lowered = LoweredBids::new(book, 0, den, surplus);
        let lines = TurnLines::build(alloc, &lowered)?;
        let surplus = Vec::from_slice(alloc, surplus)?;
        Ok(TurnTable {
            den,
            surplus,
            lines,
        })
    }

    /// What the bids count in this table.
    fn lowered_bids<'a>(&'a self, book: &'a BidBook) -> LoweredBids<'a>
        requires { IsTableOf book.now self.now }
        ensures { AreLoweredBids book.now self.now.skip self.now.den self.now.surplus result }
    {
        LoweredBids::new(book, 0, self.den, &self.surplus)
    }

    /// The greatest sum: the entry of line 0 at the place of the whole supply.
    pub fn most(&self, book: &BidBook) -> i128
        requires { IsTableOf book.now self.now }
        ensures most { IsEntry (menu_without book.now self.now.skip)
            (lowered self.now.den (net_of book.now) self.now.surplus) 0 book.now.supply result }
        ensures size { unsigned_abs result ≤ 2 ^ 120 }
    {
        let lowered = self.lowered_bids(book);
        self.lines.most(&lowered)
    }

    /// The first choice of the greatest sum. The book is the one that the table was built from.
    pub fn trace(&self, alloc: Global, book: &BidBook) -> Result<Choice, AllocError>
        requires { IsTableOf book.now self.now }
        ensures { IfOk result
            (λ c. IsFirstGreatest (fits_after (menu_without book.now self.now.skip) 0 book.now.supply)
            (sum_after (lowered self.now.den (net_of book.now) self.now.surplus) 0) c) }
    {
        let lowered = self.lowered_bids(book);
        let numbers = self.lines.trace(alloc, &lowered)?;
        Ok(Choice::new(numbers))
    }

    /// The lines as a grid. The book is the one that the table was built from.
    pub fn grid(&self, alloc: Global, book: &BidBook) -> Result<Grid, AllocError>
        requires { IsTableOf book.now self.now }
        ensures { IfOk result (λ g. g ≡ self.now.lines) }
    {
        let lowered = self.lowered_bids(book);
        let grid = self.lines.grid(alloc, &lowered)?;
        Ok(grid)
    }
}
