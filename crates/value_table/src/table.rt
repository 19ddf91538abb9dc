// Tables.
ghost use Rattle.std.specs.Prelude.{◌≡◌, ℕ, ◌^◌, ◌≤◌, ◌<◌, [], length, IfOk, slice_index_or, pos, unsigned_abs};
ghost use Rattle.auction_model.specs.Market.{sum_after};
ghost use Rattle.auction_model.specs.Menu.{fits_after};
ghost use Rattle.auction_model.specs.Greatest.{IsFirstGreatest, IsWinning};
ghost use Rattle.auction_model.specs.Book.{market_of, net_of};
ghost use Rattle.auction_model.specs.Lowered.{lowered};
ghost use Rattle.auction_model.specs.Table.{IsEntry, entry_at};
ghost use Rattle.limits.specs.declared.TheConstants.{MOST_BIDDERS};
ghost use Rattle.value_table.specs.Counted.{counted_bids, counted, AreLoweredBids};
ghost use Rattle.value_table.specs.BookTable.{menu_without, IsInRange};
ghost use Rattle.value_table.specs.TableValue.{IsTableOf, IsPlain, IsPlainWithout};

use crate::lines::last_entry;
use crate::lowered_bids::LoweredBids;
use crate::tracing::trace_lines;
use crate::turn_lines::{TurnLines, all_lines, lines_without};
use bid_book::BidBook;
use choices::{Choice, Grid};
use std::alloc::{AllocError, Global};
use std::marker::Model;

/// The exact table of a book. Line `k`, of 0 to the number of bidders, has an entry for each place of the supply: the greatest
/// sum of a choice of the bidders after `k` within what the place leaves. Bidder `skip` has no bids, and 0 skips nobody. A bid
/// counts `den` times its net amount less the surplus of its bidder; a bidder that isn't used counts `max(0, -surplus)`.
#[derive(Drop)]
pub struct ValueTable {
    skip: u16,
    den: i128,
    surplus: Vec<i128>,
    grid: Grid,
}

impl Model for ValueTable {
    ghost use Rattle.value_table.specs.TableValue.{TableValue};

    ghost Value = { TableValue };

    ghost view = { λ t. record { skip = t.skip; den = t.den; surplus = t.surplus.items; lines = t.grid } };
}

impl ValueTable {
    /// The exact table of a book, line by line from the last. There is one surplus for each bidder, times
    /// `den`, and the sum over the bidders of `den` times the greatest net amount and the size of the surplus is below 2^120.
    pub fn build(
        alloc: Global,
        book: &BidBook,
        skip: u16,
        den: i128,
        surplus: &[i128],
    ) -> Result<ValueTable, AllocError>
        requires surplus { length surplus.now ≡ length book.now.bidders }
        requires range { IsInRange book.now skip den surplus.now }
        ensures made { IfOk result (λ t. (t.skip ≡ skip) × (t.den ≡ den) × (t.surplus ≡ surplus.now)) }
        ensures exact { IfOk result (λ t. IsTableOf book.now t) }
    {
        let lowered = LoweredBids::new(book, skip, den, surplus);
        let grid = all_lines(alloc, &lowered)?;
        let surplus = Vec::from_slice(alloc, surplus)?;
        Ok(ValueTable {
            skip,
            den,
            surplus,
            grid,
        })
    }

    /// The exact table of the net amounts without bidder `j`, from the table of all bids that `build` makes. The lines from `j`
    /// on are shared with this table, and only those below are computed.
    pub fn without(&self, alloc: Global, book: &BidBook, j: u16) -> Result<ValueTable, AllocError>
        requires bidder { (0 < j) × (j ≤ length book.now.bidders) }
        requires whole { IsTableOf book.now self.now }
        requires plain { IsPlain self.now }
        ensures plain { IfOk result (λ t. IsPlainWithout j t) }
        ensures exact { IfOk result (λ t. IsTableOf book.now t) }
    {
        book.kept();
        let surplus = Vec::from_slice(alloc, &self.surplus)?;
        let lowered = LoweredBids::new(book, j, 1, &surplus);
        let grid = lines_without(alloc, &lowered, &self.grid)?;
        Ok(ValueTable {
            skip: j,
            den: 1,
            surplus,
            grid,
        })
    }

    /// What the bids count in this table.
    fn lowered_bids<'a>(&'a self, book: &'a BidBook) -> LoweredBids<'a>
        requires { IsTableOf book.now self.now }
        ensures { AreLoweredBids book.now self.now.skip self.now.den self.now.surplus result }
    {
        LoweredBids::new(book, self.skip, self.den, &self.surplus)
    }

    /// The lines.
    pub fn grid(&self) -> &Grid
        ensures { result.now ≡ self.now.lines }
    {
        &self.grid
    }

    /// The entry of line `k` at a place.
    pub fn entry(&self, k: usize, place: usize) -> i128
        requires line { k < length self.now.lines }
        requires place { place < length (slice_index_or self.now.lines k []) }
        ensures { result ≡ entry_at self.now.lines k place }
    {
        self.grid.kept();
        self.grid.entry(k, place)
    }

    /// The greatest sum: the entry of line 0 at the place of the whole supply.
    pub fn most(&self, book: &BidBook) -> i128
        requires { IsTableOf book.now self.now }
        ensures most { IsEntry (menu_without book.now self.now.skip)
            (lowered self.now.den (net_of book.now) self.now.surplus) 0 book.now.supply result }
        ensures size { unsigned_abs result ≤ 2 ^ 120 }
    {
        let lowered = self.lowered_bids(book);
        last_entry(&lowered, &self.grid)
    }

    /// The first choice of the greatest sum. The book is the one that the table was built from.
    pub fn trace(&self, alloc: Global, book: &BidBook) -> Result<Choice, AllocError>
        requires { IsTableOf book.now self.now }
        ensures { IfOk result
            (λ c. IsFirstGreatest (fits_after (menu_without book.now self.now.skip) 0 book.now.supply)
            (sum_after (lowered self.now.den (net_of book.now) self.now.surplus) 0) c) }
    {
        let lowered = self.lowered_bids(book);
        let numbers = trace_lines(alloc, &lowered, &self.grid)?;
        Ok(Choice::new(numbers))
    }
}

/// As many surpluses of 0.
pub fn zeros(alloc: Global, count: usize) -> Result<Vec<i128>, AllocError>
    requires { count ≤ MOST_BIDDERS }
    ensures count { IfOk result (λ v. length v.items ≡ count) }
    ensures zeros { IfOk result (λ v. (k : ℕ) → slice_index_or v.items k (pos 0) ≡ pos 0) }
{
    vec![in alloc; 0i128; count]
}

/// The table of all bids for the net amounts.
pub fn plain_table(alloc: Global, book: &BidBook) -> Result<ValueTable, AllocError>
    ensures plain { IfOk result (λ t. IsPlain t) }
    ensures exact { IfOk result (λ t. IsTableOf book.now t) }
{
    let surplus = zeros(alloc, book.bidders())?;
    let table = ValueTable::build(alloc, book, 0, 1, &surplus)?;
    Ok(table)
}

/// The winning choice: the first choice of greatest value within the supply. This is the winner determination of a
/// combinatorial auction with XOR bids: at most one bid of each bidder wins. It uses dynamic programming over bidders and
/// remaining supplies, after Rothkopf, Pekeč and Harstad (1998), and takes a time in proportion to the bids times the states of
/// the supply.
pub fn win(alloc: Global, book: &BidBook) -> Result<Choice, AllocError>
    ensures { IfOk result (λ c. IsWinning (market_of book.now) c) }
{
    book.kept();
    let surplus = zeros(alloc, book.bidders())?;
    let lowered = LoweredBids::new(book, 0, 1, &surplus);
    let lines = TurnLines::build(alloc, &lowered)?;
    let numbers = lines.trace(alloc, &lowered)?;
    Ok(Choice::new(numbers))
}
