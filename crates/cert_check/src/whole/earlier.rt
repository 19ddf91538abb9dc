// The bids that come before the choice's bids in the order of ties, over a whole table.
ghost use Rattle.std.specs.Prelude.{◌≡◌, ◌↔◌, ◌^◌, ◌<◌, ◌≤◌, IsTrue, unsigned_abs};
ghost use Rattle.auction_model.specs.Book.{market_of};
ghost use Rattle.cert_grammar.specs.CertText.{IsTable};
ghost use Rattle.cert_soundness.specs.Tests.{bidders_of, states};
ghost use Rattle.cert_check.specs.EarlierBids.{NoneEarlier};
ghost use Rattle.cert_check.specs.Fields.{cert_headed};
ghost use Rattle.cert_check.specs.Places.{IsFirstFailing};

use crate::tables::STATE_ROOM;
use crate::tables::earlier::none_earlier;
use crate::whole::grids::put_line;
use bid_book::BidBook;
use choices::Grid;

/// Whether no earlier choice reaches the value, by a line of a whole table.
fn none_earlier_in(book: &BidBook, choice: &[u16], value: i128, table: &Grid, j: u16) -> bool
    requires allowed { IsTrue ((market_of book.now).allowed choice.now) }
    requires table { IsTable (bidders_of book.now) (states book.now) table.now }
    requires value { unsigned_abs value < 2 ^ 120 }
    requires bidder { (0 < j) × (j ≤ bidders_of book.now) }
    ensures { IsTrue result ↔ NoneEarlier book.now (cert_headed value choice.now table.now) j }
{
    let states = book.supply().states();
    let mut room = [0i128; STATE_ROOM];
    let line = &mut room[..states];
    put_line(table, j as usize, line);
    none_earlier(book, choice, value, line, j)
}

/// The first bidder that has a bid, before its number in the choice, that reaches the value with the bids of the choice before
/// it and the table's entry for what is left then.
pub(crate) fn earlier_fault(
    book: &BidBook,
    choice: &[u16],
    value: i128,
    table: &Grid,
) -> Option<u64>
    requires allowed { IsTrue ((market_of book.now).allowed choice.now) }
    requires table { IsTable (bidders_of book.now) (states book.now) table.now }
    requires value { unsigned_abs value < 2 ^ 120 }
    ensures { IsFirstFailing (NoneEarlier book.now (cert_headed value choice.now table.now)) result }
{
    for k in 0..book.bidders() {
        let j = k as u16 + 1;
        if !none_earlier_in(book, choice, value, table, j) {
            return Some(j as u64);
        }
    }
    None
}
