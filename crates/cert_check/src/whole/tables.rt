// C3 and C9: the tables of the net amounts and of the lowered ones.
ghost use Rattle.std.specs.Prelude.{◌≡◌, ◌^◌, ◌<◌, IsTrue, length, unsigned_abs};
ghost use Rattle.auction_model.specs.Book.{market_of};
ghost use Rattle.cert_grammar.specs.CertText.{AllInRange, IsTable};
ghost use Rattle.cert_grammar.specs.Certificate.{CertValue};
ghost use Rattle.cert_soundness.specs.Tests.{C3, C9, bidders_of, states};
ghost use Rattle.cert_check.specs.Fields.{IsOf, cert_headed};
ghost use Rattle.cert_check.specs.Places.{IsFirstFailing};

use crate::claim::Claim;
use crate::tables::gains::put_gains;
use crate::tables::{BIDDER_ROOM, sum_paid};
use crate::whole::earlier::earlier_fault;
use crate::whole::grids::table_test;
use bid_book::BidBook;
use choices::Grid;
use table_check::TestedBids;

/// The first place where the table of net amounts doesn't show the choice to be the winning one, once it is known, fits and has
/// the value. With `S` states and `B` bidders, `k * S + s` is the place of line `k` at place `s` of the supply, `(B + 1) * S`
/// is the place of the value, and `(B + 1) * S + j` the place of the bids of bidder `j` before its number in the choice.
pub(crate) fn value_test(book: &BidBook, choice: &[u16], value: i128, table: &Grid) -> Option<u64>
    requires allowed { IsTrue ((market_of book.now).allowed choice.now) }
    requires value { unsigned_abs value < 2 ^ 120 }
    requires table { IsTable (bidders_of book.now) (states book.now) table.now }
    ensures { (c : CertValue) → c.choice ≡ choice.now → c.value ≡ value → c.table ≡ table.now
        → IsFirstFailing (C3 book.now c) result }
{
    value_fault(book, choice, value, table)
}

/// The place where the value fails its test, for the certificate of only these numbers.
fn value_fault(book: &BidBook, choice: &[u16], value: i128, table: &Grid) -> Option<u64>
    requires allowed { IsTrue ((market_of book.now).allowed choice.now) }
    requires value { unsigned_abs value < 2 ^ 120 }
    requires table { IsTable (bidders_of book.now) (states book.now) table.now }
    ensures { IsFirstFailing (C3 book.now (cert_headed value choice.now table.now)) result }
{
    let bidders = book.bidders();
    let gains = [0i128; BIDDER_ROOM];
    let offers = TestedBids {
        book,
        skip: 0,
        den: 1,
        gains: &gains,
    };
    if let Some(place) = table_test(&offers, table, value) {
        return Some(place);
    }
    let last = (bidders + 1) * book.supply().states();
    let bidder = earlier_fault(book, choice, value, table)?;
    Some(last as u64 + bidder)
}

/// The first place where the table of lowered amounts doesn't show the payments to be in the core. The table's places are as in
/// `value_test`, and `(B + 1) * S` is the place of the sum of the payments.
pub(crate) fn lowered_test(claim: &Claim, pay: &[i128], table: &Grid) -> Option<u64>
    requires pay { (length pay.now ≡ bidders_of claim.now.book.now) × AllInRange pay.now }
    requires table { IsTable (bidders_of claim.now.book.now) (states claim.now.book.now) table.now }
    ensures { (c : CertValue) → IsOf claim.now c → c.pay ≡ pay.now → c.lowered ≡ table.now
        → IsFirstFailing (C9 claim.now.book.now c) result }
{
    claim.book.kept();
    let paid = sum_paid(pay);
    let mut gains = [0i128; BIDDER_ROOM];
    put_gains(claim, pay, &mut gains);
    let offers = TestedBids {
        book: claim.book,
        skip: 0,
        den: claim.den,
        gains: &gains,
    };
    table_test(&offers, table, paid)
}
