// From a book to its prices with their certificate.
ghost use Rattle.std.specs.Prelude.{IfErr, IfOk};
ghost use Rattle.auction_model.specs.Book.{market_of};
ghost use Rattle.auction_model.specs.Greatest.{IsWinning};
ghost use Rattle.auction_model.specs.Prices.{AreWeights};
ghost use Rattle.cert_soundness.specs.Tests.{bidders_of};
ghost use Rattle.core_laws.specs.Weights.{FewWin};
ghost use Rattle.value_table.specs.TableValue.{IsPlain, IsTableOf};
ghost use Rattle.book_price.specs.Priced.{IsPricedBook};
ghost use Rattle.book_price.specs.Stops.{IsBookStop};

use crate::certificate::certificate;
use bid_book::BidBook;
use cert_text::Certificate;
use choices::Choice;
use core_price::{PriceStop, TurnList, count_winners, many_win, price};
use std::alloc::{AllocError, Global};
use value_table::{BookChooser, ValueTable, plain_table};
use vickrey::vickrey_from;

// Room for more than the tables of a turn and the text of a certificate.
const ROOM: usize = 31 << 20;

/// The prices of a book: the certificate that shows them, and the turns that led to them.
#[derive(Drop)]
pub struct PricedBook {
    /// The certificate. Its choice is the winning one, and its payments are the core outcome.
    pub cert: Certificate,
    /// All turns of pricing.
    pub turns: TurnList,
}

/// The core-selecting prices of the winners of a book, with the certificate that shows them.
///
/// It passes all nine tests of a certificate, its choices are the first of the greatest, and its tables are exact. It is in
/// lowest terms, and has at most one row for each winner, each with multipliers that aren't both 0.
///
/// `weights` has one weight of 1 to 20 for each bidder.
///
/// # Errors
///
/// `Winners` exactly if more than six win, or more than four that don't all weigh 1, with their number; `Memory` if it is out
/// of memory.
pub fn price_book(alloc: Global, book: &BidBook, weights: &[u32]) -> Result<PricedBook, PriceStop>
    requires { AreWeights (bidders_of book.now) weights.now }
    ensures priced { IfOk result (IsPricedBook book.now weights.now) }
    ensures stops { IfErr result (IsBookStop book.now weights.now) }
{
    keep_pages(alloc);
    let whole = plain_table(alloc, book)?;
    let winners = whole.trace(alloc, book)?;
    let count = count_winners(&winners);
    if many_win(count, &winners, weights) {
        return Err(PriceStop::Winners(count as u64));
    }
    priced_book(alloc, book, winners, &whole, weights)
}

// Takes much room and frees it untouched. An allocator that adapts to freed sizes then keeps smaller pieces, so a turn's
// table reuses the last table's pages. If there is no room, nothing is lost.
fn keep_pages(alloc: Global) {
    let _room: Result<Vec<u8>, AllocError> = Vec::with_capacity(alloc, ROOM);
}

// The prices of the winning choice, from the table of all bids.
fn priced_book(
    alloc: Global,
    book: &BidBook,
    winners: Choice,
    whole: &ValueTable,
    weights: &[u32],
) -> Result<PricedBook, PriceStop>
    requires weights { AreWeights (bidders_of book.now) weights.now }
    requires few { FewWin winners weights.now }
    requires winners { IsWinning (market_of book.now) winners }
    requires whole { IsTableOf book.now whole.now }
    requires plain { IsPlain whole.now }
    ensures priced { IfOk result (IsPricedBook book.now weights.now) }
    ensures stops { IfErr result (IsBookStop book.now weights.now) }
{
    book.kept();
    let alone = vickrey_from(alloc, book, &winners, whole)?;
    let chooser = BookChooser::new(book, winners.copied(alloc)?);
    let priced = price(alloc, &chooser, alone.singles(), weights)?;
    let cert = certificate(alloc, book, winners, whole, &alone, &priced)?;
    Ok(PricedBook {
        cert,
        turns: priced.turns,
    })
}
