ghost use Rattle.std.specs.Prelude.{IsTrue, length, pos, slice_index_or, ℕ, ◌<◌, ◌≤ℤ◌};

use crate::samples::{DAY_CRAMTON_CERT, day_cramton};
use bid_book::BidBook;
use blocking::{Block, Looked, find_block};
use book_price::{PricedBook, price_book};
use cert_text::{Certificate, write_cert};
use core_price::{PriceStop, count_winners, for_bidders};
use std::alloc::{AllocError, Global};
use std::process::Abort;
use value_table::{BookChooser, TurnTable, win};

/// The prices if all bidders weigh 1.
fn priced_alike(alloc: Global, book: &BidBook) -> Result<PricedBook, PriceStop> {
    let weights = vec![in alloc; 1u32; book.bidders()]?;
    price_book(alloc, book, &weights)
}

/// The sample at these prices.
fn priced_sample(rt: &impl Abort, alloc: Global) -> PricedBook {
    let book = day_cramton(rt, alloc);
    let Ok(priced) = priced_alike(alloc, &book) else {
        panic!(rt; "it can be priced");
    };
    priced
}

/// Asserts what the certificate of the sample states, and in how many turns the prices were found.
fn shows_the_prices(rt: &impl Abort, priced: &PricedBook) {
    let cert = &priced.cert;
    assert_eq!(rt; cert.den, 1);
    assert_eq!(rt; cert.value, 48);
    assert!(rt; cert.choice.numbers() == [1, 1, 0, 0, 0].as_slice());
    assert!(rt; cert.pay.items() == [17i128, 15, 0, 0, 0].as_slice());
    assert_eq!(rt; priced.turns.items().len(), 2);
}

/// Asserts that its text is the sample's text.
fn is_written_as_sample(
    rt: &impl Abort,
    alloc: Global,
    cert: &Certificate,
) -> Result<(), AllocError> {
    let text = write_cert(alloc, cert)?;
    assert!(rt; text.items() == DAY_CRAMTON_CERT.as_bytes());
    Ok(())
}

#[test]
fn certificate_shows_the_prices(rt: HostRuntime) -> Result<(), AllocError> {
    let priced = priced_sample(&rt, rt.alloc());
    shows_the_prices(&rt, &priced);
    is_written_as_sample(&rt, rt.alloc(), &priced.cert)
}

/// Whether no payment is below 0 or above a million.
fn are_payments(paid: &[i128]) -> bool
    ensures { IsTrue result → (k : ℕ) → k < length paid.now
        → (pos 0 ≤ℤ slice_index_or paid.now k (pos 0)) × (slice_index_or paid.now k (pos 0) ≤ℤ pos 1000000) }
{
    for payment in paid {
        if *payment < 0 {
            return false;
        }
        if *payment > 1_000_000 {
            return false;
        }
    }
    true
}

/// What blocks the point where the winners pay that much and losers nothing, if these can be payments.
fn look(
    rt: &impl Abort,
    alloc: Global,
    chooser: &BookChooser,
    paid: &[i128],
) -> Result<Looked<TurnTable>, AllocError> {
    let _bidders = chooser.book.bidders();
    let count = count_winners(&chooser.winners);
    assert!(rt; count <= 6);
    assert_eq!(rt; paid.len(), count);
    assert!(rt; are_payments(paid));
    let at = for_bidders(alloc, &chooser.winners, paid)?;
    find_block(alloc, chooser, 1, &at)
}

fn is_block_of_b3(rt: &impl Abort, block: &Block) {
    assert_eq!(rt; block.excess, 6);
    assert!(rt; block.choice.numbers() == [0, 0, 1, 0, 0].as_slice());
    assert_eq!(rt; block.row.members, 3);
    assert_eq!(rt; block.row.bound, 32);
}

/// Asserts that b3 blocks the prices of the single winners.
fn b3_blocks(rt: &impl Abort, alloc: Global, chooser: &BookChooser) -> Result<(), AllocError> {
    match look(rt, alloc, chooser, &[14, 12])? {
        Looked::Free(_) => panic!(rt; "b3 offers more"),
        Looked::Block(block) => is_block_of_b3(rt, &block),
    }
    Ok(())
}

/// Asserts that nobody blocks the core prices.
fn nobody_blocks(rt: &impl Abort, alloc: Global, chooser: &BookChooser) -> Result<(), AllocError> {
    match look(rt, alloc, chooser, &[17, 15])? {
        Looked::Free(found) => assert_eq!(rt; found.sum, 32),
        Looked::Block(_) => panic!(rt; "b3 offers no more"),
    }
    Ok(())
}

/// Asserts both.
fn only_b3_blocks(rt: &impl Abort, alloc: Global, chooser: &BookChooser) -> Result<(), AllocError> {
    b3_blocks(rt, alloc, chooser)?;
    nobody_blocks(rt, alloc, chooser)
}

#[test]
fn a_bidder_for_both_lots_blocks_the_prices_of_each_alone(
    rt: HostRuntime,
) -> Result<(), AllocError> {
    let book = day_cramton(&rt, rt.alloc());
    let chooser = BookChooser::new(&book, win(rt.alloc(), &book)?);
    only_b3_blocks(&rt, rt.alloc(), &chooser)
}
