ghost use Rattle.std.specs.Prelude.{◌≡◌, ℕ, List, length};
ghost use Rattle.auction_model.specs.Prices.{AreWeights};
ghost use Rattle.cert_soundness.specs.Tests.{bidders_of, states};
ghost use Rattle.cert_stream.specs.Rooms.{room_size};
ghost use Rattle.stream_check.specs.Standing.{HasTaken};

use crate::samples::{DAY_CRAMTON_CERT, day_cramton};
use bid_book::BidBook;
use cert_check::Verdict;
use cert_stream::{TextStop, rows_start};
use cert_summary::CertFacts;
use cert_text::Shape;
use choices::Single;
use limits::CERT_BYTES;
use std::alloc::{AllocError, Global};
use std::process::Abort;
use std::test::Fail;
use stream_check::StreamCheck;

mod edits;

// A checker after a text in pieces of that many bytes after the first one, as far as a file may go.
fn fed<'a>(
    book: &'a BidBook,
    weights: &'a [u32],
    room: &mut [i128],
    text: &[u8],
    more: u16,
) -> StreamCheck<'a>
    requires room { length room.old ≡ room_size (bidders_of book.now) (states book.now) }
    requires weights { AreWeights (bidders_of book.now) weights.now }
    ensures stands { (front : List ℕ) × HasTaken result room.new front }
    ensures book { result.book.now ≡ book.now }
    ensures room { length room.new ≡ length room.old }
{
    let mut checker = StreamCheck::start(book, room, weights);
    let most = text.len().min(CERT_BYTES as usize);
    let mut at = 0;
    while at < most {
        let end = most.min(at + 1 + more as usize);
        checker.feed(room, &text[at..end]);
        at = end;
    }
    checker
}

/// A checker's verdict on a text in such pieces, if all bidders weigh 1.
pub(crate) fn verdict_of(
    alloc: Global,
    book: &BidBook,
    text: &[u8],
    more: u16,
) -> Result<Result<Verdict, TextStop>, AllocError> {
    let weights = vec![in alloc; 1u32; book.bidders()]?;
    let mut room = vec![in alloc; 0i128; StreamCheck::room(book)]?;
    let checker = fed(book, &weights, &mut room, text, more);
    Ok(checker.finish(&room))
}

// The facts that it says, if it says yes.
fn facts_of(
    alloc: Global,
    book: &BidBook,
    text: &[u8],
    more: u16,
) -> Result<Option<CertFacts>, AllocError> {
    let weights = vec![in alloc; 1u32; book.bidders()]?;
    let mut room = vec![in alloc; 0i128; StreamCheck::room(book)]?;
    let checker = fed(book, &weights, &mut room, text, more);
    told(alloc, &checker, &room)
}

fn told(
    alloc: Global,
    checker: &StreamCheck<'_>,
    room: &[i128],
) -> Result<Option<CertFacts>, AllocError>
    requires room { length room.now ≡ room_size (bidders_of checker.now.book.now) (states checker.now.book.now) }
    requires stands { (text : List ℕ) × HasTaken checker.now room.now text }
{
    match checker.finish(room) {
        Ok(Verdict::Yes) => Ok(Some(checker.read_facts(alloc, room)?)),
        _ => Ok(None),
    }
}

// Asserts who wins, its Vickrey price, and the choice without it.
fn is_single(rt: &impl Abort, single: &Single, winner: u16, price: i128, choice: &[u16]) {
    assert_eq!(rt; single.winner, winner);
    assert_eq!(rt; single.price, price);
    assert!(rt; single.choice.numbers() == choice);
}

// Asserts the facts of the sample.
fn are_its_facts(rt: &impl Abort, facts: &CertFacts) {
    assert_eq!(rt; facts.den, 1);
    assert_eq!(rt; facts.value, 48);
    assert!(rt; facts.choice.numbers() == [1, 1, 0, 0, 0].as_slice());
    assert!(rt; facts.pay.items() == [17i128, 15, 0, 0, 0].as_slice());
    let [first, second] = facts.singles.items() else {
        panic!(rt; "two win");
    };
    is_single(rt, first, 1, 14, &[0, 1, 0, 1, 0]);
    is_single(rt, second, 2, 12, &[1, 0, 0, 0, 1]);
}

// Asserts that the certificate of this book in such pieces has them.
fn tells_them(rt: &impl Abort, alloc: Global, book: &BidBook, more: u16) -> Result<(), AllocError> {
    match facts_of(alloc, book, DAY_CRAMTON_CERT.as_bytes(), more)? {
        Some(facts) => are_its_facts(rt, &facts),
        None => panic!(rt; "its tests hold"),
    }
    Ok(())
}

#[test]
fn tells_the_facts_of_a_certificate(rt: HostRuntime) -> Result<(), Fail> {
    let book = day_cramton(&rt, rt.alloc());
    for more in [0u16, 6, 475] {
        tells_them(&rt, rt.alloc(), &book, more)?;
    }
    Ok(())
}

#[test]
fn the_rows_of_five_bidders_have_their_place(rt: HostRuntime) {
    // Before them are a choice, two single numbers, the denominator, the value, the payments, five choices, and a row's members and choice.
    let shape = Shape {
        bidders: 5,
        states: 4,
    };
    assert_eq!(rt; rows_start(shape), 5 + 2 + 1 + 1 + 5 + 25 + 5 + 5);
}
