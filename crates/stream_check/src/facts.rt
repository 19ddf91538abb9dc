// The facts of a certificate that has come whole.
ghost use Rattle.std.specs.Prelude.{◌≡◌, ◌≤◌, ◌<◌, ◌^◌, ◌+ℤ◌, ◌-ℤ◌, ℕ, List, IsTrue, IfOk, length, map, unsigned_abs};
ghost use Rattle.auction_model.specs.Book.{bids_of, market_of, menu_of, net_of};
ghost use Rattle.auction_model.specs.Market.{number_of, value_of};
ghost use Rattle.auction_model.specs.Menu.{is_known_after};
ghost use Rattle.cert_summary.specs.Facts.{AreFacts, single_of};
ghost use Rattle.cert_grammar.specs.Certificate.{CertValue};
ghost use Rattle.cert_grammar.specs.CertText.{IsChoice, as_numbers};
ghost use Rattle.cert_soundness.specs.Tests.{bidders_of, states};
ghost use Rattle.cert_stream.specs.Dues.{IsDue};
ghost use Rattle.cert_stream.specs.Rooms.{room_size, segment};
ghost use Rattle.stream_check.specs.WholeRoom.{HasAll, single_at};

use crate::room::{choice_in, number_in, numbers_in};
use bid_book::BidBook;
use cert_stream::NextLine;
use cert_summary::{CertFacts, Singles};
use choices::{Choice, Single, value_among, worth};
use std::alloc::{AllocError, Global};
use wide_num::NumList;

/// The facts of the certificate whose numbers are in the room. The only error is out of memory.
pub(crate) fn facts_in(
    alloc: Global,
    book: &BidBook,
    room: &[i128],
) -> Result<CertFacts, AllocError>
    requires room { length room.now ≡ room_size (bidders_of book.now) (states book.now) }
    requires some { (c : CertValue) × HasAll book.now c room.now }
    ensures { (c : CertValue) → HasAll book.now c room.now → IfOk result (AreFacts book.now c) }
{
    let choice = read_choice(alloc, book, NextLine::Choice, room)?;
    let singles = singles_in(alloc, book, room, choice.numbers())?;
    let pay = Vec::from_slice(alloc, numbers_in(book, NextLine::Payments, room))?;
    Ok(CertFacts {
        den: number_in(book, NextLine::Den, room),
        value: number_in(book, NextLine::Value, room),
        choice,
        singles,
        pay: NumList::from_vec(pay),
    })
}

/// The single winners of the choice, in order.
fn singles_in(
    alloc: Global,
    book: &BidBook,
    room: &[i128],
    choice: &[u16],
) -> Result<Singles, AllocError>
    requires room { length room.now ≡ room_size (bidders_of book.now) (states book.now) }
    requires some { (c : CertValue) × HasAll book.now c room.now × (c.choice ≡ choice.now) }
    ensures { (c : CertValue) → HasAll book.now c room.now → c.choice ≡ choice.now
        → IfOk result (λ list. list ≡ map (single_of book.now c) c.withouts) }
{
    book.kept();
    let mut singles = Singles::new(alloc);
    for k in 0..choice.len() {
        if choice[k] == 0 {
            continue;
        }
        let single = single_in(alloc, book, room, choice[k], k as u16 + 1)?;
        singles.push(single)?;
    }
    Ok(singles)
}

/// The single winner `j`, whose bid of this number wins.
fn single_in(
    alloc: Global,
    book: &BidBook,
    room: &[i128],
    number: u16,
    j: u16,
) -> Result<Single, AllocError>
    requires room { length room.now ≡ room_size (bidders_of book.now) (states book.now) }
    requires bidder { (0 < j) × (j ≤ bidders_of book.now) }
    requires wins { 0 < number }
    requires some { (c : CertValue) × HasAll book.now c room.now × (number_of c.choice j ≡ number) }
    ensures { (c : CertValue) → HasAll book.now c room.now → number_of c.choice j ≡ number
        → IfOk result (λ single. single ≡ single_at book.now c j) }
{
    let choice = read_choice(alloc, book, NextLine::PartChoice(j), room)?;
    let value = number_in(book, NextLine::Value, room);
    Ok(Single {
        winner: j,
        price: price(book, value, choice.numbers(), j, number),
        choice,
    })
}

/// The Vickrey price of bidder `j`, which wins with bid `i` in a choice of this value: what the others have without it, less what they
/// have with it.
fn price(book: &BidBook, value: i128, without: &[u16], j: u16, i: u16) -> i128
    requires value { unsigned_abs value < 2 ^ 120 }
    requires without { IsTrue (is_known_after (menu_of book.now) 0 without.now) }
    requires bidder { (0 < j) × (j ≤ bidders_of book.now) }
    requires bid { i ≤ length (bids_of book.now j) }
    ensures { result ≡ (value_of (market_of book.now) without.now -ℤ value) +ℤ net_of book.now j i }
{
    value_among(book, without) - value + worth(book, j, i)
}

/// A copy of the choice whose numbers are in the room as a line's numbers.
fn read_choice(
    alloc: Global,
    book: &BidBook,
    due: NextLine,
    room: &[i128],
) -> Result<Choice, AllocError>
    requires due { IsDue (bidders_of book.now) due }
    requires room { length room.now ≡ room_size (bidders_of book.now) (states book.now) }
    requires choice { (ns : List ℕ) × (segment (bidders_of book.now) (states book.now) due room.now ≡ as_numbers ns)
        × IsChoice (bidders_of book.now) ns }
    ensures { (ns : List ℕ) → segment (bidders_of book.now) (states book.now) due room.now ≡ as_numbers ns
        → IfOk result (λ choice. choice ≡ ns) }
{
    let numbers = choice_in(book, due, room);
    Choice::from_slice(alloc, numbers.as_slice())
}
