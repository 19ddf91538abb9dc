// Numbers of the room.
ghost use Rattle.std.specs.Prelude.{◌≡◌, ◌≤◌, ℕ, List, [], ◌∷◌, length, ℤ, pos};
ghost use Rattle.cert_grammar.specs.CertText.{AtMost, IsChoice, as_numbers};
ghost use Rattle.cert_soundness.specs.Tests.{bidders_of, states};
ghost use Rattle.cert_stream.specs.Dues.{IsDue};
ghost use Rattle.cert_stream.specs.Rooms.{room_size, segment};
ghost use Rattle.limits.specs.declared.TheConstants.{MOST_BIDDERS};

use bid_book::BidBook;
use cert_check::BIDDER_ROOM;
use cert_stream::{NextLine, numbers_span};
use cert_text::Shape;
use std::marker::Model;

/// The numbers of the room that belong to a line, as many as it may have.
pub(crate) fn numbers_in<'a>(book: &BidBook, due: NextLine, room: &'a [i128]) -> &'a [i128]
    requires due { IsDue (bidders_of book.now) due }
    requires room { length room.now ≡ room_size (bidders_of book.now) (states book.now) }
    ensures { result.now ≡ segment (bidders_of book.now) (states book.now) due room.now }
{
    let span = numbers_span(due, Shape::of(book));
    &room[span.start..span.end]
}

/// The number of a line that has one.
pub(crate) fn number_in(book: &BidBook, due: NextLine, room: &[i128]) -> i128
    requires due { IsDue (bidders_of book.now) due }
    requires room { length room.now ≡ room_size (bidders_of book.now) (states book.now) }
    requires one { (z : ℤ) × (segment (bidders_of book.now) (states book.now) due room.now ≡ z ∷ []) }
    ensures { (z : ℤ) → segment (bidders_of book.now) (states book.now) due room.now ≡ z ∷ [] → result ≡ z }
{
    let numbers = numbers_in(book, due, room);
    numbers[0]
}

/// Up to one number of at most 65,535 for each bidder, copied from the room: a choice, or the members of a row.
#[derive(Drop)]
pub(crate) struct BidderNumbers {
    numbers: [u16; BIDDER_ROOM],
    count: usize,
}

impl Model for BidderNumbers {
    ghost use Rattle.std.specs.Prelude.{◌≡◌, ◌≤◌, List, ℕ, length, take};
    ghost use Rattle.limits.specs.declared.TheConstants.{MOST_BIDDERS};

    ghost Value = { List ℕ };

    ghost view = { λ b. take b.count b.numbers };

    ghost invariant = { λ b. (b.count ≤ MOST_BIDDERS) × (length b.numbers ≡ MOST_BIDDERS) };
}

impl BidderNumbers {
    /// These numbers.
    pub(crate) fn of(from: &[i128]) -> BidderNumbers
        requires few { length from.now ≤ MOST_BIDDERS }
        requires numbers { (ns : List ℕ) × (from.now ≡ as_numbers ns) × AtMost 65535 ns }
        ensures { (ns : List ℕ) → from.now ≡ as_numbers ns → result ≡ ns }
    {
        let mut numbers = [0; BIDDER_ROOM];
        let count = from.len();
        put_numbers(from, &mut numbers[..count]);
        BidderNumbers { numbers, count }
    }

    /// The numbers, bidder by bidder or member by member.
    pub(crate) fn as_slice(&self) -> &[u16]
        ensures { result.now ≡ self.now }
    {
        &self.numbers[..self.count]
    }
}

/// The choice whose numbers are in the room as a line's numbers.
pub(crate) fn choice_in(book: &BidBook, due: NextLine, room: &[i128]) -> BidderNumbers
    requires due { IsDue (bidders_of book.now) due }
    requires room { length room.now ≡ room_size (bidders_of book.now) (states book.now) }
    requires choice { (ns : List ℕ) × (segment (bidders_of book.now) (states book.now) due room.now ≡ as_numbers ns)
        × IsChoice (bidders_of book.now) ns }
    ensures choice { (ns : List ℕ) → segment (bidders_of book.now) (states book.now) due room.now ≡ as_numbers ns
        → result ≡ ns }
    ensures count { length result ≡ bidders_of book.now }
{
    book.kept();
    BidderNumbers::of(numbers_in(book, due, room))
}

/// Copies numbers of at most 65,535.
fn put_numbers(from: &[i128], to: &mut [u16])
    requires count { length to.old ≡ length from.now }
    requires numbers { (ns : List ℕ) × (from.now ≡ as_numbers ns) × AtMost 65535 ns }
    ensures numbers { (ns : List ℕ) → from.now ≡ as_numbers ns → to.new ≡ ns }
    ensures count { length to.new ≡ length to.old }
{
    for k in 0..from.len() {
        to[k] = small(from[k]);
    }
}

/// A number of at most 65,535.
fn small(number: i128) -> u16
    ensures { (n : ℕ) → number ≡ pos n → n ≤ 65535 → result ≡ n }
{
    if number < 0 || number > 65535 {
        0
    } else {
        number as u16
    }
}
