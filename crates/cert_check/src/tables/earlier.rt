// The bids that come before the choice's bids in the order of ties: none of them may reach the value.
ghost use Rattle.std.specs.Prelude.{◌≡◌, ◌↔◌, ℕ, ◌-◌, ◌^◌, ◌<◌, ◌≤◌, [], length, slice_index_or, pos, ◌+ℤ◌, ◌<ℤ◌, IsTrue, unsigned_abs};
ghost use Rattle.auction_model.specs.Package.{is_within, less};
ghost use Rattle.auction_model.specs.Place.{left_at, place_of};
ghost use Rattle.auction_model.specs.Market.{is_number_before, number_of};
ghost use Rattle.auction_model.specs.Book.{bids_of, lots_of, market_of, net_of};
ghost use Rattle.cert_soundness.specs.Tests.{bidders_of, states};
ghost use Rattle.cert_grammar.specs.Certificate.{CertValue};
ghost use Rattle.cert_check.specs.EarlierBids.{StaysBelow, AllStayBelow, NoneEarlier, IsLeft};

use crate::judging::number;
use bid_book::BidBook;
use choices::{place_after, worth};

/// Whether bid `i` of bidder `j`, if it fits what the place `rest` leaves, stays below `bound` with the line's entry for what
/// is left then.
fn stays_below(book: &BidBook, j: u16, line: &[i128], rest: usize, bound: i128, i: u16) -> bool
    requires bidder { (0 < j) × (j ≤ bidders_of book.now) }
    requires bid { (0 < i) × (i ≤ length (bids_of book.now j)) }
    requires rest { rest < states book.now }
    requires line { length line.now ≡ states book.now }
    requires sizes { (s : ℕ) → unsigned_abs (slice_index_or line.now s (pos 0)) < 2 ^ 120 }
    ensures { IsTrue result ↔ StaysBelow book.now j line.now rest bound i }
{
    book.kept();
    match place_after(book, j, i, rest) {
        Some(place) => is_below(book.net(j, i), line[place], bound),
        None => true,
    }
}

fn is_below(net: i128, entry: i128, bound: i128) -> bool
    requires net { unsigned_abs net < 2 ^ 120 }
    requires entry { unsigned_abs entry < 2 ^ 120 }
    ensures { IsTrue result ↔ ((net +ℤ entry) <ℤ bound) }
{
    net + entry < bound
}

/// How many bids of bidder `j` come before its number in the choice.
fn bids_before(book: &BidBook, choice: &[u16], j: u16) -> u16
    requires choice { length choice.now ≡ bidders_of book.now }
    requires bidder { (0 < j) × (j ≤ bidders_of book.now) }
    requires number { number_of choice.now j ≤ length (bids_of book.now j) }
    ensures most { result ≤ length (bids_of book.now j) }
    ensures before { (i : ℕ) → i ≤ length (bids_of book.now j)
        → IsTrue (is_number_before i (number_of choice.now j)) ↔ ((0 < i) × (i ≤ result)) }
{
    let number = number(choice, j);
    if number == 0 {
        book.bids(j)
    } else {
        number - 1
    }
}

/// Whether all bids of bidder `j` that come before its number in the choice stay below `bound`.
fn all_stay_below(
    book: &BidBook,
    choice: &[u16],
    j: u16,
    line: &[i128],
    rest: usize,
    bound: i128,
) -> bool
    requires choice { length choice.now ≡ bidders_of book.now }
    requires bidder { (0 < j) × (j ≤ bidders_of book.now) }
    requires number { number_of choice.now j ≤ length (bids_of book.now j) }
    requires rest { rest < states book.now }
    requires line { length line.now ≡ states book.now }
    requires sizes { (s : ℕ) → unsigned_abs (slice_index_or line.now s (pos 0)) < 2 ^ 120 }
    ensures { IsTrue result ↔ AllStayBelow book.now choice.now j line.now rest bound }
{
    for i in 0..bids_before(book, choice, j) {
        if !stays_below(book, j, line, rest, bound, i + 1) {
            return false;
        }
    }
    true
}

/// The place of what bid `i` of bidder `j`, which fits, leaves of a place. Number 0 means no bid.
fn rest_after(book: &BidBook, j: u16, i: u16, rest: usize) -> usize
    requires bidder { (0 < j) × (j ≤ bidders_of book.now) }
    requires bid { i ≤ length (bids_of book.now j) }
    requires rest { rest < states book.now }
    requires fits { IsTrue (is_within (lots_of book.now j i) (left_at book.now.supply rest)) }
    ensures left { result ≡ place_of book.now.supply (less (left_at book.now.supply rest) (lots_of book.now j i)) }
    ensures below { result < states book.now }
{
    match place_after(book, j, i, rest) {
        Some(place) => place,
        None => rest,
    }
}

/// What the bids of some bidders of a choice leave.
#[derive(Drop)]
struct Remainder {
    /// The place of the supply that is left.
    rest: usize,
    /// What is left of the value.
    bound: i128,
}

/// What the bids of the bidders before `j` leave of the supply and of the value.
fn left_before(book: &BidBook, choice: &[u16], value: i128, j: u16) -> Remainder
    requires allowed { IsTrue ((market_of book.now).allowed choice.now) }
    requires bidder { (0 < j) × (j ≤ bidders_of book.now) }
    requires value { unsigned_abs value < 2 ^ 120 }
    ensures { IsLeft book.now choice.now value (j - 1) result.rest result.bound }
{
    let mut rest = book.supply().states() - 1;
    let mut bound = value;
    for k in 0..j as usize - 1 {
        let i = k as u16 + 1;
        let own = number(choice, i);
        rest = rest_after(book, i, own, rest);
        bound -= worth(book, i, own);
    }
    Remainder { rest, bound }
}

/// Whether no bid of bidder `j` that comes before its number in the choice reaches the value with the bids of the choice before it
/// and the entry of the table's line `j` for what is left then.
pub fn none_earlier(book: &BidBook, choice: &[u16], value: i128, line: &[i128], j: u16) -> bool
    requires allowed { IsTrue ((market_of book.now).allowed choice.now) }
    requires value { unsigned_abs value < 2 ^ 120 }
    requires bidder { (0 < j) × (j ≤ bidders_of book.now) }
    requires line { length line.now ≡ states book.now }
    requires sizes { (s : ℕ) → unsigned_abs (slice_index_or line.now s (pos 0)) < 2 ^ 120 }
    ensures { (c : CertValue) → c.choice ≡ choice.now → c.value ≡ value → slice_index_or c.table j [] ≡ line.now
        → IsTrue result ↔ NoneEarlier book.now c j }
{
    let left = left_before(book, choice, value, j);
    all_stay_below(book, choice, j, line, left.rest, left.bound)
}
