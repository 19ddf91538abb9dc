// How a book judges a choice.
ghost use Rattle.std.specs.Prelude.{◌≡◌, ◌≤◌, ◌<◌, ◌*◌, pos, ◌≤ℤ◌, length, IsTrue, IsFalse, IfSome, IfNone, unsigned_abs};
ghost use Rattle.auction_model.specs.Package.{is_within, less};
ghost use Rattle.auction_model.specs.Place.{left_at, place_of, states_of};
ghost use Rattle.auction_model.specs.Menu.{fits_after, is_known_after};
ghost use Rattle.auction_model.specs.Market.{value_of};
ghost use Rattle.auction_model.specs.Book.{bids_of, lots_of, market_of, menu_of, net_of};
ghost use Rattle.limits.specs.declared.TheConstants.{MOST_AMOUNT, MOST_BIDDERS};

use crate::Choice;
use bid_book::BidBook;

/// Whether the choice has one number for each bidder, and each is the number of one of its bids or 0.
pub fn known(book: &BidBook, choice: &Choice) -> bool
    ensures { result ≡ is_known_after (menu_of book.now) 0 choice.now }
{
    are_known(book, choice.numbers())
}

/// Whether there is one number for each bidder, and each is the number of one of its bids or 0.
pub fn are_known(book: &BidBook, numbers: &[u16]) -> bool
    ensures { result ≡ is_known_after (menu_of book.now) 0 numbers.now }
{
    if numbers.len() != book.bidders() {
        return false;
    }
    for k in 0..numbers.len() {
        if numbers[k] > book.bids(k as u16 + 1) {
            return false;
        }
    }
    true
}

/// Whether the sum of the packages of a known choice is within the supply.
pub fn fits(book: &BidBook, choice: &Choice) -> bool
    requires { IsTrue (is_known_after (menu_of book.now) 0 choice.now) }
    ensures { result ≡ fits_after (menu_of book.now) 0 book.now.supply choice.now }
{
    are_within(book, choice.numbers())
}

/// Whether the sum of the packages of these bids is within the supply. The numbers are a known choice's, bidder by bidder.
pub fn are_within(book: &BidBook, numbers: &[u16]) -> bool
    requires { IsTrue (is_known_after (menu_of book.now) 0 numbers.now) }
    ensures { result ≡ fits_after (menu_of book.now) 0 book.now.supply numbers.now }
{
    let mut place = book.supply().states() - 1;
    for k in 0..book.bidders() {
        match place_after(book, k as u16 + 1, numbers[k], place) {
            Some(rest) => place = rest,
            None => return false,
        }
    }
    true
}

/// The place of what the package of bid `i` of bidder `j` leaves of the supply of a place, or None if it exceeds that. Number 0
/// is the empty package.
pub fn place_after(book: &BidBook, j: u16, i: u16, place: usize) -> Option<usize>
    requires bidder { (0 < j) × (j ≤ length book.now.bidders) }
    requires bid { i ≤ length (bids_of book.now j) }
    requires place { place < states_of book.now.supply }
    ensures fits { IfSome result (λ _. IsTrue (is_within (lots_of book.now j i) (left_at book.now.supply place))) }
    ensures left { IfSome result
        (λ p. p ≡ place_of book.now.supply (less (left_at book.now.supply place) (lots_of book.now j i))) }
    ensures below { IfSome result (λ p. p < states_of book.now.supply) }
    ensures exceeds { IfNone result (IsFalse (is_within (lots_of book.now j i) (left_at book.now.supply place))) }
{
    if i == 0 {
        return Some(place);
    }
    let bid = book.bid(j, i);
    book.supply().minus(place, &bid.package)
}

/// The value of a known choice: the sum of the net amounts of its bids. It is at least 0 and at most 2^46.
pub fn value(book: &BidBook, choice: &Choice) -> i128
    requires { IsTrue (is_known_after (menu_of book.now) 0 choice.now) }
    ensures value { result ≡ value_of (market_of book.now) choice.now }
    ensures range { (pos 0 ≤ℤ result) × (result ≤ℤ pos (MOST_BIDDERS * MOST_AMOUNT)) }
{
    value_among(book, choice.numbers())
}

/// The value of a known choice, by its numbers, bidder by bidder.
pub fn value_among(book: &BidBook, numbers: &[u16]) -> i128
    requires { IsTrue (is_known_after (menu_of book.now) 0 numbers.now) }
    ensures value { result ≡ value_of (market_of book.now) numbers.now }
    ensures range { (pos 0 ≤ℤ result) × (result ≤ℤ pos (MOST_BIDDERS * MOST_AMOUNT)) }
{
    let mut value = 0i128;
    for k in 0..book.bidders() {
        value += worth(book, k as u16 + 1, numbers[k]);
    }
    value
}

/// The net amount of bid `i` of bidder `j`, and 0 for number 0.
pub fn worth(book: &BidBook, j: u16, i: u16) -> i128
    requires bidder { (0 < j) × (j ≤ length book.now.bidders) }
    requires bid { i ≤ length (bids_of book.now j) }
    ensures worth { result ≡ net_of book.now j i }
    ensures not_negative { pos 0 ≤ℤ result }
    ensures size { unsigned_abs result ≤ MOST_AMOUNT }
{
    book.kept();
    if i == 0 { 0 } else { book.net(j, i) }
}
