// Whether the numbers of a choice are a book's, bidder by bidder.
ghost use Rattle.std.specs.Prelude.{◌≡◌, ◌≤◌, ◌<◌, length, IsTrue, ◌↔◌};
ghost use Rattle.auction_model.specs.Market.{number_of};
ghost use Rattle.auction_model.specs.Book.{market_of};
ghost use Rattle.cert_soundness.specs.Tests.{bidders_of};

use bid_book::BidBook;
use choices::{are_known, are_within};

/// The number that a choice gives to bidder `j`.
pub(crate) fn number(choice: &[u16], j: u16) -> u16
    requires { (0 < j) × (j ≤ length choice.now) }
    ensures { result ≡ number_of choice.now j }
{
    choice[j as usize - 1]
}

/// Whether the choice is known and fits the supply.
pub(crate) fn is_allowed(book: &BidBook, choice: &[u16]) -> bool
    ensures { result ≡ (market_of book.now).allowed choice.now }
{
    are_known(book, choice) && are_within(book, choice)
}

/// Whether the choice is known, fits the supply and gives bidder `j` nothing.
pub fn is_allowed_without(book: &BidBook, choice: &[u16], j: u16) -> bool
    requires count { length choice.now ≡ bidders_of book.now }
    requires bidder { (0 < j) × (j ≤ bidders_of book.now) }
    ensures { IsTrue result ↔ (IsTrue ((market_of book.now).allowed choice.now) × (number_of choice.now j ≡ 0)) }
{
    if number(choice, j) != 0 {
        return false;
    }
    is_allowed(book, choice)
}
