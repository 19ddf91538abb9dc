//! Amounts that the tests compare.
ghost use Rattle.std.specs.Prelude.{IsTrue, if◌then◌else◌, pos, unsigned_abs, ◌*ℤ◌, ◌<◌, ◌^◌, ◌≡◌, ◌≤ℤ◌, ◌≤◌, ◌↔◌};
ghost use Rattle.auction_model.specs.Book.{market_of, menu_of};
ghost use Rattle.auction_model.specs.Market.{worth_in};
ghost use Rattle.auction_model.specs.Menu.{is_known_after};
ghost use Rattle.bid_book.specs.Kept.{IsBidBook};
ghost use Rattle.cert_soundness.specs.Tests.{bidders_of};
ghost use Rattle.limits.specs.declared.TheConstants.{MOST_AMOUNT};

use bid_book::BidBook;
use choices::worth;

/// The net amount of the bid that the choice gives to bidder `j`, and 0 for a loser.
pub(crate) fn won(book: &BidBook, choice: &[u16], j: u16) -> i128
    requires known { IsTrue (is_known_after (menu_of book.now) 0 choice.now) }
    requires bidder { (0 < j) × (j ≤ bidders_of book.now) }
    ensures won { result ≡ worth_in (market_of book.now) choice.now j }
    ensures least { pos 0 ≤ℤ result }
    ensures most { result ≤ℤ pos MOST_AMOUNT }
    ensures kept { IsBidBook book.now }
{
    book.kept();
    worth(book, j, choice[j as usize - 1])
}

/// Whether two amounts are equal.
pub fn is_equal(amount: i128, other: i128) -> bool
    ensures { IsTrue result ↔ (amount ≡ other) }
{
    amount == other
}

/// A product that stays in the range.
pub(crate) fn times(den: i128, amount: i128) -> i128
    requires { unsigned_abs (den *ℤ amount) < 2 ^ 120 }
    ensures { result ≡ den *ℤ amount }
{
    den * amount
}

/// Whether an amount is no less than the first and no more than the last.
pub fn is_between(low: i128, amount: i128, high: i128) -> bool
    ensures { IsTrue result ↔ ((low ≤ℤ amount) × (amount ≤ℤ high)) }
{
    low <= amount && amount <= high
}

/// The amount if the test passes, else 0.
pub fn counted(passes: bool, amount: i128) -> i128
    ensures { result ≡ (if passes then amount else pos 0) }
{
    if passes { amount } else { 0 }
}
