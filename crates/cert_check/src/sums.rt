//! Sums over bidders and over rows.
ghost use Rattle.std.specs.Prelude.{IsTrue, length, map, not, pos, unsigned_abs, ℕ, ◌*◌, ◌<◌, ◌^◌, ◌≡◌, ◌≤ℤ◌, ◌≤◌};
ghost use Rattle.auction_model.specs.Book.{market_of, menu_of};
ghost use Rattle.auction_model.specs.Lowered.{of_bidder};
ghost use Rattle.auction_model.specs.Market.{worth_in};
ghost use Rattle.auction_model.specs.Menu.{is_known_after};
ghost use Rattle.auction_model.specs.Prices.{sum_over};
ghost use Rattle.bid_book.specs.Kept.{IsBidBook};
ghost use Rattle.cert_grammar.specs.CertText.{AllInRange};
ghost use Rattle.cert_grammar.specs.Certificate.{is_member};
ghost use Rattle.cert_soundness.specs.Tests.{bidders_of};
ghost use Rattle.limits.specs.declared.TheConstants.{MOST_BIDDERS};

pub mod amounts;
pub mod members;

use crate::sums::amounts::{counted, won};
use crate::sums::members::is_among;
use bid_book::BidBook;

/// One of the two multipliers of a row.
#[derive(Clone, Copy)]
pub enum Multiplier {
    /// The one that shows the least sum of the payments.
    First,
    /// The one that shows the nearest point.
    Second,
}

/// What the members pay together, in the unit of the payments.
pub fn paid_by(payments: &[i128], members: &[u16]) -> i128
    requires count { length payments.now ≤ MOST_BIDDERS }
    requires range { AllInRange payments.now }
    ensures { result ≡ sum_over (is_member members.now) (of_bidder payments.now) (length payments.now) }
{
    let mut sum = 0i128;
    for k in 0..payments.len() {
        sum += counted(is_among(members, k as u16 + 1), payments[k]);
    }
    sum
}

/// What the bids of the others count in the choice.
pub(crate) fn won_beside(book: &BidBook, choice: &[u16], members: &[u16]) -> i128
    requires known { IsTrue (is_known_after (menu_of book.now) 0 choice.now) }
    ensures sum { result
        ≡ sum_over (λ j. not (is_member members.now j)) (worth_in (market_of book.now) choice.now)
        (bidders_of book.now) }
    ensures kept { IsBidBook book.now }
{
    let mut sum = 0i128;
    for k in 0..book.bidders() {
        let j = k as u16 + 1;
        sum += counted(!is_among(members, j), won(book, choice, j));
    }
    sum
}
