// C2: the winning choice.
ghost use Rattle.std.specs.Prelude.{IsTrue, length, [], pos, ◌≡◌, ◌+◌, ◌<◌, ◌≤◌, ◌↔◌};
ghost use Rattle.cert_check.specs.Fields.{cert_of};
ghost use Rattle.cert_check.specs.Head.{HoldsBefore};
ghost use Rattle.cert_check.specs.Places.{IsFirstFailing};
ghost use Rattle.cert_grammar.specs.Certificate.{CertValue};
ghost use Rattle.cert_soundness.specs.Tests.{C2, bidders_of};

use crate::judging::number;
use bid_book::BidBook;
use choices::{are_within, value_among};

/// The first place where C2 fails for a certificate with this choice and this value.
pub fn choice_test(book: &BidBook, choice: &[u16], claimed: i128) -> Option<u64>
    requires count { length choice.now ≡ bidders_of book.now }
    ensures { (c : CertValue) → c.choice ≡ choice.now → c.value ≡ claimed → IsFirstFailing (C2 book.now c) result }
{
    for place in 1..book.bidders() as u16 + 3 {
        if !choice_holds(book, choice, claimed, place) {
            return Some(place as u64);
        }
    }
    None
}

/// Whether C2 is true at a place: a bidder's number, the package of all, the value.
fn choice_holds(book: &BidBook, choice: &[u16], claimed: i128, place: u16) -> bool
    requires count { length choice.now ≡ bidders_of book.now }
    requires place { (0 < place) × (place ≤ bidders_of book.now + 2) }
    requires before { HoldsBefore (C2 book.now (cert_of (pos 0) claimed choice.now [] [] [])) place }
    ensures { IsTrue result ↔ C2 book.now (cert_of (pos 0) claimed choice.now [] [] []) place }
{
    let bidders = book.bidders() as u16;
    if place <= bidders {
        return number(choice, place) <= book.bids(place);
    }
    if place == bidders + 1 {
        return are_within(book, choice);
    }
    value_among(book, choice) == claimed
}
