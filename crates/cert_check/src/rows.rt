// C6: the rows.
ghost use Rattle.std.specs.Prelude.{IsTrue, length, not, [], ◌*ℤ◌, ◌-ℤ◌, ◌≡◌, ◌↔◌};
ghost use Rattle.auction_model.specs.Book.{market_of};
ghost use Rattle.auction_model.specs.Lowered.{of_bidder};
ghost use Rattle.auction_model.specs.Market.{value_of, worth_in};
ghost use Rattle.auction_model.specs.Prices.{sum_over};
ghost use Rattle.cert_check.specs.Fields.{IsOf, cert_with, row_with};
ghost use Rattle.cert_grammar.specs.CertText.{AllInRange, AreMembers};
ghost use Rattle.cert_grammar.specs.Certificate.{CertValue, RowValue, is_member};
ghost use Rattle.cert_soundness.specs.Tests.{IsTightRow, bidders_of};

use crate::claim::Claim;
use crate::judging::is_allowed;
use crate::sums::amounts::times;
use crate::sums::members::{uses_all, uses_none};
use crate::sums::{paid_by, won_beside};
use choices::value_among;

/// Whether the members of a row win, its choice fits and uses none of them, and they pay just what it asks of them.
pub fn row_holds(claim: &Claim, pay: &[i128], members: &[u16], choice: &[u16]) -> bool
    requires pay { (length pay.now ≡ bidders_of claim.now.book.now) × AllInRange pay.now }
    requires members { AreMembers (bidders_of claim.now.book.now) 0 members.now }
    requires choice { length choice.now ≡ bidders_of claim.now.book.now }
    ensures { (c : CertValue) (row : RowValue) → IsOf claim.now c → c.pay ≡ pay.now → row.members ≡ members.now
        → row.choice ≡ choice.now → IsTrue result ↔ IsTightRow claim.now.book.now c row }
{
    pays_tightly(claim, pay, members, choice)
}

/// Whether the test is true for the row, for the certificate and the row of only these numbers.
fn pays_tightly(claim: &Claim, pay: &[i128], members: &[u16], choice: &[u16]) -> bool
    requires pay { (length pay.now ≡ bidders_of claim.now.book.now) × AllInRange pay.now }
    requires members { AreMembers (bidders_of claim.now.book.now) 0 members.now }
    requires choice { length choice.now ≡ bidders_of claim.now.book.now }
    ensures { IsTrue result
        ↔ IsTightRow claim.now.book.now (cert_with claim.now [] pay.now []) (row_with members.now choice.now) }
{
    if !uses_all(claim.choice, members) || !uses_none(choice, members) {
        return false;
    }
    if !is_allowed(claim.book, choice) {
        return false;
    }
    is_tight(claim, pay, members, choice)
}

/// Whether the members pay just what the choice of the row asks of them.
fn is_tight(claim: &Claim, pay: &[i128], members: &[u16], choice: &[u16]) -> bool
    requires pay { (length pay.now ≡ bidders_of claim.now.book.now) × AllInRange pay.now }
    requires allowed { IsTrue ((market_of claim.now.book.now).allowed choice.now) }
    ensures { IsTrue result ↔ (sum_over (is_member members.now) (of_bidder pay.now) (bidders_of claim.now.book.now)
        ≡ claim.now.den
        *ℤ (value_of (market_of claim.now.book.now) choice.now
        -ℤ sum_over (λ j. not (is_member members.now j))
        (worth_in (market_of claim.now.book.now) claim.now.choice.now) (bidders_of claim.now.book.now))) }
{
    let rest = value_among(claim.book, choice) - won_beside(claim.book, claim.choice, members);
    paid_by(pay, members) == times(claim.den, rest)
}
