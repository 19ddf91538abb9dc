// C5: the payments.
ghost use Rattle.std.specs.Prelude.{IsTrue, length, [], ◌≡◌, ◌<◌, ◌≤◌, ◌↔◌};
ghost use Rattle.cert_check.specs.Fields.{IsOf, cert_with};
ghost use Rattle.cert_check.specs.Places.{IsFirstFailing};
ghost use Rattle.cert_grammar.specs.Certificate.{CertValue};
ghost use Rattle.cert_soundness.specs.Tests.{C5, bidders_of};

use crate::claim::Claim;
use crate::sums::amounts::{is_between, times, won};

/// The first place where C5 fails for a certificate with these payments.
pub fn payments_test(claim: &Claim, pay: &[i128]) -> Option<u64>
    requires count { length pay.now ≡ bidders_of claim.now.book.now }
    ensures { (c : CertValue) → IsOf claim.now c → c.pay ≡ pay.now → IsFirstFailing (C5 claim.now.book.now c) result }
{
    for j in 1..claim.book.bidders() as u16 + 1 {
        if !payment_holds(claim, pay, j) {
            return Some(j as u64);
        }
    }
    None
}

/// Whether a bidder pays no more than it bids, and nothing if it loses.
fn payment_holds(claim: &Claim, pay: &[i128], j: u16) -> bool
    requires count { length pay.now ≡ bidders_of claim.now.book.now }
    requires bidder { (0 < j) × (j ≤ bidders_of claim.now.book.now) }
    ensures { IsTrue result ↔ C5 claim.now.book.now (cert_with claim.now [] pay.now []) j }
{
    let payment = pay[j as usize - 1];
    if claim.number(j) == 0 {
        return payment == 0;
    }
    is_between(
        0,
        payment,
        times(claim.den, won(claim.book, claim.choice, j)),
    )
}
