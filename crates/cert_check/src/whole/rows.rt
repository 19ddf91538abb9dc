// C6: the rows.
ghost use Rattle.std.specs.Prelude.{◌≡◌, length, map};
ghost use Rattle.cert_check.specs.Fields.{IsOf};
ghost use Rattle.cert_check.specs.Places.{IsFirstFailing};
ghost use Rattle.cert_grammar.specs.CertText.{AllInRange, AreRows};
ghost use Rattle.cert_grammar.specs.Certificate.{CertValue};
ghost use Rattle.cert_soundness.specs.Tests.{C6, bidders_of};
ghost use Rattle.cert_text.specs.Parts.{row_value};

use crate::claim::Claim;
use crate::rows::row_holds;
use cert_text::CertRow;

/// The first place where C6 fails for a certificate with these payments and rows.
pub(crate) fn rows_test(claim: &Claim, pay: &[i128], rows: &[CertRow]) -> Option<u64>
    requires pay { (length pay.now ≡ bidders_of claim.now.book.now) × AllInRange pay.now }
    requires rows { AreRows (bidders_of claim.now.book.now) (map row_value rows.now) }
    ensures { (c : CertValue) → IsOf claim.now c → c.pay ≡ pay.now → c.rows ≡ map row_value rows.now
        → IsFirstFailing (C6 claim.now.book.now c) result }
{
    for (r, row) in rows.iter().enumerate() {
        if !row_holds(claim, pay, row.members.items(), row.choice.numbers()) {
            return Some(r as u64 + 1);
        }
    }
    None
}
