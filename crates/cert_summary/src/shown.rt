// The facts that a certificate shows.
ghost use Rattle.std.specs.Prelude.{◌≡◌, IfOk, map};
ghost use Rattle.cert_summary.specs.Facts.{AreFacts, HasFacts, single_of};
ghost use Rattle.cert_summary.specs.Parts.{IsPartOf};
ghost use Rattle.cert_soundness.specs.Tests.{vickrey_of};
ghost use Rattle.cert_text.specs.CertValues.{cert_value};
ghost use Rattle.cert_text.specs.Parts.{without_value};

use crate::Singles;
use bid_book::BidBook;
use cert_text::{Certificate, WithoutPart};
use choices::{Choice, Single, value, worth};
use std::alloc::{AllocError, Global};
use wide_num::NumList;

/// What is printed of a certificate: its facts, without its tables and its rows. All amounts are net of reserve.
#[derive(Drop)]
pub struct CertFacts {
    /// The denominator of the payments.
    pub den: i128,
    /// The value of the choice.
    pub value: i128,
    /// The winning choice, one number for each bidder.
    pub choice: Choice,
    /// The single winners, in order: the Vickrey price by the part without the winner, and this part's choice.
    pub singles: Singles,
    /// What each bidder pays, times the denominator.
    pub pay: NumList,
}

/// The facts of a certificate of the book. It passes the tests that they rest on: the sizes, the choice, the parts without each
/// winner, and the payments. The only error is out of memory.
pub fn facts(alloc: Global, book: &BidBook, cert: &Certificate) -> Result<CertFacts, AllocError>
    requires has { HasFacts book.now (cert_value cert.now) }
    ensures { IfOk result (AreFacts book.now (cert_value cert.now)) }
{
    Ok(CertFacts {
        den: cert.den,
        value: cert.value,
        choice: cert.choice.copied(alloc)?,
        singles: singles(alloc, book, cert)?,
        pay: NumList::from_vec(Vec::from_slice(alloc, cert.pay.items())?),
    })
}

// The single winner of each part, in order.
fn singles(alloc: Global, book: &BidBook, cert: &Certificate) -> Result<Singles, AllocError>
    requires { HasFacts book.now (cert_value cert.now) }
    ensures { IfOk result
        (λ list. list ≡ map (single_of book.now (cert_value cert.now)) (map without_value cert.now.withouts)) }
{
    let mut singles = Singles::new(alloc);
    for part in cert.withouts.items() {
        singles.push(single(alloc, book, cert, part)?)?;
    }
    Ok(singles)
}

// The single winner of this part.
fn single(
    alloc: Global,
    book: &BidBook,
    cert: &Certificate,
    part: &WithoutPart,
) -> Result<Single, AllocError>
    requires cert { HasFacts book.now (cert_value cert.now) }
    requires part { IsPartOf cert.now part.now }
    ensures { IfOk result (λ s. s ≡ single_of book.now (cert_value cert.now) (without_value part.now)) }
{
    Ok(Single {
        winner: part.winner,
        price: vickrey(book, cert, part),
        choice: part.choice.copied(alloc)?,
    })
}

// The Vickrey price of the winner that this part is without.
fn vickrey(book: &BidBook, cert: &Certificate, part: &WithoutPart) -> i128
    requires cert { HasFacts book.now (cert_value cert.now) }
    requires part { IsPartOf cert.now part.now }
    ensures { result ≡ vickrey_of book.now (cert_value cert.now) part.now.winner }
{
    book.kept();
    let bid = cert.choice.number(part.winner);
    value(book, &part.choice) - cert.value + worth(book, part.winner, bid)
}
