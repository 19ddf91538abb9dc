// Prices of a book, with their certificate.
ghost use Rattle.std.specs.Prelude.{◌≡◌, ◌≢◌, ℕ, [], ◌∷◌, IfOk, Err};
ghost use Rattle.std.specs.List.{AllByRecursion};
ghost use Rattle.cert_grammar.specs.Says.{cert_text};
ghost use Rattle.cert_text.specs.CertValues.{IsFor, cert_value};
ghost use Rattle.limits.specs.declared.LimitKind.{LimitKind};
ghost use Rattle.auction_model.specs.Prices.{AreWeights};
ghost use Rattle.cert_soundness.specs.Tests.{Holds, bidders_of, states};
ghost use Rattle.core_price.specs.Turns.{turns_of};
ghost use Rattle.outcome.specs.Turns.{CanPrintTurn};
ghost use Rattle.core_price.specs.declared.priced.PriceStop.{PriceStop};
ghost use Rattle.cca_cli.specs.Outcome.{done, stopped};
ghost use Rattle.cca_cli.specs.declared.status.FileKind.{FileKind};
ghost use Rattle.cca_cli.specs.declared.status.Status.{Status};
ghost use Rattle.cca_commands.specs.Gives.{ArePrinted, PriceGives, cert_file, ones};
ghost use Rattle.cca_commands.specs.Works.{IsWork};

use crate::price_text::price_text;
use crate::work::{Stop, Work};
use bid_book::BidBook;
use book_price::{PricedBook, price_book};
use cca_cli::{FileKind, FileText, PriceForm};
use cert_output::{LongText, cert_parts};
use core_price::PriceStop;
use limits::LimitKind;
use std::alloc::{AllocError, Global};
use wide_num::Text;

/// The printed prices, and the text of their certificate.
#[derive(Drop)]
pub struct PriceTexts {
    pub printed: Text,
    pub cert: LongText,
}

/// A weight of 1 for each bidder.
pub fn ones_of(alloc: Global, book: &BidBook) -> Result<Vec<u32>, AllocError>
    ensures { IfOk result (λ v. v.items ≡ ones book.now) }
{
    vec![in alloc; 1u32; book.bidders()]
}

// The printed prices of a priced book, and the text of its certificate.
fn priced_texts(
    alloc: Global,
    book: &BidBook,
    priced: &PricedBook,
    form: PriceForm,
) -> Result<PriceTexts, PriceStop>
    requires shape { IsFor (bidders_of book.now) (states book.now) priced.now.cert }
    requires holds { (w : ℕ → ℕ) × Holds book.now w (cert_value priced.now.cert) }
    requires turns { AllByRecursion (CanPrintTurn priced.now.cert.choice) priced.now.turns }
    ensures done { IfOk result (λ p. ArePrinted form book.now (cert_value priced.now.cert)
        (turns_of priced.now.cert.choice priced.now.turns) p.printed × (p.cert ≡ cert_text (cert_value priced.now.cert))) }
    ensures memory { (n : ℕ) → result ≢ Err (PriceStop.Winners n) }
{
    let cert = &priced.cert;
    let printed = price_text(alloc, book, cert, priced.turns.items(), form)?;
    let cert = cert_parts(alloc, cert)?;
    Ok(PriceTexts { printed, cert })
}

fn price_texts(
    alloc: Global,
    book: &BidBook,
    weights: &[u32],
    form: PriceForm,
) -> Result<PriceTexts, PriceStop>
    requires { AreWeights (bidders_of book.now) weights.now }
    ensures done { IfOk result (λ p. PriceGives book.now weights.now form (done p.printed (cert_file p.cert ∷ []))) }
    ensures stop { (n : ℕ) → result ≡ Err (PriceStop.Winners n)
        → PriceGives book.now weights.now form (stopped (Status.Limit LimitKind.Winners n)) }
{
    let priced = price_book(alloc, book, weights)?;
    priced_texts(alloc, book, &priced, form)
}

/// The work whose one appended text is a certificate.
pub fn with_cert(alloc: Global, texts: PriceTexts) -> Result<Work, Stop>
    ensures { IsWork (λ o. o ≡ done texts.printed (cert_file texts.cert ∷ [])) (FileKind.Cert ∷ []) result }
{
    let mut appended = Vec::new(alloc);
    appended.push(FileText {
        kind: FileKind::Cert,
        text: texts.cert,
    })?;
    Ok(Work {
        printed: texts.printed,
        appended,
    })
}

/// The prices of a book by weights, printed in this form, and their certificate.
pub fn price_weighed(
    alloc: Global,
    book: &BidBook,
    weights: &[u32],
    form: PriceForm,
) -> Result<Work, Stop>
    requires { AreWeights (bidders_of book.now) weights.now }
    ensures { IsWork (PriceGives book.now weights.now form) (FileKind.Cert ∷ []) result }
{
    match price_texts(alloc, book, weights, form) {
        Ok(texts) => with_cert(alloc, texts),
        Err(stop) => Err(Stop::from(stop)),
    }
}

/// The prices of a book by a weight of 1 for each bidder, printed in this form, and their certificate.
pub fn price_alike(alloc: Global, book: &BidBook, form: PriceForm) -> Result<Work, Stop>
    ensures { IsWork (PriceGives book.now (ones book.now) form) (FileKind.Cert ∷ []) result }
{
    let weights = ones_of(alloc, book)?;
    price_weighed(alloc, book, &weights, form)
}
