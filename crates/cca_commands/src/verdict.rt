// The output for a certificate that passes all tests.
ghost use Rattle.std.specs.Prelude.{◌≡◌, ◌++◌, List, ℕ, [], IfOk, codes};
ghost use Rattle.auction_model.specs.Prices.{weight_of};
ghost use Rattle.cert_summary.specs.Facts.{AreFacts};
ghost use Rattle.cert_grammar.specs.Certificate.{CertValue};
ghost use Rattle.cert_soundness.specs.Sound.{IsSound};
ghost use Rattle.cert_soundness.specs.Tests.{Holds};
ghost use Rattle.cca_commands.specs.Gives.{IsYesText, VerdictGives};
ghost use Rattle.cca_commands.specs.Works.{IsWork};

use crate::work::{Stop, Work};
use bid_book::BidBook;
use cert_summary::CertFacts;
use outcome::outcome_text;
use std::alloc::{AllocError, Global};
use wide_num::Text;

/// These lines after the line `yes`.
pub fn after_yes(alloc: Global, lines: &Text) -> Result<Text, AllocError>
    ensures { IfOk result (λ text. text ≡ codes "yes\n" ++ lines.now) }
{
    let mut text = Text::new(alloc);
    text.add(b"yes\n")?;
    text.add(lines.items())?;
    Ok(text)
}

fn yes_text(alloc: Global, book: &BidBook, facts: &CertFacts) -> Result<Text, AllocError>
    requires { (c : CertValue) × AreFacts book.now c facts.now }
    ensures { (c : CertValue) → AreFacts book.now c facts.now → IfOk result (IsYesText book.now c) }
{
    let outcome = outcome_text(alloc, book, facts)?;
    after_yes(alloc, &outcome)
}

/// The output for a certificate with these facts that passes all
/// tests.
pub fn accepted(alloc: Global, book: &BidBook, facts: &CertFacts) -> Result<Work, Stop>
    requires { (c : CertValue) × AreFacts book.now c facts.now }
    ensures { (weights : List ℕ) (c : CertValue) → Holds book.now (weight_of weights) c
        → IsSound book.now (weight_of weights) c → AreFacts book.now c facts.now
        → IsWork (VerdictGives book.now weights c) [] result }
{
    let printed = yes_text(alloc, book, facts)?;
    Ok(Work {
        printed,
        appended: Vec::new(alloc),
    })
}
