// The text of the outcome that a certificate shows.
ghost use Rattle.std.specs.Prelude.{ℕ, ℤ, IfOk};
ghost use Rattle.cert_summary.specs.Facts.{AreFacts};
ghost use Rattle.cert_grammar.specs.Certificate.{CertValue};
ghost use Rattle.cert_soundness.specs.Sound.{cert_point, cert_prices};
ghost use Rattle.cert_soundness.specs.Tests.{bidders_of};
ghost use Rattle.outcome.specs.Fractions.{IsFractionOf};
ghost use Rattle.outcome.specs.Prices.{AreWinnerPrices};
ghost use Rattle.outcome.specs.Printable.{HavePrices, IsPrintable, point_of};
ghost use Rattle.print_grammar.specs.Prices.{IsPriceText, revenue_of};

use crate::lines::{add_prices, add_revenue, revenue};
use crate::prices::{WinnerPrice, winner_prices};
use crate::{Fraction, add_net};
use bid_book::BidBook;
use cert_summary::CertFacts;
use std::alloc::{AllocError, Global};
use wide_num::Text;

/// The text of the outcome that a certificate of a book shows, from its facts: a line for each winner in order, with its bid, its
/// Vickrey price and what it pays, then the net value, then the revenue. What is printed is gross.
///
/// The only error is out of memory.
pub fn outcome_text(alloc: Global, book: &BidBook, facts: &CertFacts) -> Result<Text, AllocError>
    requires facts { (c : CertValue) × AreFacts book.now c facts.now }
    ensures { (c : CertValue) → AreFacts book.now c facts.now
        → IfOk result (λ text. IsPriceText book.now c.choice (cert_prices book.now c) (cert_point c) text) }
{
    book.kept();
    printed(alloc, book, facts)
}

// The printed text of facts, from only what the text needs. Their Vickrey prices are v.
pub(crate) fn printed(alloc: Global, book: &BidBook, facts: &CertFacts) -> Result<Text, AllocError>
    requires { IsPrintable book.now facts.now }
    ensures { IfOk result
        (λ text. (v : ℕ → ℤ) → HavePrices v facts.now.singles
        → IsPriceText book.now facts.now.choice v (point_of facts.now) text) }
{
    let prices = winner_prices(alloc, book, facts)?;
    let mut text = Text::new(alloc);
    add_prices(&mut text, book, &prices)?;
    add_net(&mut text, facts.value)?;
    add_revenue(&mut text, paid_in_all(book, facts, &prices))?;
    Ok(text)
}

/// What all winners pay, gross.
pub(crate) fn paid_in_all(book: &BidBook, facts: &CertFacts, prices: &[WinnerPrice]) -> Fraction
    requires facts { IsPrintable book.now facts.now }
    requires prices { AreWinnerPrices book.now facts.now.choice (point_of facts.now) facts.now.singles prices.now }
    ensures { IsFractionOf
        (revenue_of book.now facts.now.choice (point_of facts.now) (bidders_of book.now)) facts.now.den result }
{
    book.kept();
    revenue(prices, facts.den, facts.pay.items())
}
