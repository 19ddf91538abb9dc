// What is printed of the prices of a book.
ghost use Rattle.std.specs.Prelude.{◌≡◌, ◌<◌, ◌^◌, ◌++◌, ℕ, IfOk, List, length};
ghost use Rattle.std.specs.List.{AllByRecursion};
ghost use Rattle.cert_soundness.specs.Sound.{cert_point, cert_prices};
ghost use Rattle.cert_soundness.specs.Tests.{Holds, bidders_of, states};
ghost use Rattle.cert_text.specs.CertValues.{IsFor, cert_value};
ghost use Rattle.core_price.specs.Turns.{turns_of};
ghost use Rattle.outcome.specs.Turns.{CanPrintTurn};
ghost use Rattle.print_grammar.specs.Prices.{IsPriceText};
ghost use Rattle.cert_summary.specs.Facts.{AreFacts};
ghost use Rattle.cert_grammar.specs.Certificate.{CertValue};
ghost use Rattle.cca_commands.specs.Gives.{ArePriceLines, ArePrinted, AreRounds, IsPriceJson};

use bid_book::BidBook;
use cca_cli::PriceForm;
use cert_summary::{CertFacts, facts};
use cert_text::Certificate;
use choices::Choice;
use core_price::Turn;
use outcome::{outcome_json, outcome_text, rounds_text};
use std::alloc::{AllocError, Global};
use wide_num::Text;

// The lines of the turns, if they are asked for.
fn rounds_part(
    alloc: Global,
    winners: &Choice,
    turns: &[Turn],
    rounds: bool,
) -> Result<Text, AllocError>
    requires turns { AllByRecursion (CanPrintTurn winners.now) turns.now }
    requires few { length winners.now < 2 ^ 16 }
    ensures { IfOk result (λ text. AreRounds rounds winners.now (turns_of winners.now turns.now) text) }
{
    if rounds {
        rounds_text(alloc, winners, turns)
    } else {
        Ok(Text::new(alloc))
    }
}

/// These lines, after the lines of the turns if they are asked for.
pub fn after_rounds(
    alloc: Global,
    winners: &Choice,
    turns: &[Turn],
    rounds: bool,
    lines: &Text,
) -> Result<Text, AllocError>
    requires turns { AllByRecursion (CanPrintTurn winners.now) turns.now }
    requires few { length winners.now < 2 ^ 16 }
    ensures { IfOk result (λ text. (part : List ℕ)
        × AreRounds rounds winners.now (turns_of winners.now turns.now) part × (text ≡ part ++ lines.now)) }
{
    let mut text = rounds_part(alloc, winners, turns, rounds)?;
    text.add(lines.items())?;
    Ok(text)
}

// The outcome that a certificate shows.
fn cert_lines(alloc: Global, book: &BidBook, cert: &Certificate) -> Result<Text, AllocError>
    requires shape { IsFor (bidders_of book.now) (states book.now) cert.now }
    requires holds { (w : ℕ → ℕ) × Holds book.now w (cert_value cert.now) }
    ensures { IfOk result
        (λ text. IsPriceText book.now cert.now.choice (cert_prices book.now (cert_value cert.now))
        (cert_point (cert_value cert.now)) text) }
{
    let facts = facts(alloc, book, cert)?;
    outcome_text(alloc, book, &facts)
}

fn price_lines(
    alloc: Global,
    book: &BidBook,
    cert: &Certificate,
    turns: &[Turn],
    rounds: bool,
) -> Result<Text, AllocError>
    requires shape { IsFor (bidders_of book.now) (states book.now) cert.now }
    requires holds { (w : ℕ → ℕ) × Holds book.now w (cert_value cert.now) }
    requires turns { AllByRecursion (CanPrintTurn cert.now.choice) turns.now }
    ensures { IfOk result
        (λ text. ArePriceLines rounds book.now cert.now.choice (cert_prices book.now (cert_value cert.now))
        (cert_point (cert_value cert.now)) (turns_of cert.now.choice turns.now) text) }
{
    book.kept();
    let prices = cert_lines(alloc, book, cert)?;
    after_rounds(alloc, &cert.choice, turns, rounds, &prices)
}

// The line of JSON of the facts of a certificate, with the turns if they are asked for.
fn facts_json(
    alloc: Global,
    book: &BidBook,
    facts: &CertFacts,
    turns: &[Turn],
    rounds: bool,
) -> Result<Text, AllocError>
    requires facts { (c : CertValue) × AreFacts book.now c facts.now }
    requires turns { AllByRecursion (CanPrintTurn facts.now.choice) turns.now }
    ensures { (c : CertValue) → AreFacts book.now c facts.now
        → IfOk result (λ text. IsPriceJson rounds book.now c.choice (cert_prices book.now c) (cert_point c)
        (turns_of c.choice turns.now) text) }
{
    if rounds {
        outcome_json(alloc, book, facts, Some(turns))
    } else {
        outcome_json(alloc, book, facts, None)
    }
}

fn price_json(
    alloc: Global,
    book: &BidBook,
    cert: &Certificate,
    turns: &[Turn],
    rounds: bool,
) -> Result<Text, AllocError>
    requires shape { IsFor (bidders_of book.now) (states book.now) cert.now }
    requires holds { (w : ℕ → ℕ) × Holds book.now w (cert_value cert.now) }
    requires turns { AllByRecursion (CanPrintTurn cert.now.choice) turns.now }
    ensures { IfOk result
        (λ text. IsPriceJson rounds book.now cert.now.choice (cert_prices book.now (cert_value cert.now))
        (cert_point (cert_value cert.now)) (turns_of cert.now.choice turns.now) text) }
{
    let facts = facts(alloc, book, cert)?;
    facts_json(alloc, book, &facts, turns, rounds)
}

/// What is printed of a certificate and the turns that led to it, in this form. The only error is out of memory.
pub fn price_text(
    alloc: Global,
    book: &BidBook,
    cert: &Certificate,
    turns: &[Turn],
    form: PriceForm,
) -> Result<Text, AllocError>
    requires shape { IsFor (bidders_of book.now) (states book.now) cert.now }
    requires holds { (w : ℕ → ℕ) × Holds book.now w (cert_value cert.now) }
    requires turns { AllByRecursion (CanPrintTurn cert.now.choice) turns.now }
    ensures { IfOk result
        (λ text. ArePrinted form book.now (cert_value cert.now) (turns_of cert.now.choice turns.now) text) }
{
    if form.json {
        price_json(alloc, book, cert, turns, form.rounds)
    } else {
        price_lines(alloc, book, cert, turns, form.rounds)
    }
}
