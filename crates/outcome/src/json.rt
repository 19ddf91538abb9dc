// The JSON of the outcome that a certificate shows.
ghost use Rattle.std.specs.Prelude.{◌≡◌, ℕ, ◌<◌, ◌^◌, ◌++◌, ℤ, IfOk, OnOk, IfSome, IsFalse, List, codes, length};
ghost use Rattle.std.specs.List.{AllByRecursion};
ghost use Rattle.std.specs.Option.{option_map};
ghost use Rattle.cert_summary.specs.Facts.{AreFacts};
ghost use Rattle.cert_grammar.specs.Certificate.{CertValue};
ghost use Rattle.cert_soundness.specs.Sound.{cert_point, cert_prices};
ghost use Rattle.core_price.specs.Turns.{turns_of};
ghost use Rattle.print_grammar.specs.Json.{AreLastMembers, IsOutcome, IsOutcomeJson};
ghost use Rattle.serde_json.specs.Data.{Data, Members, array, member, no_members, object};
ghost use Rattle.serde_json.specs.View.{items_of, members_view, view};
ghost use Rattle.serde_json.specs.Written.{compact_text, has_float};
ghost use Rattle.outcome.specs.Printable.{HavePrices, IsPrintable, point_of};
ghost use Rattle.outcome.specs.Turns.{CanPrintTurn};

use crate::certified::paid_in_all;
use crate::json_values::{amount_value, fraction_value, round_values, winner_values};
use crate::prices::winner_prices;
use bid_book::BidBook;
use cert_summary::CertFacts;
use choices::Choice;
use core_price::Turn;
use serde_json::{Map, Value, put};
use std::alloc::{AllocError, Global};
use wide_num::Text;

/// The JSON of the outcome that a certificate of a book shows, from its facts: one object on one line, with a line feed. Its
/// keys are `net`, `revenue`, `rounds` if turns are given, with the line of each turn, and `winners`. A winner's keys are
/// `bid`, `name`, `package`, `pays` and `vickrey`. What is printed is gross, except for the lines of turns.
///
/// The only error is out of memory.
pub fn outcome_json(
    alloc: Global,
    book: &BidBook,
    facts: &CertFacts,
    turns: Option<&[Turn]>,
) -> Result<Text, AllocError>
    requires facts { (c : CertValue) × AreFacts book.now c facts.now }
    requires turns { IfSome turns (λ t. AllByRecursion (CanPrintTurn facts.now.choice) t.now) }
    ensures { (c : CertValue) → AreFacts book.now c facts.now
        → IfOk result (λ text. IsOutcomeJson book.now c.choice (cert_prices book.now c) (cert_point c)
        (option_map (λ t. turns_of c.choice t.now) turns.entry) text) }
{
    book.kept();
    json_line(alloc, book, facts, turns)
}

// The JSON line of facts, from only what the text needs. Their Vickrey prices are v.
pub(crate) fn json_line(
    alloc: Global,
    book: &BidBook,
    facts: &CertFacts,
    turns: Option<&[Turn]>,
) -> Result<Text, AllocError>
    requires facts { IsPrintable book.now facts.now }
    requires turns { IfSome turns (λ t. AllByRecursion (CanPrintTurn facts.now.choice) t.now) }
    ensures { IfOk result
        (λ text. (v : ℕ → ℤ) → HavePrices v facts.now.singles
        → IsOutcomeJson book.now facts.now.choice v (point_of facts.now)
        (option_map (λ t. turns_of facts.now.choice t.now) turns.entry) text) }
{
    let value = outcome_value(alloc, book, facts, turns)?;
    compact_line(alloc, &value)
}

fn compact_line(alloc: Global, value: &Value) -> Result<Text, AllocError>
    requires { IsFalse (has_float (view value.now)) }
    ensures { IfOk result (λ text. text ≡ compact_text (view value.now) ++ codes "\n") }
{
    let bytes = value.to_vec(alloc)?;
    let mut text = Text::new(alloc);
    text.add(&bytes)?;
    text.push(b'\n')?;
    Ok(text)
}

fn outcome_value(
    alloc: Global,
    book: &BidBook,
    facts: &CertFacts,
    turns: Option<&[Turn]>,
) -> Result<Value, AllocError>
    requires facts { IsPrintable book.now facts.now }
    requires turns { IfSome turns (λ t. AllByRecursion (CanPrintTurn facts.now.choice) t.now) }
    ensures { IfOk result
        (λ value. IsFalse (has_float (view value))
        × ((v : ℕ → ℤ) → HavePrices v facts.now.singles
        → IsOutcome book.now facts.now.choice v (point_of facts.now)
        (option_map (λ t. turns_of facts.now.choice t.now) turns.entry) (view value))) }
{
    book.kept();
    let prices = winner_prices(alloc, book, facts)?;
    let revenue = fraction_value(alloc, paid_in_all(book, facts, &prices))?;
    let winners = winner_values(alloc, book, &prices)?;
    let net = amount_value(facts.value);
    outcome_object(alloc, &facts.choice, turns, net, revenue, winners)
}

fn outcome_object(
    alloc: Global,
    choice: &Choice,
    turns: Option<&[Turn]>,
    net: Value,
    revenue: Value,
    winners: Value,
) -> Result<Value, AllocError>
    requires turns { IfSome turns (λ t. AllByRecursion (CanPrintTurn choice.now) t.now) }
    requires few { length choice.now < 2 ^ 16 }
    ensures { (list : List Data) → view winners ≡ array (items_of list) → IfOk result (λ v. (last : Members) × AreLastMembers choice.now (option_map (λ t. turns_of choice.now t.now) turns.entry) list last × (view v ≡ object (member (codes "net") (view net) (member (codes "revenue") (view revenue) last)))) }
{
    match turns {
        None => plain_object(alloc, net, revenue, winners),
        Some(turns) => {
            let rounds = round_values(alloc, choice, turns)?;
            object_with_rounds(alloc, net, revenue, rounds, winners)
        }
    }
}

fn plain_object(
    alloc: Global,
    net: Value,
    revenue: Value,
    winners: Value,
) -> Result<Value, AllocError>
    ensures { IfOk result (λ v. view v ≡ object (member (codes "net") (view net) (member (codes "revenue") (view revenue) (member (codes "winners") (view winners) no_members)))) }
{
    let mut members = Map::new(alloc);
    put_members(alloc, &mut members, net, revenue, winners)?;
    Ok(Value::Object(members))
}

fn object_with_rounds(
    alloc: Global,
    net: Value,
    revenue: Value,
    rounds: Value,
    winners: Value,
) -> Result<Value, AllocError>
    ensures { IfOk result (λ v. view v ≡ object (member (codes "net") (view net) (member (codes "revenue") (view revenue) (member (codes "rounds") (view rounds) (member (codes "winners") (view winners) no_members))))) }
{
    let mut members = Map::new(alloc);
    put_members(alloc, &mut members, net, revenue, winners)?;
    put(&mut members, alloc, "rounds", rounds)?;
    Ok(Value::Object(members))
}

// Puts the members that each outcome has.
fn put_members(
    alloc: Global,
    members: &mut Map<String, Value>,
    net: Value,
    revenue: Value,
    winners: Value,
) -> Result<(), AllocError>
    requires { members_view members.old.entries ≡ no_members }
    ensures { OnOk result (members_view members.new.entries ≡ member (codes "net") (view net) (member (codes "revenue") (view revenue) (member (codes "winners") (view winners) no_members))) }
{
    put(members, alloc, "net", net)?;
    put(members, alloc, "revenue", revenue)?;
    put(members, alloc, "winners", winners)
}
