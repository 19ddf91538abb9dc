// The JSON values of what is printed of a certificate's outcome.
ghost use Rattle.std.specs.Prelude.{◌≡◌, ℕ, ◌<◌, ◌^◌, ◌++◌, IfOk, OnOk, List, codes, length, map, unsigned_abs};
ghost use Rattle.std.specs.List.{AllByRecursion};
ghost use Rattle.std.specs.Str.{IsAscii};
ghost use Rattle.core_price.specs.Turns.{turn_of, turns_of};
ghost use Rattle.print_grammar.specs.Json.{AreRounds, IsRound, amount_json, count_json};
ghost use Rattle.print_grammar.specs.Turns.{IsTurnLine};
ghost use Rattle.serde_json.specs.Data.{Data, array, string, object, member, no_members};
ghost use Rattle.serde_json.specs.View.{items_of, members_view, view};
ghost use Rattle.outcome.specs.Fractions.{fraction_text};
ghost use Rattle.outcome.specs.Json.{EndsLine, winner_data};
ghost use Rattle.outcome.specs.Prices.{CanPrintPrice};
ghost use Rattle.outcome.specs.Turns.{CanPrintTurn};

use crate::prices::WinnerPrice;
use crate::turns::add_turn;
use crate::{Fraction, add_fraction};
use bid_book::BidBook;
use choices::Choice;
use core_price::Turn;
use serde_json::{Map, Value, put};
use std::alloc::{AllocError, Global};
use wide_num::Text;

/// An amount as a number.
pub(crate) fn amount_value(amount: i128) -> Value
    requires { unsigned_abs amount < 2 ^ 63 }
    ensures { view result ≡ amount_json amount }
{
    Value::from(amount as i64)
}

/// A fraction as a text.
pub(crate) fn fraction_value(alloc: Global, fraction: Fraction) -> Result<Value, AllocError>
    ensures { IfOk result (λ v. view v ≡ string (fraction_text fraction)) }
{
    let mut text = Text::new(alloc);
    add_fraction(&mut text, fraction)?;
    text_value(alloc, text.items())
}

fn text_value(alloc: Global, text: &[u8]) -> Result<Value, AllocError>
    requires { IsAscii text.now }
    ensures { IfOk result (λ v. view v ≡ string text.now) }
{
    Value::try_from_str(alloc, ascii(text))
}

fn ascii(text: &[u8]) -> &str
    requires { IsAscii text.now }
    ensures { result.now ≡ text.now }
{
    std::str::from_utf8(text).unwrap_or("")
}

fn list_value(values: Vec<Value>) -> Value
    ensures { view result ≡ array (items_of (map view values.items)) }
{
    Value::Array(values)
}

/// An object for each winner, in order.
pub(crate) fn winner_values(
    alloc: Global,
    book: &BidBook,
    prices: &[WinnerPrice],
) -> Result<Value, AllocError>
    requires { AllByRecursion (CanPrintPrice book.now) prices.now }
    ensures { IfOk result (λ v. view v ≡ array (items_of (map (winner_data book.now) prices.now))) }
{
    let mut values = Vec::new(alloc);
    'prices: for price in prices {
        values.push(winner_value(alloc, book, price)?)?;
    }
    Ok(list_value(values))
}

fn winner_value(alloc: Global, book: &BidBook, price: &WinnerPrice) -> Result<Value, AllocError>
    requires { CanPrintPrice book.now price.now }
    ensures { IfOk result (λ v. view v ≡ winner_data book.now price.now) }
{
    let bid = book.bid(price.bidder, price.bid);
    let mut members = Map::new(alloc);
    put_bid(
        alloc,
        &mut members,
        bid.amount,
        book.name(price.bidder),
        bid.package.counts(),
    )?;
    put_prices(alloc, &mut members, price)?;
    Ok(Value::Object(members))
}

// Puts the members of a bid.
fn put_bid(
    alloc: Global,
    members: &mut Map<String, Value>,
    bid: u64,
    name: &str,
    counts: &[u16],
) -> Result<(), AllocError>
    requires { members_view members.old.entries ≡ no_members }
    ensures { OnOk result (members_view members.new.entries ≡ member (codes "bid") (count_json bid) (member (codes "name") (string name.now) (member (codes "package") (array (items_of (map count_json counts.now))) no_members))) }
{
    put(members, alloc, "bid", Value::from(bid))?;
    put(members, alloc, "name", Value::try_from_str(alloc, name)?)?;
    put(members, alloc, "package", package_value(alloc, counts)?)
}

// Puts the members of the prices after the members of the bid.
fn put_prices(
    alloc: Global,
    members: &mut Map<String, Value>,
    price: &WinnerPrice,
) -> Result<(), AllocError>
    requires { unsigned_abs price.now.vickrey < 2 ^ 63 }
    ensures { (bid name lots : Data) → members_view members.old.entries ≡ member (codes "bid") bid (member (codes "name") name (member (codes "package") lots no_members)) → OnOk result (members_view members.new.entries ≡ member (codes "bid") bid (member (codes "name") name (member (codes "package") lots (member (codes "pays") (string (fraction_text price.now.pays)) (member (codes "vickrey") (amount_json price.now.vickrey) no_members))))) }
{
    put(members, alloc, "pays", fraction_value(alloc, price.pays)?)?;
    put(members, alloc, "vickrey", amount_value(price.vickrey))
}

fn package_value(alloc: Global, counts: &[u16]) -> Result<Value, AllocError>
    ensures { IfOk result (λ v. view v ≡ array (items_of (map count_json counts.now))) }
{
    let mut values = Vec::new(alloc);
    'counts: for count in counts {
        values.push(Value::from(*count))?;
    }
    Ok(list_value(values))
}

/// The line of each turn as a text without its line feed.
pub(crate) fn round_values(
    alloc: Global,
    winners: &Choice,
    turns: &[Turn],
) -> Result<Value, AllocError>
    requires turns { AllByRecursion (CanPrintTurn winners.now) turns.now }
    requires few { length winners.now < 2 ^ 16 }
    ensures { IfOk result
        (λ v. (rounds : List Data) × AreRounds winners.now 0 (turns_of winners.now turns.now) rounds
        × (view v ≡ array (items_of rounds))) }
{
    let mut values = Vec::new(alloc);
    for (i, turn) in turns.iter().enumerate() {
        let round = round_value(alloc, winners, i as u64 + 1, turn)?;
        values.push(round)?;
    }
    Ok(list_value(values))
}

// The line of the turn of this number.
fn round_value(
    alloc: Global,
    winners: &Choice,
    number: u64,
    turn: &Turn,
) -> Result<Value, AllocError>
    requires turn { CanPrintTurn winners.now turn.now }
    requires few { length winners.now < 2 ^ 16 }
    ensures { IfOk result (λ v. IsRound winners.now number (turn_of winners.now turn.now) (view v)) }
{
    let mut text = Text::new(alloc);
    add_turn(alloc, &mut text, winners, number, turn)?;
    line_value(alloc, text.items())
}

// A line without its line feed.
fn line_value(alloc: Global, line: &[u8]) -> Result<Value, AllocError>
    requires { EndsLine line.now }
    ensures { IfOk result (λ v. (front : List ℕ) × (line.now ≡ front ++ codes "\n") × (view v ≡ string front)) }
{
    text_value(alloc, &line[..line.len() - 1])
}
