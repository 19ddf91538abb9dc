// The lines of replies.
ghost use Rattle.std.specs.Prelude.{◌≡◌, ◌∷◌, ◌++◌, [], codes, IfOk, OnOk};
ghost use Rattle.std.specs.Fmt.{decimal};
ghost use Rattle.line_format.specs.Decimals.{decimals_text};
ghost use Rattle.log_file.specs.ReplyText.{admitted_text, reply_line, reply_text};

use crate::CloseDone;
use auction_rules::Reply;
use line_format::{add_decimal, add_number};
use std::alloc::{AllocError, Global};
use wide_num::Text;

/// The line that `add_reply_line` adds for the reply to the record of this number. The only error is out of memory.
pub fn reply_line(
    alloc: Global,
    number: u64,
    reply: &Reply,
    done: Option<CloseDone>,
    prices: &[u64],
) -> Result<Text, AllocError>
    ensures { IfOk result (λ text. text ≡ reply_line number reply.now done prices.now) }
{
    let mut text = Text::new(alloc);
    add_reply_line(&mut text, number, reply, done, prices)?;
    Ok(text)
}

/// Adds the line of the reply to the record of this number, counted from 1.
///
/// `done` is the effect of the close if the record is an admitted close, and else None. `prices` are the posted prices
/// after the record, by categories. Only a new round's are printed. The only error is out of memory.
pub fn add_reply_line(
    text: &mut Text,
    number: u64,
    reply: &Reply,
    done: Option<CloseDone>,
    prices: &[u64],
) -> Result<(), AllocError>
    ensures { OnOk result (text.new ≡ text.old ++ reply_line number reply.now done prices.now) }
{
    add_decimal(text, number as u128)?;
    text.push(b' ')?;
    add_reply(text, *reply, done, prices)?;
    text.push(b'\n')?;
    Ok(())
}

/// Adds the text of a reply.
fn add_reply(
    text: &mut Text,
    reply: Reply,
    done: Option<CloseDone>,
    prices: &[u64],
) -> Result<(), AllocError>
    ensures { OnOk result (text.new ≡ text.old ++ reply_text reply done prices.now) }
{
    match reply {
        Reply::Ok => add_admitted(text, done, prices),
        Reply::Stage => add_word(text, b"stage"),
        Reply::Unknown => add_word(text, b"unknown"),
        Reply::Supply(category) => add_one(text, b"supply", category as u64),
        Reply::SpectrumCap { number, limit } => add_two(
            text,
            b"spectrum-cap",
            number as u64,
            limit,
        ),
        Reply::Points(eligibility) => add_one(text, b"points", eligibility),
        Reply::Empty => add_word(text, b"empty"),
        Reply::BelowReserve(amount) => add_one(text, b"below-reserve", amount),
        Reply::BelowClock(amount) => add_one(text, b"below-clock", amount),
        Reply::NoDraft => add_word(text, b"no-draft"),
        Reply::RelativeCap { entry, limit } => add_two(text, b"relative-cap", entry as u64, limit),
        Reply::Full(count) => add_one(text, b"full", count),
        Reply::AmountTop(amount) => add_one(text, b"amount-top", amount),
        Reply::PriceTop { category, price } => add_two(text, b"price-top", category as u64, price),
        Reply::Memory => add_word(text, b"memory"),
    }
}

/// Adds the text of an admitted record.
fn add_admitted(text: &mut Text, done: Option<CloseDone>, prices: &[u64]) -> Result<(), AllocError>
    ensures { OnOk result (text.new ≡ text.old ++ admitted_text done prices.now) }
{
    match done {
        None => add_word(text, b"ok"),
        Some(CloseDone::Round(round)) => add_round(text, round, prices),
        Some(CloseDone::Sealed) => add_word(text, b"sealed"),
        Some(CloseDone::Closed) => add_word(text, b"closed"),
    }
}

/// Adds the text of a new round with its prices.
fn add_round(text: &mut Text, round: u32, prices: &[u64]) -> Result<(), AllocError>
    ensures { OnOk result (text.new ≡ text.old ++ (codes "round " ++ decimal round ++ decimals_text prices.now)) }
{
    text.add(b"round ")?;
    add_decimal(text, round as u128)?;
    for price in prices {
        add_number(text, *price)?;
    }
    Ok(())
}

/// Adds a word.
fn add_word(text: &mut Text, word: &[u8]) -> Result<(), AllocError>
    ensures { OnOk result (text.new ≡ text.old ++ word.now) }
{
    text.add(word)?;
    Ok(())
}

/// Adds a word and a number after it.
fn add_one(text: &mut Text, word: &[u8], n: u64) -> Result<(), AllocError>
    ensures { OnOk result (text.new ≡ text.old ++ (word.now ++ decimals_text (n ∷ []))) }
{
    text.add(word)?;
    add_number(text, n)?;
    Ok(())
}

/// Adds a word and two numbers after it.
fn add_two(text: &mut Text, word: &[u8], m: u64, n: u64) -> Result<(), AllocError>
    ensures { OnOk result (text.new ≡ text.old ++ (word.now ++ decimals_text (m ∷ n ∷ []))) }
{
    text.add(word)?;
    add_number(text, m)?;
    add_number(text, n)?;
    Ok(())
}
