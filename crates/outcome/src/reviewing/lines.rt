// The lines of a review.
ghost use Rattle.std.specs.Prelude.{◌≡◌, ◌∷◌, ◌++◌, List, ℕ, OnOk, codes};
ghost use Rattle.std.specs.Fmt.{decimal, signed_decimal};
ghost use Rattle.line_format.specs.Decimals.{decimals_text};
ghost use Rattle.outcome.specs.ReviewText.{IsStateLine, refusal_text, worded};

use line_format::{add_decimal, add_number, add_numbers, add_signed};
use review::{EditReply, Review};
use std::alloc::AllocError;
use wide_num::Text;

/// Adds the line of this number for the book as it is: its net value and its winning choice.
pub fn add_state(text: &mut Text, n: u64, review: &Review) -> Result<(), AllocError>
    ensures { OnOk result ((line : List ℕ) × IsStateLine n review.now.book line × (text.new ≡ text.old ++ line)) }
{
    let choice = review.choice();
    add_value(text, n, review.net())?;
    add_choice(text, choice.numbers())?;
    Ok(())
}

/// Adds a number and a net value.
fn add_value(text: &mut Text, n: u64, net: i128) -> Result<(), AllocError>
    ensures { OnOk result (text.new ≡ text.old ++ decimal n ++ codes " net " ++ signed_decimal net) }
{
    add_decimal(text, n as u128)?;
    text.add(b" net ")?;
    add_signed(text, net)
}

/// Adds the numbers of a choice, and the end of the line.
fn add_choice(text: &mut Text, numbers: &[u16]) -> Result<(), AllocError>
    ensures { OnOk result (text.new ≡ text.old ++ codes " choice" ++ decimals_text numbers.now ++ codes "\n") }
{
    text.add(b" choice")?;
    add_numbers(text, numbers)?;
    text.push(b'\n')
}

/// Adds the line of this number for an edit that was refused.
pub fn add_refusal(text: &mut Text, n: u64, refusal: EditReply) -> Result<(), AllocError>
    ensures { OnOk result (text.new ≡ text.old ++ (decimal n ++ 32 ∷ refusal_text refusal ++ codes "\n")) }
{
    add_refused(text, n, &refusal)
}

/// Adds the line of a refused edit, of a refusal that is borrowed.
fn add_refused(text: &mut Text, n: u64, refusal: &EditReply) -> Result<(), AllocError>
    ensures { OnOk result (text.new ≡ text.old ++ (decimal n ++ 32 ∷ refusal_text refusal.now ++ codes "\n")) }
{
    add_decimal(text, n as u128)?;
    text.push(b' ')?;
    add_reply(text, refusal)?;
    text.push(b'\n')
}

/// Adds the text of a refusal. What isn't one has none.
fn add_reply(text: &mut Text, reply: &EditReply) -> Result<(), AllocError>
    ensures { OnOk result (text.new ≡ text.old ++ refusal_text reply.now) }
{
    match reply {
        EditReply::Ok | EditReply::Memory => Ok(()),
        EditReply::Unknown => add_word(text, b"unknown"),
        EditReply::Supply(category) => add_worded(text, b"supply", *category as u64),
        EditReply::Empty => add_word(text, b"empty"),
        EditReply::Present(amount) => add_worded(text, b"present", *amount),
        EditReply::Absent => add_word(text, b"absent"),
        EditReply::NotHigher(amount) => add_worded(text, b"not-higher", *amount),
        EditReply::BelowReserve(amount) => add_worded(text, b"below-reserve", *amount),
        EditReply::AmountTop(amount) => add_worded(text, b"amount-top", *amount),
        EditReply::Full(count) => add_worded(text, b"full", *count),
    }
}

/// Adds a word.
fn add_word(text: &mut Text, word: &[u8]) -> Result<(), AllocError>
    ensures { OnOk result (text.new ≡ text.old ++ word.now) }
{
    text.add(word)?;
    Ok(())
}

/// Adds a word and a number.
fn add_worded(text: &mut Text, word: &[u8], n: u64) -> Result<(), AllocError>
    ensures { OnOk result (text.new ≡ text.old ++ worded word.now n) }
{
    text.add(word)?;
    add_number(text, n)?;
    Ok(())
}
