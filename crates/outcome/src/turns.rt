// The lines of the pricing turns.
ghost use Rattle.std.specs.Prelude.{ℕ, ◌<◌, ◌^◌, ◌≤ℤ◌, pos, length, IfOk, OnOk};
ghost use Rattle.std.specs.List.{AllByRecursion};
ghost use Rattle.std.specs.declared.option.Option.TheVariants.{Some};
ghost use Rattle.blocking.specs.Look.{block_of};
ghost use Rattle.core_price.specs.Turns.{turn_of, turns_of};
ghost use Rattle.print_grammar.specs.Turns.{AreTurnLines, IsTurnEnd, IsTurnLine};
ghost use Rattle.wide_num.specs.Range.{InRange};
ghost use Rattle.wide_num.specs.Sums.{nth};
ghost use Rattle.outcome.specs.Turns.{AreFractions, CanPrintTurn, Grows};

use crate::{Fraction, add_fraction, add_numbers};
use blocking::Block;
use choices::Choice;
use core_price::{Turn, members_of};
use line_format::add_number;
use std::alloc::{AllocError, Global};
use wide_num::Text;

/// The lines of the turns of a pricing run: for each its point, and what blocks it.
///
/// `winners` is the choice that is priced. Payments, bounds and excesses are net of reserve. The only error is out of
/// memory.
pub fn rounds_text(alloc: Global, winners: &Choice, turns: &[Turn]) -> Result<Text, AllocError>
    requires turns { AllByRecursion (CanPrintTurn winners.now) turns.now }
    requires few { length winners.now < 2 ^ 16 }
    ensures { IfOk result (λ text. AreTurnLines winners.now 0 (turns_of winners.now turns.now) text) }
{
    let mut text = Text::new(alloc);
    for (i, turn) in turns.iter().enumerate() {
        add_turn(alloc, &mut text, winners, i as u64 + 1, turn)?;
    }
    Ok(text)
}

/// Adds the line of the turn of this number.
pub(crate) fn add_turn(
    alloc: Global,
    text: &mut Text,
    winners: &Choice,
    number: u64,
    turn: &Turn,
) -> Result<(), AllocError>
    requires turn { CanPrintTurn winners.now turn.now }
    requires few { length winners.now < 2 ^ 16 }
    ensures { OnOk result (Grows text.old text.new (IsTurnLine winners.now number (turn_of winners.now turn.now))) }
{
    text.add(b"round")?;
    add_number(text, number)?;
    text.add(b" point")?;
    add_payments(text, turn.den, turn.at.items())?;
    add_end(alloc, text, winners, turn)?;
    Ok(())
}

// What the winners pay, in order.
fn add_payments(text: &mut Text, den: i128, at: &[i128]) -> Result<(), AllocError>
    requires den { (pos 1 ≤ℤ den) × InRange den }
    requires not_negative { (i : ℕ) → i < length at.now → pos 0 ≤ℤ nth at.now i }
    ensures { OnOk result (Grows text.old text.new (AreFractions den at.now)) }
{
    for paid in at {
        text.push(b' ')?;
        add_fraction(text, Fraction::new(*paid, den))?;
    }
    Ok(())
}

// What follows the point.
fn add_end(alloc: Global, text: &mut Text, winners: &Choice, turn: &Turn) -> Result<(), AllocError>
    requires turn { CanPrintTurn winners.now turn.now }
    requires few { length winners.now < 2 ^ 16 }
    ensures { OnOk result
        (Grows text.old text.new
        (IsTurnEnd (length winners.now) turn.now.den (turn_of winners.now turn.now).block)) }
{
    match &turn.block {
        Some(block) => add_block(alloc, text, winners, turn.den, block),
        None => text.add(b" end\n"),
    }
}

fn add_block(
    alloc: Global,
    text: &mut Text,
    winners: &Choice,
    den: i128,
    block: &Block,
) -> Result<(), AllocError>
    requires den { (pos 1 ≤ℤ den) × InRange den }
    requires excess { pos 0 ≤ℤ block.now.excess }
    requires few { length winners.now < 2 ^ 16 }
    ensures { OnOk result
        (Grows text.old text.new (IsTurnEnd (length winners.now) den (Some (block_of winners.now block.now)))) }
{
    text.add(b" row")?;
    let members = members_of(alloc, winners, block.row.members)?;
    add_numbers(text, members.items())?;
    text.add(b" choice")?;
    add_numbers(text, block.choice.numbers())?;
    text.add(b" excess ")?;
    add_fraction(text, Fraction::new(block.excess, den))?;
    text.push(b'\n')?;
    Ok(())
}
