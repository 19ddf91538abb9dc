// The text of the made award.
ghost use Rattle.std.specs.Prelude.{◌≡◌, ◌++◌, [], ◌∷◌, IfOk, OnOk, codes, flat_map};
ghost use Rattle.auction_rules.specs.Rounds.{listing};
ghost use Rattle.big_auction.specs.AwardText.{category_text, entrant_text, key_line, made_award_text, name_line, number_line, step_text, table_line};
ghost use Rattle.big_auction.specs.MadeAward.{category_with, made_bidders, made_categories, made_entrant, made_name};

use crate::values::{BIDDERS, RESERVES, SUPPLY};
use line_format::add_decimal;
use std::alloc::{AllocError, Global};
use wide_num::Text;

/// The points that each bidder may bid for in round 1.
const ELIGIBILITY: u64 = 73;

/// Adds a key and its number.
fn add_number_line(text: &mut Text, key: &[u8], n: u64) -> Result<(), AllocError>
    ensures { OnOk result (text.new ≡ text.old ++ number_line key.now n) }
{
    text.add(key)?;
    text.add(b" = ")?;
    add_decimal(text, n as u128)?;
    text.push(b'\n')?;
    Ok(())
}

/// Adds the head of a table after a blank line, and the name in it.
fn add_table(text: &mut Text, head: &[u8], name: &[u8]) -> Result<(), AllocError>
    ensures { OnOk result (text.new ≡ text.old ++ (table_line head.now ++ name_line name.now)) }
{
    text.push(b'\n')?;
    text.add(head)?;
    text.add(b"\nname = \"")?;
    text.add(name)?;
    text.add(b"\"\n")?;
    Ok(())
}

fn add_category(
    text: &mut Text,
    name: &[u8],
    supply: u16,
    points: u64,
    reserve: u64,
) -> Result<(), AllocError>
    ensures { OnOk result (text.new ≡ text.old ++ category_text (category_with name.now supply points reserve)) }
{
    add_table(text, b"[[category]]", name)?;
    add_number_line(text, b"supply", supply as u64)?;
    add_number_line(text, b"points", points)?;
    add_number_line(text, b"reserve", reserve)?;
    Ok(())
}

fn add_categories(text: &mut Text) -> Result<(), AllocError>
    ensures { OnOk result (text.new ≡ text.old ++ flat_map category_text made_categories) }
{
    add_category(text, b"a", SUPPLY.a, 10, RESERVES.a)?;
    add_category(text, b"b", SUPPLY.b, 10, RESERVES.b)?;
    add_category(text, b"c", SUPPLY.c, 1, RESERVES.c)?;
    add_category(text, b"e", SUPPLY.e, 1, RESERVES.e)?;
    Ok(())
}

/// Adds the head of a bidder's table after a blank line, and the bidder's name.
fn add_bidder_name(text: &mut Text, bidder: u16) -> Result<(), AllocError>
    ensures { OnOk result (text.new ≡ text.old ++ (table_line (codes "[[bidder]]") ++ name_line (made_name bidder))) }
{
    text.add(b"\n[[bidder]]\nname = \"b")?;
    add_decimal(text, bidder as u128)?;
    text.add(b"\"\n")?;
    Ok(())
}

fn add_entrants(text: &mut Text) -> Result<(), AllocError>
    ensures { OnOk result (text.new ≡ text.old ++ flat_map entrant_text (listing made_entrant made_bidders)) }
{
    for k in 0..BIDDERS {
        add_bidder_name(text, k + 1)?;
        add_number_line(text, b"eligibility", ELIGIBILITY)?;
    }
    Ok(())
}

fn add_step(text: &mut Text, excess: u64, permille: u64) -> Result<(), AllocError>
    ensures { OnOk result (text.new ≡ text.old ++ step_text (excess, permille)) }
{
    text.add(b"\n[[step]]\n")?;
    add_number_line(text, b"excess", excess)?;
    add_number_line(text, b"permille", permille)?;
    Ok(())
}

/// The text of the award.
pub fn award_text(alloc: Global) -> Result<Text, AllocError>
    ensures { IfOk result (λ text. text ≡ made_award_text) }
{
    let mut text = Text::new(alloc);
    add_number_line(&mut text, b"version", 1)?;
    add_number_line(&mut text, b"tick", 1)?;
    add_categories(&mut text)?;
    add_entrants(&mut text)?;
    add_step(&mut text, 1, 100)?;
    add_step(&mut text, 5, 200)?;
    Ok(text)
}
