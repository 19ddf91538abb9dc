// From a placement certificate to its text.
ghost use Rattle.std.specs.Prelude.{◌≡◌, ◌≤◌, ◌∷◌, [], length, codes, IfOk, OnOk};
ghost use Rattle.std.specs.List.{AllByRecursion};
ghost use Rattle.wide_num.specs.Range.{InRange};
ghost use Rattle.cert_grammar.specs.CertText.{choice_line};
ghost use Rattle.line_format.specs.Range.{AllInRange};
ghost use Rattle.cert_text.specs.Written.{AddsLines, IsTableInRange};
ghost use Rattle.placement_cert.specs.CertValues.{place_cert_value};
ghost use Rattle.placement_cert.specs.PlaceReads.{own_part, own_row, ordered_lines, part_lines, payment_lines};
ghost use Rattle.placement_cert.specs.PlaceSays.{place_text};
ghost use Rattle.placement_cert.specs.Written.{lines_of_head, ArePartsInRange, IsRowInRange};

use crate::{PlaceCertificate, PlaceRow, PlaceWithout};
use cert_text::{add_choice, add_number_line, add_signed_line, add_table};
use choices::{Choice, Numbers};
use std::alloc::{AllocError, Global};
use wide_num::Text;

/// The one text of a placement certificate. The only error is out of memory.
pub fn write_places(alloc: Global, cert: &PlaceCertificate) -> Result<Text, AllocError>
    ensures { IfOk result (λ text. text ≡ place_text (place_cert_value cert.now)) }
{
    let mut text = Text::new(alloc);
    add_head(&mut text, cert)?;
    add_table(&mut text, b"table", &cert.table)?;
    add_parts(&mut text, cert.withouts.items())?;
    add_payments(&mut text, cert.pay.items(), cert.rows.items())?;
    add_table(&mut text, b"lowered", &cert.lowered)?;
    add_signed_line(&mut text, b"end", &[])?;
    Ok(text)
}

// The version, the denominator, the value and the head's choice with its order.
fn add_head(text: &mut Text, cert: &PlaceCertificate) -> Result<(), AllocError>
    requires { InRange cert.now.den × InRange cert.now.value }
    ensures { OnOk result (AddsLines text.old text.new (lines_of_head cert.now)) }
{
    add_signed_line(text, b"pcert", &[1])?;
    add_signed_line(text, b"den", &[cert.den])?;
    add_signed_line(text, b"value", &[cert.value])?;
    add_ordered(text, &cert.order, &cert.choice)?;
    Ok(())
}

// The parts without each winner.
fn add_parts(text: &mut Text, parts: &[PlaceWithout]) -> Result<(), AllocError>
    requires { ArePartsInRange parts.now }
    ensures { OnOk result (AddsLines text.old text.new (part_lines parts.now)) }
{
    for part in parts {
        add_part(text, part)?;
    }
    Ok(())
}

fn add_part(text: &mut Text, part: &PlaceWithout) -> Result<(), AllocError>
    requires { IsTableInRange part.now.table }
    ensures { OnOk result (AddsLines text.old text.new (own_part part.now)) }
{
    add_number_line(text, b"without", &[part.winner])?;
    add_ordered(text, &part.order, &part.choice)?;
    add_table(text, b"table", &part.table)?;
    Ok(())
}

// The payments, how many rows ask for them, and the rows.
fn add_payments(text: &mut Text, pay: &[i128], rows: &[PlaceRow]) -> Result<(), AllocError>
    requires pay { AllInRange pay.now }
    requires few { length rows.now ≤ 10 }
    requires range { AllByRecursion IsRowInRange rows.now }
    ensures { OnOk result (AddsLines text.old text.new (payment_lines pay.now rows.now)) }
{
    add_signed_line(text, b"pay", pay)?;
    add_signed_line(text, b"rows", &[rows.len() as i128])?;
    for row in rows {
        add_row(text, row)?;
    }
    Ok(())
}

fn add_row(text: &mut Text, row: &PlaceRow) -> Result<(), AllocError>
    requires { IsRowInRange row.now }
    ensures { OnOk result (AddsLines text.old text.new (own_row row.now)) }
{
    add_number_line(text, b"row", row.members.items())?;
    add_signed_line(text, b"mult", &[row.first, row.second])?;
    add_ordered(text, &row.order, &row.choice)?;
    Ok(())
}

// An order and its choice.
fn add_ordered(text: &mut Text, order: &Numbers, choice: &Choice) -> Result<(), AllocError>
    ensures { OnOk result (AddsLines text.old text.new (ordered_lines order.now choice.now)) }
{
    add_number_line(text, b"order", order.items())?;
    add_choice(text, choice)?;
    Ok(())
}
