// From a certificate to its text.
ghost use Rattle.std.specs.Prelude.{◌≡◌, ◌≤◌, ◌<◌, ◌∷◌, ◌++◌, [], codes, length, slice_index_or, take, IfOk, OnOk};
ghost use Rattle.std.specs.List.{AllByRecursion};
ghost use Rattle.cert_grammar.specs.CertText.{as_numbers, choice_line, line};
ghost use Rattle.line_format.specs.Range.{AllInRange};
ghost use Rattle.wide_num.specs.Range.{InRange};
ghost use Rattle.cert_grammar.specs.Lines.{version_lines};
ghost use Rattle.line_format.specs.Numeral.{numbers_text};
ghost use Rattle.cert_grammar.specs.Says.{cert_text};
ghost use Rattle.cert_text.specs.CertValues.{cert_value};
ghost use Rattle.cert_text.specs.Written.{line_bytes, lines_of_head, lines_of_part, lines_of_parts, lines_of_row, lines_of_rows, lines_of_table, AddsLines, ArePartsInRange, IsRowInRange, IsTableInRange};

use crate::fields::{add_fields, add_table_fields};
use crate::spelled::{add_parts, add_spelled, spelled_lines};
use crate::version::has_first_version;
use crate::{CertRow, Certificate};
use choices::{Choice, Grid};
use limits::{MOST_BIDDERS, MOST_STATES};
use line_format::add_numbers;
use std::alloc::{AllocError, Global};
use wide_num::Text;

// That many bytes are enough for all lines except the tables' lines.
const SHORT_LINES: usize = 16_384;

/// The one text of a certificate. The only error is out of memory.
pub fn write_cert(alloc: Global, cert: &Certificate) -> Result<Text, AllocError>
    ensures { IfOk result (λ text. text ≡ cert_text (cert_value cert.now)) }
{
    let mut text = Text::with_capacity(alloc, room_for(cert))?;
    add_version(&mut text, cert.choice.numbers().len(), cert.table.width())?;
    add_head(&mut text, cert)?;
    add_tables(alloc, &mut text, cert)?;
    add_signed_line(&mut text, b"pay", cert.pay.items())?;
    add_rows(&mut text, cert.rows.items())?;
    add_table(&mut text, b"lowered", &cert.lowered)?;
    add_signed_line(&mut text, b"end", &[])?;
    Ok(text)
}

// About how many bytes the text has, and no fewer if no line of a table falls. Only room is taken by it, so that no text is
// copied while it grows.
fn room_for(cert: &Certificate) -> usize {
    let mut room = table_room(&cert.table).saturating_add(table_room(&cert.lowered));
    for part in cert.withouts.items() {
        room = room.saturating_add(table_room(&part.table));
    }
    room.saturating_add(SHORT_LINES)
}

// The room of a table's lines.
fn table_room(table: &Grid) -> usize {
    let mut room: usize = 0;
    for i in 0..table.lines() {
        room = room.saturating_add(line_room(table, i));
    }
    room
}

// The room of a line whose longest number is the first or the last one.
pub(crate) fn line_room(table: &Grid, line: usize) -> usize
    requires { line < length table.now }
{
    let width = table.width();
    if width == 0 {
        return 2;
    }
    let first = number_room(table.entry(line, 0));
    let last = number_room(table.entry(line, width - 1));
    width.saturating_mul(first.max(last)).saturating_add(2)
}

// The room of a number after a space.
fn number_room(number: i128) -> usize {
    let sign = if number < 0 { 1 } else { 0 };
    let digits = match number.unsigned_abs().checked_ilog10() {
        Some(power) => power as usize + 1,
        None => 1,
    };
    1 + sign + digits
}

/// Adds the version, and in the second one the most bidders and states. The only error is out of memory.
pub fn add_version(text: &mut Text, bidders: usize, states: usize) -> Result<(), AllocError>
    ensures { OnOk result (AddsLines text.old text.new (version_lines bidders states)) }
{
    if has_first_version(bidders, states) {
        add_signed_line(text, b"cert", &[1])?;
        return Ok(());
    }
    add_signed_line(text, b"cert", &[2])?;
    add_signed_line(
        text,
        b"limits",
        &[MOST_BIDDERS as i128, MOST_STATES as i128],
    )?;
    Ok(())
}

/// Adds the denominator, the value and the winning choice. The only error is out of memory.
pub fn add_head(text: &mut Text, cert: &Certificate) -> Result<(), AllocError>
    requires { InRange cert.now.den × InRange cert.now.value }
    ensures { OnOk result (AddsLines text.old text.new (lines_of_head cert.now)) }
{
    add_signed_line(text, b"den", &[cert.den])?;
    add_signed_line(text, b"value", &[cert.value])?;
    add_choice(text, &cert.choice)?;
    Ok(())
}

// The table, and the parts without each winner. The text of a line that they share is put together once.
fn add_tables(alloc: Global, text: &mut Text, cert: &Certificate) -> Result<(), AllocError>
    requires table { IsTableInRange cert.now.table }
    requires parts { ArePartsInRange cert.now.withouts }
    ensures { OnOk result
        (AddsLines text.old text.new (lines_of_table (codes "table") cert.now.table ++ lines_of_parts cert.now.withouts)) }
{
    let spelled = spelled_lines(alloc, &cert.table)?;
    add_signed_line(text, b"table", &[])?;
    add_spelled(text, &spelled)?;
    add_parts(text, cert.withouts.items(), &cert.table, &spelled)?;
    Ok(())
}

/// Adds how many rows there are, and the rows. The only error is out of memory.
pub fn add_rows(text: &mut Text, rows: &[CertRow]) -> Result<(), AllocError>
    requires few { length rows.now ≤ 10 }
    requires range { AllByRecursion IsRowInRange rows.now }
    ensures { OnOk result (AddsLines text.old text.new (lines_of_rows rows.now)) }
{
    add_signed_line(text, b"rows", &[rows.len() as i128])?;
    for row in rows {
        add_row(text, row)?;
    }
    Ok(())
}

fn add_row(text: &mut Text, row: &CertRow) -> Result<(), AllocError>
    requires { IsRowInRange row.now }
    ensures { OnOk result (AddsLines text.old text.new (lines_of_row row.now)) }
{
    add_number_line(text, b"row", row.members.items())?;
    add_signed_line(text, b"mult", &[row.first, row.second])?;
    add_choice(text, &row.choice)?;
    Ok(())
}

/// Adds the word of a table and its lines. The only error is out of memory.
pub fn add_table(text: &mut Text, word: &[u8], table: &Grid) -> Result<(), AllocError>
    requires { IsTableInRange table.now }
    ensures { OnOk result (AddsLines text.old text.new (lines_of_table word.now table.now)) }
{
    add_signed_line(text, word, &[])?;
    for i in 0..table.lines() {
        add_table_line(text, table, i)?;
    }
    Ok(())
}

/// Adds a line of a table. The only error is out of memory.
pub(crate) fn add_table_line(text: &mut Text, table: &Grid, line: usize) -> Result<(), AllocError>
    requires line { line < length table.now }
    requires range { AllInRange (slice_index_or table.now line []) }
    ensures { OnOk result (text.new ≡ text.old ++ line_bytes (slice_index_or table.now line [])) }
{
    text.add(b"t")?;
    add_table_fields(text, table, line)?;
    text.push(b'\n')?;
    Ok(())
}

/// Adds the line of a choice. The only error is out of memory.
pub fn add_choice(text: &mut Text, choice: &Choice) -> Result<(), AllocError>
    ensures { OnOk result (AddsLines text.old text.new (choice_line choice.now ∷ [])) }
{
    add_number_line(text, b"choice", choice.numbers())?;
    Ok(())
}

/// Adds a line of a word and numbers with their signs. The only error is out of memory.
pub fn add_signed_line(text: &mut Text, word: &[u8], numbers: &[i128]) -> Result<(), AllocError>
    requires { AllInRange numbers.now }
    ensures { OnOk result (AddsLines text.old text.new (line word.now numbers.now ∷ [])) }
{
    text.add(word)?;
    add_fields(text, numbers)?;
    text.push(b'\n')?;
    Ok(())
}

/// Adds a line of a word and numbers of bidders or bids. The only error is out of memory.
pub fn add_number_line(text: &mut Text, word: &[u8], numbers: &[u16]) -> Result<(), AllocError>
    ensures { OnOk result (AddsLines text.old text.new (line word.now (as_numbers numbers.now) ∷ [])) }
{
    text.add(word)?;
    add_numbers(text, numbers)?;
    text.push(b'\n')?;
    Ok(())
}
