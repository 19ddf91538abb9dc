// From a certificate to its text in parts.
ghost use Rattle.std.specs.Prelude.{◌≡◌, ◌∷◌, [], codes, IfOk, OnOk};
ghost use Rattle.cert_text.specs.CertValues.{cert_value};
ghost use Rattle.cert_grammar.specs.CertText.{line, table_lines};
ghost use Rattle.cert_grammar.specs.Says.{cert_text};
ghost use Rattle.cert_text.specs.Written.{bytes_of, lines_of_part, lines_of_parts, AddsLines, ArePartsInRange, IsTableInRange};
ghost use Rattle.cert_output.specs.CertLines.{lines_to_lowered, lines_to_part_table, lines_to_table};

use crate::LongText;
use cert_text::{
    Certificate, WithoutPart, add_choice, add_head, add_number_line, add_rows, add_signed_line,
    add_version, shared_table, write_cert,
};
use choices::Grid;
use std::alloc::{AllocError, Global};
use wide_num::Text;

// The bytes of a text with fewer numbers in its tables are put together at once.
const FEW_NUMBERS: usize = 1 << 13;

/// The one text of a certificate. The only error is out of memory.
pub fn cert_parts(alloc: Global, cert: &Certificate) -> Result<LongText, AllocError>
    ensures { IfOk result (λ text. text ≡ cert_text (cert_value cert.now)) }
{
    if table_numbers(cert) < FEW_NUMBERS {
        return short_cert(alloc, cert);
    }
    long_cert(alloc, cert)
}

// How many numbers the tables have.
fn table_numbers(cert: &Certificate) -> usize {
    let tables = cert.withouts.items().len().saturating_add(2);
    let numbers = cert.table.lines().saturating_mul(cert.table.width());
    tables.saturating_mul(numbers)
}

fn short_cert(alloc: Global, cert: &Certificate) -> Result<LongText, AllocError>
    ensures { IfOk result (λ text. text ≡ cert_text (cert_value cert.now)) }
{
    let text = write_cert(alloc, cert)?;
    let long = LongText::from_text(alloc, text)?;
    Ok(long)
}

// The text of a certificate, with tables that are kept as numbers.
fn long_cert(alloc: Global, cert: &Certificate) -> Result<LongText, AllocError>
    ensures { IfOk result (λ text. text ≡ cert_text (cert_value cert.now)) }
{
    let mut long = LongText::new(alloc);
    add_cert(alloc, &mut long, cert)?;
    Ok(long)
}

// Fills the empty text with the text of a certificate.
fn add_cert(alloc: Global, long: &mut LongText, cert: &Certificate) -> Result<(), AllocError>
    requires { long.old ≡ [] }
    ensures { OnOk result (long.new ≡ cert_text (cert_value cert.now)) }
{
    add_opening(alloc, long, cert)?;
    add_shared(alloc, long, &cert.table)?;
    add_parts(alloc, long, cert.withouts.items())?;
    add_between(alloc, long, cert)?;
    add_shared(alloc, long, &cert.lowered)?;
    add_closing(alloc, long)?;
    Ok(())
}

// The lines up to the table's lines.
fn add_opening(alloc: Global, long: &mut LongText, cert: &Certificate) -> Result<(), AllocError>
    ensures { OnOk result (AddsLines long.old long.new (lines_to_table cert.now)) }
{
    let text = opening_text(alloc, cert)?;
    long.add_text(text)?;
    Ok(())
}

fn opening_text(alloc: Global, cert: &Certificate) -> Result<Text, AllocError>
    ensures { IfOk result (λ text. text ≡ bytes_of (lines_to_table cert.now)) }
{
    let mut text = Text::new(alloc);
    add_version(&mut text, cert.choice.numbers().len(), cert.table.width())?;
    add_head(&mut text, cert)?;
    add_signed_line(&mut text, b"table", &[])?;
    Ok(text)
}

// The lines of a table, which is shared.
fn add_shared(alloc: Global, long: &mut LongText, table: &Grid) -> Result<(), AllocError>
    requires { IsTableInRange table.now }
    ensures { OnOk result (AddsLines long.old long.new (table_lines table.now)) }
{
    let lines = shared_table(alloc, table)?;
    long.add_lines(lines)?;
    Ok(())
}

// The parts without each winner.
fn add_parts(alloc: Global, long: &mut LongText, parts: &[WithoutPart]) -> Result<(), AllocError>
    requires { ArePartsInRange parts.now }
    ensures { OnOk result (AddsLines long.old long.new (lines_of_parts parts.now)) }
{
    for part in parts {
        add_part(alloc, long, part)?;
    }
    Ok(())
}

fn add_part(alloc: Global, long: &mut LongText, part: &WithoutPart) -> Result<(), AllocError>
    requires { IsTableInRange part.now.table }
    ensures { OnOk result (AddsLines long.old long.new (lines_of_part part.now)) }
{
    let text = part_text(alloc, part)?;
    long.add_text(text)?;
    add_shared(alloc, long, &part.table)?;
    Ok(())
}

// The lines of a part up to its table's lines.
fn part_text(alloc: Global, part: &WithoutPart) -> Result<Text, AllocError>
    ensures { IfOk result (λ text. text ≡ bytes_of (lines_to_part_table part.now)) }
{
    let mut text = Text::new(alloc);
    add_number_line(&mut text, b"without", &[part.winner])?;
    add_choice(&mut text, &part.choice)?;
    add_signed_line(&mut text, b"table", &[])?;
    Ok(text)
}

// The lines between the parts and the lowered table's lines.
fn add_between(alloc: Global, long: &mut LongText, cert: &Certificate) -> Result<(), AllocError>
    ensures { OnOk result (AddsLines long.old long.new (lines_to_lowered cert.now)) }
{
    let text = between_text(alloc, cert)?;
    long.add_text(text)?;
    Ok(())
}

fn between_text(alloc: Global, cert: &Certificate) -> Result<Text, AllocError>
    ensures { IfOk result (λ text. text ≡ bytes_of (lines_to_lowered cert.now)) }
{
    let mut text = Text::new(alloc);
    add_signed_line(&mut text, b"pay", cert.pay.items())?;
    add_rows(&mut text, cert.rows.items())?;
    add_signed_line(&mut text, b"lowered", &[])?;
    Ok(text)
}

// The line after the tables.
fn add_closing(alloc: Global, long: &mut LongText) -> Result<(), AllocError>
    ensures { OnOk result (AddsLines long.old long.new (line (codes "end") [] ∷ [])) }
{
    let mut text = Text::new(alloc);
    add_signed_line(&mut text, b"end", &[])?;
    long.add_text(text)?;
    Ok(())
}
