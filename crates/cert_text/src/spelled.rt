// The texts of a table's lines, which are added again if another table has the same line.
ghost use Rattle.std.specs.Prelude.{◌≡◌, ◌<◌, ◌++◌, [], codes, length, map, slice_index_or, IfOk, IsTrue, OnOk};
ghost use Rattle.std.specs.List.{concat};
ghost use Rattle.line_format.specs.Range.{AllInRange};
ghost use Rattle.cert_text.specs.Written.{line_bytes, lines_of_part, lines_of_parts, lines_of_table, AddsLines, ArePartsInRange, IsTableInRange};

use crate::WithoutPart;
use crate::write::{add_choice, add_number_line, add_signed_line, add_table_line, line_room};
use choices::Grid;
use std::alloc::{AllocError, Global};
use wide_num::Text;

/// The text of each line of a table, with its line feed.
pub(crate) fn spelled_lines(alloc: Global, table: &Grid) -> Result<Vec<Text>, AllocError>
    requires { IsTableInRange table.now }
    ensures { IfOk result (λ v. v.items ≡ map line_bytes table.now) }
{
    let mut lines = Vec::new(alloc);
    for i in 0..table.lines() {
        lines.push(spelled(alloc, table, i)?)?;
    }
    Ok(lines)
}

fn spelled(alloc: Global, table: &Grid, line: usize) -> Result<Text, AllocError>
    requires line { line < length table.now }
    requires range { AllInRange (slice_index_or table.now line []) }
    ensures { IfOk result (λ text. text ≡ line_bytes (slice_index_or table.now line [])) }
{
    let mut text = Text::with_capacity(alloc, line_room(table, line))?;
    add_table_line(&mut text, table, line)?;
    Ok(text)
}

/// Adds the texts of lines one after another.
pub(crate) fn add_spelled(text: &mut Text, spelled: &[Text]) -> Result<(), AllocError>
    ensures { OnOk result (text.new ≡ text.old ++ concat spelled.now) }
{
    for line in spelled {
        text.add(line.items())?;
    }
    Ok(())
}

/// Adds the parts without each winner.
pub(crate) fn add_parts(
    text: &mut Text,
    parts: &[WithoutPart],
    whole: &Grid,
    spelled: &[Text],
) -> Result<(), AllocError>
    requires range { ArePartsInRange parts.now }
    requires spelled { spelled.now ≡ map line_bytes whole.now }
    ensures { OnOk result (AddsLines text.old text.new (lines_of_parts parts.now)) }
{
    for part in parts {
        add_part(text, part, whole, spelled)?;
    }
    Ok(())
}

fn add_part(
    text: &mut Text,
    part: &WithoutPart,
    whole: &Grid,
    spelled: &[Text],
) -> Result<(), AllocError>
    requires range { IsTableInRange part.now.table }
    requires spelled { spelled.now ≡ map line_bytes whole.now }
    ensures { OnOk result (AddsLines text.old text.new (lines_of_part part.now)) }
{
    add_number_line(text, b"without", &[part.winner])?;
    add_choice(text, &part.choice)?;
    add_known_table(text, part, whole, spelled)?;
    Ok(())
}

fn add_known_table(
    text: &mut Text,
    part: &WithoutPart,
    whole: &Grid,
    spelled: &[Text],
) -> Result<(), AllocError>
    requires range { IsTableInRange part.now.table }
    requires spelled { spelled.now ≡ map line_bytes whole.now }
    ensures { OnOk result (AddsLines text.old text.new (lines_of_table (codes "table") part.now.table)) }
{
    add_signed_line(text, b"table", &[])?;
    for i in 0..part.table.lines() {
        let same = same_place(part.winner as usize, i);
        add_known_line(text, &part.table, i, whole, spelled, same)?;
    }
    Ok(())
}

/// The line of the table of all bids that equals this line of the table without a winner. Each line from the winner's
/// own on equals the line of its number. The line before leaves the winner's bids out, so it equals the winner's own.
/// No earlier line is equal.
fn same_place(winner: usize, line: usize) -> usize {
    if line >= winner {
        line
    } else if line + 1 == winner {
        winner
    } else {
        usize::MAX
    }
}

/// Adds a line of a table, by its text if it is this line of the other table.
fn add_known_line(
    text: &mut Text,
    table: &Grid,
    line: usize,
    whole: &Grid,
    spelled: &[Text],
    same: usize,
) -> Result<(), AllocError>
    requires line { line < length table.now }
    requires range { AllInRange (slice_index_or table.now line []) }
    requires spelled { spelled.now ≡ map line_bytes whole.now }
    ensures { OnOk result (text.new ≡ text.old ++ line_bytes (slice_index_or table.now line [])) }
{
    if is_line(whole, same, table, line) {
        text.add(spelled[same].items())?;
        return Ok(());
    }
    add_table_line(text, table, line)?;
    Ok(())
}

/// Whether the whole table is seen to have, as its line `same`, a line of another one.
fn is_line(whole: &Grid, same: usize, table: &Grid, line: usize) -> bool
    requires { line < length table.now }
    ensures inside { IsTrue result → same < length whole.now }
    ensures numbers { IsTrue result → slice_index_or whole.now same [] ≡ slice_index_or table.now line [] }
{
    if same >= whole.lines() {
        return false;
    }
    whole.is_line_of(same, table, line)
}
