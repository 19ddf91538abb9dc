// The rows of a certificate.
ghost use Rattle.std.specs.Prelude.{◌≡◌, ◌≤◌, ◌∷◌, length, IfOk, IfErr, [], map};
ghost use Rattle.cert_grammar.specs.Lines.{kind, signed, rows_plan};
ghost use Rattle.cert_grammar.specs.CertText.{line, row_lines, IsRow, AreRows};
ghost use Rattle.wide_num.specs.Range.{InRange};
ghost use Rattle.cert_text.specs.Parts.{row_value};
ghost use Rattle.cert_text.specs.PartReads.{row_plan, own_row};
ghost use Rattle.cert_text.specs.Readers.{Leads, Halts};

use crate::read::fields::{take_choice, take_members, take_signed};
use crate::{CertRow, CertRows, CertStop};
use std::alloc::Global;

/// One number that was read, and where the next line begins.
#[derive(Clone, Copy)]
pub(crate) struct NumberRead {
    pub(crate) number: i128,
    pub(crate) next: usize,
}

/// Two numbers that were read, and where the next line begins.
#[derive(Clone, Copy)]
pub struct PairRead {
    /// The first number.
    pub first: i128,
    /// The second number.
    pub second: i128,
    /// The byte where the next line begins.
    pub next: usize,
}

/// A row that was read, and where the next line begins.
#[derive(Drop)]
struct RowRead {
    row: CertRow,
    next: usize,
}

/// The rows that were read, and where the next line begins.
#[derive(Drop)]
pub(crate) struct RowsRead {
    pub(crate) rows: CertRows,
    pub(crate) next: usize,
}

/// Reads that many rows.
pub(crate) fn take_rows(
    alloc: Global,
    bytes: &[u8],
    place: usize,
    bidders: u16,
    count: usize,
) -> Result<RowsRead, CertStop>
    requires { place ≤ length bytes.now }
    ensures leads { IfOk result
        (λ r. Leads bytes.now place (rows_plan bidders count) r.next [] (row_lines (map row_value r.rows))) }
    ensures count { IfOk result (λ r. length (map row_value r.rows) ≡ count) }
    ensures rows { IfOk result (λ r. AreRows bidders (map row_value r.rows)) }
    ensures within { IfOk result (λ r. r.next ≤ length bytes.now) }
    ensures halts { IfErr result (Halts bytes.now place (rows_plan bidders count)) }
{
    let mut rows = CertRows::new(alloc);
    let mut next = place;
    for _row in 0..count {
        let read = take_row(alloc, bytes, next, bidders)?;
        rows.push(read.row)?;
        next = read.next;
    }
    Ok(RowsRead { rows, next })
}

/// Reads a row: its members, its multipliers and its choice.
fn take_row(alloc: Global, bytes: &[u8], place: usize, bidders: u16) -> Result<RowRead, CertStop>
    requires { place ≤ length bytes.now }
    ensures leads { IfOk result (λ r. Leads bytes.now place (row_plan bidders) r.next [] (own_row (row_value r.row))) }
    ensures row { IfOk result (λ r. IsRow bidders (row_value r.row)) }
    ensures within { IfOk result (λ r. r.next ≤ length bytes.now) }
    ensures halts { IfErr result (Halts bytes.now place (row_plan bidders)) }
{
    let members = take_members(alloc, bytes, place, bidders)?;
    let pair = take_pair(alloc, bytes, members.next, b"mult")?;
    let choice = take_choice(alloc, bytes, pair.next, bidders)?;
    Ok(RowRead {
        row: CertRow {
            members: members.members,
            first: pair.first,
            second: pair.second,
            choice: choice.choice,
        },
        next: choice.next,
    })
}

/// Reads a line of the word and one signed number.
pub(crate) fn take_number(
    alloc: Global,
    bytes: &[u8],
    place: usize,
    word: &[u8],
) -> Result<NumberRead, CertStop>
    requires { place ≤ length bytes.now }
    ensures leads { IfOk result
        (λ r. Leads bytes.now place (kind word.now (signed 1) ∷ []) r.next []
        (line word.now (r.number ∷ []) ∷ [])) }
    ensures range { IfOk result (λ r. InRange r.number) }
    ensures within { IfOk result (λ r. r.next ≤ length bytes.now) }
    ensures halts { IfErr result (Halts bytes.now place (kind word.now (signed 1) ∷ [])) }
{
    let read = take_signed(alloc, bytes, place, word, 1)?;
    let numbers = read.numbers.items();
    Ok(NumberRead {
        number: numbers[0],
        next: read.next,
    })
}

/// Reads a line of the word and two signed numbers.
///
/// Errors: see [`read_cert`](crate::read_cert).
pub fn take_pair(
    alloc: Global,
    bytes: &[u8],
    place: usize,
    word: &[u8],
) -> Result<PairRead, CertStop>
    requires { place ≤ length bytes.now }
    ensures leads { IfOk result
        (λ r. Leads bytes.now place (kind word.now (signed 2) ∷ []) r.next []
        (line word.now (r.first ∷ r.second ∷ []) ∷ [])) }
    ensures range { IfOk result (λ r. InRange r.first × InRange r.second) }
    ensures within { IfOk result (λ r. r.next ≤ length bytes.now) }
    ensures halts { IfErr result (Halts bytes.now place (kind word.now (signed 2) ∷ [])) }
{
    let read = take_signed(alloc, bytes, place, word, 2)?;
    let numbers = read.numbers.items();
    Ok(PairRead {
        first: numbers[0],
        second: numbers[1],
        next: read.next,
    })
}
