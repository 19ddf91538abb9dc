// The rows of a placement certificate.
ghost use Rattle.std.specs.Prelude.{◌≡◌, ◌≤◌, length, IfOk, IfErr, []};
ghost use Rattle.cert_grammar.specs.CertText.{IsChoice, IsRow};
ghost use Rattle.cert_grammar.specs.Lines.{ordered_rows_plan};
ghost use Rattle.cert_text.specs.Readers.{Leads, Halts};
ghost use Rattle.placement_cert.specs.Parts.{row_value, row_order, AreRows};
ghost use Rattle.placement_cert.specs.PlaceReads.{own_row, row_lines, row_plan};

use crate::read::pieces::take_ordered;
use crate::{PlaceRow, PlaceRows};
use cert_text::{CertStop, take_members, take_pair};
use std::alloc::Global;

/// A row that was read, and where the next line begins.
#[derive(Drop)]
struct RowRead {
    row: PlaceRow,
    next: usize,
}

/// The rows that were read, and where the next line begins.
#[derive(Drop)]
pub(crate) struct RowsRead {
    pub(crate) rows: PlaceRows,
    pub(crate) next: usize,
}

/// Reads that many rows.
pub(crate) fn take_rows(
    alloc: Global,
    bytes: &[u8],
    place: usize,
    bidders: u16,
    count: usize,
) -> Result<RowsRead, CertStop>
    requires { place ≤ length bytes.now }
    ensures leads { IfOk result
        (λ r. Leads bytes.now place (ordered_rows_plan bidders count) r.next [] (row_lines r.rows)) }
    ensures count { IfOk result (λ r. length r.rows ≡ count) }
    ensures rows { IfOk result (λ r. AreRows bidders r.rows) }
    ensures within { IfOk result (λ r. r.next ≤ length bytes.now) }
    ensures halts { IfErr result (Halts bytes.now place (ordered_rows_plan bidders count)) }
{
    let mut rows = PlaceRows::new(alloc);
    let mut next = place;
    for _row in 0..count {
        let read = take_row(alloc, bytes, next, bidders)?;
        rows.push(read.row)?;
        next = read.next;
    }
    Ok(RowsRead { rows, next })
}

/// Reads a row: its members, its multipliers, its order and its choice.
fn take_row(alloc: Global, bytes: &[u8], place: usize, bidders: u16) -> Result<RowRead, CertStop>
    requires { place ≤ length bytes.now }
    ensures leads { IfOk result (λ r. Leads bytes.now place (row_plan bidders) r.next [] (own_row r.row)) }
    ensures row { IfOk result (λ r. IsRow bidders (row_value r.row)) }
    ensures order { IfOk result (λ r. IsChoice bidders (row_order r.row)) }
    ensures within { IfOk result (λ r. r.next ≤ length bytes.now) }
    ensures halts { IfErr result (Halts bytes.now place (row_plan bidders)) }
{
    let members = take_members(alloc, bytes, place, bidders)?;
    let pair = take_pair(alloc, bytes, members.next, b"mult")?;
    let read = take_ordered(alloc, bytes, pair.next, bidders)?;
    Ok(RowRead {
        row: PlaceRow {
            members: members.members,
            first: pair.first,
            second: pair.second,
            choice: read.choice,
            order: read.order,
        },
        next: read.next,
    })
}
