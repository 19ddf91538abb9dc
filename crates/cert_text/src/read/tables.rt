// Tables of a certificate.
ghost use Rattle.std.specs.Prelude.{◌≤◌, ◌∷◌, length, IfOk, IfErr, []};
ghost use Rattle.cert_grammar.specs.Lines.{kind, these, table_plan};
ghost use Rattle.cert_grammar.specs.CertText.{line, table_lines, IsTable};
ghost use Rattle.cert_text.specs.Readers.{Leads, Halts};

use crate::read::fields::{take_signed, take_these};
use crate::{CertStop, Shape};
use choices::Grid;
use std::alloc::Global;

/// A table that was read, and where the next line begins.
#[derive(Drop)]
pub struct TableRead {
    /// The table.
    pub table: Grid,
    /// The byte where the next line begins.
    pub next: usize,
}

/// Reads the line that names a table, and the table: one line more than bidders, each with a number for each state.
///
/// Errors: see [`read_cert`](crate::read_cert).
pub fn take_named(
    alloc: Global,
    bytes: &[u8],
    place: usize,
    word: &[u8],
    shape: Shape,
) -> Result<TableRead, CertStop>
    requires { place ≤ length bytes.now }
    ensures leads { IfOk result
        (λ r. Leads bytes.now place (kind word.now (these []) ∷ table_plan shape.bidders shape.states) r.next []
        (line word.now [] ∷ table_lines r.table)) }
    ensures table { IfOk result (λ r. IsTable shape.bidders shape.states r.table) }
    ensures within { IfOk result (λ r. r.next ≤ length bytes.now) }
    ensures halts { IfErr result
        (Halts bytes.now place (kind word.now (these []) ∷ table_plan shape.bidders shape.states)) }
{
    let next = take_these(alloc, bytes, place, word, &[])?;
    let read = take_table(alloc, bytes, next, shape)?;
    Ok(read)
}

/// Reads the lines of a table: one for each bidder and one more.
fn take_table(
    alloc: Global,
    bytes: &[u8],
    place: usize,
    shape: Shape,
) -> Result<TableRead, CertStop>
    requires { place ≤ length bytes.now }
    ensures leads { IfOk result
        (λ r. Leads bytes.now place (table_plan shape.bidders shape.states) r.next [] (table_lines r.table)) }
    ensures table { IfOk result (λ r. IsTable shape.bidders shape.states r.table) }
    ensures within { IfOk result (λ r. r.next ≤ length bytes.now) }
    ensures halts { IfErr result (Halts bytes.now place (table_plan shape.bidders shape.states)) }
{
    let mut table = Grid::new(alloc);
    let mut next = place;
    for _count in 0..shape.bidders as usize + 1 {
        let line = take_signed(alloc, bytes, next, b"t", shape.states as usize)?;
        table.push_line(line.numbers)?;
        next = line.next;
    }
    Ok(TableRead { table, next })
}
