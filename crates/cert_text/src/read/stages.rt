// The stages of a certificate's text.
ghost use Rattle.std.specs.Prelude.{◌≡◌, ◌≤◌, length, IfOk, IfErr, [], ◌∷◌, map};
ghost use Rattle.cert_grammar.specs.CertText.{IsChoice, IsTable, AreWithouts, AreRows};
ghost use Rattle.wide_num.specs.Range.{InRange};
ghost use Rattle.line_format.specs.Range.{AllInRange};
ghost use Rattle.cert_text.specs.Parts.{without_value, row_value};
ghost use Rattle.cert_text.specs.StagePlans.{opening_plan, opening_lines, winning_kind, winning_lines, payment_plan, payment_lines, closing_plan, closing_lines};
ghost use Rattle.cert_text.specs.Readers.{Leads, Halts};

use crate::read::fields::{take_choice, take_count, take_signed, take_these};
use crate::read::parts::take_parts;
use crate::read::rows::{take_number, take_rows};
use crate::read::tables::{TableRead, take_named};
use crate::{CertRows, CertStop, Shape, WithoutList};
use choices::{Choice, Grid};
use std::alloc::Global;
use wide_num::NumList;

/// The denominator and the value, and where the next line begins.
#[derive(Clone, Copy)]
pub struct Opening {
    /// The denominator.
    pub den: i128,
    /// The value.
    pub value: i128,
    /// The byte where the next line begins.
    pub next: usize,
}

/// The winning choice with its table, and the same without each winner, and where the next line begins.
#[derive(Drop)]
pub(crate) struct Winning {
    pub(crate) choice: Choice,
    pub(crate) table: Grid,
    pub(crate) withouts: WithoutList,
    pub(crate) next: usize,
}

/// The payments and the rows, and where the next line begins.
#[derive(Drop)]
pub(crate) struct Payments {
    pub(crate) pay: NumList,
    pub(crate) rows: CertRows,
    pub(crate) next: usize,
}

/// Reads the denominator and the value.
///
/// Errors: see [`read_cert`](crate::read_cert).
pub fn take_opening(alloc: Global, bytes: &[u8], place: usize) -> Result<Opening, CertStop>
    requires { place ≤ length bytes.now }
    ensures leads { IfOk result (λ r. Leads bytes.now place opening_plan r.next [] (opening_lines r.den r.value)) }
    ensures range { IfOk result (λ r. InRange r.den × InRange r.value) }
    ensures within { IfOk result (λ r. r.next ≤ length bytes.now) }
    ensures halts { IfErr result (Halts bytes.now place opening_plan) }
{
    let den = take_number(alloc, bytes, place, b"den")?;
    let value = take_number(alloc, bytes, den.next, b"value")?;
    Ok(Opening {
        den: den.number,
        value: value.number,
        next: value.next,
    })
}

/// Reads the winning choice, its table, and the parts without each winner.
pub(crate) fn take_winning(
    alloc: Global,
    bytes: &[u8],
    place: usize,
    shape: Shape,
) -> Result<Winning, CertStop>
    requires { place ≤ length bytes.now }
    ensures leads { IfOk result
        (λ r. Leads bytes.now place (winning_kind shape.bidders shape.states ∷ []) r.next []
        (winning_lines r.choice r.table (map without_value r.withouts))) }
    ensures choice { IfOk result (λ r. IsChoice shape.bidders r.choice) }
    ensures table { IfOk result (λ r. IsTable shape.bidders shape.states r.table) }
    ensures parts { IfOk result
        (λ r. AreWithouts shape.bidders shape.states 1 r.choice (map without_value r.withouts)) }
    ensures within { IfOk result (λ r. r.next ≤ length bytes.now) }
    ensures halts { IfErr result (Halts bytes.now place (winning_kind shape.bidders shape.states ∷ [])) }
{
    let head = take_choice(alloc, bytes, place, shape.bidders)?;
    let table = take_named(alloc, bytes, head.next, b"table", shape)?;
    let parts = take_parts(alloc, bytes, table.next, shape, &head.choice)?;
    Ok(Winning {
        choice: head.choice,
        table: table.table,
        withouts: parts.parts,
        next: parts.next,
    })
}

/// Reads the payments and the rows.
pub(crate) fn take_payments(
    alloc: Global,
    bytes: &[u8],
    place: usize,
    bidders: u16,
) -> Result<Payments, CertStop>
    requires { place ≤ length bytes.now }
    ensures leads { IfOk result
        (λ r. Leads bytes.now place (payment_plan bidders) r.next [] (payment_lines r.pay (map row_value r.rows))) }
    ensures pay { IfOk result (λ r. (length r.pay ≡ bidders) × AllInRange r.pay) }
    ensures few { IfOk result (λ r. length (map row_value r.rows) ≤ 10) }
    ensures rows { IfOk result (λ r. AreRows bidders (map row_value r.rows)) }
    ensures within { IfOk result (λ r. r.next ≤ length bytes.now) }
    ensures halts { IfErr result (Halts bytes.now place (payment_plan bidders)) }
{
    let pay = take_signed(alloc, bytes, place, b"pay", bidders as usize)?;
    let count = take_count(alloc, bytes, pay.next, bidders)?;
    let rows = take_rows(alloc, bytes, count.next, bidders, count.count)?;
    Ok(Payments {
        pay: pay.numbers,
        rows: rows.rows,
        next: rows.next,
    })
}

/// Reads the table of lowered worths and the last line.
///
/// Errors: see [`read_cert`](crate::read_cert).
pub fn take_closing(
    alloc: Global,
    bytes: &[u8],
    place: usize,
    shape: Shape,
) -> Result<TableRead, CertStop>
    requires { place ≤ length bytes.now }
    ensures leads { IfOk result
        (λ r. Leads bytes.now place (closing_plan shape.bidders shape.states) r.next [] (closing_lines r.table)) }
    ensures table { IfOk result (λ r. IsTable shape.bidders shape.states r.table) }
    ensures within { IfOk result (λ r. r.next ≤ length bytes.now) }
    ensures halts { IfErr result (Halts bytes.now place (closing_plan shape.bidders shape.states)) }
{
    let read = take_named(alloc, bytes, place, b"lowered", shape)?;
    let next = take_these(alloc, bytes, read.next, b"end", &[])?;
    Ok(TableRead {
        table: read.table,
        next,
    })
}
