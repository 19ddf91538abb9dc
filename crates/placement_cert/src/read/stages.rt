// The stages of a placement certificate's text.
ghost use Rattle.std.specs.Prelude.{◌≡◌, ◌≤◌, length, IfOk, IfErr, []};
ghost use Rattle.cert_grammar.specs.CertText.{IsChoice};
ghost use Rattle.line_format.specs.Range.{AllInRange};
ghost use Rattle.cert_text.specs.Readers.{Leads, Halts};
ghost use Rattle.limits.specs.declared.TheConstants.{MOST_PLACED};
ghost use Rattle.placement_cert.specs.Parts.{AreParts, AreRows};
ghost use Rattle.placement_cert.specs.PlaceReads.{payment_lines, payment_plan, placing_lines, placing_plan};
ghost use Rattle.placement_cert.specs.PlaceText.{HasSets};

use crate::read::parts::take_parts;
use crate::read::pieces::{take_ordered, take_table};
use crate::read::rows::take_rows;
use crate::{PlaceRows, PlaceWithouts};
use cert_text::{CertStop, take_count, take_signed};
use choices::{Choice, Grid, Numbers};
use std::alloc::Global;
use wide_num::NumList;

/// The head's order and choice with its table, and the same without each winner, and where the next line begins.
#[derive(Drop)]
pub(crate) struct Placing {
    pub(crate) order: Numbers,
    pub(crate) choice: Choice,
    pub(crate) table: Grid,
    pub(crate) withouts: PlaceWithouts,
    pub(crate) next: usize,
}

/// The payments and the rows, and where the next line begins.
#[derive(Drop)]
pub(crate) struct Payments {
    pub(crate) pay: NumList,
    pub(crate) rows: PlaceRows,
    pub(crate) next: usize,
}

/// Reads the head's order and choice, its table, and the parts without each winner.
pub(crate) fn take_placing(
    alloc: Global,
    bytes: &[u8],
    place: usize,
    bidders: u16,
) -> Result<Placing, CertStop>
    requires place { place ≤ length bytes.now }
    requires few { bidders ≤ MOST_PLACED }
    ensures leads { IfOk result
        (λ r. Leads bytes.now place (placing_plan bidders) r.next []
        (placing_lines r.order r.choice r.table r.withouts)) }
    ensures order { IfOk result (λ r. IsChoice bidders r.order) }
    ensures choice { IfOk result (λ r. IsChoice bidders r.choice) }
    ensures table { IfOk result (λ r. HasSets bidders r.table) }
    ensures parts { IfOk result (λ r. AreParts bidders 1 r.choice r.withouts) }
    ensures within { IfOk result (λ r. r.next ≤ length bytes.now) }
    ensures halts { IfErr result (Halts bytes.now place (placing_plan bidders)) }
{
    let head = take_ordered(alloc, bytes, place, bidders)?;
    let table = take_table(alloc, bytes, head.next, bidders)?;
    let parts = take_parts(alloc, bytes, table.next, bidders, &head.choice)?;
    Ok(Placing {
        order: head.order,
        choice: head.choice,
        table: table.table,
        withouts: parts.parts,
        next: parts.next,
    })
}

/// Reads the payments and the rows.
pub(crate) fn take_payments(
    alloc: Global,
    bytes: &[u8],
    place: usize,
    bidders: u16,
) -> Result<Payments, CertStop>
    requires { place ≤ length bytes.now }
    ensures leads { IfOk result
        (λ r. Leads bytes.now place (payment_plan bidders) r.next [] (payment_lines r.pay r.rows)) }
    ensures pay { IfOk result (λ r. (length r.pay ≡ bidders) × AllInRange r.pay) }
    ensures few { IfOk result (λ r. length r.rows ≤ 10) }
    ensures rows { IfOk result (λ r. AreRows bidders r.rows) }
    ensures within { IfOk result (λ r. r.next ≤ length bytes.now) }
    ensures halts { IfErr result (Halts bytes.now place (payment_plan bidders)) }
{
    let pay = take_signed(alloc, bytes, place, b"pay", bidders as usize)?;
    let count = take_count(alloc, bytes, pay.next, bidders)?;
    let rows = take_rows(alloc, bytes, count.next, bidders, count.count)?;
    Ok(Payments {
        pay: pay.numbers,
        rows: rows.rows,
        next: rows.next,
    })
}
