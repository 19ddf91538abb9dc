// An order with its choice, and tables over sets of bidders.
ghost use Rattle.std.specs.Prelude.{◌≡◌, ◌≤◌, ◌∷◌, ◌^◌, length, codes, IfOk, IfErr, []};
ghost use Rattle.cert_grammar.specs.CertText.{IsChoice, line, table_lines};
ghost use Rattle.cert_grammar.specs.Lines.{kind, set_table_plan, these};
ghost use Rattle.cert_text.specs.Readers.{Leads, Halts};
ghost use Rattle.cert_text.specs.StagePlans.{closing_lines, closing_plan};
ghost use Rattle.limits.specs.declared.TheConstants.{MOST_PLACED};
ghost use Rattle.placement_cert.specs.PlaceReads.{LeadsOrdered, HaltsOrdered};
ghost use Rattle.placement_cert.specs.PlaceText.{HasSets};

use cert_text::{CertStop, Shape, TableRead, take_choice, take_closing, take_each, take_named};
use choices::{Choice, Numbers};
use std::alloc::Global;

/// An order and a choice that were read, and where the next line begins.
#[derive(Drop)]
pub(crate) struct OrderedRead {
    pub(crate) order: Numbers,
    pub(crate) choice: Choice,
    pub(crate) next: usize,
}

/// Reads the line of an order and the line of a choice.
pub(crate) fn take_ordered(
    alloc: Global,
    bytes: &[u8],
    place: usize,
    bidders: u16,
) -> Result<OrderedRead, CertStop>
    requires { place ≤ length bytes.now }
    ensures leads { IfOk result (λ r. LeadsOrdered bytes.now place bidders r.next r.order r.choice) }
    ensures order { IfOk result (λ r. IsChoice bidders r.order) }
    ensures choice { IfOk result (λ r. IsChoice bidders r.choice) }
    ensures within { IfOk result (λ r. r.next ≤ length bytes.now) }
    ensures halts { IfErr result (HaltsOrdered bytes.now place bidders) }
{
    let order = take_each(alloc, bytes, place, b"order", bidders)?;
    let choice = take_choice(alloc, bytes, order.next, bidders)?;
    Ok(OrderedRead {
        order: order.numbers,
        choice: choice.choice,
        next: choice.next,
    })
}

/// Reads the line `table` and the line of a table over sets of bidders.
pub(crate) fn take_table(
    alloc: Global,
    bytes: &[u8],
    place: usize,
    bidders: u16,
) -> Result<TableRead, CertStop>
    requires place { place ≤ length bytes.now }
    requires few { bidders ≤ MOST_PLACED }
    ensures leads { IfOk result (λ r. Leads bytes.now place (kind (codes "table") (these []) ∷ set_table_plan bidders) r.next [] (line (codes "table") [] ∷ table_lines r.table)) }
    ensures table { IfOk result (λ r. HasSets bidders r.table) }
    ensures within { IfOk result (λ r. r.next ≤ length bytes.now) }
    ensures halts { IfErr result (Halts bytes.now place (kind (codes "table") (these []) ∷ set_table_plan bidders)) }
{
    let shape = set_shape(bidders);
    let read = take_named(alloc, bytes, place, b"table", shape)?;
    Ok(read)
}

/// Reads the table of lowered worths and the last line.
pub(crate) fn take_lowered(
    alloc: Global,
    bytes: &[u8],
    place: usize,
    bidders: u16,
) -> Result<TableRead, CertStop>
    requires place { place ≤ length bytes.now }
    requires few { bidders ≤ MOST_PLACED }
    ensures leads { IfOk result
        (λ r. Leads bytes.now place (closing_plan 0 (2 ^ bidders)) r.next [] (closing_lines r.table)) }
    ensures table { IfOk result (λ r. HasSets bidders r.table) }
    ensures within { IfOk result (λ r. r.next ≤ length bytes.now) }
    ensures halts { IfErr result (Halts bytes.now place (closing_plan 0 (2 ^ bidders))) }
{
    let shape = set_shape(bidders);
    let read = take_closing(alloc, bytes, place, shape)?;
    Ok(read)
}

/// The shape of a table over sets of that many bidders: one line, with an entry for each set.
fn set_shape(bidders: u16) -> Shape
    requires { bidders ≤ MOST_PLACED }
    ensures lines { result.bidders ≡ 0 }
    ensures entries { result.states ≡ 2 ^ bidders }
{
    Shape {
        bidders: 0,
        states: set_count(bidders),
    }
}

/// How many sets of that many bidders there are.
fn set_count(bidders: u16) -> u32
    requires { bidders ≤ MOST_PLACED }
    ensures { result ≡ 2 ^ bidders }
{
    match bidders {
        0 => 1,
        1 => 2,
        2 => 4,
        3 => 8,
        4 => 16,
        5 => 32,
        _ => 64,
    }
}
