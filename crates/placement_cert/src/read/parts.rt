// The parts of a placement certificate without each winner.
ghost use Rattle.std.specs.Prelude.{◌≡◌, ◌≤◌, length, IfOk, IfErr, [], pos};
ghost use Rattle.cert_grammar.specs.CertText.{as_numbers};
ghost use Rattle.cert_grammar.specs.Lines.{ordered_part_plan, ordered_parts_plan, unless_zero};
ghost use Rattle.cert_text.specs.Readers.{Leads, Halts};
ghost use Rattle.limits.specs.declared.TheConstants.{MOST_PLACED};
ghost use Rattle.placement_cert.specs.Parts.{part_value, part_order, AreParts};
ghost use Rattle.placement_cert.specs.PlaceReads.{own_part, part_lines, AddsPart};
ghost use Rattle.placement_cert.specs.PlaceText.{IsOrderedWithout};

use crate::read::pieces::{take_ordered, take_table};
use crate::{PlaceWithout, PlaceWithouts};
use cert_text::{CertStop, take_winner};
use choices::Choice;
use std::alloc::Global;

/// A part that was read, and where the next line begins.
#[derive(Drop)]
struct PartRead {
    part: PlaceWithout,
    next: usize,
}

/// The parts that were read, and where the next line begins.
#[derive(Drop)]
pub(crate) struct PartsRead {
    pub(crate) parts: PlaceWithouts,
    pub(crate) next: usize,
}

/// Reads a part without each bidder that the choice uses, in order.
pub(crate) fn take_parts(
    alloc: Global,
    bytes: &[u8],
    place: usize,
    bidders: u16,
    choice: &Choice,
) -> Result<PartsRead, CertStop>
    requires place { place ≤ length bytes.now }
    requires few { bidders ≤ MOST_PLACED }
    requires choice { length choice.now ≡ bidders }
    ensures leads { IfOk result
        (λ r. Leads bytes.now place (ordered_parts_plan bidders 1 (as_numbers choice.now)) r.next []
        (part_lines r.parts)) }
    ensures parts { IfOk result (λ r. AreParts bidders 1 choice.now r.parts) }
    ensures within { IfOk result (λ r. r.next ≤ length bytes.now) }
    ensures halts { IfErr result (Halts bytes.now place (ordered_parts_plan bidders 1 (as_numbers choice.now))) }
{
    let numbers = choice.numbers();
    let mut parts = PlaceWithouts::new(alloc);
    let mut next = place;
    for k in 0..numbers.len() {
        let winner = k as u16 + 1;
        next = add_part(alloc, bytes, next, bidders, winner, numbers[k], &mut parts)?;
    }
    Ok(PartsRead { parts, next })
}

/// Reads the part without the bidder, if its number in the choice isn't 0.
fn add_part(
    alloc: Global,
    bytes: &[u8],
    place: usize,
    bidders: u16,
    winner: u16,
    number: u16,
    parts: &mut PlaceWithouts,
) -> Result<usize, CertStop>
    requires place { place ≤ length bytes.now }
    requires few { bidders ≤ MOST_PLACED }
    ensures adds { IfOk result (AddsPart bytes.now place bidders winner number parts.old parts.new) }
    ensures within { IfOk result (λ next. next ≤ length bytes.now) }
    ensures halts { IfErr result (Halts bytes.now place (unless_zero (pos number) (ordered_part_plan bidders winner))) }
{
    if number == 0 {
        return Ok(place);
    }
    let read = take_part(alloc, bytes, place, bidders, winner)?;
    parts.push(read.part)?;
    Ok(read.next)
}

/// Reads the part without the winner.
fn take_part(
    alloc: Global,
    bytes: &[u8],
    place: usize,
    bidders: u16,
    winner: u16,
) -> Result<PartRead, CertStop>
    requires place { place ≤ length bytes.now }
    requires few { bidders ≤ MOST_PLACED }
    ensures leads { IfOk result
        (λ r. Leads bytes.now place (ordered_part_plan bidders winner) r.next [] (own_part r.part)) }
    ensures part { IfOk result (λ r. IsOrderedWithout bidders winner (part_value r.part) (part_order r.part)) }
    ensures within { IfOk result (λ r. r.next ≤ length bytes.now) }
    ensures halts { IfErr result (Halts bytes.now place (ordered_part_plan bidders winner)) }
{
    let next = take_winner(alloc, bytes, place, winner)?;
    let read = take_ordered(alloc, bytes, next, bidders)?;
    let table = take_table(alloc, bytes, read.next, bidders)?;
    Ok(PartRead {
        part: PlaceWithout {
            winner,
            choice: read.choice,
            order: read.order,
            table: table.table,
        },
        next: table.next,
    })
}
