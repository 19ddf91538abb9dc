// The parts of a certificate without each winner.
ghost use Rattle.std.specs.Prelude.{◌≡◌, ◌≤◌, ◌∷◌, length, IfOk, IfErr, [], map, pos};
ghost use Rattle.cert_grammar.specs.Lines.{part_plan, parts_plan, unless_zero};
ghost use Rattle.cert_grammar.specs.CertText.{as_numbers, part_lines, IsWithout, AreWithouts};
ghost use Rattle.cert_text.specs.Parts.{without_value};
ghost use Rattle.cert_text.specs.PartReads.{without_kind, without_line, own_lines, AddsPart};
ghost use Rattle.cert_text.specs.Readers.{Leads, Halts};

use crate::read::fields::{take_choice, take_these};
use crate::read::tables::take_named;
use crate::{CertStop, Shape, WithoutList, WithoutPart};
use choices::Choice;
use std::alloc::Global;

/// A part that was read, and where the next line begins.
#[derive(Drop)]
struct PartRead {
    part: WithoutPart,
    next: usize,
}

/// The parts that were read, and where the next line begins.
#[derive(Drop)]
pub(crate) struct PartsRead {
    pub(crate) parts: WithoutList,
    pub(crate) next: usize,
}

/// Reads a part without each bidder that the choice uses, in order.
pub(crate) fn take_parts(
    alloc: Global,
    bytes: &[u8],
    place: usize,
    shape: Shape,
    choice: &Choice,
) -> Result<PartsRead, CertStop>
    requires place { place ≤ length bytes.now }
    requires choice { length choice.now ≡ shape.bidders }
    ensures leads { IfOk result
        (λ r. Leads bytes.now place (parts_plan shape.bidders shape.states 1 (as_numbers choice.now)) r.next []
        (part_lines (map without_value r.parts))) }
    ensures parts { IfOk result (λ r. AreWithouts shape.bidders shape.states 1 choice.now (map without_value r.parts)) }
    ensures within { IfOk result (λ r. r.next ≤ length bytes.now) }
    ensures halts { IfErr result
        (Halts bytes.now place (parts_plan shape.bidders shape.states 1 (as_numbers choice.now))) }
{
    let numbers = choice.numbers();
    let mut parts = WithoutList::new(alloc);
    let mut next = place;
    for k in 0..numbers.len() {
        next = add_part(
            alloc,
            bytes,
            next,
            shape,
            k as u16 + 1,
            numbers[k],
            &mut parts,
        )?;
    }
    Ok(PartsRead { parts, next })
}

/// Reads the part without the bidder, if its number in the choice isn't 0.
fn add_part(
    alloc: Global,
    bytes: &[u8],
    place: usize,
    shape: Shape,
    winner: u16,
    number: u16,
    parts: &mut WithoutList,
) -> Result<usize, CertStop>
    requires { place ≤ length bytes.now }
    ensures adds { IfOk result (AddsPart bytes.now place shape.bidders shape.states winner number parts.old parts.new) }
    ensures within { IfOk result (λ next. next ≤ length bytes.now) }
    ensures halts { IfErr result
        (Halts bytes.now place (unless_zero (pos number) (part_plan shape.bidders shape.states winner))) }
{
    if number == 0 {
        return Ok(place);
    }
    let read = take_part(alloc, bytes, place, shape, winner)?;
    parts.push(read.part)?;
    Ok(read.next)
}

/// Reads the part without the winner.
fn take_part(
    alloc: Global,
    bytes: &[u8],
    place: usize,
    shape: Shape,
    winner: u16,
) -> Result<PartRead, CertStop>
    requires { place ≤ length bytes.now }
    ensures leads { IfOk result
        (λ r. Leads bytes.now place (part_plan shape.bidders shape.states winner) r.next []
        (own_lines (without_value r.part))) }
    ensures part { IfOk result (λ r. IsWithout shape.bidders shape.states winner (without_value r.part)) }
    ensures within { IfOk result (λ r. r.next ≤ length bytes.now) }
    ensures halts { IfErr result (Halts bytes.now place (part_plan shape.bidders shape.states winner)) }
{
    let next = take_winner(alloc, bytes, place, winner)?;
    let read = take_choice(alloc, bytes, next, shape.bidders)?;
    let table = take_named(alloc, bytes, read.next, b"table", shape)?;
    Ok(PartRead {
        part: WithoutPart {
            winner,
            choice: read.choice,
            table: table.table,
        },
        next: table.next,
    })
}

/// Reads the line that begins the part without the winner. Returns the place of the next
/// line.
///
/// Errors: see [`read_cert`](crate::read_cert).
pub fn take_winner(
    alloc: Global,
    bytes: &[u8],
    place: usize,
    winner: u16,
) -> Result<usize, CertStop>
    requires { place ≤ length bytes.now }
    ensures leads { IfOk result
        (λ next. Leads bytes.now place (without_kind winner ∷ []) next [] (without_line winner ∷ [])) }
    ensures within { IfOk result (λ next. next ≤ length bytes.now) }
    ensures halts { IfErr result (Halts bytes.now place (without_kind winner ∷ [])) }
{
    take_these(alloc, bytes, place, b"without", &[winner as i128])
}
