// The rows of a placement certificate.
ghost use Rattle.std.specs.List.{AllByRecursion};
ghost use Rattle.std.specs.Prelude.{◌≡◌, ◌<◌, ◌^◌, IfOk, length, map};
ghost use Rattle.book_price.specs.Made.{row_from};
ghost use Rattle.placement_cert.specs.Parts.{row_value};
ghost use Rattle.place_price.specs.PlacedRows.{HasAllowedChoice, IsPlacedRow};

use crate::placing::placement;
use choices::Choice;
use core_price::{PricedRow, members_of};
use placement_cert::{PlaceRow, PlaceRows};
use slot_places::Slots;
use std::alloc::{AllocError, Global};

/// The rows with their members, multipliers, choices and placements, in order.
pub(crate) fn all_rows(
    alloc: Global,
    slots: &Slots,
    winners: &Choice,
    rows: &[PricedRow],
) -> Result<PlaceRows, AllocError>
    requires winners { length winners.now < 2 ^ 16 }
    requires allowed { AllByRecursion (HasAllowedChoice slots.now) rows.now }
    ensures rows { IfOk result (λ list. map row_value list ≡ map (row_from winners.now) rows.now) }
    ensures placed { IfOk result (λ list. AllByRecursion (IsPlacedRow slots.now) list) }
{
    let mut list = PlaceRows::new(alloc);
    for row in rows {
        list.push(place_row(alloc, slots, winners, row)?)?;
    }
    Ok(list)
}

fn place_row(
    alloc: Global,
    slots: &Slots,
    winners: &Choice,
    row: &PricedRow,
) -> Result<PlaceRow, AllocError>
    requires winners { length winners.now < 2 ^ 16 }
    requires allowed { HasAllowedChoice slots.now row.now }
    ensures row { IfOk result (λ r. row_value r ≡ row_from winners.now row.now) }
    ensures placed { IfOk result (λ r. IsPlacedRow slots.now r) }
{
    let members = members_of(alloc, winners, row.row.members)?;
    let choice = row.choice.copied(alloc)?;
    let order = placement(alloc, slots, &choice)?;
    Ok(PlaceRow {
        members,
        first: row.first,
        second: row.second,
        choice,
        order,
    })
}
