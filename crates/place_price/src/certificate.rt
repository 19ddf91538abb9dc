// The certificate of the prices of slots.
ghost use Rattle.std.specs.Prelude.{◌≡◌, ◌<◌, ◌^◌, IfOk, IsTrue, List, length, map};
ghost use Rattle.std.specs.List.{AllByRecursion};
ghost use Rattle.cert_soundness.specs.Sound.{cert_point};
ghost use Rattle.choices.specs.declared.chooser.Single.{Single};
ghost use Rattle.book_price.specs.Made.{row_from};
ghost use Rattle.core_price.specs.Turns.{point_of};
ghost use Rattle.core_laws.specs.Winners;
ghost use Rattle.placement_cert.specs.CertValues.{place_cert_value};
ghost use Rattle.placement_cert.specs.Parts.{row_value};
ghost use Rattle.placement_check.specs.PlacePriced.{IsPricedPlaceCert};
ghost use Rattle.slot_places.specs.Board.{market_of_slots};
ghost use Rattle.slot_places.specs.Orders.{IsPlacement};
ghost use Rattle.place_price.specs.Found.{AreFound};
ghost use Rattle.place_price.specs.PlacedRows.{HasAllowedChoice, IsPlacedRow};

use crate::bidder_rows::all_rows;
use crate::placing::placement;
use crate::pricing::PricedPlaces;
use choices::{Choice, Found, Grid, Numbers};
use core_price::{Priced, for_bidders};
use placement_cert::{PlaceCertificate, PlaceRows, PlaceWithouts};
use slot_places::Slots;
use std::alloc::{AllocError, Global};
use wide_num::NumList;

/// What the certificate has as well as what was found: the placement of its choice, what each bidder pays, and its
/// rows.
#[derive(Drop)]
struct Added {
    order: Numbers,
    pay: NumList,
    rows: PlaceRows,
}

/// The certificate of what was found, with the turns of pricing.
pub(crate) fn certificate(
    alloc: Global,
    slots: &Slots,
    whole: Found<Grid>,
    parts: PlaceWithouts,
    priced: Priced<Grid>,
) -> Result<PricedPlaces, AllocError>
    requires { (singles : List Single) × AreFound slots.now whole singles parts priced }
    ensures choice { IfOk result (λ p. p.cert.choice ≡ whole.choice) }
    ensures point { IfOk result
        (λ p. cert_point (place_cert_value p.cert).cert ≡ point_of whole.choice priced.den priced.at) }
    ensures cert { IfOk result (λ p. IsPricedPlaceCert slots.now (place_cert_value p.cert)) }
    ensures turns { IfOk result (λ p. p.turns ≡ priced.turns) }
{
    slots.kept();
    let added = what_is_added(alloc, slots, &whole.choice, &priced)?;
    let last = priced.last;
    let cert = PlaceCertificate {
        den: priced.den,
        value: whole.sum,
        choice: whole.choice,
        order: added.order,
        table: whole.table,
        withouts: parts,
        pay: added.pay,
        rows: added.rows,
        lowered: last.table,
    };
    Ok(PricedPlaces {
        cert,
        turns: priced.turns,
    })
}

/// What is added to this winning choice and its prices.
fn what_is_added(
    alloc: Global,
    slots: &Slots,
    choice: &Choice,
    priced: &Priced<Grid>,
) -> Result<Added, AllocError>
    requires allowed { IsTrue ((market_of_slots slots.now).allowed choice.now) }
    requires few { length choice.now < 2 ^ 16 }
    requires points { length priced.now.at ≡ Winners.winners_in choice.now }
    requires kept { AllByRecursion (HasAllowedChoice slots.now) priced.now.rows }
    ensures order { IfOk result (λ a. IsPlacement slots.now choice.now a.order) }
    ensures pay { IfOk result (λ a. a.pay ≡ Winners.for_bidders choice.now priced.now.at) }
    ensures rows { IfOk result (λ a. map row_value a.rows ≡ map (row_from choice.now) priced.now.rows) }
    ensures placed { IfOk result (λ a. AllByRecursion (IsPlacedRow slots.now) a.rows) }
{
    let order = placement(alloc, slots, choice)?;
    let pay = NumList::from_vec(for_bidders(alloc, choice, priced.at.items())?);
    let rows = all_rows(alloc, slots, choice, priced.rows.items())?;
    Ok(Added { order, pay, rows })
}
