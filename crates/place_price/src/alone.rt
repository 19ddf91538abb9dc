// The single winners.
ghost use Rattle.std.specs.Prelude.{◌≡◌, ◌≤◌, ◌<◌, ◌++◌, ◌∷◌, [], IfOk, OnOk, IsTrue, length};
ghost use Rattle.auction_model.specs.Market.{uses, value_of};
ghost use Rattle.choices.specs.Singles.{AreSingles, IsSingle};
ghost use Rattle.choices.specs.declared.chooser.Single.{Single};
ghost use Rattle.placement_cert.specs.declared.certificate.PlaceWithout.{PlaceWithout};
ghost use Rattle.place_price.specs.PlacedParts.{ArePartsOf, IsPartOf};
ghost use Rattle.slot_places.specs.Board.{market_of_slots};

use crate::placing::placement;
use choices::{Chooser, Single};
use placement_cert::{PlaceWithout, PlaceWithouts};
use slot_places::SlotChooser;
use std::alloc::{AllocError, Global};

/// The single winners in order, with the parts of the certificate without each of them.
#[derive(Drop)]
pub struct WithoutEach {
    pub singles: Vec<Single>,
    pub parts: PlaceWithouts,
}

/// A single winner, with the part of the certificate without it.
#[derive(Drop)]
struct One {
    single: Single,
    part: PlaceWithout,
}

/// The single winners. The winning choice has the worth `value`.
pub(crate) fn each_winner(
    alloc: Global,
    chooser: &SlotChooser,
    value: i128,
) -> Result<WithoutEach, AllocError>
    requires { value ≡ value_of (market_of_slots chooser.now.slots.now) chooser.now.winners }
    ensures singles { IfOk result
        (λ a. AreSingles (market_of_slots chooser.now.slots.now) chooser.now.winners a.singles.items) }
    ensures parts { IfOk result (λ a. ArePartsOf chooser.now.slots.now a.singles.items a.parts) }
{
    let singles = Vec::new(alloc);
    let parts = PlaceWithouts::new(alloc);
    let mut alone = WithoutEach { singles, parts };
    for k in 0..chooser.slots.bidders() {
        let j = k as u16 + 1;
        if chooser.winners.number(j) != 0 {
            add_winner(alloc, chooser, value, j, &mut alone)?;
        }
    }
    Ok(alone)
}

/// Adds the single winner `j`.
fn add_winner(
    alloc: Global,
    chooser: &SlotChooser,
    value: i128,
    j: u16,
    alone: &mut WithoutEach,
) -> Result<(), AllocError>
    requires value { value ≡ value_of (market_of_slots chooser.now.slots.now) chooser.now.winners }
    requires bidder { (0 < j) × (j ≤ length chooser.now.slots.now.bidders) }
    requires used { IsTrue (uses chooser.now.winners j) }
    ensures { OnOk result
        ((single : Single) × (part : PlaceWithout) × (single.winner ≡ j)
        × IsSingle (market_of_slots chooser.now.slots.now) chooser.now.winners single
        × IsPartOf chooser.now.slots.now single part
        × (alone.new.singles.items ≡ alone.old.singles.items ++ single ∷ [])
        × (alone.new.parts ≡ alone.old.parts ++ part ∷ [])) }
{
    let One { single, part } = without_winner(alloc, chooser, value, j)?;
    alone.singles.push(single)?;
    alone.parts.push(part)?;
    Ok(())
}

/// The single winner `j`. Its price is what the others reach without it, less their worth in
/// the winning choice.
fn without_winner(
    alloc: Global,
    chooser: &SlotChooser,
    value: i128,
    j: u16,
) -> Result<One, AllocError>
    requires value { value ≡ value_of (market_of_slots chooser.now.slots.now) chooser.now.winners }
    requires bidder { (0 < j) × (j ≤ length chooser.now.slots.now.bidders) }
    requires used { IsTrue (uses chooser.now.winners j) }
    ensures winner { IfOk result (λ o. o.single.winner ≡ j) }
    ensures single { IfOk result (λ o. IsSingle (market_of_slots chooser.now.slots.now) chooser.now.winners o.single) }
    ensures part { IfOk result (λ o. IsPartOf chooser.now.slots.now o.single o.part) }
{
    chooser.slots.kept();
    let found = chooser.best_without(alloc, j)?;
    let order = placement(alloc, chooser.slots, &found.choice)?;
    let choice = found.choice.copied(alloc)?;
    let own = chooser.winner_value(j);
    let single = Single {
        winner: j,
        price: found.sum - (value - own),
        choice,
    };
    let part = PlaceWithout {
        winner: j,
        choice: found.choice,
        order,
        table: found.table,
    };
    Ok(One { single, part })
}
