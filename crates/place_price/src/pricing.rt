// From slots to their prices with their certificate.
ghost use Rattle.std.specs.Prelude.{◌≡◌, IfOk, List, length, ℕ};
ghost use Rattle.std.specs.List.{AllByRecursion};
ghost use Rattle.auction_model.specs.Greatest.{IsWinning};
ghost use Rattle.auction_model.specs.Lowered.{lowered};
ghost use Rattle.auction_model.specs.Market.{value_of};
ghost use Rattle.auction_model.specs.Prices.{alike};
ghost use Rattle.auction_model.specs.PricingRun.{IsPricingRun};
ghost use Rattle.cert_soundness.specs.Sound.{cert_point};
ghost use Rattle.choices.specs.Singles.{AreSingles};
ghost use Rattle.choices.specs.declared.chooser.Single.{Single};
ghost use Rattle.core_price.specs.Priced.{IsPriced};
ghost use Rattle.core_price.specs.Turns.{IsPointOfTurn, turns_of};
ghost use Rattle.core_price.specs.declared.priced.PriceStop.TheVariants.{Memory};
ghost use Rattle.placement_cert.specs.CertValues.{place_cert_value};
ghost use Rattle.placement_check.specs.PlacePriced.{IsPricedPlaceCert};
ghost use Rattle.place_price.specs.Found.{AreFound};
ghost use Rattle.place_price.specs.Ones.{ones};
ghost use Rattle.core_laws.specs.Surplus.{surpluses_of};
ghost use Rattle.core_laws.specs.Turns.{IsLastPoint};
ghost use Rattle.core_laws.specs.Winners.{for_bidders};
ghost use Rattle.slot_places.specs.Board.{board_of, market_of_slots};
ghost use Rattle.slot_places.specs.SetTable.{IsSetTable};
ghost use Rattle.slot_places.specs.Slots.{amount_of};

use crate::alone::each_winner;
use crate::certificate::certificate;
use choices::{Found, Grid, Single};
use core_price::{PriceStop, Priced, TurnList, price};
use placement_cert::{PlaceCertificate, PlaceWithouts};
use slot_places::{SlotChooser, Slots, place_best};
use std::alloc::{AllocError, Global};

/// The prices of slots: the certificate that shows them, and the turns that led to them.
#[derive(Drop)]
pub struct PricedPlaces {
    /// The certificate. Its choice is the winning one with its placement, and its payments are the core outcome.
    pub cert: PlaceCertificate,
    /// All turns of pricing.
    pub turns: TurnList,
}

/// The core-selecting prices of the winners of slots, with the certificate that shows them.
///
/// It passes all nine tests of a placement certificate, its choices are the first of the greatest, its orders their placements,
/// and its tables exact. All bidders weigh 1. The only error is out of memory: no more bidders are in slots than can be priced.
pub fn priced_places(alloc: Global, slots: &Slots) -> Result<PricedPlaces, AllocError>
    ensures shape { IfOk result (λ p. length p.cert.choice ≡ length slots.now.bidders) }
    ensures cert { IfOk result (λ p. IsPricedPlaceCert slots.now (place_cert_value p.cert)) }
    ensures run { IfOk result
        (λ p. IsPricingRun (market_of_slots slots.now) alike p.cert.choice (turns_of p.cert.choice p.turns)) }
    ensures each_turn { IfOk result (λ p. AllByRecursion (IsPointOfTurn p.cert.choice (ones slots.now)) p.turns) }
    ensures last_turn { IfOk result
        (λ p. IsLastPoint (turns_of p.cert.choice p.turns) (cert_point (place_cert_value p.cert).cert)) }
{
    let whole = place_best(alloc, slots)?;
    let found = pricing_of(alloc, slots, &whole)?;
    let priced = certificate(alloc, slots, whole, found.parts, found.priced)?;
    Ok(priced)
}

/// The certificate of the prices of slots that `priced_places` returns. The only error is out of memory.
pub fn price_places(alloc: Global, slots: &Slots) -> Result<PlaceCertificate, AllocError>
    ensures shape { IfOk result (λ c. length c.choice ≡ length slots.now.bidders) }
    ensures cert { IfOk result (λ c. IsPricedPlaceCert slots.now (place_cert_value c)) }
{
    let priced = priced_places(alloc, slots)?;
    Ok(priced.cert)
}

/// The turns of the same pricing, of the winning choice. The only error is out of memory.
pub fn place_rounds(alloc: Global, slots: &Slots) -> Result<TurnList, AllocError>
    ensures { IfOk result
        (λ turns. (z : List ℕ) × IsWinning (market_of_slots slots.now) z
        × IsPricingRun (market_of_slots slots.now) alike z (turns_of z turns)
        × AllByRecursion (IsPointOfTurn z (ones slots.now)) turns) }
{
    let priced = priced_places(alloc, slots)?;
    Ok(priced.turns)
}

/// The parts of the certificate without each winner, and the prices of the winners.
#[derive(Drop)]
struct Pricing {
    parts: PlaceWithouts,
    priced: Priced<Grid>,
}

/// What is found with this winning choice, its worth and its table.
fn pricing_of(alloc: Global, slots: &Slots, whole: &Found<Grid>) -> Result<Pricing, AllocError>
    requires winning { IsWinning (market_of_slots slots.now) whole.now.choice }
    requires value { whole.now.sum ≡ value_of (market_of_slots slots.now) whole.now.choice }
    requires table { IsSetTable (board_of slots.now) (amount_of slots.now) whole.now.table }
    ensures { IfOk result
        (λ p. (singles : List Single) × AreFound slots.now whole.now singles p.parts p.priced) }
{
    let chooser = SlotChooser::new(slots, whole.choice.copied(alloc)?);
    let alone = each_winner(alloc, &chooser, whole.sum)?;
    let priced = priced_alike(alloc, &chooser, &alone.singles)?;
    let parts = alone.parts;
    Ok(Pricing { parts, priced })
}

/// The prices of the winners if all bidders weigh 1. At most six bidders are in slots, so never too many win.
fn priced_alike(
    alloc: Global,
    chooser: &SlotChooser,
    singles: &[Single],
) -> Result<Priced<Grid>, AllocError>
    requires { AreSingles (market_of_slots chooser.now.slots.now) chooser.now.winners singles.now }
    ensures priced { IfOk result
        (λ p. IsPriced (market_of_slots chooser.now.slots.now) chooser.now.winners
        (ones chooser.now.slots.now) singles.now p) }
    ensures table { IfOk result
        (λ p. IsSetTable (board_of chooser.now.slots.now) (lowered p.den (amount_of chooser.now.slots.now)
        (surpluses_of (market_of_slots chooser.now.slots.now) chooser.now.winners p.den
        (for_bidders chooser.now.winners p.at))) p.last.table) }
{
    let weights = vec![in alloc; 1u32; chooser.slots.bidders()]?;
    match price(alloc, chooser, singles, &weights) {
        Ok(priced) => Ok(priced),
        Err(stop) => Err(want_of_memory(stop)),
    }
}

/// A stop when out of memory as an error.
fn want_of_memory(stop: PriceStop) -> AllocError
    requires { stop ≡ Memory }
{
    match stop {
        PriceStop::Memory => AllocError,
        PriceStop::Winners(_) => unreachable!(),
    }
}
