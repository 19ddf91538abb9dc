// Placements in a band, with their prices and their certificates.
ghost use Rattle.std.specs.Prelude.{◌≡◌, ◌<◌, ◌^◌, [], ◌∷◌, Err, IfOk, List, ℕ, length};
ghost use Rattle.std.specs.List.{AllByRecursion};
ghost use Rattle.core_price.specs.Turns.{turns_of};
ghost use Rattle.outcome.specs.Turns.{CanPrintTurn};
ghost use Rattle.placement_cert.specs.CertValues.{place_cert_value};
ghost use Rattle.placement_cert.specs.PlaceSays.{place_text};
ghost use Rattle.placement_check.specs.PlaceTests.{PlacementHolds};
ghost use Rattle.cca_cli.specs.Outcome.{done};
ghost use Rattle.cca_cli.specs.declared.status.FileKind.{FileKind};
ghost use Rattle.cca_commands.specs.Gives.{ArePlacedLines, IsPlaceYes, PlaceGives, PlaceVerdictGives, cert_file};
ghost use Rattle.cca_commands.specs.Works.{IsWork, bare};
ghost use Rattle.cca_cli.specs.declared.status.Status.TheVariants.{Memory};

use crate::price_text::after_rounds;
use crate::pricing::{PriceTexts, with_cert};
use crate::verdict::after_yes;
use crate::work::{Stop, Work};
use cca_cli::{CertKind, Status};
use cert_output::LongText;
use core_price::Turn;
use place_price::{PricedPlaces, place_text, priced_places};
use placement_cert::{PlaceCertificate, write_places};
use placement_check::{Verdict, check_places};
use slot_places::Slots;
use std::alloc::{AllocError, Global};
use wide_num::Text;

// What is printed of a certificate and the turns that led to it, with the lines of the turns if they are asked for.
fn placed_lines(
    alloc: Global,
    slots: &Slots,
    cert: &PlaceCertificate,
    turns: &[Turn],
    rounds: bool,
) -> Result<Text, AllocError>
    requires shape { length cert.now.choice ≡ length slots.now.bidders }
    requires holds { PlacementHolds slots.now (place_cert_value cert.now) }
    requires turns { AllByRecursion (CanPrintTurn cert.now.choice) turns.now }
    ensures { IfOk result
        (λ text. ArePlacedLines slots.now rounds (place_cert_value cert.now)
        (turns_of cert.now.choice turns.now) text) }
{
    slots.kept();
    let prices = place_text(alloc, slots, cert)?;
    after_rounds(alloc, &cert.choice, turns, rounds, &prices)
}

// The text of a certificate of a placement.
fn places_part(alloc: Global, cert: &PlaceCertificate) -> Result<LongText, AllocError>
    ensures { IfOk result (λ text. text ≡ place_text (place_cert_value cert.now)) }
{
    let text = write_places(alloc, cert)?;
    LongText::from_text(alloc, text)
}

// The printed prices of slots that are priced, and the text of their certificate.
fn slot_texts(
    alloc: Global,
    slots: &Slots,
    priced: &PricedPlaces,
    rounds: bool,
) -> Result<PriceTexts, AllocError>
    requires shape { length priced.now.cert.choice ≡ length slots.now.bidders }
    requires holds { PlacementHolds slots.now (place_cert_value priced.now.cert) }
    requires turns { AllByRecursion (CanPrintTurn priced.now.cert.choice) priced.now.turns }
    ensures { IfOk result (λ p. ArePlacedLines slots.now rounds (place_cert_value priced.now.cert)
        (turns_of priced.now.cert.choice priced.now.turns) p.printed
        × (p.cert ≡ place_text (place_cert_value priced.now.cert))) }
{
    let cert = &priced.cert;
    let printed = placed_lines(alloc, slots, cert, priced.turns.items(), rounds)?;
    let cert = places_part(alloc, cert)?;
    Ok(PriceTexts { printed, cert })
}

fn placed_texts(alloc: Global, slots: &Slots, rounds: bool) -> Result<PriceTexts, AllocError>
    ensures { IfOk result (λ p. PlaceGives slots.now rounds (done p.printed (cert_file p.cert ∷ []))) }
{
    let priced = priced_places(alloc, slots)?;
    slot_texts(alloc, slots, &priced, rounds)
}

/// The placement of the bidders of a band with its prices, printed with the lines of the turns if they are asked for, and its
/// certificate.
pub fn placed(alloc: Global, slots: &Slots, rounds: bool) -> Result<Work, Stop>
    ensures { IsWork (PlaceGives slots.now rounds) (FileKind.Cert ∷ []) result }
{
    match placed_texts(alloc, slots, rounds) {
        Ok(texts) => with_cert(alloc, texts),
        Err(error) => Err(Stop::from(error)),
    }
}

fn place_yes(alloc: Global, slots: &Slots, cert: &PlaceCertificate) -> Result<Text, AllocError>
    requires shape { length cert.now.choice ≡ length slots.now.bidders }
    requires holds { PlacementHolds slots.now (place_cert_value cert.now) }
    ensures { IfOk result (λ text. IsPlaceYes slots.now (place_cert_value cert.now) text) }
{
    let prices = place_text(alloc, slots, cert)?;
    after_yes(alloc, &prices)
}

/// What a certificate of a placement gives.
pub fn place_verdict(alloc: Global, slots: &Slots, cert: &PlaceCertificate) -> Result<Work, Stop>
    requires shape { length cert.now.choice ≡ length slots.now.bidders }
    ensures work { IsWork (PlaceVerdictGives slots.now (place_cert_value cert.now)) [] result }
    ensures memory { result ≡ Err (bare Memory) → PlacementHolds slots.now (place_cert_value cert.now) }
{
    match check_places(slots, cert) {
        Verdict::Yes => {
            let printed = place_yes(alloc, slots, cert)?;
            Ok(Work {
                printed,
                appended: Vec::new(alloc),
            })
        }
        Verdict::No { test, place } => Err(Stop::from(Status::No {
            of: CertKind::Placement,
            test,
            place,
        })),
    }
}
