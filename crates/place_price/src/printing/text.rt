// The whole text of a placement.
ghost use Rattle.std.specs.Prelude.{◌≡◌, ◌++◌, codes, IfOk, OnOk, length, List, ℕ};
ghost use Rattle.auction_model.specs.Prices.{paid};
ghost use Rattle.cert_soundness.specs.Sound.{cert_point};
ghost use Rattle.placement_cert.specs.CertValues.{place_cert_value};
ghost use Rattle.cert_soundness.specs.MarketPrices.{prices_in};
ghost use Rattle.placement_check.specs.PlaceTests.{PlacementHolds};
ghost use Rattle.print_grammar.specs.Fractions.{IsFractionText};
ghost use Rattle.slot_places.specs.Board.{market_of_slots};
ghost use Rattle.place_price.specs.PlaceText.{IsPlaceText, value_line};
ghost use Rattle.place_price.specs.PlacePrintable.{CanPrint};

use crate::printing::lines::{add_placed, add_winners};
use line_format::add_signed;
use outcome::{Fraction, add_fraction};
use placement_cert::PlaceCertificate;
use placement_check::sum_paid;
use slot_places::Slots;
use std::alloc::{AllocError, Global};
use wide_num::Text;

/// The text of the placement and of the prices that a certificate shows if it passes all nine tests: a line for each bidder
/// in the order of the certificate's choice, with its first slot and its width, then one for each winner in the order of the
/// bidders, with its bid, its Vickrey price and what it pays, then the value and the revenue.
///
/// The only error is out of memory.
pub fn place_text(alloc: Global, slots: &Slots, cert: &PlaceCertificate) -> Result<Text, AllocError>
    requires shape { length cert.now.choice ≡ length slots.now.bidders }
    requires holds { PlacementHolds slots.now (place_cert_value cert.now) }
    ensures { IfOk result
        (λ text. IsPlaceText slots.now cert.now.order cert.now.choice
        (prices_in (market_of_slots slots.now) (place_cert_value cert.now).cert)
        (cert_point (place_cert_value cert.now).cert) text) }
{
    printed(alloc, slots, cert)
}

// The printed text of a certificate, from only what the text needs.
fn printed(alloc: Global, slots: &Slots, cert: &PlaceCertificate) -> Result<Text, AllocError>
    requires { CanPrint slots.now cert.now }
    ensures { IfOk result
        (λ text. IsPlaceText slots.now cert.now.order cert.now.choice
        (prices_in (market_of_slots slots.now) (place_cert_value cert.now).cert)
        (cert_point (place_cert_value cert.now).cert) text) }
{
    let mut text = Text::new(alloc);
    slots.kept();
    add_placed(&mut text, slots, 1, cert.order.items())?;
    add_winners(&mut text, slots, cert, 0, cert.choice.numbers())?;
    add_value(&mut text, cert.value)?;
    add_revenue(&mut text, slots, cert)?;
    Ok(text)
}

// Adds the line of the value.
fn add_value(text: &mut Text, value: i128) -> Result<(), AllocError>
    ensures { OnOk result (text.new ≡ text.old ++ value_line value) }
{
    text.add(b"value ")?;
    add_signed(text, value)?;
    text.push(b'\n')
}

// Adds the line of the revenue.
fn add_revenue(text: &mut Text, slots: &Slots, cert: &PlaceCertificate) -> Result<(), AllocError>
    requires { CanPrint slots.now cert.now }
    ensures { OnOk result ((revenue : List ℕ) × IsFractionText (paid (market_of_slots slots.now) (cert_point (place_cert_value cert.now).cert)) cert.now.den revenue × (text.new ≡ text.old ++ codes "revenue " ++ revenue ++ codes "\n")) }
{
    slots.kept();
    let revenue = Fraction::new(sum_paid(cert.pay.items()), cert.den);
    text.add(b"revenue ")?;
    add_fraction(text, revenue)?;
    text.push(b'\n')?;
    Ok(())
}
