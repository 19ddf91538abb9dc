// The lines of the bidders and of the winners.
ghost use Rattle.std.specs.Prelude.{◌≡◌, ◌<◌, ◌+◌, ◌*◌, ◌^◌, ◌++◌, ◌∷◌, OnOk, List, ℕ, codes, length};
ghost use Rattle.std.specs.Fmt.{decimal, signed_decimal};
ghost use Rattle.std.specs.List.{AllByRecursion};
ghost use Rattle.auction_model.specs.Lowered.{of_bidder};
ghost use Rattle.auction_model.specs.Market.{number_of};
ghost use Rattle.cert_soundness.specs.Sound.{cert_point};
ghost use Rattle.outcome.specs.Fractions.{IsFractionOf};
ghost use Rattle.print_grammar.specs.Fractions.{IsFractionText};
ghost use Rattle.placement_cert.specs.CertValues.{place_cert_value};
ghost use Rattle.cert_soundness.specs.MarketPrices.{prices_in};
ghost use Rattle.slot_places.specs.Board.{market_of_slots};
ghost use Rattle.slot_places.specs.Slots.{bid_of, bidder_of};
ghost use Rattle.place_price.specs.PlaceText.{ArePricedLines, placed_line, placed_lines};
ghost use Rattle.place_price.specs.PlacePrintable.{CanPrint, IsBidder, IsLineOf, IsRestOf};

use line_format::{add_decimal, add_number, add_signed};
use outcome::{Fraction, add_fraction};
use placement_cert::PlaceCertificate;
use placement_check::vickrey;
use slot_places::Slots;
use std::alloc::AllocError;
use wide_num::Text;

/// Adds the lines of bidders that are laid side by side in this order, the first from this slot on.
pub(crate) fn add_placed(
    text: &mut Text,
    slots: &Slots,
    start: u64,
    order: &[u16],
) -> Result<(), AllocError>
    requires bidders { AllByRecursion (IsBidder slots.now) order.now }
    requires small { start + 65536 * length order.now < 2 ^ 63 }
    ensures { OnOk result (text.new ≡ text.old ++ placed_lines slots.now start order.now) }
{
    match order {
        [] => Ok(()),
        [j, rest @ ..] => {
            add_placed_line(text, slots, start, *j)?;
            add_placed(text, slots, start + slots.width(*j) as u64, rest)
        }
    }
}

// Adds the line of bidder `j`, which is placed from this slot on.
fn add_placed_line(text: &mut Text, slots: &Slots, start: u64, j: u16) -> Result<(), AllocError>
    requires { IsBidder slots.now j }
    ensures { OnOk result (text.new ≡ text.old ++ placed_line slots.now start j) }
{
    text.add(b"placed ")?;
    text.add(slots.name(j).as_bytes())?;
    add_number(text, start)?;
    add_number(text, slots.width(j) as u64)?;
    text.push(b'\n')
}

/// Adds the lines of the winners among bidders with these numbers in the choice, that many others being passed.
pub(crate) fn add_winners(
    text: &mut Text,
    slots: &Slots,
    cert: &PlaceCertificate,
    before: u16,
    numbers: &[u16],
) -> Result<(), AllocError>
    requires can { CanPrint slots.now cert.now }
    requires few { length slots.now.bidders < 2 ^ 15 }
    requires rest { IsRestOf cert.now.choice before numbers.now }
    ensures { OnOk result
        ((lines : List ℕ)
        × ArePricedLines slots.now (prices_in (market_of_slots slots.now) (place_cert_value cert.now).cert)
        (cert_point (place_cert_value cert.now).cert) before numbers.now lines × (text.new ≡ text.old ++ lines)) }
{
    match numbers {
        [] => Ok(()),
        [_, rest @ ..] => {
            add_line_of(text, slots, cert, before + 1)?;
            add_winners(text, slots, cert, before + 1, rest)
        }
    }
}

// Adds the line of bidder `j`, if it wins.
fn add_line_of(
    text: &mut Text,
    slots: &Slots,
    cert: &PlaceCertificate,
    j: u16,
) -> Result<(), AllocError>
    requires can { CanPrint slots.now cert.now }
    requires bidder { IsBidder slots.now j }
    ensures { OnOk result
        ((line : List ℕ)
        × IsLineOf slots.now (prices_in (market_of_slots slots.now) (place_cert_value cert.now).cert)
        (cert_point (place_cert_value cert.now).cert) j (number_of cert.now.choice j) line
        × (text.new ≡ text.old ++ line)) }
{
    if cert.choice.number(j) == 0 {
        return Ok(());
    }
    add_winner(text, slots, cert, j)
}

// Adds the line of winner `j`.
fn add_winner(
    text: &mut Text,
    slots: &Slots,
    cert: &PlaceCertificate,
    j: u16,
) -> Result<(), AllocError>
    requires can { CanPrint slots.now cert.now }
    requires bidder { IsBidder slots.now j }
    requires wins { 0 < number_of cert.now.choice j }
    ensures { OnOk result
        ((line : List ℕ)
        × IsLineOf slots.now (prices_in (market_of_slots slots.now) (place_cert_value cert.now).cert)
        (cert_point (place_cert_value cert.now).cert) j (number_of cert.now.choice j) line
        × (text.new ≡ text.old ++ line)) }
{
    add_bid(text, slots, cert, j)?;
    add_prices(text, slots, cert, j)?;
    Ok(())
}

// Adds the line of winner `j` as far as its bid.
fn add_bid(
    text: &mut Text,
    slots: &Slots,
    cert: &PlaceCertificate,
    j: u16,
) -> Result<(), AllocError>
    requires can { CanPrint slots.now cert.now }
    requires bidder { IsBidder slots.now j }
    requires wins { 0 < number_of cert.now.choice j }
    ensures { OnOk result
        (text.new ≡ text.old ++ codes "winner " ++ (bidder_of slots.now j).name
        ++ (32 ∷ decimal (bid_of slots.now j (number_of cert.now.choice j)).start) ++ codes " bid "
        ++ decimal (bid_of slots.now j (number_of cert.now.choice j)).amount) }
{
    let place = slots.place(j, cert.choice.number(j));
    text.add(b"winner ")?;
    text.add(slots.name(j).as_bytes())?;
    add_number(text, place.start as u64)?;
    text.add(b" bid ")?;
    add_decimal(text, place.amount as u128)?;
    Ok(())
}

// Adds what follows the bid of winner `j`: its Vickrey price and what it pays.
fn add_prices(
    text: &mut Text,
    slots: &Slots,
    cert: &PlaceCertificate,
    j: u16,
) -> Result<(), AllocError>
    requires can { CanPrint slots.now cert.now }
    requires bidder { IsBidder slots.now j }
    requires wins { 0 < number_of cert.now.choice j }
    ensures { OnOk result
        ((pays : List ℕ) × IsFractionText (of_bidder cert.now.pay j) cert.now.den pays
        × (text.new ≡ text.old ++ codes " vickrey "
        ++ signed_decimal (prices_in (market_of_slots slots.now) (place_cert_value cert.now).cert j)
        ++ codes " pays " ++ pays ++ codes "\n")) }
{
    text.add(b" vickrey ")?;
    add_signed(text, vickrey(slots, cert, j))?;
    text.add(b" pays ")?;
    add_fraction(text, payment(slots, cert, j))?;
    text.push(b'\n')?;
    Ok(())
}

// What winner `j` pays.
fn payment(slots: &Slots, cert: &PlaceCertificate, j: u16) -> Fraction
    requires can { CanPrint slots.now cert.now }
    requires bidder { IsBidder slots.now j }
    ensures { IsFractionOf (of_bidder cert.now.pay j) cert.now.den result }
{
    slots.kept();
    let paid = cert.pay.items()[j as usize - 1];
    Fraction::new(paid, cert.den)
}
