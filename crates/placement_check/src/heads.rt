// P1 to P3 and P9: the sizes, the choice, and the tables of the amounts and of the lowered worths.
ghost use Rattle.std.specs.Prelude.{IsTrue, if◌then◌else◌, length, pos, unsigned_abs, ℕ, ◌≡◌, ◌+◌, ◌^◌, ◌<◌, ◌≤◌, ◌*ℤ◌, ◌-ℤ◌, ◌≤ℤ◌, ◌↔◌};
ghost use Rattle.auction_model.specs.Lowered.{of_bidder};
ghost use Rattle.auction_model.specs.Market.{uses, worth_in};
ghost use Rattle.cert_check.specs.Head.{HoldsBefore};
ghost use Rattle.placement_cert.specs.CertValues.{place_cert_value};
ghost use Rattle.placement_check.specs.PlaceTests.{P1, P2, P3, P5, P9};
ghost use Rattle.slot_places.specs.Board.{market_of_slots};
ghost use Rattle.placement_check.specs.Shown.{gain_in, CanLower, HasSmallProducts, IsFor};

use crate::amounts::worth;
use crate::figures::is_one_of;
use crate::offers::TestedBids;
use crate::sums::won;
use crate::tables::table_holds;
use cert_check::sums::amounts::is_equal;
use cert_check::{is_small, sum_paid};
use placement_cert::PlaceCertificate;
use slot_places::{MOST_PLACED, Slots};

/// Whether P1 is true at a place: the denominator, the value, and their product.
pub(crate) fn sizes_hold(cert: &PlaceCertificate, place: usize) -> bool
    requires before { HoldsBefore (P1 (place_cert_value cert.now)) place }
    ensures { IsTrue result ↔ P1 (place_cert_value cert.now) place }
{
    match place {
        1 => cert.den >= 1,
        2 => cert.value >= 0,
        3 => is_small(cert.den, cert.value),
        _ => true,
    }
}

/// Whether P2 is true at a place: a bidder's number, the order, the value.
pub(crate) fn choice_holds(slots: &Slots, cert: &PlaceCertificate, place: usize) -> bool
    requires shape { IsFor slots.now cert.now }
    ensures { IsTrue result ↔ P2 slots.now (place_cert_value cert.now) place }
{
    let bidders = slots.bidders();
    if !is_one_of(place, bidders + 2) {
        return true;
    }
    if place <= bidders {
        return cert.choice.number(place as u16) <= slots.places(place as u16);
    }
    if place == bidders + 1 {
        return slots.allows(cert.order.items(), &cert.choice);
    }
    is_equal(worth(slots, cert.choice.numbers()), cert.value)
}

/// Whether P3 is true at a place: the rules at a set, or what the entry of nobody may be.
pub(crate) fn amounts_hold(slots: &Slots, cert: &PlaceCertificate, place: usize) -> bool
    requires shape { IsFor slots.now cert.now }
    ensures { IsTrue result ↔ P3 slots.now (place_cert_value cert.now) place }
{
    slots.kept();
    let gains = [0i128; MOST_PLACED];
    let offers = TestedBids {
        slots,
        skip: 0,
        den: 1,
        gains: &gains,
    };
    table_holds(&offers, &cert.table, cert.value, place)
}

/// Whether P9 is true at a place: the rules for the lowered worths at a set, or what the entry of nobody may
/// be.
pub(crate) fn lowered_holds(slots: &Slots, cert: &PlaceCertificate, place: usize) -> bool
    requires shape { IsFor slots.now cert.now }
    requires lower { CanLower slots.now (place_cert_value cert.now) }
    ensures { IsTrue result ↔ P9 slots.now (place_cert_value cert.now) place }
{
    slots.kept();
    let mut gains = [0i128; MOST_PLACED];
    put_gains(slots, cert, &mut gains);
    let offers = TestedBids {
        slots,
        skip: 0,
        den: cert.den,
        gains: &gains,
    };
    table_holds(&offers, &cert.lowered, sum_paid(cert.pay.items()), place)
}

/// Writes what each bidder gains at the payments, times the denominator.
fn put_gains(slots: &Slots, cert: &PlaceCertificate, gains: &mut [i128])
    requires shape { IsFor slots.now cert.now }
    requires lower { CanLower slots.now (place_cert_value cert.now) }
    requires room { length slots.now.bidders ≤ length gains.old }
    ensures room { length gains.new ≡ length gains.old }
    ensures gains { (j : ℕ) → 0 < j → j ≤ length slots.now.bidders
        → of_bidder gains.new j ≡ gain_in slots.now (place_cert_value cert.now) j }
{
    for k in 0..slots.bidders() {
        gains[k] = gain(slots, cert, k as u16 + 1);
    }
}

/// What bidder `j` gains at the payments, times the denominator.
fn gain(slots: &Slots, cert: &PlaceCertificate, j: u16) -> i128
    requires shape { IsFor slots.now cert.now }
    requires lower { CanLower slots.now (place_cert_value cert.now) }
    requires bidder { (0 < j) × (j ≤ length slots.now.bidders) }
    ensures { result ≡ gain_in slots.now (place_cert_value cert.now) j }
{
    if cert.choice.number(j) == 0 {
        return 0;
    }
    let pay = cert.pay.items();
    cert.den * won(slots, &cert.choice, j) - pay[j as usize - 1]
}
