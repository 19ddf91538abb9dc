// P5 to P8: payments, rows and multipliers.
ghost use Rattle.std.specs.Prelude.{IsTrue, length, map, not, pos, unsigned_abs, ◌≡◌, ◌^◌, ◌<◌, ◌≤◌, ◌*ℤ◌, ◌-ℤ◌, ◌↔◌};
ghost use Rattle.auction_model.specs.Lowered.{of_bidder};
ghost use Rattle.auction_model.specs.Market.{uses, value_of, worth_in};
ghost use Rattle.auction_model.specs.Prices.{sum_over};
ghost use Rattle.cert_grammar.specs.Certificate.{is_member, part_of};
ghost use Rattle.cert_soundness.specs.MarketTests.{IsTight, sum_holding, vickrey_in};
ghost use Rattle.placement_cert.specs.CertValues.{place_cert_value};
ghost use Rattle.placement_cert.specs.Parts.{part_value, row_value, row_order, AreRows};
ghost use Rattle.placement_check.specs.PlaceTests.{P5, P6, P7, P8};
ghost use Rattle.slot_places.specs.Board.{market_of_slots};
ghost use Rattle.slot_places.specs.Orders.{allows};
ghost use Rattle.placement_check.specs.Shown.{HasSmallProducts, IsTightPlaced, IsFor, IsRowFor};

use crate::amounts::worth;
use crate::figures::{is_one_of, is_product};
use crate::sums::{sums_over, won, won_beside};
use cert_check::sums::amounts::{is_between, is_equal};
use cert_check::sums::members::{uses_all, uses_none};
use cert_check::sums::paid_by;
use cert_check::{is_first, is_signed};
use placement_cert::{PlaceCertificate, PlaceRow};
use slot_places::Slots;

/// Whether P5 is true at a place: a winner pays no more than it bids, and a loser nothing.
pub(crate) fn payment_holds(slots: &Slots, cert: &PlaceCertificate, place: usize) -> bool
    requires shape { IsFor slots.now cert.now }
    requires small { HasSmallProducts slots.now (place_cert_value cert.now) }
    ensures { IsTrue result ↔ P5 slots.now (place_cert_value cert.now) place }
{
    if !is_one_of(place, slots.bidders()) {
        return true;
    }
    let j = place as u16;
    let pay = cert.pay.items();
    let payment = pay[place - 1];
    if cert.choice.number(j) == 0 {
        return is_equal(payment, 0);
    }
    is_between(0, payment, cert.den * won(slots, &cert.choice, j))
}

/// Whether P6 is true at the place of a row.
pub(crate) fn row_holds(slots: &Slots, cert: &PlaceCertificate, place: usize) -> bool
    requires shape { IsFor slots.now cert.now }
    ensures { IsTrue result ↔ P6 slots.now (place_cert_value cert.now) place }
{
    let rows = cert.rows.items();
    if !is_one_of(place, rows.len()) {
        return true;
    }
    let row = &rows[place - 1];
    is_tight_row(slots, cert, row)
}

/// Whether the members of a row win, its order allows its choice, which uses none of them, and they pay just what it asks of them.
fn is_tight_row(slots: &Slots, cert: &PlaceCertificate, row: &PlaceRow) -> bool
    requires shape { IsFor slots.now cert.now }
    requires row { IsRowFor slots.now row.now }
    ensures { IsTrue result
        ↔ IsTightPlaced slots.now (place_cert_value cert.now).cert (row_value row.now) (row_order row.now) }
{
    let members = row.members.items();
    let winning = cert.choice.numbers();
    if !uses_all(winning, members) {
        return false;
    }
    let choice = row.choice.numbers();
    if !uses_none(choice, members) {
        return false;
    }
    if !slots.allows(row.order.items(), &row.choice) {
        return false;
    }
    pays_just(slots, cert, row)
}

/// Whether the members pay just what the choice of the row asks of them.
fn pays_just(slots: &Slots, cert: &PlaceCertificate, row: &PlaceRow) -> bool
    requires shape { IsFor slots.now cert.now }
    requires row { IsRowFor slots.now row.now }
    ensures { IsTrue result ↔ (sum_over (is_member row.now.members) (of_bidder cert.now.pay) (length slots.now.bidders)
        ≡ cert.now.den
        *ℤ (value_of (market_of_slots slots.now) row.now.choice
        -ℤ sum_over (λ j. not (is_member row.now.members j)) (worth_in (market_of_slots slots.now) cert.now.choice)
        (length slots.now.bidders))) }
{
    let members = row.members.items();
    slots.kept();
    let rest = worth(slots, row.choice.numbers()) - won_beside(slots, &cert.choice, members);
    is_product(paid_by(cert.pay.items(), members), cert.den, rest)
}

/// Whether P7 is true at a place: a row's sign, or a winner's sum.
pub(crate) fn least_holds(slots: &Slots, cert: &PlaceCertificate, place: usize) -> bool
    requires shape { IsFor slots.now cert.now }
    ensures { IsTrue result ↔ P7 slots.now (place_cert_value cert.now) place }
{
    let rows = cert.rows.items();
    let count = rows.len();
    if !is_one_of(place, count + slots.bidders()) {
        return true;
    }
    if place <= count {
        return is_first(rows[place - 1].first);
    }
    is_least(slots, cert, (place - count) as u16)
}

/// Whether the sum of the first multipliers of the rows that contain bidder `j` is the denominator, if it wins.
fn is_least(slots: &Slots, cert: &PlaceCertificate, j: u16) -> bool
    requires shape { IsFor slots.now cert.now }
    requires bidder { (0 < j) × (j ≤ length slots.now.bidders) }
    ensures { IsTrue result
        ↔ (IsTrue (uses cert.now.choice j)
        → sum_holding (map row_value cert.now.rows) j (λ row. row.first) (length (map row_value cert.now.rows))
        ≡ cert.now.den) }
{
    if cert.choice.number(j) == 0 {
        return true;
    }
    slots.kept();
    let sums = sums_over(cert.rows.items());
    is_equal(sums.firsts[j as usize - 1], cert.den)
}

/// Whether P8 is true at a place: a row's sign, or a winner's sum.
pub(crate) fn nearest_holds(slots: &Slots, cert: &PlaceCertificate, place: usize) -> bool
    requires shape { IsFor slots.now cert.now }
    ensures { IsTrue result ↔ P8 slots.now (place_cert_value cert.now) place }
{
    let rows = cert.rows.items();
    let count = rows.len();
    if !is_one_of(place, count + slots.bidders()) {
        return true;
    }
    if place <= count {
        let row = &rows[place - 1];
        return is_signed(row.first, row.second);
    }
    is_nearest(slots, cert, (place - count) as u16)
}

/// Whether what bidder `j` pays above its Vickrey price is the sum of the second multipliers of the rows that contain it, if it
/// wins.
fn is_nearest(slots: &Slots, cert: &PlaceCertificate, j: u16) -> bool
    requires shape { IsFor slots.now cert.now }
    requires bidder { (0 < j) × (j ≤ length slots.now.bidders) }
    ensures { IsTrue result ↔ (IsTrue (uses cert.now.choice j)
        → of_bidder cert.now.pay j
        -ℤ (cert.now.den *ℤ vickrey_in (market_of_slots slots.now) (place_cert_value cert.now).cert j)
        ≡ pos 1 *ℤ sum_holding (map row_value cert.now.rows) j (λ row. row.second)
        (length (map row_value cert.now.rows))) }
{
    if cert.choice.number(j) == 0 {
        return true;
    }
    slots.kept();
    let pay = cert.pay.items();
    let sums = sums_over(cert.rows.items());
    let sum = sums.seconds[j as usize - 1];
    is_product(pay[j as usize - 1] - sum, cert.den, vickrey(slots, cert, j))
}

/// The Vickrey price of winner `j` by its part: the worth of the part's choice, less the value, and the worth of the winner's bid.
pub fn vickrey(slots: &Slots, cert: &PlaceCertificate, j: u16) -> i128
    requires shape { IsFor slots.now cert.now }
    requires bidder { (0 < j) × (j ≤ length slots.now.bidders) }
    ensures { result ≡ vickrey_in (market_of_slots slots.now) (place_cert_value cert.now).cert j }
{
    worth_without(slots, cert, j) - cert.value + won(slots, &cert.choice, j)
}

/// The worth of the choice of the part without bidder `j`, and 0 if there is none.
fn worth_without(slots: &Slots, cert: &PlaceCertificate, j: u16) -> i128
    requires shape { IsFor slots.now cert.now }
    ensures value { result ≡ value_of (market_of_slots slots.now) (part_of (map part_value cert.now.withouts) j).choice }
    ensures size { unsigned_abs result < 2 ^ 120 }
{
    for part in cert.withouts.items() {
        if part.winner == j {
            return worth(slots, part.choice.numbers());
        }
    }
    0
}
