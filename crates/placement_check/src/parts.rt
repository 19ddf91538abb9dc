// P4: the parts without each winner.
ghost use Rattle.std.specs.Prelude.{◌≡◌, ◌<◌, ◌≤◌, ◌↔◌, length, map, IsTrue};
ghost use Rattle.cert_grammar.specs.Certificate.{part_of};
ghost use Rattle.placement_cert.specs.CertValues.{place_cert_value};
ghost use Rattle.placement_cert.specs.Parts.{part_value, part_order};
ghost use Rattle.placement_cert.specs.PlaceText.{HasSets};
ghost use Rattle.cert_grammar.specs.PlaceCert.{order_without};
ghost use Rattle.placement_check.specs.PlaceTests.{IsPlacedPart, ObeysSets, P4};
ghost use Rattle.slot_places.specs.Board.{board_without};
ghost use Rattle.slot_places.specs.Slots.{amount_of};
ghost use Rattle.placement_check.specs.Shown.{IsFor};

use crate::amounts::worth;
use crate::figures::is_one_of;
use crate::offers::TestedBids;
use crate::tables::{is_at_most, obeys_sets};
use placement_cert::{PlaceCertificate, PlaceWithout};
use slot_places::{MOST_PLACED, Slots};

/// Whether P4 is true at a place: the part of a winner shows the best choice without it.
pub(crate) fn part_holds(slots: &Slots, cert: &PlaceCertificate, place: usize) -> bool
    requires shape { IsFor slots.now cert.now }
    ensures { IsTrue result ↔ P4 slots.now (place_cert_value cert.now) place }
{
    if !is_one_of(place, slots.bidders()) {
        return true;
    }
    let j = place as u16;
    if cert.choice.number(j) == 0 {
        return true;
    }
    has_part(slots, cert, j)
}

/// Whether the part without bidder `j` shows the best choice without it.
fn has_part(slots: &Slots, cert: &PlaceCertificate, j: u16) -> bool
    requires shape { IsFor slots.now cert.now }
    requires bidder { (0 < j) × (j ≤ length slots.now.bidders) }
    ensures { IsTrue result
        ↔ IsPlacedPart slots.now j (part_of (map part_value cert.now.withouts) j)
        (order_without (map part_value cert.now.withouts) (map part_order cert.now.withouts) j) }
{
    for part in cert.withouts.items() {
        if part.winner == j {
            return shows_best(slots, part, j);
        }
    }
    false
}

/// Whether a part shows the best choice without bidder `j`.
fn shows_best(slots: &Slots, part: &PlaceWithout, j: u16) -> bool
    requires bidder { (0 < j) × (j ≤ length slots.now.bidders) }
    requires choice { length part.now.choice ≡ length slots.now.bidders }
    requires table { HasSets (length slots.now.bidders) part.now.table }
    ensures { IsTrue result ↔ IsPlacedPart slots.now j (part_value part.now) (part_order part.now) }
{
    if part.choice.number(j) != 0 {
        return false;
    }
    if !slots.allows(part.order.items(), &part.choice) {
        return false;
    }
    if !is_at_most(part.table.entry(0, 0), worth(slots, part.choice.numbers())) {
        return false;
    }
    obeys_without(slots, part, j)
}

/// Whether the table of a part obeys the rules for the amounts if bidder `j` has no bid.
fn obeys_without(slots: &Slots, part: &PlaceWithout, j: u16) -> bool
    requires bidder { (0 < j) × (j ≤ length slots.now.bidders) }
    requires table { HasSets (length slots.now.bidders) part.now.table }
    ensures { IsTrue result ↔ ObeysSets (board_without slots.now j) (amount_of slots.now) part.now.table }
{
    slots.kept();
    let gains = [0i128; MOST_PLACED];
    let offers = TestedBids {
        slots,
        skip: j,
        den: 1,
        gains: &gains,
    };
    obeys_sets(&offers, &part.table)
}
