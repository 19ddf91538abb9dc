// What bids and choices are worth.
ghost use Rattle.std.specs.Prelude.{◌≡◌, ◌*◌, ◌≤◌, ◌<◌, ◌≤ℤ◌, length, pos};
ghost use Rattle.auction_model.specs.Market.{value_of};
ghost use Rattle.limits.specs.declared.TheConstants.{MOST_AMOUNT, MOST_PLACED};
ghost use Rattle.slot_places.specs.Board.{market_of_slots};
ghost use Rattle.slot_places.specs.Slots.{amount_of};

use slot_places::Slots;

/// The amount of bid `i` of bidder `j`, and 0 if it has no such bid.
pub(crate) fn amount(slots: &Slots, j: u16, i: u16) -> i128
    requires { (0 < j) × (j ≤ length slots.now.bidders) }
    ensures amount { result ≡ amount_of slots.now j i }
    ensures least { pos 0 ≤ℤ result }
    ensures most { result ≤ℤ pos MOST_AMOUNT }
{
    slots.kept();
    if i == 0 {
        return 0;
    }
    if i > slots.places(j) {
        return 0;
    }
    let place = slots.place(j, i);
    place.amount as i128
}

/// What a choice is worth, bidder by bidder.
pub(crate) fn worth(slots: &Slots, numbers: &[u16]) -> i128
    requires { length numbers.now ≡ length slots.now.bidders }
    ensures value { result ≡ value_of (market_of_slots slots.now) numbers.now }
    ensures least { pos 0 ≤ℤ result }
    ensures most { result ≤ℤ pos (MOST_PLACED * MOST_AMOUNT) }
{
    let mut sum = 0i128;
    for k in 0..slots.bidders() {
        sum += amount(slots, k as u16 + 1, numbers[k]);
    }
    sum
}
