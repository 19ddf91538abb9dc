// What is true for the text of placements. It has no code.
ghost use Rattle.std.specs.Prelude.{◌≡◌, ℕ, ◌<◌, ◌≤◌, ◌≤ℤ◌, List, ℤ, length, pos};
ghost use Rattle.auction_model.specs.Prices.{Point, SamePoint};
ghost use Rattle.slot_places.specs.Board.{market_of_slots};
ghost use Rattle.slot_places.specs.Slots.{SlotList};
ghost use Rattle.place_price.specs.PlaceText.{IsPlaceText};

use print_grammar::one_fraction;

/// The text of a placement depends only on the order, the choice, the points and the Vickrey prices. The choice has a number
/// for each bidder.
pub fn one_place_text()
    ensures { (slots : SlotList) (order z : List ℕ) (v w : ℕ → ℤ) (p q : Point) (t u : List ℕ)
        → length z ≡ length slots.bidders → pos 1 ≤ℤ p.den → pos 1 ≤ℤ q.den
        → SamePoint (market_of_slots slots) p q → ((j : ℕ) → 0 < j → j ≤ length slots.bidders → v j ≡ w j)
        → IsPlaceText slots order z v p t → IsPlaceText slots order z w q u → t ≡ u }
{
    one_fraction();
}
