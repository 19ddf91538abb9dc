//! Why accepting a placement certificate is sound, and the tests that exact tables over sets pass. It has no code.
ghost use Rattle.std.specs.Prelude.{◌≡◌, ◌<◌, ◌≤◌, ◌^◌, ℕ, IsTrue, IsFalse, List, ℤ, pos, ◌≤ℤ◌, length};
ghost use Rattle.auction_model.specs.Greatest.{IsGreatest, IsGreatestValue};
ghost use Rattle.auction_model.specs.Lowered.{lowered};
ghost use Rattle.auction_model.specs.Market.{sum_after, value_of};
ghost use Rattle.auction_model.specs.Prices.{allowed_without, paid};
ghost use Rattle.auction_model.specs.Table.{entry_at};
ghost use Rattle.core_laws.specs.Surplus.{lowered_sum, surpluses_of};
ghost use Rattle.cert_grammar.specs.Certificate.{CertValue, WithoutValue};
ghost use Rattle.cert_soundness.specs.MarketTests.{PaysWithinBids};
ghost use Rattle.cert_soundness.specs.Sound.{cert_point};
ghost use Rattle.slot_places.specs.Board.{Board, board_of, board_without, market_of_slots};
ghost use Rattle.slot_places.specs.Orders.{allows};
ghost use Rattle.slot_places.specs.SetTable.{holds, IsSetTable};
ghost use Rattle.slot_places.specs.Slots.{SlotList, amount_of};
ghost use Rattle.cert_grammar.specs.PlaceCert.{PlaceCertValue};
ghost use Rattle.placement_check.specs.PlacePriced.{IsBestPlacedPart, IsPricedPlaceCert, IsSamePricing};
ghost use Rattle.placement_check.specs.PlaceSound.{IsPlaceSound};
ghost use Rattle.placement_check.specs.PlaceTests.{ObeysSets, P2, P3, IsPlacedPart, P5, P9, PlacementHolds, FailsFirst};
ghost use Rattle.cert_soundness.specs.MarketPrices.{lowered_in};

/// A placement certificate that passes all tests is sound: its order places its choice, which is one of the greatest, its value
/// is the value of this choice, its parts show the Vickrey prices, and its choice and payments are the core outcome.
///
/// A table over sets that obeys the rules of dynamic programming bounds each allowed choice, whatever the order that allows it
/// (Bellman, The theory of dynamic programming, Bulletin of the American Mathematical Society 60, 1954), and multipliers show a least
/// sum and a least square distance (Kuhn and Tucker, Nonlinear programming, 1951).
pub fn sound_places()
    ensures { (slots : SlotList) (p : PlaceCertValue) → length p.cert.pay ≡ length slots.bidders → PlacementHolds slots p
        → IsPlaceSound slots p }
{}

/// A placement certificate has at most one verdict: all tests pass, or one test fails first at one place, not both.
pub fn one_place_verdict()
    ensures one { (slots : SlotList) (p : PlaceCertValue) (t place u q : ℕ) → FailsFirst slots p t place
        → FailsFirst slots p u q → (t ≡ u) × (place ≡ q) }
    ensures not_both { (slots : SlotList) (p : PlaceCertValue) (t place : ℕ) → PlacementHolds slots p
        → FailsFirst slots p t place → ⊥ }
{}

/// Exact tables over sets obey the rules that the tests ask of a table: the table of the amounts, the table without a bidder's
/// bids, and, if nobody pays more than its bid and losers pay nothing, the table of the worths lowered by each bidder's
/// surplus.
pub fn exact_set_tables()
    ensures plain { (slots : SlotList) (table : List (List ℤ)) → IsSetTable (board_of slots) (amount_of slots) table
        → ObeysSets (board_of slots) (amount_of slots) table }
    ensures without { (slots : SlotList) (j : ℕ) (table : List (List ℤ))
        → IsSetTable (board_without slots j) (amount_of slots) table
        → ObeysSets (board_without slots j) (amount_of slots) table }
    ensures lowered { (slots : SlotList) (c : CertValue) (table : List (List ℤ)) → length c.pay ≡ length slots.bidders
        → ((place : ℕ) → PaysWithinBids (market_of_slots slots) c place)
        → IsSetTable (board_of slots)
        (lowered c.den (amount_of slots) (surpluses_of (market_of_slots slots) c.choice c.den c.pay)) table
        → ObeysSets (board_of slots) (lowered_in (market_of_slots slots) c) table }
{}

/// In a table over sets that obeys the rules no entry is below 0 or above the first, and no bid that can be given right after a set is
/// worth more than the first entry.
pub fn set_sizes()
    ensures entries { (b : Board) (worth : ℕ → ℕ → ℤ) (table : List (List ℤ)) → ObeysSets b worth table → (bits : ℕ)
        → bits < 2 ^ b.bidders
        → (pos 0 ≤ℤ entry_at table 0 bits) × (entry_at table 0 bits ≤ℤ entry_at table 0 0) }
    ensures bids { (b : Board) (worth : ℕ → ℕ → ℤ) (table : List (List ℤ)) → ObeysSets b worth table → (bits j i : ℕ)
        → bits < 2 ^ b.bidders → 0 < j → j ≤ b.bidders
        → IsFalse (holds bits j) → 0 < i → i ≤ b.bids j → IsTrue (b.may (holds bits) j i)
        → worth j i ≤ℤ entry_at table 0 0 }
{}

/// The first entry of an exact table, the empty set's, is the greatest sum of an allowed choice. If a bidder has no bids, it is
/// the greatest sum of an allowed choice that doesn't use this bidder.
pub fn first_entries()
    ensures whole { (slots : SlotList) (counts : ℕ → ℕ → ℤ) (table : List (List ℤ))
        → IsSetTable (board_of slots) counts table
        → IsGreatestValue (market_of_slots slots).allowed (sum_after counts 0) (entry_at table 0 0) }
    ensures without { (slots : SlotList) (j : ℕ) (counts : ℕ → ℕ → ℤ) (table : List (List ℤ)) → 0 < j
        → IsSetTable (board_without slots j) counts table
        → IsGreatestValue (allowed_without (market_of_slots slots) j) (sum_after counts 0) (entry_at table 0 0) }
{}

/// Choices that are greatest, with exact tables, pass the tests of tables: the head's choice with its order, value and table
/// the second and the third, a best part its part of the fourth, and the exact table of the worths lowered by what each bidder
/// gains the ninth, if no allowed choice counts more by these than all that is paid.
pub fn exact_tests()
    ensures head { (slots : SlotList) (p : PlaceCertValue)
        → IsGreatest (market_of_slots slots).allowed (value_of (market_of_slots slots)) p.cert.choice
        → IsTrue (allows slots p.order p.cert.choice)
        → value_of (market_of_slots slots) p.cert.choice ≡ p.cert.value
        → IsSetTable (board_of slots) (amount_of slots) p.cert.table → (place : ℕ)
        → P2 slots p place × P3 slots p place }
    ensures part { (slots : SlotList) (j : ℕ) (part : WithoutValue) (order : List ℕ) → 0 < j
        → IsBestPlacedPart slots j part order → IsPlacedPart slots j part order }
    ensures lowered { (slots : SlotList) (p : PlaceCertValue) → length p.cert.pay ≡ length slots.bidders
        → ((place : ℕ) → P5 slots p place)
        → IsSetTable (board_of slots)
        (lowered p.cert.den (amount_of slots)
        (surpluses_of (market_of_slots slots) p.cert.choice p.cert.den p.cert.pay)) p.cert.lowered
        → ((f : List ℕ) → IsTrue ((market_of_slots slots).allowed f)
        → lowered_sum (market_of_slots slots) p.cert.choice (cert_point p.cert) f
        ≤ℤ paid (market_of_slots slots) (cert_point p.cert))
        → (place : ℕ) → P9 slots p place }
{}

/// Pricing writes one placement certificate of slots, as far as it isn't free: all that are exact and first agree in their choices, their
/// placements, their value and their tables of the amounts, and their payments are the same point. The denominator, the rows, their
/// multipliers, and with the denominator the last table, may differ.
pub fn one_pricing()
    ensures { (slots : SlotList) (p q : PlaceCertValue) → length slots.bidders < 2 ^ 16 → IsPricedPlaceCert slots p
        → IsPricedPlaceCert slots q → IsSamePricing slots p q }
{}
