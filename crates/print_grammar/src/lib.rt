//! What is printed of prices and of a pricing run, as definitions, and the laws that each text is the only one.
//!
//! A relation defines the text of a fraction, so the text depends only on the fraction and not on its stored denominator.
#![tactic(auto)]

ghost use Rattle.std.specs.Prelude.{◌≡◌, ℕ, ◌<◌, ◌≤◌, List, Option, Some, None, length, ℤ, pos, ◌*ℤ◌, ◌≤ℤ◌};
ghost use Rattle.auction_model.specs.Book.{Book, market_of};
ghost use Rattle.auction_model.specs.Lawful.{IsMarket};
ghost use Rattle.auction_model.specs.Market.{Market};
ghost use Rattle.auction_model.specs.Prices.{Point, SamePoint};
ghost use Rattle.auction_model.specs.PricingRun.{BidderTurn, IsPricingRun};
ghost use Rattle.print_grammar.specs.Fractions.{IsFractionText};
ghost use Rattle.print_grammar.specs.Json.{IsOutcomeJson};
ghost use Rattle.print_grammar.specs.Prices.{IsPriceText};
ghost use Rattle.print_grammar.specs.Turns.{AreTurnLines};
ghost use Rattle.core_laws.specs.Turns.{IsLastPoint};

use auction_model::vickrey_prices;

/// A fraction has one text, whatever the denominator over which it is kept.
pub fn one_fraction()
    ensures { (n d m e : ℤ) (t u : List ℕ) → pos 1 ≤ℤ d → pos 1 ≤ℤ e → n *ℤ e ≡ m *ℤ d → IsFractionText n d t
        → IsFractionText m e u → t ≡ u }
{}

/// The text of prices depends only on the points and the Vickrey prices. The choice has a number for each bidder.
pub fn one_price_text()
    ensures { (book : Book) (z : List ℕ) (v w : ℕ → ℤ) (p q : Point) (t u : List ℕ)
        → length z ≡ (market_of book).bidders → pos 1 ≤ℤ p.den → pos 1 ≤ℤ q.den
        → SamePoint (market_of book) p q
        → ((j : ℕ) → 0 < j → j ≤ (market_of book).bidders → v j ≡ w j) → IsPriceText book z v p t
        → IsPriceText book z w q u → t ≡ u }
{}

/// The turns of pricing depend only on the market, the weights and the winning choice: all pricing runs have the same lines,
/// and end with the same point.
pub fn one_run_text()
    ensures lines { (m : Market) (w : ℕ → ℕ) (z : List ℕ) (runs others : List BidderTurn) (t u : List ℕ) → IsMarket m
        → IsPricingRun m w z runs → IsPricingRun m w z others
        → AreTurnLines z 0 runs t → AreTurnLines z 0 others u → t ≡ u }
    ensures last_points { (m : Market) (w : ℕ → ℕ) (z : List ℕ) (runs others : List BidderTurn) (p q : Point) → IsMarket m
        → IsPricingRun m w z runs → IsPricingRun m w z others
        → IsLastPoint runs p → IsLastPoint others q → SamePoint m p q }
{
    vickrey_prices();
}

/// An outcome has one JSON text: without turns it depends only on the points and the Vickrey prices, and with the turns of
/// pricing also on the market, the weights and the winning choice.
pub fn one_outcome_json()
    ensures plain { (book : Book) (z : List ℕ) (v w : ℕ → ℤ) (p q : Point) (t u : List ℕ)
        → length z ≡ (market_of book).bidders → pos 1 ≤ℤ p.den → pos 1 ≤ℤ q.den
        → SamePoint (market_of book) p q → ((j : ℕ) → 0 < j → j ≤ (market_of book).bidders → v j ≡ w j)
        → IsOutcomeJson book z v p None t → IsOutcomeJson book z w q None u → t ≡ u }
    ensures rounds { (book : Book) (weights : ℕ → ℕ) (z : List ℕ) (v w : ℕ → ℤ) (p q : Point)
        (runs others : List BidderTurn) (t u : List ℕ) → length z ≡ (market_of book).bidders
        → pos 1 ≤ℤ p.den → pos 1 ≤ℤ q.den → SamePoint (market_of book) p q
        → ((j : ℕ) → 0 < j → j ≤ (market_of book).bidders → v j ≡ w j)
        → IsMarket (market_of book) → IsPricingRun (market_of book) weights z runs
        → IsPricingRun (market_of book) weights z others
        → IsOutcomeJson book z v p (Some runs) t → IsOutcomeJson book z w q (Some others) u → t ≡ u }
{
    vickrey_prices();
}
