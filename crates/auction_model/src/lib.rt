//! The definitions of a combinatorial auction and their laws, which the contracts of the crates above cite.
//!
//! Each function here is a law: it has no effect, and its contract is true for every market.
#![tactic(auto)]

ghost use Rattle.std.specs.Prelude.{◌≡◌, ℕ, ◌<◌, ◌≤◌, ◌^◌, Bool, List, ℤ, length, pos, ◌*ℤ◌, ◌-ℤ◌, ◌≤ℤ◌};
ghost use Rattle.auction_model.specs.Lowered.{of_bidder};
ghost use Rattle.auction_model.specs.Market.{Market};
ghost use Rattle.auction_model.specs.Greatest.{IsWinning};
ghost use Rattle.auction_model.specs.Lawful.{IsMarket};
ghost use Rattle.auction_model.specs.Book.{Book, bids_of, net_of, market_of};
ghost use Rattle.auction_model.specs.Prices.{Point, IsBlocking, IsUnblocked, IsCorePoint, AreVickreyPrices, SamePoint, IsCoreOutcome, alike, everyone, share, square_distance, sum_over};

/// Every market has one winning choice.
pub fn winning_choice()
    ensures exists { (m : Market) → IsMarket m → (c : List ℕ) × IsWinning m c }
    ensures one { (m : Market) (c d : List ℕ) → IsMarket m → IsWinning m c → IsWinning m d → c ≡ d }
{}

/// At every choice of a market each bidder has one Vickrey price.
pub fn vickrey_prices()
    ensures exist { (m : Market) (z : List ℕ) → IsMarket m → (v : ℕ → ℤ) × AreVickreyPrices m z v }
    ensures one { (m : Market) (z : List ℕ) (v w : ℕ → ℤ) → AreVickreyPrices m z v → AreVickreyPrices m z w → (j : ℕ)
        → 0 < j → j ≤ m.bidders → v j ≡ w j }
{}

/// At the winning choice of a market some point is in the core.
pub fn core_points()
    ensures { (m : Market) (z : List ℕ) → IsMarket m → IsWinning m z → (p : Point) × IsCorePoint m z p }
{}

/// All core outcomes of a choice with the same weights are the same point. Only the bidders' weights matter.
pub fn core_outcome()
    ensures one { (m : Market) (w : ℕ → ℕ) (z : List ℕ) (p q : Point) → IsMarket m → IsCoreOutcome m w z p
        → IsCoreOutcome m w z q → SamePoint m p q }
    ensures weights { (m : Market) (w y : ℕ → ℕ) (z : List ℕ) (p : Point)
        → ((j : ℕ) → 0 < j → j ≤ m.bidders → w j ≡ y j) → IsCoreOutcome m w z p → IsCoreOutcome m y z p }
{}

/// A share times its weight is the same number for all weights of 1 to 20, so each square is in effect divided by the weight.
/// If all weights are 1, the square distance is the sum of the squares times that number.
pub fn weighted_distance()
    ensures share { (n : ℕ) → 1 ≤ n → n ≤ 20 → share n *ℤ pos n ≡ pos 232792560 }
    ensures plain { (m : Market) (v : ℕ → ℤ) (p : Point)
        → square_distance m alike v p
        ≡ pos 232792560
        *ℤ sum_over everyone
        (λ j. (of_bidder p.at j -ℤ (p.den *ℤ v j)) *ℤ (of_bidder p.at j -ℤ (p.den *ℤ v j))) m.bidders }
{}

/// A point is unblocked exactly if no coalition blocks it with any choice.
pub fn blocking_coalitions()
    ensures free { (m : Market) (z : List ℕ) (p : Point) → IsUnblocked m z p → (k : ℕ → Bool) (f : List ℕ)
        → IsBlocking m z p k f → ⊥ }
    ensures none { (m : Market) (z : List ℕ) (p : Point) → ((k : ℕ → Bool) (f : List ℕ) → IsBlocking m z p k f → ⊥)
        → IsUnblocked m z p }
{}

/// A book is a market if none of its net amounts is negative.
pub fn book_market()
    ensures { (book : Book) → length book.bidders < 2 ^ 16
        → ((j i : ℕ) → i ≤ length (bids_of book j) → pos 0 ≤ℤ net_of book j i) → IsMarket (market_of book) }
{}
