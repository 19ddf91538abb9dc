// What an auction ends with, by the quadratic core-selecting rule: the winners and what they pay, with the distance from the Vickrey
// point as a plain sum of squares. (Day and Cramton, Quadratic core-selecting payment rules for combinatorial auctions, Operations
// Research 60, 2012, with the seller's value at reserve.)
ghost use Rattle.std.specs.Prelude.{◌≡◌, ℕ, ℤ, ◌<◌, ◌≤◌, List};
ghost use Rattle.auction_model.specs.Greatest.{IsWinning};
ghost use Rattle.auction_model.specs.Market.{Market};
ghost use Rattle.auction_model.specs.Prices.{HasLeastSum, IsCoreOutcome, Point};
ghost use Rattle.auction_model.specs.PricingRun.{IsTurnPoint, MeetsBidderRows, BidderRow};
ghost use Rattle.core_laws.specs.Outcome.{IsAuctionOutcome};
ghost use Rattle.core_laws.specs.PlainNearest.{IsPlainNearest};

use auction_model::{core_outcome, weighted_distance};

/// If each bidder weighs 1, the weighted distance is the plain one: the core outcome with these weights, at the winning choice,
/// is the outcome of the auction.
pub fn plain_outcome()
    ensures { (m : Market) (w : ℕ → ℕ) (z : List ℕ) (p : Point) → ((j : ℕ) → 0 < j → j ≤ m.bidders → w j ≡ 1) → IsWinning m z → IsCoreOutcome m w z p → IsAuctionOutcome m z p }
{
    core_outcome();
    weighted_distance();
}

/// If each bidder weighs 1, the point of a turn of a pricing run is the one that the plain distance asks for: of the points of
/// least sum that meet the rows, the nearest to the prices.
pub fn plain_turns()
    ensures plain { (m : Market) (w : ℕ → ℕ) (z : List ℕ) (v : ℕ → ℤ) (rows : List BidderRow) (p : Point)
        → ((j : ℕ) → 0 < j → j ≤ m.bidders → w j ≡ 1)
        → IsTurnPoint m w z v rows p → IsPlainNearest m v (MeetsBidderRows m z rows) p }
    ensures weighed { (m : Market) (w : ℕ → ℕ) (z : List ℕ) (v : ℕ → ℤ) (rows : List BidderRow) (p : Point)
        → ((j : ℕ) → 0 < j → j ≤ m.bidders → w j ≡ 1)
        → MeetsBidderRows m z rows p → HasLeastSum m (MeetsBidderRows m z rows) p → IsPlainNearest m v (MeetsBidderRows m z rows) p
        → IsTurnPoint m w z v rows p }
{
    weighted_distance();
}
