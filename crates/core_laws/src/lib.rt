//! Blocks at a point, rows of winners as sets of bits, and what an auction ends with: their definitions and laws. It has no code.
//!
//! A pricing turn looks for the coalition that blocks a point most. It lowers the worths of the bids by what each bidder gains
//! at the point, its surplus, and looks for the choice of greatest lowered sum. The laws say that this sum, less what all
//! bidders pay, is the greatest excess of any choice over any set of winners that it doesn't use. The greatest such set, with
//! its bound from the choice, is the row of the next turn. (Day and Raghavan, Fair payments for efficient allocations in public
//! sector combinatorial auctions, Management Science 53, 2007; Day and Cramton, Quadratic core-selecting payment rules for
//! combinatorial auctions, Operations Research 60, 2012.)
#![tactic(auto)]

mod plain;

ghost use Rattle.std.specs.Prelude.{◌≡◌, ◌≢◌, ℕ, ◌<◌, ◌≤◌, Bool, IsTrue, List, ℤ, pos, ◌≤ℤ◌, ◌-ℤ◌, ◌<ℤ◌, length};
ghost use Rattle.auction_model.specs.Market.{Market};
ghost use Rattle.auction_model.specs.Greatest.{IsFirstGreatest, IsWinning};
ghost use Rattle.auction_model.specs.Lawful.{IsMarket};
ghost use Rattle.auction_model.specs.Lowered.{of_bidder};
ghost use Rattle.auction_model.specs.Prices.{Point, paid, sum_over, IsUnblocked, IsCorePoint};
ghost use Rattle.auction_model.specs.Blocks.{row_bound, IsTakenBlock};
ghost use Rattle.far_num.specs.Members.{holds};
ghost use Rattle.far_num.specs.declared.Row.{Row};
ghost use Rattle.wide_num.specs.Sums.{dot, nth};
ghost use Rattle.core_laws.specs.Winners.{winners_in, for_bidders, for_winners, has_member, bits_after, idle_row};
ghost use Rattle.core_laws.specs.Surplus.{lowered_sum, AsksWinnersOnly};
ghost use Rattle.core_laws.specs.Rows.{HasWinners, IsGivenBy, Meets};

pub use plain::{plain_outcome, plain_turns};

/// The first choice of greatest lowered sum is the block that a turn takes, with the winners that it doesn't use and that
/// pay no more than their bid. Its excess is what the sum is above all payments.
pub fn taken_block()
    ensures { (m : Market) (z : List ℕ) (p : Point) (f : List ℕ) → IsMarket m → AsksWinnersOnly m z p
        → IsFirstGreatest m.allowed (lowered_sum m z p) f
        → IsTakenBlock m z p f (idle_row m z p f) (lowered_sum m z p f -ℤ paid m p) }
{}

/// A point is unblocked exactly if the greatest lowered sum is at most what all bidders pay. At the winning choice it is never
/// less.
pub fn unblocked_points()
    ensures free { (m : Market) (z : List ℕ) (p : Point) (f : List ℕ) → IsMarket m → AsksWinnersOnly m z p
        → IsFirstGreatest m.allowed (lowered_sum m z p) f
        → lowered_sum m z p f ≤ℤ paid m p → IsUnblocked m z p }
    ensures only { (m : Market) (z : List ℕ) (p : Point) (f : List ℕ) → IsMarket m → AsksWinnersOnly m z p
        → IsFirstGreatest m.allowed (lowered_sum m z p) f
        → IsUnblocked m z p → lowered_sum m z p f ≤ℤ paid m p }
    ensures least { (m : Market) (z : List ℕ) (p : Point) (f : List ℕ) → IsMarket m → AsksWinnersOnly m z p
        → IsFirstGreatest m.allowed (lowered_sum m z p) f
        → IsWinning m z → paid m p ≤ℤ lowered_sum m z p f }
{}

/// The bits of a set of winners stand for that set, and what a row asks of the winners it asks of the bidders.
pub fn rows_as_bits()
    ensures members { (m : Market) (z : List ℕ) (p : Point) (f : List ℕ) (j : ℕ) → 0 < j
        → has_member z (bits_after z (idle_row m z p f) 0) j ≡ idle_row m z p f j }
    ensures sums { (z : List ℕ) (at : List ℤ) (bits : ℕ)
        → sum_over (has_member z bits) (of_bidder (for_bidders z at)) (length z)
        ≡ dot (winners_in z) (holds bits) (nth at) }
{}

/// A block with an excess has a member. Its choice determines its row: no choice that uses no member leads to a greater bound
/// for the set. No row that the point meets has the same members, so no row comes twice. Each core point meets each such row.
pub fn rows_of_blocks()
    ensures some { (m : Market) (z : List ℕ) (p : Point) (f : List ℕ) (members : ℕ → Bool) (excess : ℤ) → IsMarket m
        → IsWinning m z → pos 1 ≤ℤ p.den
        → IsTakenBlock m z p f members excess → pos 0 <ℤ excess → (j : ℕ) × (0 < j) × (j ≤ m.bidders)
        × IsTrue (members j) }
    ensures given { (m : Market) (z : List ℕ) (p : Point) (f : List ℕ) (row : Row) (excess : ℤ) → pos 1 ≤ℤ p.den
        → IsTakenBlock m z p f (has_member z row.members) excess → HasWinners z row.members
        → row.bound ≡ row_bound m z (has_member z row.members) f → IsGivenBy m z row f }
    ensures new { (m : Market) (z : List ℕ) (den : ℤ) (at : List ℤ) (bits : ℕ) (old : Row) (c f : List ℕ) (excess : ℤ)
        → length z ≡ m.bidders → pos 1 ≤ℤ den → IsGivenBy m z old c → Meets z old den at
        → IsTakenBlock m z (record { den = den; at = for_bidders z at }) f (has_member z bits) excess
        → pos 0 <ℤ excess → bits ≢ old.members }
    ensures met { (m : Market) (z : List ℕ) (q : Point) (row : Row) (c : List ℕ) → IsMarket m → length z ≡ m.bidders
        → IsCorePoint m z q → IsGivenBy m z row c → Meets z row q.den (for_winners z q.at) }
{}
