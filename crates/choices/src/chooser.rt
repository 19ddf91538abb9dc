// Choosers.
ghost use Rattle.std.specs.Prelude.{◌≡◌, ◌≤◌, ◌<◌, List, ℕ, ℤ, IfOk};
ghost use Rattle.auction_model.specs.Market.{Market, sum_after, worth_in};
ghost use Rattle.auction_model.specs.Greatest.{IsFirstGreatest, IsWinning};
ghost use Rattle.auction_model.specs.Lawful.{IsMarket};
ghost use Rattle.auction_model.specs.Lowered.{lowered};
ghost use Rattle.choices.specs.Lowering.{CanLower};

use crate::Choice;
use std::alloc::{AllocError, Global};

/// What a search for the greatest lowered sum found.
#[derive(Drop)]
pub struct Found<T> {
    /// The first of the allowed choices of greatest lowered sum.
    pub choice: Choice,
    /// That sum, times the denominator.
    pub sum: i128,
    /// The table of the search.
    pub table: T,
}

/// A single winner.
#[derive(Drop)]
pub struct Single {
    /// The number of the winner.
    pub winner: u16,
    /// Its Vickrey price, net of reserve.
    pub price: i128,
    /// The first of the choices of greatest value that don't use it.
    pub choice: Choice,
}

/// An auction that can be priced: it says which choices are allowed and what each bid of a bidder is worth, and finds the
/// greatest choice for lowered worths. Prices by coalitions need no more of an auction than this. (Day and Raghavan, Fair
/// payments for efficient allocations in public sector combinatorial auctions, Management Science 53, 2007.)
///
/// All it says is of one market: the bidders, the bids of each, the allowed choices and the worths.
pub trait Chooser {
    /// What a search leaves after.
    type Table: Drop;

    /// Its bidders, bids, allowed choices and worths.
    ghost market: { Self → Market };

    /// The winning choice.
    ghost chosen: { Self → List ℕ };

    /// Which tables belong to a denominator and its surpluses.
    ghost is_table: { Self → ℤ → List ℤ → Self.Table → Type 0 };

    /// How many bidders there are.
    fn members(&self) -> usize
        ensures { result ≡ (market self.now).bidders };

    /// The winning choice: the first of the allowed choices of greatest worth.
    fn winners(&self) -> &Choice
        ensures { result.now ≡ chosen self.now };

    /// What the bid that the winning choice gives to bidder `j` is worth, net, and 0 for a loser.
    fn winner_value(&self, j: u16) -> i128
        requires { (0 < j) × (j ≤ (market self.now).bidders) }
        ensures { result ≡ worth_in (market self.now) (chosen self.now) j };

    /// The allowed choice of greatest lowered sum, the first by the order of ties. A bid counts `den` times its worth less
    /// the surplus of its bidder, and a bidder that isn't used counts `max(0, -surplus)`. The surpluses are times `den`.
    fn best_lowered(
        &self,
        alloc: Global,
        den: i128,
        surplus: &[i128],
    ) -> Result<Found<Self::Table>, AllocError>
        requires { CanLower (market self.now) (chosen self.now) den surplus.now }
        ensures choice { IfOk result
            (λ f. IsFirstGreatest (market self.now).allowed
            (sum_after (lowered den (market self.now).worth surplus.now) 0) f.choice) }
        ensures sum { IfOk result
            (λ f. f.sum ≡ sum_after (lowered den (market self.now).worth surplus.now) 0 f.choice) }
        ensures table { IfOk result (λ f. is_table self.now den surplus.now f.table) };

    /// What it says is a market.
    ghost lawful: { (s : Self) → IsMarket (market s) };

    /// The winning choice is the first of the greatest.
    ghost winning: { (s : Self) → IsWinning (market s) (chosen s) };
}
