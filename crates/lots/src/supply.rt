// Supplies.
ghost use Rattle.std.specs.Prelude.{◌≡◌, ◌⊎◌, ℕ, ◌+◌, ◌≤◌, ◌<◌, length, IfOk, IfSome, IfNone, IsTrue, IsFalse, None, Ok, Some, slice_index};
ghost use Rattle.auction_model.specs.Package.{is_within, less};
ghost use Rattle.auction_model.specs.Place.{states_of, place_of, left_at, widths_of};
ghost use Rattle.limits.specs.declared.TheConstants.{MOST_STATES};
ghost use Rattle.lots.specs.Limits.{supply_stop, IsSupply};

use crate::counts::check_supply;
use crate::places::{counts_at, place_among, place_less, widths_among};
use crate::{LotStop, Package};
use std::alloc::{AllocError, Global};
use std::marker::Model;

/// What is sold: a count of lots for each of 1 to 6 categories, at most 40 lots and 16,384 states in all. Each state is one
/// remaining supply; its place is its number in mixed radix, the first category weighing most.
#[derive(Drop)]
pub struct Supply {
    counts: Vec<u16>,
    states: usize,
    widths: Vec<usize>,
}

impl Model for Supply {
    ghost use Rattle.std.specs.Prelude.{◌≡◌, List, ℕ};
    ghost use Rattle.auction_model.specs.Place.{states_of, widths_of};
    ghost use Rattle.lots.specs.Limits.{IsSupply};

    ghost Value = { List ℕ };

    ghost view = { λ s. s.counts.items };

    ghost invariant = { λ s. IsSupply s.counts.items × (s.states ≡ states_of s.counts.items)
        × (s.widths.items ≡ widths_of s.counts.items) };
}

impl Supply {
    /// The supply of these counts. It stops at the first rule that they break, in the order of `LotStop`.
    pub fn new(alloc: Global, counts: &[u16]) -> Result<Supply, LotStop>
        ensures made { IfOk result (λ s. (s ≡ counts.now) × (supply_stop counts.now ≡ None)) }
        ensures stopped { (stop : LotStop) → result ≡ Err stop
            → (stop ≡ LotStop.Memory) ⊎ (supply_stop counts.now ≡ Some stop) }
    {
        let states = check_supply(counts)?;
        let widths = widths_among(alloc, counts, states)?;
        let counts = Vec::from_slice(alloc, counts)?;
        Ok(Supply {
            counts,
            states,
            widths,
        })
    }

    /// The rules that each supply keeps, and that the whole supply has the last place. Nothing is done: proofs read the clauses.
    pub fn kept(&self)
        ensures kept { IsSupply self.now }
        ensures last { place_of self.now self.now + 1 ≡ states_of self.now }
    {
        // The rules of a type are known once its field is used.
        let _ = &self.counts;
    }

    /// How many categories there are.
    pub fn categories(&self) -> usize
        ensures count { result ≡ length self.now }
        ensures kept { IsSupply self.now }
    {
        self.counts.len()
    }

    /// The count of a category, counted from 0.
    pub fn units(&self, category: usize) -> u16
        requires { category < length self.now }
        ensures { result ≡ slice_index self.now category }
    {
        self.counts[category]
    }

    /// The counts, category by category.
    pub fn counts(&self) -> &[u16]
        ensures counts { result.now ≡ self.now }
        ensures kept { IsSupply self.now }
    {
        &self.counts
    }

    /// How many places one count of each category spans.
    pub fn widths(&self) -> &[usize]
        ensures { result.now ≡ widths_of self.now }
    {
        &self.widths
    }

    /// How many states there are: the product of the counts, each one more. The whole supply has the last place.
    pub fn states(&self) -> usize
        ensures states { result ≡ states_of self.now }
        ensures last { place_of self.now self.now + 1 ≡ result }
        ensures most { result ≤ MOST_STATES }
    {
        self.states
    }

    /// The place of a package that fits: `package_at` returns the package of this place. The whole supply has the last place,
    /// `states - 1`.
    pub fn place(&self, package: &Package) -> usize
        requires categories { length «package».now ≡ length self.now }
        requires fits { IsTrue (is_within «package».now self.now) }
        ensures place { result ≡ place_of self.now «package».now }
        ensures below { result < states_of self.now }
        ensures package { left_at self.now result ≡ «package».now }
    {
        place_among(&self.counts, package.counts())
    }

    /// The package of a place: its remaining supply. It takes no memory, so it always succeeds.
    pub fn package_at(&self, _alloc: Global, place: usize) -> Result<Package, AllocError>
        requires { place < states_of self.now }
        ensures package { result ≡ Ok (left_at self.now place) }
        ensures fits { IfOk result (λ p. IsTrue (is_within p self.now)) }
        ensures place { IfOk result (λ p. place_of self.now p ≡ place) }
    {
        let counts = counts_at(&self.counts, self.states, place);
        Ok(Package::of_counts(&counts[..self.counts.len()]))
    }

    /// The place of what the package leaves of the supply of a place, or None if the package exceeds that.
    pub fn minus(&self, place: usize, package: &Package) -> Option<usize>
        requires place { place < states_of self.now }
        requires categories { length «package».now ≡ length self.now }
        ensures fits { IfSome result (λ _. IsTrue (is_within «package».now (left_at self.now place))) }
        ensures left { IfSome result (λ p. p ≡ place_of self.now (less (left_at self.now place) «package».now)) }
        ensures below { IfSome result (λ p. p < states_of self.now) }
        ensures exceeds { IfNone result (IsFalse (is_within «package».now (left_at self.now place))) }
    {
        place_less(&self.counts, self.states, place, package.counts())
    }
}
