// Packages and bids.
ghost use Rattle.std.specs.Prelude.{◌≡◌, ℕ, ◌≤◌, ◌<◌, [], length, All, IfNone, IfOk, IfSome, None, Some, slice_index, take};
ghost use Rattle.auction_model.specs.Package.{is_within, cost_of};
ghost use Rattle.auction_model.specs.PackageTests.{first_over};
ghost use Rattle.limits.specs.declared.TheConstants.{MOST_CATEGORIES, MOST_COUNT, MOST_POINTS, MOST_PRICE};
ghost use Rattle.lots.specs.Limits.{categories_stop, IsPackage};

use crate::counts::{
    are_within, check_categories, cost_among, first_above, have_none, points_among,
};
use crate::{LotStop, Supply};
use limits::{MOST_CATEGORIES, MOST_COUNT};
use std::alloc::Global;
use std::marker::Model;

/// A count of lots for each of 1 to 6 categories. It contains them inline, so it takes no memory.
#[derive(Drop)]
pub struct Package {
    /// The counts, category by category, and then unused ones.
    counts: [u16; MOST_CATEGORIES],
    categories: u8,
}

impl Model for Package {
    ghost use Rattle.std.specs.Prelude.{◌≡◌, ◌≤◌, ◌<◌, List, ℕ, length, take};
    ghost use Rattle.limits.specs.declared.TheConstants.{MOST_CATEGORIES};

    ghost Value = { List ℕ };

    ghost view = { λ p. take p.categories p.counts };

    ghost invariant = { λ p. (0 < p.categories) × (p.categories ≤ MOST_CATEGORIES) × (length p.counts ≡ MOST_CATEGORIES) };
}

/// A package with an amount, reserve included.
#[derive(Drop)]
pub struct Bid {
    pub package: Package,
    pub amount: u64,
}

impl Package {
    /// The package of these counts. It stops at a number of categories that isn't 1 to 6. It takes no memory.
    pub fn new(_alloc: Global, counts: &[u16]) -> Result<Package, LotStop>
        ensures made { IfOk result (λ p. (p ≡ counts.now) × (categories_stop counts.now ≡ None)) }
        ensures stopped { (stop : LotStop) → result ≡ Err stop → categories_stop counts.now ≡ Some stop }
    {
        check_categories(counts)?;
        Ok(Package::of_counts(counts))
    }

    /// The package of these 1 to 6 counts, or None if one is above 999.
    pub fn from_numbers(numbers: &[u64]) -> Option<Package>
        requires { IsPackage numbers.now }
        ensures made { IfSome result (λ p. p ≡ numbers.now) }
        ensures above { IfNone result ((i : ℕ) × (i < length numbers.now) × (MOST_COUNT < slice_index numbers.now i)) }
    {
        let mut counts = [0; MOST_CATEGORIES];
        for i in 0..numbers.len() {
            if numbers[i] > MOST_COUNT {
                return None;
            }
            counts[i] = numbers[i] as u16;
        }
        Some(Package {
            counts,
            categories: numbers.len() as u8,
        })
    }

    /// The package of these counts. It can't fail: the caller knows that there are 1 to 6.
    pub fn of_counts(counts: &[u16]) -> Package
        requires { IsPackage counts.now }
        ensures { result ≡ counts.now }
    {
        Package {
            counts: padded(counts),
            categories: counts.len() as u8,
        }
    }

    /// A copy of the package.
    pub fn copied(&self) -> Package
        ensures { result ≡ self.now }
    {
        Package {
            counts: self.counts,
            categories: self.categories,
        }
    }

    /// Takes over the counts of another package of as many categories. It takes no memory.
    pub fn copy_from(&mut self, other: &Package)
        requires { length self.old ≡ length other.now }
        ensures { self.new ≡ other.now }
    {
        self.counts = other.counts;
        self.categories = other.categories;
    }

    /// How many categories there are.
    pub fn categories(&self) -> usize
        ensures count { result ≡ length self.now }
        ensures kept { IsPackage self.now }
    {
        self.categories as usize
    }

    /// The count of a category, counted from 0.
    pub fn units(&self, category: usize) -> u16
        requires { category < length self.now }
        ensures { result ≡ slice_index self.now category }
    {
        self.counts()[category]
    }

    /// The counts, category by category.
    pub fn counts(&self) -> &[u16]
        ensures { result.now ≡ self.now }
    {
        self.held()
    }

    /// The counts, with the invariant of the type.
    fn held(&self) -> &[u16]
        ensures value { result.now ≡ self.now }
        ensures kept { IsPackage self.now }
    {
        &self.counts[..self.categories as usize]
    }

    /// Whether all counts are 0.
    pub fn is_empty(&self) -> bool
        ensures { result ≡ is_within self.now [] }
    {
        have_none(self.held())
    }

    /// The eligibility points of the package: the sum of points times count.
    pub fn points(&self, points: &[u32]) -> u64
        requires categories { length points.now ≡ length self.now }
        requires most { All (λ p. p ≤ MOST_POINTS) points.now }
        ensures { result ≡ cost_of points.now self.now }
    {
        points_among(points, self.held())
    }

    /// The price of the package: the sum of price times count.
    pub fn cost(&self, prices: &[u64]) -> u64
        requires categories { length prices.now ≡ length self.now }
        requires most { All (λ p. p ≤ MOST_PRICE) prices.now }
        ensures { result ≡ cost_of prices.now self.now }
    {
        cost_among(prices, self.held())
    }

    /// Whether no count is above the supply's.
    pub fn fits(&self, supply: &Supply) -> bool
        requires { length self.now ≡ length supply.now }
        ensures { result ≡ is_within self.now supply.now }
    {
        are_within(self.held(), supply.counts())
    }

    /// The first category, counted from 1, whose count is above the supply's.
    pub fn first_over(&self, supply: &Supply) -> Option<u16>
        requires { length self.now ≡ length supply.now }
        ensures { result ≡ first_over 1 self.now supply.now }
    {
        first_above(self.held(), supply.counts())
    }
}

/// The counts, and zeros after them.
fn padded(counts: &[u16]) -> [u16; MOST_CATEGORIES]
    requires { length counts.now ≤ MOST_CATEGORIES }
    ensures { take (length counts.now) result ≡ counts.now }
{
    let mut all = [0; MOST_CATEGORIES];
    all[..counts.len()].copy_from_slice(counts);
    all
}
