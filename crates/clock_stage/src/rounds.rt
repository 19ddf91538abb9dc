// Rounds, and the history of the closed ones.
ghost use Rattle.std.specs.Prelude.{◌≡◌, ◌≤◌, ◌∷◌, ◌++◌, [], All, IfOk, List, ℕ, OnErr, OnOk, length, map, replicate, slice_index, slice_index_or, ◌-◌};
ghost use Rattle.limits.specs.declared.TheConstants.{MOST_POINTS, MOST_PRICE};
ghost use Rattle.auction_model.specs.Package.{cost_of};
ghost use Rattle.clock_stage.specs.Kept.{IsHeld, IsHistory, IsRound, bidders_in, categories_in, closed_round};
ghost use Rattle.clock_stage.specs.Rounds.{round_value};

use limits::MOST_CATEGORIES;
use lots::{Package, Supply};
use std::alloc::{AllocError, Global};
use std::marker::Model;
use std::mem;

/// A clock round. It has one price for each category, and for each bidder its eligibility at the start of the round and the
/// package that it holds.
#[derive(Drop)]
pub struct ClockRound {
    pub prices: Vec<u64>,
    pub eligibility: Vec<u64>,
    pub held: Vec<Package>,
}

impl ClockRound {
    /// A copy of the round.
    pub fn copied(&self, alloc: Global) -> Result<ClockRound, AllocError>
        ensures { IfOk result (λ r. round_value r ≡ round_value self.now) }
    {
        let prices = Vec::from_slice(alloc, &self.prices)?;
        let eligibility = Vec::from_slice(alloc, &self.eligibility)?;
        let held = packages_copied(alloc, &self.held)?;
        Ok(ClockRound {
            prices,
            eligibility,
            held,
        })
    }
}

/// A copy of the packages.
fn packages_copied(alloc: Global, packages: &[Package]) -> Result<Vec<Package>, AllocError>
    ensures { IfOk result (λ v. v.items ≡ packages.now) }
{
    let mut copies = Vec::with_capacity(alloc, packages.len())?;
    for package in packages {
        copies.push(package.copied())?;
    }
    Ok(copies)
}

/// The package without a lot.
fn empty_package(supply: &Supply) -> Package
    ensures { result ≡ map (λ n. 0) supply.now }
{
    let counts = [0; MOST_CATEGORIES];
    Package::of_counts(&counts[..supply.categories()])
}

/// That many packages without a lot.
pub fn empty_packages(
    alloc: Global,
    supply: &Supply,
    count: usize,
) -> Result<Vec<Package>, AllocError>
    ensures { IfOk result (λ v. v.items ≡ replicate count (map (λ n. 0) supply.now)) }
{
    let empty = empty_package(supply);
    let mut packages = Vec::with_capacity(alloc, count)?;
    for _ in 0..count {
        packages.push(empty.copied())?;
    }
    Ok(packages)
}

/// The eligibility points of each package.
pub fn points_of(
    alloc: Global,
    points: &[u32],
    packages: &[Package],
) -> Result<Vec<u64>, AllocError>
    requires most { All (λ p. p ≤ MOST_POINTS) points.now }
    requires packages { All (IsHeld (length points.now)) packages.now }
    ensures { IfOk result (λ v. v.items ≡ map (cost_of points.now) packages.now) }
{
    let mut sums = Vec::with_capacity(alloc, packages.len())?;
    for package in packages {
        sums.push(package.points(points))?;
    }
    Ok(sums)
}

/// The closed rounds of a clock, the first one first. Rounds and bidders are numbered from 1.
#[derive(Drop)]
pub struct History {
    rounds: Vec<ClockRound>,
}

impl Model for History {
    ghost use Rattle.std.specs.Prelude.{List};
    ghost use Rattle.auction_rules.specs.State.{Round};
    ghost use Rattle.clock_stage.specs.Kept.{IsHistory};
    ghost use Rattle.clock_stage.specs.Rounds.{round_values};

    ghost Value = { List Round };

    ghost view = { λ h. round_values h.rounds.items };

    ghost invariant = { λ h. IsHistory (round_values h.rounds.items) };
}

impl History {
    /// No round.
    pub(crate) fn new(alloc: Global) -> History
        ensures { result ≡ [] }
    {
        History {
            rounds: Vec::new(alloc),
        }
    }

    /// Closes the posted round: it becomes the last of the history, and `next` is posted in its place. For out of memory
    /// nothing changes.
    pub(crate) fn close(
        &mut self,
        posted: &mut ClockRound,
        next: ClockRound,
    ) -> Result<(), AllocError>
        requires { IsHistory (self.old ++ round_value posted.old ∷ []) }
        ensures closed { OnOk result (self.new ≡ self.old ++ round_value posted.old ∷ []) }
        ensures posted { OnOk result (round_value posted.new ≡ round_value next) }
        ensures unchanged { OnErr result (self.new ≡ self.old) }
        ensures same { OnErr result (posted.new ≡ posted.old) }
    {
        let closed = mem::replace(posted, next);
        match self.rounds.push(closed) {
            Ok(()) => Ok(()),
            Err(refused) => {
                *posted = refused.value;
                Err(AllocError)
            }
        }
    }

    /// How many rounds there are.
    pub fn rounds(&self) -> u32
        ensures rounds { result ≡ length self.now }
        ensures kept { IsHistory self.now }
    {
        self.rounds.len() as u32
    }

    /// Round `r`.
    fn round(&self, r: u32) -> &ClockRound
        requires { (1 ≤ r) × (r ≤ length self.now) }
        ensures round { round_value result.now ≡ closed_round self.now r }
        ensures kept { IsRound (bidders_in self.now) (categories_in self.now) (round_value result.now) }
    {
        &self.rounds[r as usize - 1]
    }

    /// The prices of round `r`.
    pub fn prices(&self, r: u32) -> &[u64]
        requires { (1 ≤ r) × (r ≤ length self.now) }
        ensures prices { result.now ≡ (closed_round self.now r).prices }
        ensures categories { length result.now ≡ categories_in self.now }
        ensures most { All (λ p. p ≤ MOST_PRICE) result.now }
    {
        &self.round(r).prices
    }

    /// The eligibility of bidder `j` at the start of round `r`.
    pub fn eligibility(&self, r: u32, j: u16) -> u64
        requires round { (1 ≤ r) × (r ≤ length self.now) }
        requires bidder { (1 ≤ j) × (j ≤ bidders_in self.now) }
        ensures { result ≡ slice_index (closed_round self.now r).eligibility (j - 1) }
    {
        self.round(r).eligibility[j as usize - 1]
    }

    /// The package of bidder `j` in round `r`, which is empty if it made no bid.
    pub fn package(&self, r: u32, j: u16) -> &Package
        requires round { (1 ≤ r) × (r ≤ length self.now) }
        requires bidder { (1 ≤ j) × (j ≤ bidders_in self.now) }
        ensures package { result.now ≡ slice_index_or (closed_round self.now r).held (j - 1) [] }
        ensures held { IsHeld (categories_in self.now) result.now }
    {
        &self.round(r).held[j as usize - 1]
    }
}
