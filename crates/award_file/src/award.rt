// Awards, and the calls that read them.
ghost use Rattle.std.specs.Prelude.{◌≡◌, ℕ, ◌≤◌, ◌<◌, length, option_map};
ghost use Rattle.limits.specs.declared.TheConstants.{MOST_BIDDERS, MOST_ELIGIBILITY};
ghost use Rattle.auction_rules.specs.Terms.{broken_cap, entrant, final_cap};
ghost use Rattle.award_file.specs.Award.{IsAward, number_of, steps_of, terms_with};
ghost use Rattle.award_file.specs.Fields.{fault_value, cap_values};

use crate::caps::{CapFault, SpectrumCap, first_exceeded};
use crate::entrants::Entrants;
use crate::steps::StepTable;
use lots::{Package, Supply};
use std::marker::Model;

/// The settings of an award. Bidders are numbered from 1, in the order of the award.
#[derive(Drop)]
pub struct Award {
    version: u8,
    supply: Supply,
    points: Vec<u32>,
    reserves: Vec<u64>,
    steps: StepTable,
    bidders: Entrants,
    caps: Vec<SpectrumCap>,
}

impl Model for Award {
    ghost use Rattle.auction_rules.specs.Terms.{Terms};
    ghost use Rattle.award_file.specs.Award.{IsAward};
    ghost use Rattle.award_file.specs.Views.{terms_value};

    ghost Value = { Terms };

    ghost view = { terms_value };

    ghost invariant = { λ a. IsAward (terms_value a) };
}

impl Award {
    /// The award of these parts.
    pub(crate) fn from_parts(
        version: u8,
        supply: Supply,
        points: Vec<u32>,
        reserves: Vec<u64>,
        steps: StepTable,
        bidders: Entrants,
        caps: Vec<SpectrumCap>,
    ) -> Award
        requires { IsAward
            (terms_with version supply points.items reserves.items steps bidders (cap_values caps.items)) }
        ensures { result ≡ terms_with version supply points.items reserves.items steps bidders (cap_values caps.items) }
    {
        Award {
            version,
            supply,
            points,
            reserves,
            steps,
            bidders,
            caps,
        }
    }

    /// The rules that each award keeps. Nothing is done: proofs read the clause.
    pub fn kept(&self)
        ensures { IsAward self.now }
    {
        // The rules of a type are known once its field is used.
        let _ = &self.supply;
    }

    /// The version of the award: 1, or 2 with a final cap.
    pub fn version(&self) -> u8
        ensures version { result ≡ self.now.version }
        ensures either { (1 ≤ result) × (result ≤ 2) }
    {
        self.version
    }

    /// Whether the caps of sealed bids include the final cap, which an award of version 2 has.
    pub fn final_cap(&self) -> bool
        ensures { result ≡ final_cap self.now }
    {
        self.version == 2
    }

    /// What is sold.
    pub fn supply(&self) -> &Supply
        ensures supply { result.now ≡ self.now.supply }
        ensures kept { IsAward self.now }
    {
        &self.supply
    }

    /// The eligibility points of one lot of each category.
    pub fn points(&self) -> &[u32]
        ensures points { result.now ≡ self.now.points }
        ensures kept { IsAward self.now }
    {
        &self.points
    }

    /// The reserve of one lot of each category.
    pub fn reserves(&self) -> &[u64]
        ensures reserves { result.now ≡ self.now.reserves }
        ensures kept { IsAward self.now }
    {
        &self.reserves
    }

    /// The tick. Each raise of a price is a multiple of it.
    pub fn tick(&self) -> u64
        ensures tick { result ≡ self.now.tick }
        ensures kept { IsAward self.now }
    {
        self.steps.tick()
    }

    /// By how much prices rise.
    pub fn steps(&self) -> &StepTable
        ensures steps { result.now ≡ steps_of self.now }
        ensures kept { IsAward self.now }
    {
        &self.steps
    }

    /// How many bidders there are.
    pub fn bidders(&self) -> usize
        ensures bidders { result ≡ length self.now.bidders }
        ensures most { result ≤ MOST_BIDDERS }
        ensures kept { IsAward self.now }
    {
        self.bidders.count()
    }

    /// The name of bidder `j`.
    pub fn name(&self, j: u16) -> &str
        requires { (1 ≤ j) × (j ≤ length self.now.bidders) }
        ensures name { result.now ≡ (entrant self.now j).name }
        ensures kept { IsAward self.now }
    {
        self.bidders.name(j)
    }

    /// The number of the bidder of this name, and 0 for a stranger.
    pub fn number_of(&self, name: &str) -> u16
        ensures number { result ≡ number_of self.now name.now }
        ensures most { result ≤ length self.now.bidders }
        ensures found { 0 < result → (entrant self.now result).name ≡ name.now }
        ensures only { (j : ℕ) → 1 ≤ j → j ≤ length self.now.bidders → (entrant self.now j).name ≡ name.now
            → result ≡ j }
    {
        self.bidders.number_of(name)
    }

    /// The eligibility of bidder `j` in round 1, in points.
    pub fn eligibility(&self, j: u16) -> u64
        requires { (1 ≤ j) × (j ≤ length self.now.bidders) }
        ensures eligibility { result ≡ (entrant self.now j).eligibility }
        ensures most { result ≤ MOST_ELIGIBILITY }
    {
        self.bidders.eligibility(j)
    }

    /// The first spectrum cap that the package exceeds together with what bidder `j` holds already.
    pub fn cap_fault(&self, j: u16, package: &Package) -> Option<CapFault>
        requires bidder { (1 ≤ j) × (j ≤ length self.now.bidders) }
        requires categories { length «package».now ≡ length self.now.supply }
        ensures { option_map fault_value result ≡ broken_cap self.now j «package».now }
    {
        first_exceeded(&self.caps, package.counts(), self.bidders.holding(j))
    }
}
