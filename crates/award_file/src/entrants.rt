// The bidders of an award.
ghost use Rattle.std.specs.Prelude.{◌≡◌, ◌≤◌, ◌<◌, ◌∷◌, ◌++◌, [], not, IfOk, OnErr, length, string_bytes, if◌then◌else◌};
ghost use Rattle.award_file.specs.Award.{AreNamedApart, bidder_at, entrant_with, is_stranger, names_of, number_among};
ghost use Rattle.award_file.specs.Fields.{entrant_value};

use indexmap::IndexMap;
use std::alloc::{AllocError, Global};
use std::marker::Model;

/// What an award states for a bidder, without its name.
#[derive(Drop)]
pub struct Entrant {
    eligibility: u64,
    holding: Vec<u16>,
}

/// Bidders in order, each with a name of its own. They are numbered from 1.
#[derive(Drop)]
pub struct Entrants {
    by_name: IndexMap<String, Entrant>,
}

impl Model for Entrants {
    ghost use Rattle.std.specs.Prelude.{List, map};
    ghost use Rattle.auction_rules.specs.Terms.{Entrant};
    ghost use Rattle.award_file.specs.Award.{AreNamedApart};
    ghost use Rattle.award_file.specs.Fields.{entrant_value};

    ghost Value = { List Entrant };

    ghost view = { λ e. map entrant_value e.by_name.entries };

    ghost invariant = { λ e. AreNamedApart (map entrant_value e.by_name.entries) };
}

impl Entrants {
    /// No bidder.
    pub fn new(alloc: Global) -> Entrants
        ensures { result ≡ [] }
    {
        Entrants {
            by_name: IndexMap::new(alloc),
        }
    }

    /// Puts a bidder after the others, unless one of them has its name: then nothing changes, and the answer is false.
    pub fn push(
        &mut self,
        name: String,
        eligibility: u64,
        holding: Vec<u16>,
    ) -> Result<bool, AllocError>
        ensures stranger { IfOk result (λ is_new. is_new ≡ is_stranger (string_bytes name) (names_of self.old)) }
        ensures pushed { IfOk result
            (λ is_new. self.new
            ≡ (if is_new then self.old ++ entrant_with (string_bytes name) eligibility holding.items
            ∷ [] else self.old)) }
        ensures unchanged { OnErr result (self.new ≡ self.old) }
        ensures apart { AreNamedApart self.new }
    {
        if self.by_name.contains_key(name.as_str()) {
            return Ok(false);
        }
        let entrant = Entrant {
            eligibility,
            holding,
        };
        if self.by_name.insert(name, entrant).is_err() {
            return Err(AllocError);
        }
        Ok(true)
    }

    /// Whether a bidder has this name.
    pub fn contains(&self, name: &str) -> bool
        ensures { result ≡ not (is_stranger name.now (names_of self.now)) }
    {
        self.by_name.contains_key(name)
    }

    /// How many bidders there are.
    pub fn count(&self) -> usize
        ensures count { result ≡ length self.now }
        ensures apart { AreNamedApart self.now }
    {
        self.by_name.len()
    }

    /// The number of the bidder of this name, and 0 if there is none.
    pub fn number_of(&self, name: &str) -> u16
        requires { length self.now < 65535 }
        ensures { result ≡ number_among name.now (names_of self.now) }
    {
        match self.by_name.get_index_of(name) {
            Some(index) => index as u16 + 1,
            None => 0,
        }
    }

    /// Bidder `j` with its name.
    fn entry(&self, j: u16) -> (&String, &Entrant)
        requires { (1 ≤ j) × (j ≤ length self.now) }
        ensures { entrant_value (result.0.now, result.1.now) ≡ bidder_at self.now j }
    {
        self.by_name.get_index(j as usize - 1).unwrap()
    }

    /// The name of bidder `j`.
    pub fn name(&self, j: u16) -> &str
        requires { (1 ≤ j) × (j ≤ length self.now) }
        ensures { result.now ≡ (bidder_at self.now j).name }
    {
        self.entry(j).0.as_str()
    }

    /// The eligibility of bidder `j` in round 1, in points.
    pub fn eligibility(&self, j: u16) -> u64
        requires { (1 ≤ j) × (j ≤ length self.now) }
        ensures { result ≡ (bidder_at self.now j).eligibility }
    {
        self.entry(j).1.eligibility
    }

    /// The lots that bidder `j` holds already, of each category.
    pub fn holding(&self, j: u16) -> &[u16]
        requires { (1 ≤ j) × (j ≤ length self.now) }
        ensures { result.now ≡ (bidder_at self.now j).holding }
    {
        &self.entry(j).1.holding
    }
}
