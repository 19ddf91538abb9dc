// Tests of the lists of one bidder, one after another.
ghost use Rattle.std.specs.Prelude.{◌≡◌, ◌<◌, ◌^◌, [], ℕ, List, Option, All, IfOk, length, map, option_map};
ghost use Rattle.auction_rules.specs.Caps.{first_excess, list_fault};
ghost use Rattle.auction_model.specs.PackageTests.{InOrder};
ghost use Rattle.auction_rules.specs.State.{Round};
ghost use Rattle.clock_stage.specs.Kept.{categories_in};
ghost use Rattle.relative_cap.specs.Asked.{ArePoints, IsBidderOf, IsEligible, IsEntry};
ghost use Rattle.relative_cap.specs.Answer.{cap_value, excess_value};
ghost use Rattle.relative_cap.specs.Levels.{AreHighsFrom};
ghost use Rattle.relative_cap.specs.OwnRounds.{bid_value, entry_lots, rounds_of};
ghost use Rattle.relative_cap.specs.Tested.{AreHighs, FitsRound, FitsTerms, IsTested, IsTester, raised, round_cap, terms_cap, tested_bid};

use crate::answer::{Cap, OverCap};
use crate::caps::excess;
use crate::entries::{TestedEntry, follow};
use crate::levels::fill_levels;
use crate::terms::{PackageTerms, RoundTerms};
use clock_stage::History;
use lots::Bid;
use std::alloc::{AllocError, Global};
use std::marker::Model;

/// Tests the lists of one bidder, one after another, against their caps over the closed rounds, which don't change any more. A
/// desk uses it. For a single list `list_fault` has the same result without memory.
///
/// It keeps the rounds' terms: for each round, and for the package of each entry of the list that it tested last. So a list
/// that differs from that one in a few packages is tested in one pass over its entries.
#[derive(Drop)]
pub struct ListTester {
    peaks: Vec<u64>,
    clock: Vec<u64>,
    entries: Vec<TestedEntry>,
}

impl Model for ListTester {
    ghost use Rattle.relative_cap.specs.Tested.{Tester, tester_of};

    ghost Value = { Tester };

    ghost view = { λ t. tester_of t.peaks.items t.clock.items t.entries.items };
}

impl ListTester {
    /// A tester of the lists of bidder `j` over the closed rounds of the history. The only error is out of memory.
    pub fn of(alloc: Global, history: &History, j: u16) -> Result<ListTester, AllocError>
        requires { IsBidderOf history.now j }
        ensures { IfOk result (λ tester. (points : List ℕ) → IsTester history.now points j tester) }
    {
        let rounds = history.rounds();
        let mut peaks = vec![in alloc; 0u64; rounds as usize]?;
        let mut clock = vec![in alloc; 0u64; rounds as usize]?;
        fill_levels(history, rounds, j, &mut peaks, &mut clock);
        Ok(ListTester {
            peaks,
            clock,
            entries: Vec::new(alloc),
        })
    }

    /// The first entry of the list of bidder `j` whose amount is above its cap over the list, if there is one: its number,
    /// counted from 1, with its cap. The list is in the order of packages. History and bidder are those that the tester is for,
    /// and the points are the same in all its tests. The only error is out of memory, after which the tester can be used again.
    pub fn list_fault(
        &mut self,
        alloc: Global,
        history: &History,
        points: &[u32],
        final_cap: bool,
        j: u16,
        list: &[Bid],
    ) -> Result<Option<OverCap>, AllocError>
        requires bidder { IsBidderOf history.now j }
        requires points { ArePoints history.now points.now }
        requires tester { IsTester history.now points.now j self.old }
        requires list { All (IsEntry (categories_in history.now)) list.now }
        requires order { InOrder (map entry_lots list.now) }
        requires eligible { All (IsEligible points.now history.now j) list.now }
        requires few { length list.now < 2 ^ 32 }
        ensures fault { IfOk result
            (λ over. option_map excess_value over
            ≡ list_fault final_cap points.now (rounds_of j history.now) (map bid_value list.now)) }
        ensures tester { IsTester history.now points.now j self.new }
    {
        follow(history, points, j, &self.peaks, list, &mut self.entries)?;
        let highs = highs_over(alloc, &self.clock, &self.entries)?;
        Ok(first_fault(final_cap, &highs, &self.entries))
    }
}

/// Raises the amount at the place to this one, if there is a place.
fn raise(highs: &mut Vec<u64>, place: u32, amount: u64)
    ensures { highs.new.items ≡ raised place amount highs.old.items }
{
    let place = place as usize;
    if place < highs.len() {
        highs[place] = highs[place].max(amount);
    }
}

/// The highest amounts over the clock and the entries: at the first round where a package was held is the highest amount for
/// it. The highest amounts over only the clock are given.
fn highs_over(alloc: Global, clock: &[u64], entries: &[TestedEntry]) -> Result<Vec<u64>, AllocError>
    ensures { (history : List Round) (points : List ℕ) (j : ℕ) → AreHighs history j [] clock.now
        → All (IsTested history points j) entries.now
        → IfOk result (λ highs. AreHighs history j (map tested_bid entries.now) highs.items) }
{
    let mut highs = Vec::from_slice(alloc, clock)?;
    for entry in entries {
        raise(&mut highs, entry.terms.own, entry.bid.amount);
    }
    Ok(highs)
}

/// The cap that a round says.
fn round_cap(highs: &[u64], terms: &RoundTerms) -> u64
    requires { FitsRound highs.now terms.now }
    ensures { result ≡ round_cap highs.now terms.now }
{
    highs[terms.place as usize] + terms.price - terms.held
}

/// The cap that the closed rounds say, over the highest amounts.
fn terms_cap(final_cap: bool, highs: &[u64], terms: &PackageTerms) -> Cap
    requires { FitsTerms highs.now terms.now }
    ensures { cap_value result ≡ terms_cap final_cap highs.now terms.now }
{
    if terms.is_final {
        return Cap::NoCap;
    }
    let by_round = round_cap(highs, &terms.constraining);
    if final_cap {
        Cap::At(by_round.min(round_cap(highs, &terms.last)))
    } else {
        Cap::At(by_round)
    }
}

/// The first entry above its cap over the highest amounts.
fn first_fault(final_cap: bool, highs: &[u64], entries: &[TestedEntry]) -> Option<OverCap>
    requires fits { All (λ e. FitsTerms highs.now e.terms) entries.now }
    requires few { length entries.now < 2 ^ 32 }
    ensures { (cap : List ℕ → Option ℕ)
        → All (λ e. terms_cap final_cap highs.now e.terms ≡ cap e.bid.«package») entries.now
        → option_map excess_value result ≡ first_excess cap 1 (map tested_bid entries.now) }
{
    for (index, entry) in entries.iter().enumerate() {
        let cap = terms_cap(final_cap, highs, &entry.terms);
        if let Some(limit) = excess(cap, entry.bid.amount) {
            let entry = index as u32 + 1;
            return Some(OverCap { entry, limit });
        }
    }
    None
}
