// The clock.
ghost use Rattle.std.specs.Prelude.{◌≡◌, ◌≢◌, ◌⊎◌, ◌∷◌, ◌++◌, ◌<◌, [], IfOk, IsTrue, List, ℕ, length, replicate, map, true, false};
ghost use Rattle.auction_rules.specs.declared.Event.{Event};
ghost use Rattle.auction_rules.specs.declared.Reply.{Reply};
ghost use Rattle.auction_rules.specs.Replies.{reply_to};
ghost use Rattle.auction_rules.specs.State.{state_of};
ghost use Rattle.auction_rules.specs.Rounds.{listing};
ghost use Rattle.auction_rules.specs.Terms.{entrant};
ghost use Rattle.clock_stage.specs.ClockState.{after_bid, after_close, clock_of, clock_with, reply_to_bid, reply_to_close, round_number};
ghost use Rattle.clock_stage.specs.Closings.{IsRefusal, Tells};
ghost use Rattle.clock_stage.specs.Kept.{IsClock, IsFor, bidders_in, categories_in};
ghost use Rattle.clock_stage.specs.Rounds.{round_value};

use crate::bids::reply_to_bid;
use crate::closes::{CloseStep, Closed, closing_of};
use crate::rounds::{ClockRound, History, empty_packages};
use auction_rules::{Event, Reply};
use award_file::Award;
use lots::Package;
use std::alloc::{AllocError, Global};
use std::marker::Model;

/// The clock of an auction. It posts rounds, takes a package of each bidder and keeps the closed rounds. Bidders are numbered
/// from 1; every other number is a stranger's.
#[derive(Drop)]
pub struct Clock {
    running: bool,
    history: History,
    posted: ClockRound,
}

impl Model for Clock {
    ghost use Rattle.clock_stage.specs.ClockState.{ClockState, clock_with};
    ghost use Rattle.clock_stage.specs.Kept.{IsClock};
    ghost use Rattle.clock_stage.specs.Rounds.{round_value};

    ghost Value = { ClockState };

    ghost view = { λ c. clock_with c.running c.history (round_value c.posted) };

    ghost invariant = { λ c. IsClock (clock_with c.running c.history (round_value c.posted)) };
}

/// What each bidder is eligible for in round 1.
fn first_eligibility(alloc: Global, award: &Award) -> Result<Vec<u64>, AllocError>
    ensures { IfOk result (λ v. v.items ≡ listing (λ j. (entrant award.now j).eligibility) (length award.now.bidders)) }
{
    let mut eligibility = Vec::with_capacity(alloc, award.bidders())?;
    for j in 0..award.bidders() as u16 {
        eligibility.push(award.eligibility(j + 1))?;
    }
    Ok(eligibility)
}

impl Clock {
    /// The clock of an award, which posts round 1 at the reserves. It stands for the empty log.
    pub fn start(alloc: Global, award: &Award) -> Result<Clock, AllocError>
        ensures clock { IfOk result (λ c. c ≡ clock_of (state_of award.now [])) }
        ensures award { IfOk result (IsFor award.now) }
    {
        let posted = ClockRound {
            prices: Vec::from_slice(alloc, award.reserves())?,
            eligibility: first_eligibility(alloc, award)?,
            held: empty_packages(alloc, award.supply(), award.bidders())?,
        };
        Ok(Clock {
            running: true,
            history: History::new(alloc),
            posted,
        })
    }

    /// Takes a clock bid: the package that the bidder asks for in the posted round, instead of an earlier one. It takes no
    /// memory. The clock has to run, and the award has to be the one of its start, or have as many bidders and categories.
    ///
    /// The reply is Ok, Unknown, Supply, SpectrumCap or Points; if it isn't Ok, nothing changes. A clock that stands for a log
    /// replies by the rules, and then stands for the log with this line.
    pub fn bid(&mut self, award: &Award, bidder: u16, package: &Package) -> Reply
        requires running { IsTrue self.old.running }
        requires award { IsFor award.now self.old }
        requires categories { length «package».now ≡ length award.now.supply }
        ensures reply { result ≡ reply_to_bid award.now self.old bidder «package».now }
        ensures clock { self.new ≡ after_bid award.now self.old bidder «package».now }
        ensures award { IsFor award.now self.new }
        ensures refused { result ≢ Reply.Ok → self.new ≡ self.old }
        ensures stands { (log : List Event) → self.old ≡ clock_of (state_of award.now log)
            → (result ≡ reply_to award.now log (Event.Bid bidder «package».now))
            × (self.new ≡ clock_of (state_of award.now (Event.Bid bidder «package».now ∷ log))) }
    {
        let reply = reply_to_bid(award, &self.posted.eligibility, bidder, package);
        if matches!(reply, Reply::Ok) {
            let kept = &mut self.posted.held[bidder as usize - 1];
            kept.copy_from(package);
        }
        reply
    }

    /// Closes the posted round. If some count of what all bidders ask for is above the supply, the prices of these categories
    /// rise and the next round is posted, else the clock stage ends. The conditions are as for a bid.
    ///
    /// After a refusal and when out of memory nothing changes. A clock that stands for a log replies by the rules, and then
    /// stands for the log with this line, unless it is out of memory.
    pub fn close(&mut self, alloc: Global, award: &Award) -> Closed
        requires running { IsTrue self.old.running }
        requires award { IsFor award.now self.old }
        ensures clock { ((result ≡ Closed.Memory) × (self.new ≡ self.old))
            ⊎ (Tells result (reply_to_close award.now self.old) self.new
            × (self.new ≡ after_close award.now self.old)) }
        ensures award { IsFor award.now self.new }
        ensures refused { IsRefusal result → self.new ≡ self.old }
        ensures stands { (log : List Event) → self.old ≡ clock_of (state_of award.now log)
            → ((result ≡ Closed.Memory) × (self.new ≡ self.old))
            ⊎ (Tells result (reply_to award.now log Event.Close) self.new
            × (self.new ≡ clock_of (state_of award.now (Event.Close ∷ log)))) }
    {
        match closing_of(alloc, award, &self.history, &self.posted) {
            Ok(CloseStep::Next(next)) => self.post(next),
            Ok(CloseStep::Ends(last)) => self.end(last),
            Ok(CloseStep::Refused(closed)) => closed,
            Err(_) => Closed::Memory,
        }
    }

    /// Closes the posted round and posts the next one.
    fn post(&mut self, next: ClockRound) -> Closed
        requires running { IsTrue self.old.running }
        requires kept { IsClock (clock_with true (self.old.rounds ++ self.old.posted ∷ []) (round_value next)) }
        ensures { ((result ≡ Closed.Memory) × (self.new ≡ self.old))
            ⊎ ((result ≡ Closed.NextRound (round_number self.new))
            × (self.new ≡ clock_with true (self.old.rounds ++ self.old.posted ∷ []) (round_value next))) }
    {
        if self.history.close(&mut self.posted, next).is_err() {
            return Closed::Memory;
        }
        Closed::NextRound(self.history.rounds() + 1)
    }

    /// Closes the final round. This is a copy of it.
    fn end(&mut self, last: ClockRound) -> Closed
        requires { IsClock (clock_with false (self.old.rounds ++ self.old.posted ∷ []) (round_value last)) }
        ensures { ((result ≡ Closed.Memory) × (self.new ≡ self.old))
            ⊎ ((result ≡ Closed.StageEnds)
            × (self.new ≡ clock_with false (self.old.rounds ++ self.old.posted ∷ []) (round_value last))) }
    {
        if self.history.close(&mut self.posted, last).is_err() {
            return Closed::Memory;
        }
        self.running = false;
        Closed::StageEnds
    }

    /// Whether rounds are posted.
    pub fn is_running(&self) -> bool
        ensures running { result ≡ self.now.running }
        ensures kept { IsClock self.now }
    {
        self.running
    }

    /// The number of the posted round, and of the final round once the clock has ended.
    pub fn round(&self) -> u32
        ensures { result ≡ round_number self.now }
    {
        if self.running {
            self.history.rounds() + 1
        } else {
            self.history.rounds()
        }
    }

    /// The prices of the posted round, and of the final round once the clock has ended.
    pub fn prices(&self) -> &[u64]
        ensures prices { result.now ≡ self.now.posted.prices }
        ensures kept { IsClock self.now }
    {
        &self.posted.prices
    }

    /// The closed rounds.
    pub fn history(&self) -> &History
        ensures history { result.now ≡ self.now.rounds }
        ensures bidders { 0 < length self.now.rounds → bidders_in result.now ≡ length self.now.posted.held }
        ensures categories { 0 < length self.now.rounds → categories_in result.now ≡ length self.now.posted.prices }
        ensures kept { IsClock self.now }
    {
        &self.history
    }
}
