// The desk.
ghost use Rattle.std.specs.Prelude.{◌≡◌, ◌≢◌, ◌⊎◌, ◌∷◌, ◌&&◌, [], Err, IfOk, IsTrue, List, None, OnErr, ℕ, length, map, nat_le, nat_lt, not, option_map, replicate, true, false};
ghost use Rattle.limits.specs.declared.TheConstants.{MOST_DRAFTS};
ghost use Rattle.auction_model.specs.Package.{cost_of};
ghost use Rattle.auction_rules.specs.declared.Event.{Event};
ghost use Rattle.auction_rules.specs.declared.Reply.{Reply};
ghost use Rattle.auction_rules.specs.declared.Stage.{Stage};
ghost use Rattle.auction_rules.specs.BookOfLog.{book_of_log};
ghost use Rattle.auction_rules.specs.Caps.{clock_bid, greatest};
ghost use Rattle.auction_rules.specs.Lawful.{HasCategories};
ghost use Rattle.auction_model.specs.PackageTests.{is_empty};
ghost use Rattle.auction_rules.specs.Replies.{has_entry, is_of, is_sealed, reply_to};
ghost use Rattle.auction_rules.specs.State.{book_in, drafts_of, reply_in, round_in, state_of, state_with};
ghost use Rattle.auction_rules.specs.View.{view};
ghost use Rattle.award_file.specs.Award.{IsAward};
ghost use Rattle.clock_stage.specs.ClockState.{clock_of};
ghost use Rattle.clock_stage.specs.Kept.{IsFor, IsHeld};
ghost use Rattle.relative_cap.specs.Answer.{excess_value};
ghost use Rattle.relative_cap.specs.OwnRounds.{bid_value, rounds_of};
ghost use Rattle.bid_desk.specs.BookClaims.{AreCapped, AreOwn};
ghost use Rattle.bid_desk.specs.Closes.{reply_value};
ghost use Rattle.bid_desk.specs.Lists.{lists_with};
ghost use Rattle.bid_desk.specs.Known.{IsKnown, amount_reply, fault_in, submitted_of};
ghost use Rattle.bid_desk.specs.Reached.{IsBidOrDrop, IsTaken, IsTakenOrMemory, MayLack, StandsNext, Takes};

use crate::book::book_of;
use crate::lists::{BidderLists, empty_lists};
use crate::testers::{no_testers, test_list};
use auction_rules::{
    Event, Reply, Stage, bidders_of_book, book_within_caps, desk_book, interleaving,
};
use award_file::{Award, book_of_award};
use bid_book::BidBook;
use clock_stage::{Clock, Closed, reply_to_package};
use limits::{MOST_AMOUNT, MOST_DRAFTS};
use lots::Package;
use relative_cap::{ListTester, OverCap, highest};
use std::alloc::{AllocError, Global};
use std::marker::Model;

/// Why a desk gives no book.
#[derive(Clone, Copy, Debug, PartialEq, Eq)]
pub enum DeskStop {
    /// The sealed round isn't closed.
    NotClosed,
    /// Out of memory.
    Memory,
}

/// The initial state of a desk, without its award.
#[derive(Drop)]
struct Start {
    clock: Clock,
    bidders: Vec<BidderLists>,
    testers: Vec<Option<ListTester>>,
}

/// What the desk of this award begins with.
fn start_of(alloc: Global, award: &Award) -> Result<Start, AllocError>
    ensures clock { IfOk result (λ s. s.clock ≡ clock_of (state_of award.now [])) }
    ensures award { IfOk result (λ s. IsFor award.now s.clock) }
    ensures bidders { IfOk result (λ s. s.bidders.items ≡ replicate (length award.now.bidders) (lists_with [] [])) }
    ensures testers { IfOk result (λ s. s.testers.items ≡ replicate (length award.now.bidders) None) }
{
    let clock = Clock::start(alloc, award)?;
    let bidders = empty_lists(alloc, award.bidders())?;
    let testers = no_testers(alloc, award.bidders())?;
    Ok(Start {
        clock,
        bidders,
        testers,
    })
}

/// The desk of an auction. It takes the lines of a log one by one, and keeps the clock, and of each bidder a draft list and a
/// submitted list. Bidders are numbered from 1; every other number is a stranger's.
#[derive(Drop)]
pub struct Desk {
    award: Award,
    clock: Clock,
    closed: bool,
    bidders: Vec<BidderLists>,
    testers: Vec<Option<ListTester>>,
}

impl Model for Desk {
    ghost use Rattle.auction_rules.specs.State.{DeskState};
    ghost use Rattle.clock_stage.specs.Kept.{IsFor};
    ghost use Rattle.std.specs.Prelude.{◌≡◌, true, false};
    ghost use Rattle.bid_desk.specs.DeskValue.{desk_value};
    ghost use Rattle.auction_rules.specs.declared.Stage.{Stage};
    ghost use Rattle.bid_desk.specs.BookClaims.{AreCapped, AreOwn};
    ghost use Rattle.bid_desk.specs.Closes.{reply_value};
    ghost use Rattle.bid_desk.specs.Reached.{IsReached};
    ghost use Rattle.bid_desk.specs.Testers.{AreTesters};

    ghost Value = { DeskState };

    ghost view = { λ d. desk_value d.award d.clock d.closed d.bidders.items };

    ghost invariant = { λ d. IsFor d.award d.clock × IsReached (desk_value d.award d.clock d.closed d.bidders.items)
        × AreTesters d.award d.clock d.testers.items × (d.closed ≡ true → d.clock.running ≡ false) };
}

impl Desk {
    /// The desk of an award before its first line. It stands for the empty log.
    pub fn new(alloc: Global, award: Award) -> Result<Desk, AllocError>
        ensures { IfOk result (λ desk. desk ≡ state_of award []) }
    {
        let start = start_of(alloc, &award)?;
        Ok(Desk {
            award,
            clock: start.clock,
            closed: false,
            bidders: start.bidders,
            testers: start.testers,
        })
    }

    /// The award.
    pub fn award(&self) -> &Award
        ensures { result.now ≡ self.now.terms }
    {
        &self.award
    }

    /// How far the auction is.
    pub fn stage(&self) -> Stage
        ensures { result ≡ self.now.stage }
    {
        if self.closed {
            Stage::Closed
        } else if self.clock.is_running() {
            Stage::Clock
        } else {
            Stage::Sealed
        }
    }

    /// The prices of the posted round, and of the final round once the clock has ended.
    pub fn prices(&self) -> &[u64]
        ensures { result.now ≡ self.now.prices }
    {
        self.clock.prices()
    }

    /// The number of the posted round, and of the final round once the clock has ended.
    pub fn round(&self) -> u32
        ensures { result ≡ round_in self.now }
    {
        self.clock.round()
    }

    /// Takes a line of a log, whose package has the award's number of categories.
    ///
    /// The reply and the changes are the rules'. A desk that stands for a log then stands for the log with this line. After
    /// every reply but Ok the desk is unchanged. Memory replaces the rules' reply, and hides few refusals: it never occurs for
    /// a clock bid or a drop, for a draft only instead of Ok, for a submission only if the bidder's list is tested, and for a
    /// close only while the clock runs. Whatever other bidders do, the reply depends only on the line and on what its bidder
    /// has seen.
    pub fn take(&mut self, alloc: Global, line: &Event) -> Reply
        requires { HasCategories self.old.terms line.now }
        ensures taken { IsTakenOrMemory self.old line.now result self.new }
        ensures stands { (log : List Event) → self.old ≡ state_of self.old.terms log
            → StandsNext self.old log line.now result self.new }
        ensures refused { result ≢ Reply.Ok → self.new ≡ self.old }
        ensures terms { self.new.terms ≡ self.old.terms }
        ensures no_memory { IsBidOrDrop line.now → result ≢ Reply.Memory }
        ensures memory { result ≡ Reply.Memory → MayLack self.old.stage line.now (reply_in self.old line.now) }
        ensures view { (j : ℕ) (log other : List Event) → IsTrue (is_of j line.now)
            → self.old ≡ state_of self.old.terms log
            → view self.old.terms j log ≡ view self.old.terms j other
            → (result ≡ Reply.Memory) ⊎ (result ≡ reply_to self.old.terms other line.now) }
    {
        self.answer(alloc, line)
    }

    /// Answers a line and takes it.
    fn answer(&mut self, alloc: Global, line: &Event) -> Reply
        requires { HasCategories self.old.terms line.now }
        ensures { Takes self.old line.now result self.new }
    {
        match line {
            Event::Bid { bidder, package } => self.bid(*bidder, package),
            Event::Draft {
                bidder,
                package,
                amount,
            } => self.draft(*bidder, package, *amount),
            Event::Drop { bidder, package } => self.drop_draft(*bidder, package),
            Event::Submit { bidder } => self.submit(alloc, *bidder),
            Event::Close => self.close(alloc),
        }
    }

    /// The book of the log that the desk stands for: the award's supply, reserves and bidders, and for each package that isn't
    /// empty and is among a bidder's clock bids or in its submitted list the greatest amount there, reserve included. Each bid,
    /// except the bid for the package of the final round, is at most its relative cap over the book's own bids, and a bidder's
    /// bids depend only on what it has seen.
    ///
    /// # Errors
    ///
    /// NotClosed exactly if the sealed round isn't closed; Memory.
    pub fn book(&self, alloc: Global) -> Result<BidBook, DeskStop>
        ensures book { IfOk result (λ book. book ≡ book_in self.now) }
        ensures log { (log : List Event) → self.now ≡ state_of self.now.terms log
            → IfOk result (λ book. book ≡ book_of_log self.now.terms log) }
        ensures caps { IfOk result (λ book. AreCapped self.now book) }
        ensures view { IfOk result (λ book. AreOwn self.now book) }
        ensures closed { IfOk result (λ book. self.now.stage ≡ Stage.Closed) }
        ensures open { self.now.stage ≢ Stage.Closed → result ≡ Err DeskStop.NotClosed }
        ensures not_closed { result ≡ Err DeskStop.NotClosed → self.now.stage ≢ Stage.Closed }
    {
        if !matches!(self.stage(), Stage::Closed) {
            return Err(DeskStop::NotClosed);
        }
        bidders_of_book();
        book_within_caps();
        interleaving();
        desk_book();
        match self.closed_book(alloc) {
            Ok(book) => Ok(book),
            Err(_) => Err(DeskStop::Memory),
        }
    }

    /// The book, once the sealed round is closed. The only error is out of memory.
    fn closed_book(&self, alloc: Global) -> Result<BidBook, AllocError>
        requires { self.now.stage ≡ Stage.Closed }
        ensures { IfOk result (λ book. book ≡ book_in self.now) }
    {
        desk_book();
        book_of_award();
        self.award.kept();
        let book = book_of(alloc, &self.award, self.clock.history(), &self.bidders)?;
        Ok(book)
    }

    /// Takes a clock bid.
    fn bid(&mut self, bidder: u16, package: &Package) -> Reply
        requires { length «package».now ≡ length self.old.terms.supply }
        ensures { IsTaken self.old (Event.Bid bidder «package».now) result self.new }
    {
        if !matches!(self.stage(), Stage::Clock) {
            return Reply::Stage;
        }
        self.clock.bid(&self.award, bidder, package)
    }

    /// Takes a draft.
    fn draft(&mut self, bidder: u16, package: &Package, amount: u64) -> Reply
        requires { length «package».now ≡ length self.old.terms.supply }
        ensures { IsTakenOrMemory self.old (Event.Draft bidder «package».now amount) result self.new }
    {
        let reply = self.reply_to_draft(bidder, package, amount);
        if matches!(reply, Reply::Ok) {
            return self.put_draft(bidder, package, amount);
        }
        reply
    }

    /// Puts an admitted draft into the draft list of its bidder.
    fn put_draft(&mut self, bidder: u16, package: &Package, amount: u64) -> Reply
        requires categories { length «package».now ≡ length self.old.terms.supply }
        requires admitted { reply_in self.old (Event.Draft bidder «package».now amount) ≡ Reply.Ok }
        requires known { IsKnown self.old.terms self.old bidder }
        ensures { IsTakenOrMemory self.old (Event.Draft bidder «package».now amount) result self.new }
    {
        let lists = &mut self.bidders[bidder as usize - 1];
        if lists.put(package, amount).is_err() {
            return Reply::Memory;
        }
        Reply::Ok
    }

    /// The reply to a draft.
    fn reply_to_draft(&self, bidder: u16, package: &Package, amount: u64) -> Reply
        requires { length «package».now ≡ length self.now.terms.supply }
        ensures reply { result ≡ reply_in self.now (Event.Draft bidder «package».now amount) }
        ensures known { result ≡ Reply.Ok → IsKnown self.now.terms self.now bidder }
    {
        if !self.is_sealed() {
            return Reply::Stage;
        }
        if !self.knows(bidder) {
            return Reply::Unknown;
        }
        let eligible = self.award.eligibility(bidder);
        let reply = reply_to_package(&self.award, eligible, bidder, package);
        if !matches!(reply, Reply::Ok) {
            return reply;
        }
        self.reply_to_amount(bidder, package, amount)
    }

    /// The reply to a draft of a package within the bidder's eligibility.
    fn reply_to_amount(&self, bidder: u16, package: &Package, amount: u64) -> Reply
        requires sealed { is_sealed self.now.stage ≡ true }
        requires known { IsKnown self.now.terms self.now bidder }
        requires package { IsHeld (length self.now.terms.supply) «package».now }
        ensures { result
            ≡ amount_reply self.now.terms (rounds_of bidder self.now.rounds)
            (drafts_of self.now bidder) «package».now amount }
    {
        if package.is_empty() {
            return Reply::Empty;
        }
        let reserve = self.price_at_reserves(package);
        if amount < reserve {
            return Reply::BelowReserve(reserve);
        }
        let clock = self.greatest_clock(bidder, package);
        if amount < clock {
            return Reply::BelowClock(clock);
        }
        if self.is_full(bidder, package) {
            return Reply::Full(MOST_DRAFTS);
        }
        if amount > MOST_AMOUNT {
            return Reply::AmountTop(MOST_AMOUNT);
        }
        Reply::Ok
    }

    /// The price of a package at the reserves.
    fn price_at_reserves(&self, package: &Package) -> u64
        requires { length «package».now ≡ length self.now.terms.supply }
        ensures { result ≡ cost_of self.now.terms.reserves «package».now }
    {
        package.cost(self.award.reserves())
    }

    /// The greatest clock bid of the bidder for a package that isn't empty, and 0 if there is none.
    fn greatest_clock(&self, bidder: u16, package: &Package) -> u64
        requires sealed { is_sealed self.now.stage ≡ true }
        requires known { IsKnown self.now.terms self.now bidder }
        requires package { IsHeld (length self.now.terms.supply) «package».now }
        requires some { is_empty «package».now ≡ false }
        ensures { result ≡ greatest «package».now (map clock_bid (rounds_of bidder self.now.rounds)) }
    {
        highest(self.clock.history(), bidder, &[], package)
    }

    /// Whether the bidder's draft list has as many entries as it may, and none for the package.
    fn is_full(&self, bidder: u16, package: &Package) -> bool
        requires known { IsKnown self.now.terms self.now bidder }
        requires categories { length «package».now ≡ length self.now.terms.supply }
        ensures { result
            ≡ (not (has_entry «package».now (drafts_of self.now bidder))
            && nat_le MOST_DRAFTS (length (drafts_of self.now bidder))) }
    {
        let lists = self.lists(bidder);
        !lists.has_draft(package) && lists.drafts().len() as u64 >= MOST_DRAFTS
    }

    /// Takes a drop.
    fn drop_draft(&mut self, bidder: u16, package: &Package) -> Reply
        requires { length «package».now ≡ length self.old.terms.supply }
        ensures { IsTaken self.old (Event.Drop bidder «package».now) result self.new }
    {
        let reply = self.reply_to_drop(bidder, package);
        if matches!(reply, Reply::Ok) {
            let lists = &mut self.bidders[bidder as usize - 1];
            lists.remove(package);
        }
        reply
    }

    /// The reply to a drop.
    fn reply_to_drop(&self, bidder: u16, package: &Package) -> Reply
        requires { length «package».now ≡ length self.now.terms.supply }
        ensures reply { result ≡ reply_in self.now (Event.Drop bidder «package».now) }
        ensures known { result ≡ Reply.Ok → IsKnown self.now.terms self.now bidder }
    {
        if !self.is_sealed() {
            return Reply::Stage;
        }
        if !self.knows(bidder) {
            return Reply::Unknown;
        }
        if !self.lists(bidder).has_draft(package) {
            return Reply::NoDraft;
        }
        Reply::Ok
    }

    /// Whether the clock has ended and the sealed round isn't closed.
    fn is_sealed(&self) -> bool
        ensures { result ≡ is_sealed self.now.stage }
    {
        matches!(self.stage(), Stage::Sealed)
    }

    /// Whether the award has a bidder of this number.
    fn knows(&self, bidder: u16) -> bool
        ensures knows { result ≡ (nat_lt 0 bidder && nat_le bidder (length self.now.terms.bidders)) }
        ensures known { result ≡ true → IsKnown self.now.terms self.now bidder }
        ensures kept { IsAward self.now.terms }
    {
        let bidders = self.award.bidders();
        bidder > 0 && bidder as usize <= bidders
    }

    /// The lists of a bidder of the award.
    fn lists(&self, bidder: u16) -> &BidderLists
        requires { IsKnown self.now.terms self.now bidder }
        ensures drafts { result.now.drafts ≡ drafts_of self.now bidder }
        ensures submitted { result.now.submitted ≡ submitted_of self.now bidder }
    {
        &self.bidders[bidder as usize - 1]
    }

    /// Takes a submission.
    fn submit(&mut self, alloc: Global, bidder: u16) -> Reply
        ensures { IsTakenOrMemory self.old (Event.Submit bidder) result self.new }
    {
        match self.reply_to_submit(alloc, bidder) {
            Ok(reply) => self.submit_by(bidder, reply),
            Err(_) => Reply::Memory,
        }
    }

    /// Takes a submission with this reply of the rules.
    fn submit_by(&mut self, bidder: u16, reply: Reply) -> Reply
        requires reply { reply ≡ reply_in self.old (Event.Submit bidder) }
        requires known { reply ≡ Reply.Ok → IsKnown self.old.terms self.old bidder }
        ensures { IsTakenOrMemory self.old (Event.Submit bidder) result self.new }
    {
        if matches!(reply, Reply::Ok) {
            return self.submit_list(bidder);
        }
        reply
    }

    /// Puts the draft list of a bidder, whose submission is admitted, instead of its submitted list.
    fn submit_list(&mut self, bidder: u16) -> Reply
        requires admitted { reply_in self.old (Event.Submit bidder) ≡ Reply.Ok }
        requires known { IsKnown self.old.terms self.old bidder }
        ensures { IsTakenOrMemory self.old (Event.Submit bidder) result self.new }
    {
        let lists = &mut self.bidders[bidder as usize - 1];
        if lists.submit().is_err() {
            return Reply::Memory;
        }
        Reply::Ok
    }

    /// The reply to a submission. The desk's state is unchanged. The only error is out of memory, and only if the list is
    /// tested.
    fn reply_to_submit(&mut self, alloc: Global, bidder: u16) -> Result<Reply, AllocError>
        ensures reply { IfOk result (λ reply. reply ≡ reply_in self.old (Event.Submit bidder)) }
        ensures known { IfOk result (λ reply. reply ≡ Reply.Ok → IsKnown self.old.terms self.old bidder) }
        ensures memory { OnErr result
            (MayLack self.old.stage (Event.Submit bidder) (reply_in self.old (Event.Submit bidder))) }
        ensures same { self.new ≡ self.old }
    {
        if !self.is_sealed() {
            return Ok(Reply::Stage);
        }
        if !self.knows(bidder) {
            return Ok(Reply::Unknown);
        }
        match self.draft_fault(alloc, bidder)? {
            Some(over) => Ok(Reply::RelativeCap {
                entry: over.entry,
                limit: over.limit,
            }),
            None => Ok(Reply::Ok),
        }
    }

    /// The first entry of the bidder's draft list that is above its cap. A list that was submitted last has none. What the desk stands
    /// for stays the same; the only error is out of memory.
    fn draft_fault(&mut self, alloc: Global, bidder: u16) -> Result<Option<OverCap>, AllocError>
        requires sealed { is_sealed self.old.stage ≡ true }
        requires known { IsKnown self.old.terms self.old bidder }
        ensures fault { IfOk result
            (λ over. option_map excess_value over ≡ fault_in self.old bidder (drafts_of self.old bidder)) }
        ensures same { self.new ≡ self.old }
    {
        if self.lists(bidder).are_alike() {
            return Ok(None);
        }
        self.fault_of(alloc, bidder)
    }

    /// The first entry of the bidder's draft list above its cap, by the bidder's tester.
    fn fault_of(&mut self, alloc: Global, bidder: u16) -> Result<Option<OverCap>, AllocError>
        requires sealed { is_sealed self.old.stage ≡ true }
        requires known { IsKnown self.old.terms self.old bidder }
        ensures fault { IfOk result
            (λ over. option_map excess_value over ≡ fault_in self.old bidder (drafts_of self.old bidder)) }
        ensures same { self.new ≡ self.old }
    {
        test_list(
            alloc,
            &mut self.testers,
            self.clock.history(),
            self.award.points(),
            self.award.final_cap(),
            bidder,
            self.bidders[bidder as usize - 1].drafts(),
        )
    }

    /// Takes a close.
    fn close(&mut self, alloc: Global) -> Reply
        ensures { IsTakenOrMemory self.old Event.Close result self.new }
    {
        match self.stage() {
            Stage::Clock => self.close_round(alloc),
            Stage::Sealed => self.close_sealed(),
            Stage::Closed => Reply::Stage,
        }
    }

    /// Closes the posted round.
    fn close_round(&mut self, alloc: Global) -> Reply
        requires { self.old.stage ≡ Stage.Clock }
        ensures { IsTakenOrMemory self.old Event.Close result self.new }
    {
        let closed = self.clock.close(alloc, &self.award);
        reply_of(closed)
    }

    /// Closes the sealed round.
    fn close_sealed(&mut self) -> Reply
        requires { self.old.stage ≡ Stage.Sealed }
        ensures { IsTaken self.old Event.Close result self.new }
    {
        self.closed = true;
        Reply::Ok
    }
}

/// What the clock answers to a close, as a reply.
fn reply_of(closed: Closed) -> Reply
    ensures { result ≡ reply_value closed }
{
    match closed {
        Closed::NextRound(_) | Closed::StageEnds => Reply::Ok,
        Closed::Full(rounds) => Reply::Full(rounds),
        Closed::PriceTop { category, price } => Reply::PriceTop { category, price },
        Closed::Memory => Reply::Memory,
    }
}
