//! The rules of a combinatorial clock auction up to its book: the lines of a log, the replies to them, and their meaning (in
//! `specs/`).
//!
//! The auction has the form of the Wireless Telegraphy (Licence Award) Regulations 2012, SI 2012/2817: clock rounds with
//! eligibility points at posted prices, then one sealed list from each bidder under relative caps. (Ausubel, Cramton and
//! Milgrom, The clock-proxy auction, in Combinatorial Auctions, 2006, on clock rounds before package bids.) The number rules
//! are this project's.
//!
//! Each function here is a law: it has no effect, and its contract is true for every award and every log. A list of lines
//! starts with its newest line.
#![tactic(auto)]

ghost use Rattle.std.specs.Prelude.{◌≡◌, ℕ, suc, ◌+◌, ◌*◌, ◌≤◌, List, ◌∷◌, None, IsTrue, true, false, not, ◌&&◌, length, map};
ghost use Rattle.std.specs.List.{AllByRecursion};
ghost use Rattle.limits.specs.declared.TheConstants.{MOST_BIDS, MOST_ROUNDS};
ghost use Rattle.auction_model.specs.Book.{bidder_of};
ghost use Rattle.auction_model.specs.Package.{ComesBefore, cost_of, is_within};
ghost use Rattle.auction_model.specs.PackageTests.{InOrder, first_over, is_before, is_empty, is_same};
ghost use Rattle.auction_rules.specs.Terms.{Terms, entrant, final_cap};
ghost use Rattle.auction_rules.specs.Step.{AreRisingFrom, IsRaise, IsReachedShare, permille_at, ticks_of};
ghost use Rattle.auction_rules.specs.Rounds.{OwnRound, prices_after};
ghost use Rattle.auction_rules.specs.Caps.{IsLastEnough, list_fault, constraining, constraining_number, round_at};
ghost use Rattle.auction_rules.specs.Replies.{is_clock, is_of, log_prices, log_round, log_stage, reply_to, has_entry, admitted, standing};
ghost use Rattle.auction_rules.specs.State.{book_in, round_in, state_of, reply_in, state_with};
ghost use Rattle.auction_rules.specs.View.{view, own_replies};
ghost use Rattle.auction_rules.specs.Lawful.{AreDrafts, AreLimited, HasCategories, IsLawfulBid, NeverRises};
ghost use Rattle.auction_rules.specs.BookOfLog.{IsGreatestFor, bid_lots, bids_in_book, book_bidder, book_of_log, pairs_of};

use lots::Package;

/// One line of a log. Bidders are numbered from 1, and a number that no bidder has, 0 too, is a stranger's.
#[derive(Drop)]
pub enum Event {
    /// A clock bid: the package that the bidder asks for in the posted round. A later one in the round replaces it.
    Bid {
        bidder: u16,
        package: Package,
    },
    /// An entry of the bidder's draft list: a package with an amount, reserve included. A later one for the package replaces it.
    Draft {
        bidder: u16,
        package: Package,
        amount: u64,
    },
    /// The bidder takes the entry for the package out of its draft list.
    Drop {
        bidder: u16,
        package: Package,
    },
    /// The bidder's draft list becomes its submitted list.
    Submit {
        bidder: u16,
    },
    /// The posted round is closed, or the sealed round.
    Close,
}

/// The reply to a line: the first one after `Ok` whose condition is true, among those that are tested for the line's kind, and
/// `Ok` if none is. Categories, spectrum caps and entries are numbered from 1.
#[derive(Clone, Copy, Debug, PartialEq, Eq)]
pub enum Reply {
    /// The line is admitted.
    Ok,
    /// Its kind isn't of this stage: a clock bid belongs to the clock, a draft, a drop and a submission to the sealed round, a
    /// close to both.
    Stage,
    /// The bidder isn't in the award.
    Unknown,
    /// The package asks for more than the supply in this category, the first such one.
    Supply(u16),
    /// With the bidder's present holdings, the package is above the limit of the spectrum cap of this number, the first such
    /// one.
    SpectrumCap { number: u32, limit: u64 },
    /// The points of the package are above this eligibility: of the posted round for a clock bid, of round 1 for a draft.
    Points(u64),
    /// A draft of the empty package.
    Empty,
    /// The amount of a draft is below the price of its package at the reserves, which is this.
    BelowReserve(u64),
    /// The amount of a draft is below the bidder's greatest clock bid for the package, which is this.
    BelowClock(u64),
    /// A drop of a package that has no draft.
    NoDraft,
    /// This entry of the draft list that is to be submitted is above its relative cap, the first such one, with its cap.
    RelativeCap { entry: u32, limit: u64 },
    /// There are that many drafts already and the package has none, or that many rounds and there still is excess demand.
    Full(u64),
    /// The amount of a draft is above the greatest amount, which is this.
    AmountTop(u64),
    /// A close would raise the price of this category to this, which is above the greatest price; the first such category.
    PriceTop { category: u16, price: u64 },
    /// Out of memory. The rules never return this reply. It may replace the rules' reply.
    Memory,
}

/// The stage of an auction.
#[derive(Clone, Copy, Debug, PartialEq, Eq)]
pub enum Stage {
    /// Rounds are posted, one after the other, until demand is within the supply.
    Clock,
    /// Bidders draft and submit their lists.
    Sealed,
    /// No further line is admitted.
    Closed,
}

/// The tests of packages agree with the definitions: `is_same` is equality. `is_before` is the order of packages, for packages
/// with equally many categories. No category is over the supply exactly if the package is within it.
pub fn package_tests()
    ensures same { (p q : List ℕ) → is_same p q ≡ true → p ≡ q }
    ensures is_same { (p : List ℕ) → is_same p p ≡ true }
    ensures before { (p q : List ℕ) → length p ≡ length q → is_before p q ≡ true → ComesBefore p q }
    ensures comes { (p q : List ℕ) → ComesBefore p q → is_before p q ≡ true }
    ensures within { (category : ℕ) (lots supply : List ℕ) → is_within lots supply ≡ true
        → first_over category lots supply ≡ None }
    ensures none_over { (category : ℕ) (lots supply : List ℕ) → first_over category lots supply ≡ None
        → is_within lots supply ≡ true }
{}

/// A price rises by the permille of the greatest threshold that the excess reaches, if the thresholds rise and the excess
/// reaches the first.
pub fn greatest_threshold()
    ensures { (first : ℕ × ℕ) (later : List (ℕ × ℕ)) (excess : ℕ) → AreRisingFrom first.0 later → first.0 ≤ excess
        → IsReachedShare (first ∷ later) excess (permille_at (first ∷ later) excess) }
{}

/// A raise is the least multiple of the tick that is at least the tick and at least that many thousandths of the price. It is
/// unique.
pub fn raise_is_least()
    ensures least { (tick price permille : ℕ) → 1 ≤ tick
        → IsRaise tick price permille (ticks_of tick price permille * tick) }
    ensures one { (tick price permille u v : ℕ) → IsRaise tick price permille u → IsRaise tick price permille v
        → u ≡ v }
{}

/// The price of a package never falls from round to round, whatever the bidders hold.
pub fn prices_never_fall()
    ensures { (terms : Terms) (held : ℕ → ℕ → List ℕ) (n : ℕ) (lots : List ℕ)
        → cost_of (prices_after terms held n) lots ≤ cost_of (prices_after terms held (suc n)) lots }
{}

/// The constraining round for some points is the round of its number. If the bidder's eligibility was enough for them in some
/// round, it was enough in this one, and in no later one.
pub fn constraining_round()
    ensures last { (points : ℕ) (rounds : List OwnRound) (k : ℕ) → 1 ≤ k → k ≤ length rounds
        → points ≤ (round_at rounds k).eligibility
        → IsLastEnough points rounds (constraining_number points rounds) }
    ensures number { (points : ℕ) (rounds : List OwnRound)
        → constraining points rounds ≡ round_at rounds (constraining_number points rounds) }
{}

/// After any log a bidder is eligible for the package that it holds, and its submitted list is valid: each amount in it, except
/// the amount for the package of the final round, is at most its cap over this list.
pub fn sound_standings()
    ensures eligible { (terms : Terms) (log : List Event) (j : ℕ)
        → cost_of terms.points (standing terms (admitted terms log) j).held
        ≤ (standing terms (admitted terms log) j).eligibility }
    ensures valid { (terms : Terms) (log : List Event) (j : ℕ)
        → list_fault (final_cap terms) terms.points (standing terms (admitted terms log) j).rounds
        (standing terms (admitted terms log) j).submitted ≡ None }
{}

/// The invariants of a bidder's rounds and lists after any log, which relative caps need. There are at most `MOST_ROUNDS`
/// closed rounds. The eligibility of round 1 is the award's, and it never rises up to the posted round. Once the clock has
/// stopped, at least one round is closed. If the packages of the log have the award's number of categories, the draft list and
/// the submitted list are within their limit, in the order of their packages, each package once, and the bidder may draft each
/// of them.
pub fn kept_standings()
    ensures rounds { (terms : Terms) (log : List Event) (j : ℕ)
        → length (standing terms (admitted terms log) j).rounds ≤ MOST_ROUNDS }
    ensures some { (terms : Terms) (log : List Event) (j : ℕ)
        → is_clock (standing terms (admitted terms log) j).stage ≡ false
        → 1 ≤ length (standing terms (admitted terms log) j).rounds }
    ensures first { (terms : Terms) (log : List Event) (j : ℕ)
        → 1 ≤ length (standing terms (admitted terms log) j).rounds
        → (round_at (standing terms (admitted terms log) j).rounds 1).eligibility ≡ (entrant terms j).eligibility }
    ensures eligibility { (terms : Terms) (log : List Event) (j : ℕ)
        → NeverRises (entrant terms j).eligibility (standing terms (admitted terms log) j).rounds
        (standing terms (admitted terms log) j).eligibility }
    ensures drafts { (terms : Terms) (log : List Event) (j : ℕ) → AllByRecursion (HasCategories terms) log
        → AreDrafts terms j (standing terms (admitted terms log) j).drafts }
    ensures submitted { (terms : Terms) (log : List Event) (j : ℕ) → AllByRecursion (HasCategories terms) log
        → AreDrafts terms j (standing terms (admitted terms log) j).submitted }
{}

/// However the lines of bidders are interleaved, a bidder's treatment depends only on what it sees: its own lines and the
/// closes, each close with its reply and the prices that it posts. If it has the same view of two logs on one award, its next
/// line gets the same reply, its lines got the same replies, and it has the same bids in the book.
pub fn interleaving()
    ensures next { (terms : Terms) (j : ℕ) (log other : List Event) (line : Event) → IsTrue (is_of j line)
        → view terms j log ≡ view terms j other → reply_to terms log line ≡ reply_to terms other line }
    ensures replies { (terms : Terms) (j : ℕ) (log other : List Event)
        → view terms j log ≡ view terms j other → own_replies terms j log ≡ own_replies terms j other }
    ensures bids { (terms : Terms) (j : ℕ) (log other : List Event)
        → view terms j log ≡ view terms j other → bids_in_book terms log j ≡ bids_in_book terms other j }
{}

/// A state is enough for a desk. From the state after a log, the reply to a line is the rules' reply, which reads the whole
/// log. The line changes the state to the state after the log with the line.
pub fn desk_step()
    ensures reply { (terms : Terms) (log : List Event) (line : Event)
        → reply_in (state_of terms log) line ≡ reply_to terms log line }
    ensures state { (terms : Terms) (log : List Event) (line : Event)
        → state_with (state_of terms log) line ≡ state_of terms (line ∷ log) }
{}

/// The state after a log shows what the whole log shows: the stage of the auction, the number of the posted round, and its
/// prices.
pub fn desk_tells()
    ensures stage { (terms : Terms) (log : List Event) → (state_of terms log).stage ≡ log_stage terms log }
    ensures round { (terms : Terms) (log : List Event) → round_in (state_of terms log) ≡ log_round terms log }
    ensures prices { (terms : Terms) (log : List Event) → (state_of terms log).prices ≡ log_prices terms log }
{}

/// The state after a log is enough for the book of the log.
pub fn desk_book()
    ensures { (terms : Terms) (log : List Event) → book_in (state_of terms log) ≡ book_of_log terms log }
{}

/// Each bidder of the award is in the book of a log at its place, with its name and its bids, also one without bids.
pub fn bidders_of_book()
    ensures count { (terms : Terms) (log : List Event) → length (book_of_log terms log).bidders ≡ length terms.bidders }
    ensures each { (terms : Terms) (log : List Event) (j : ℕ) → 1 ≤ j → j ≤ length terms.bidders
        → bidder_of (book_of_log terms log) j ≡ book_bidder terms (bids_in_book terms log) j }
{}

/// What is in the book of a log. A package has a bid of the bidder exactly if it isn't empty and is among the bidder's clock
/// bids or in its submitted list. Each bid is one of these, and none of them has a greater amount for its package. No bid is
/// for the empty package, and there are no more than a book allows.
pub fn bids_of_book()
    ensures packages { (terms : Terms) (log : List Event) (j : ℕ) (lots : List ℕ)
        → has_entry lots (bids_in_book terms log j)
        ≡ (not (is_empty lots) && has_entry lots (pairs_of (standing terms (admitted terms log) j))) }
    ensures amounts { (terms : Terms) (log : List Event) (j : ℕ)
        → AllByRecursion (IsGreatestFor (pairs_of (standing terms (admitted terms log) j))) (bids_in_book terms log j) }
    ensures some { (terms : Terms) (log : List Event) (j : ℕ)
        → AllByRecursion (λ b. is_empty b.lots ≡ false) (bids_in_book terms log j) }
    ensures few { (terms : Terms) (log : List Event) (j : ℕ) → length (bids_in_book terms log j) ≤ MOST_BIDS }
{}

/// The bids of a bidder in the book are in the order of their packages, each package once.
pub fn book_in_order()
    ensures { (terms : Terms) (log : List Event) (j : ℕ) → InOrder (map bid_lots (bids_in_book terms log j)) }
{}

/// After a log whose packages have the award's number of categories, each bid of the book is within the supply, at least its
/// price at the reserves and at most the greatest amount, if the award keeps the limits of lots and of reserves.
pub fn lawful_bids()
    ensures { (terms : Terms) (log : List Event) (j : ℕ) → AreLimited terms → AllByRecursion (HasCategories terms) log
        → AllByRecursion (IsLawfulBid terms) (bids_in_book terms log j) }
{}

/// After any log the bids that a bidder has in the book are a valid list: each, except the bid for the package of the final
/// round, is at most its cap over the book's own bids.
pub fn book_within_caps()
    ensures { (terms : Terms) (log : List Event) (j : ℕ)
        → list_fault (final_cap terms) terms.points (standing terms (admitted terms log) j).rounds
        (bids_in_book terms log j) ≡ None }
{}
