//! Every limit of an auction and of its files, each once, by name; and the names by which a quantity above its limit is reported.
//!
//! Clauses, definitions and bodies cite these constants. Some proofs write a limit in digits: after a change, the check names them.
//! Each crate that cites the limit, and each crate above it, is proved again.
//!
//! # What follows from a limit
//!
//! The numbers of pricing have to stay below 2^120 in size. The bounds that show this follow from a few limits, and are
//! written by hand in the crates that are named. After a change of such a limit, choose these bounds again.
//!
//! | Bound | What it bounds | Follows from | Written in |
//! |---|---|---|---|
//! | `MOST_VALUE` 2^46 | a choice's value, a bound of a row, the sum of all prices | bidders * amount | here |
//! | `MOST_WEIGHTED_VALUE` 2^45 | these three, if not all weights are 1 | 2 * weighted winners * amount | here |
//! | 6, 80 | an entry of a system, without weights and with them | winners, weighted winners * weight | `lin_solve` |
//! | 36, 320 | the sum of a line of a system | winners * entry | `lin_solve` |
//! | 2^32, 320^4 | a denominator | line ^ winners | `lin_solve`, `nearest_point`, `core_price` |
//! | 2^106 | a part of a multiplier of a system | denominator * winners * line ^ (winners - 1) * value | `lin_solve`, `nearest_point` |
//! | 120 | a far part of a right side | winners * weight | `nearest_point` |
//! | 2^113 | a part of a point | winners * weight * 2^106 | `nearest_point` |
//! | 2^109 | a payment, a row's multiplier | winners * 2^106 | `nearest_point`, `core_price`, `book_price` |
//! | 2^80 | the excess of a block | denominator * value | `core_price` |
//! | 2^110 | a lowered worth | 2^109 + 2^80 | `core_price` |
//! | 2^47, 2^48 | a Vickrey price, net and with its reserve | value | `cert_summary`, `outcome` |
//! | 2^13, 2^56 | the denominator and the surpluses of a table in 64 bits | amount | `value_table` |
//! | 2^38 | a price after a raise | price, permille of a step | `clock_stage` |
//! | 2^54 | the cost of a package in a drawn auction | price | `big_auction` |
//! | 232,792,560 | the least number that each weight divides | weight | `auction_model` and what cites `share` |
//! | `PRICED_CERT_BYTES` | the bytes of a certificate that pricing writes | bidders, states, amount, winners | `cert_soundness` |
//!
//! Six winners are the most that this method can price in 128 bits: with seven the bound of 2^106 would be 2^122. A set of winners
//! is the bits of a `u16`, so there are at most 16 bidders.
#![tactic(auto)]

/// A quantity that has a limit. It is printed in lower case.
#[derive(Clone, Copy, Debug, PartialEq, Eq)]
pub enum LimitKind {
    /// The bytes of a file.
    Bytes,
    /// The categories of a supply.
    Categories,
    /// The lots over all categories.
    Lots,
    /// The states of a supply, the product of its counts, each one more.
    States,
    /// The bidders of an auction.
    Bidders,
    /// The bids of one bidder in a book.
    Bids,
    /// The records of a log.
    Records,
    /// The rounds of a clock stage.
    Rounds,
    /// A price of a clock stage.
    Price,
    /// The winners that are priced.
    Winners,
}

/// The most bytes of an award file.
pub const AWARD_BYTES: u64 = 65_536;

/// The most bytes of a log file.
pub const LOG_BYTES: u64 = 8_388_608;

/// The most bytes of a book file.
pub const BOOK_BYTES: u64 = 1_048_576;

/// The most bytes of a certificate file.
pub const CERT_BYTES: u64 = 67_108_864;

/// The text of a certificate that pricing writes has fewer bytes than this, where the book is within its limits.
pub const PRICED_CERT_BYTES: u64 = 57_000_000;

/// The most bytes of a file of weights.
pub const WEIGHTS_BYTES: u64 = 65_536;

/// The most bytes of a file of slots.
pub const SLOTS_BYTES: u64 = 65_536;

/// The most bytes of a file of edits.
pub const EDITS_BYTES: u64 = 1_048_576;

/// The most edits of a file.
pub const MOST_EDITS: u64 = 1_000;

/// The most categories of a supply.
pub const MOST_CATEGORIES: usize = 6;

/// The most lots that one category of a text may have, where the limit of all lots is tested later.
pub const MOST_COUNT: u64 = 999;

/// The most lots over all categories.
pub const MOST_LOTS: u64 = 40;

/// The most states of a supply.
pub const MOST_STATES: u64 = 16_384;

/// The most bidders of an auction.
pub const MOST_BIDDERS: usize = 16;

/// The most bids of one bidder in a book.
pub const MOST_BIDS: u16 = 600;

/// The most records of a log.
pub const MOST_RECORDS: u64 = 100_000;

/// The most rounds of a clock stage.
pub const MOST_ROUNDS: u64 = 300;

/// The most entries of a draft list.
pub const MOST_DRAFTS: u64 = 300;

/// The most eligibility points of a lot.
pub const MOST_POINTS: u64 = 10_000;

/// The most eligibility points of a bidder in round 1.
pub const MOST_ELIGIBILITY: u64 = 1_000_000;

/// The most steps of an award.
pub const MOST_STEPS: usize = 20;

/// The greatest excess demand that a step of an award may name, in lots.
pub const MOST_EXCESS: u64 = 1_000;

/// The greatest raise of a step of an award, in thousandths.
pub const MOST_PERMILLE: u64 = 1_000;

/// The most spectrum caps of an award.
pub const MOST_CAPS: usize = 20;

/// The greatest weight of a lot in a spectrum cap.
pub const MOST_CAP_WEIGHT: u16 = 1_000;

/// The greatest limit of a spectrum cap, in weighted lots.
pub const MOST_CAP_LIMIT: u64 = 1_000_000;

/// The greatest count of a category that a line may state for a package, which need not fit the supply.
pub const MOST_STATED_COUNT: u64 = 65_535;

/// The greatest amount that a line may state, which may be above the greatest of a bid: 10^18.
pub const MOST_STATED_AMOUNT: u64 = 1_000_000_000_000_000_000;

/// The most bytes of a name.
pub const MOST_NAME_BYTES: usize = 20;

/// The greatest price of a lot, which is the greatest reserve too: 2^36.
pub const MOST_PRICE: u64 = 68_719_476_736;

/// The greatest amount of a bid, reserve included: 2^42.
pub const MOST_AMOUNT: u64 = 4_398_046_511_104;

/// The greatest weight of a bidder.
pub const MOST_WEIGHT: u64 = 20;

/// The most winners that are priced.
pub const MOST_WINNERS: usize = 6;

/// The most winners that are priced where their weights aren't all 1.
pub const MOST_WEIGHTED_WINNERS: usize = 4;

/// The greatest value of a choice, at which each bidder wins the greatest amount: 2^46.
pub const MOST_VALUE: u64 = MOST_BIDDERS as u64 * MOST_AMOUNT;

/// The greatest value of a choice that is priced where the winners' weights aren't all 1, with room to spare: 2^45.
pub const MOST_WEIGHTED_VALUE: u64 = 2 * MOST_WEIGHTED_WINNERS as u64 * MOST_AMOUNT;

/// The most rows of a certificate.
pub const MOST_ROWS: usize = 10;

/// The greatest number of a bid that a certificate may state, which need not be one of the book's.
pub const MOST_CHOSEN: u16 = 65_535;

/// The most bidders of a band.
pub const MOST_PLACED: usize = 6;

/// The most bidders of a certificate whose text is of the first version.
pub const FIRST_VERSION_BIDDERS: usize = 12;

/// The most states of a certificate whose text is of the first version.
pub const FIRST_VERSION_STATES: u64 = 4_096;

// A package costs no more than the greatest amount at the greatest prices.
const _: () = prove!(MOST_LOTS * MOST_PRICE <= MOST_AMOUNT);

// All bidders of a band can win, and all winners are bidders.
const _: () = prove!(MOST_PLACED <= MOST_WINNERS && MOST_WINNERS <= MOST_BIDDERS);

// Pricing keeps at most one row for each winner.
const _: () = prove!(MOST_WINNERS <= MOST_ROWS);

// A set of bidders is the bits of a `u16`.
const _: () = prove!(MOST_BIDDERS <= 16);
