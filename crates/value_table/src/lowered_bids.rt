// What bids count in a table.
ghost use Rattle.std.specs.Prelude.{IsFalse, IsTrue, ℕ, slice_index_or, ◌≡◌, ◌+◌, ◌*◌, ◌^◌, ◌≤◌, length, pos, neg_ℤ, ◌-ℤ◌, ◌*ℤ◌, unsigned_abs};
ghost use Rattle.std.specs.Int.{int_max};
ghost use Rattle.value_table.specs.Turned.{IsOrderInRange};

use bid_book::BidBook;
use lots::Bid;

/// The greatest denominator of a narrow table.
const NARROW_DEN: u128 = 1 << 13;

/// The greatest surplus of a narrow table.
const NARROW_SURPLUS: u128 = 1 << 56;

/// What the bids of a book count in a table. The bidders are numbered as in the book, or turned round: then number 1 is the last.
/// Bidder `skip` has no bids. A bid of another bidder counts `den` times its net amount less the surplus of its bidder. A bidder
/// that isn't used counts its idle worth. A surplus is times `den`.
#[derive(Drop)]
pub struct LoweredBids<'a> {
    pub book: &'a BidBook,
    pub turned: bool,
    pub skip: u16,
    pub den: i128,
    pub surplus: &'a [i128],
    pub ghost bidders: { length surplus.now ≡ length book.now.bidders },
    pub ghost range: { IsOrderInRange turned book.now skip den surplus.now },
}

impl<'a> LoweredBids<'a> {
    ghost use Rattle.std.specs.Prelude.{◌<◌, ◌≤ℤ◌};
    ghost use Rattle.auction_model.specs.Book.{bids_of};
    ghost use Rattle.auction_model.specs.Package.{is_within};
    ghost use Rattle.value_table.specs.BookTable.{IsInRange};
    ghost use Rattle.value_table.specs.Counted.{seat, counted_bids, counted, AreLoweredBids, IsNeedless, IsNarrow};

    /// What the bids count with the bidders numbered as in the book.
    pub fn new(book: &'a BidBook, skip: u16, den: i128, surplus: &'a [i128]) -> LoweredBids<'a>
        requires bidders { length surplus.now ≡ length book.now.bidders }
        requires range { IsInRange book.now skip den surplus.now }
        ensures { AreLoweredBids book.now skip den surplus.now result }
    {
        LoweredBids {
            book,
            turned: false,
            skip,
            den,
            surplus,
        }
    }

    /// Which bidder of the book has number `j`.
    pub fn bidder(&self, j: u16) -> u16
        requires { (0 < j) × (j ≤ length self.now.book.now.bidders) }
        ensures bidder { result ≡ seat self.now j }
        ensures inside { (0 < result) × (result ≤ length self.now.book.now.bidders) }
    {
        if self.turned {
            self.book.bidders() as u16 - j + 1
        } else {
            j
        }
    }

    /// How many bids of bidder `j` count.
    pub fn bids(&self, j: u16) -> u16
        requires { (0 < j) × (j ≤ length self.now.book.now.bidders) }
        ensures bids { result ≡ (counted_bids self.now).bids j }
        ensures most { result ≤ length (bids_of self.now.book.now (seat self.now j)) }
    {
        if j == self.skip {
            0
        } else {
            self.book.bids(self.bidder(j))
        }
    }

    /// Bid `i` of bidder `j`.
    pub fn bid(&self, j: u16, i: u16) -> &Bid
        requires bidder { (0 < j) × (j ≤ length self.now.book.now.bidders) }
        requires bid { (0 < i) × (i ≤ (counted_bids self.now).bids j) }
        ensures lots { result.now.package ≡ (counted_bids self.now).lots j i }
        ensures categories { length result.now.package ≡ length self.now.book.now.supply }
        ensures fits { IsTrue (is_within result.now.package self.now.book.now.supply) }
    {
        self.book.bid(self.bidder(j), i)
    }

    /// What bid `i` of bidder `j` counts.
    pub fn worth(&self, j: u16, i: u16) -> i128
        requires bidder { (0 < j) × (j ≤ length self.now.book.now.bidders) }
        requires bid { (0 < i) × (i ≤ (counted_bids self.now).bids j) }
        ensures worth { result ≡ counted self.now j i }
        ensures size { unsigned_abs result ≤ 2 ^ 120 }
    {
        let net = self.book.net(self.bidder(j), i);
        lowered_worth(self.den, net, self.surplus[j as usize - 1])
    }

    /// What bidder `j` counts if it isn't used.
    pub fn idle(&self, j: u16) -> i128
        requires { (0 < j) × (j ≤ length self.now.book.now.bidders) }
        ensures worth { result ≡ counted self.now j 0 }
        ensures size { unsigned_abs result ≤ 2 ^ 120 }
    {
        idle_worth(self.surplus[j as usize - 1])
    }

    /// Whether bid `i` of bidder `j` changes no entry, since an earlier number of it, or none, takes no more and counts at least
    /// as much.
    pub fn is_needless(&self, j: u16, i: u16) -> bool
        requires bidder { (0 < j) × (j ≤ length self.now.book.now.bidders) }
        requires bid { (0 < i) × (i ≤ (counted_bids self.now).bids j) }
        ensures needless { IsTrue result → IsNeedless self.now j i }
        ensures sign { IsFalse result → pos 0 ≤ℤ counted self.now j i }
    {
        self.book.kept();
        if self.den >= 0 && self.book.better(self.bidder(j), i) != 0 {
            return true;
        }
        self.worth(j, i) <= self.idle(j)
    }

    /// Whether all sums are of 62 bits, by a test that needs no sum.
    pub fn is_narrow(&self) -> bool
        ensures { IsTrue result → IsNarrow self.now }
    {
        self.book.kept();
        self.den.unsigned_abs() <= NARROW_DEN && are_narrow(self.surplus)
    }
}

/// Whether no number is larger than a narrow surplus.
fn are_narrow(numbers: &[i128]) -> bool
    ensures { IsTrue result → (k : ℕ) → unsigned_abs (slice_index_or numbers.now k (pos 0)) ≤ 2 ^ 56 }
{
    for i in 0..numbers.len() {
        if numbers[i].unsigned_abs() > NARROW_SURPLUS {
            return false;
        }
    }
    true
}

fn lowered_worth(den: i128, net: i128, surplus: i128) -> i128
    requires { unsigned_abs den * unsigned_abs net + unsigned_abs surplus ≤ 2 ^ 120 }
    ensures { result ≡ (den *ℤ net) -ℤ surplus }
{
    den * net - surplus
}

fn idle_worth(surplus: i128) -> i128
    requires { unsigned_abs surplus ≤ 2 ^ 120 }
    ensures { result ≡ int_max (pos 0) (neg_ℤ surplus) }
{
    if surplus < 0 { -surplus } else { 0 }
}
