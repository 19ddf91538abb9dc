// The bids that a table is tested for.
ghost use Rattle.std.specs.Prelude.{◌≡◌, ◌^◌, ◌<◌, ◌≤◌, length, ◌-ℤ◌, ◌*ℤ◌, unsigned_abs};
ghost use Rattle.auction_model.specs.Book.{bids_of};
ghost use Rattle.cert_soundness.specs.Tests.{bidders_of};
ghost use Rattle.table_check.specs.Worths.{HasSmallWorths};

use bid_book::BidBook;

/// The bids that a table is tested for. Bidder `skip` has none, and 0 skips nobody. A bid is worth the denominator times its
/// net amount, less what its bidder gains: its net amount if the denominator is 1 and nobody gains.
#[derive(Drop)]
pub struct TestedBids<'a> {
    pub book: &'a BidBook,
    pub skip: u16,
    pub den: i128,
    pub gains: &'a [i128],
    pub ghost sizes: { HasSmallWorths book.now den gains.now },
}

impl<'a> TestedBids<'a> {
    ghost use Rattle.std.specs.Prelude.{IsTrue};
    ghost use Rattle.table_check.specs.LineTests.{offered, worth_of, IsNeedless};

    /// How many bids of bidder `j` there are.
    pub fn bids(&self, j: u16) -> u16
        requires { (0 < j) × (j ≤ bidders_of self.now.book.now) }
        ensures bids { result ≡ (offered self.now).bids j }
        ensures most { result ≤ length (bids_of self.now.book.now j) }
    {
        if j == self.skip { 0 } else { self.book.bids(j) }
    }

    /// What bid `i` of bidder `j` is worth.
    pub fn worth(&self, j: u16, i: u16) -> i128
        requires bidder { (0 < j) × (j ≤ bidders_of self.now.book.now) }
        requires bid { (0 < i) × (i ≤ length (bids_of self.now.book.now j)) }
        ensures worth { result ≡ worth_of self.now j i }
        ensures size { unsigned_abs result < 2 ^ 122 }
    {
        self.book.kept();
        scaled_less(self.den, self.book.net(j, i), self.gains[j as usize - 1])
    }

    /// Whether an earlier number of bidder `j`, or none, takes no more than its bid `i` and is worth at least as much. On a line
    /// that never falls its rule follows then from the others.
    pub fn is_needless(&self, j: u16, i: u16) -> bool
        requires bidder { (0 < j) × (j ≤ bidders_of self.now.book.now) }
        requires bid { (0 < i) × (i ≤ length (bids_of self.now.book.now j)) }
        ensures { IsTrue result → IsNeedless self.now j i }
    {
        self.book.kept();
        if self.den >= 0 && self.book.better(j, i) != 0 {
            return true;
        }
        self.worth(j, i) <= 0
    }
}

/// `den * net - less`, which stays in the range.
pub fn scaled_less(den: i128, net: i128, less: i128) -> i128
    requires product { unsigned_abs (den *ℤ net) < 2 ^ 120 }
    requires less { unsigned_abs less < 2 ^ 121 }
    ensures value { result ≡ (den *ℤ net) -ℤ less }
    ensures size { unsigned_abs result < 2 ^ 122 }
{
    den * net - less
}
