// What the first three tests have shown.
ghost use Rattle.std.specs.Prelude.{◌≡◌, ◌<◌, ◌≤◌};
ghost use Rattle.auction_model.specs.Market.{number_of};
ghost use Rattle.cert_check.specs.Head.{IsHead};

use crate::judging::number;
use bid_book::BidBook;

/// The denominator, the value and the choice of a certificate of a book that passes the first three
/// tests.
#[derive(Drop)]
pub struct Claim<'a> {
    pub book: &'a BidBook,
    pub den: i128,
    pub value: i128,
    /// The winning choice, bidder by bidder.
    pub choice: &'a [u16],
    pub ghost shown: { IsHead book.now den value choice.now },
}

impl<'a> Claim<'a> {
    ghost use Rattle.cert_soundness.specs.Tests.{bidders_of};

    /// The number that the choice gives to bidder `j`.
    pub fn number(&self, j: u16) -> u16
        requires { (0 < j) × (j ≤ bidders_of self.now.book.now) }
        ensures { result ≡ number_of self.now.choice.now j }
    {
        number(self.choice, j)
    }
}
