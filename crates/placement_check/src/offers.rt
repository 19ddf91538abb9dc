// The bids that a table over sets is tested for.
ghost use Rattle.std.specs.Prelude.{◌≡◌, ◌≤◌, ◌<◌, ◌^◌, length, unsigned_abs, ◌*ℤ◌, ◌-ℤ◌};
ghost use Rattle.limits.specs.declared.TheConstants.{MOST_LOTS};
ghost use Rattle.slot_places.specs.Board.{board_without};
ghost use Rattle.slot_places.specs.Slots.{amount_of};
ghost use Rattle.placement_check.specs.OfferRules.{worth_with, HasSmallWorths};

use crate::amounts::amount;
use slot_places::Slots;

/// The bids of all bidders but `skip`, each with `den` times its amount less what its bidder gains, times `den`.
#[derive(Drop)]
pub(crate) struct TestedBids<'a> {
    pub slots: &'a Slots,
    pub skip: u16,
    pub den: i128,
    pub gains: &'a [i128],
    pub ghost sizes: { HasSmallWorths slots.now skip den gains.now },
}

impl<'a> TestedBids<'a> {
    /// How many bids of bidder `j` count.
    pub fn bids(&self, j: u16) -> u16
        requires { (0 < j) × (j ≤ length self.now.slots.now.bidders) }
        ensures bids { result ≡ (board_without self.now.slots.now self.now.skip).bids j }
        ensures most { result ≤ MOST_LOTS }
    {
        if j == self.skip {
            0
        } else {
            self.slots.places(j)
        }
    }

    /// What bid `i` of bidder `j` counts.
    pub fn worth(&self, j: u16, i: u16) -> i128
        requires bidder { (0 < j) × (j ≤ length self.now.slots.now.bidders) }
        requires size { unsigned_abs (self.now.den *ℤ amount_of self.now.slots.now j i) < 2 ^ 120 }
        ensures worth { result ≡ worth_with self.now.slots.now self.now.den self.now.gains.now j i }
        ensures size { unsigned_abs result < 2 ^ 121 }
    {
        self.slots.kept();
        lowered(
            self.den,
            amount(self.slots, j, i),
            self.gains[j as usize - 1],
        )
    }
}

/// What an amount counts if its bidder gains that much.
fn lowered(den: i128, amount: i128, gain: i128) -> i128
    requires product { unsigned_abs (den *ℤ amount) < 2 ^ 120 }
    requires gain { unsigned_abs gain < 2 ^ 120 }
    ensures worth { result ≡ (den *ℤ amount) -ℤ gain }
    ensures size { unsigned_abs result < 2 ^ 121 }
{
    den * amount - gain
}
