// What the tests of the tables share: the room for a line, and the sum of the payments.
ghost use Rattle.std.specs.Prelude.{◌≡◌, ◌≤◌, length};
ghost use Rattle.auction_model.specs.Lowered.{of_bidder};
ghost use Rattle.auction_model.specs.Prices.{everyone, sum_over};
ghost use Rattle.cert_grammar.specs.CertText.{AllInRange};
ghost use Rattle.limits.specs.declared.TheConstants.{MOST_BIDDERS};

pub(crate) mod earlier;
pub(crate) mod gains;

use limits::{MOST_BIDDERS, MOST_STATES};

/// Room for a number of each bidder.
pub const BIDDER_ROOM: usize = MOST_BIDDERS as usize;

/// Room for a number of each state.
pub(crate) const STATE_ROOM: usize = MOST_STATES as usize;

/// The sum of all payments.
pub fn sum_paid(payments: &[i128]) -> i128
    requires few { length payments.now ≤ MOST_BIDDERS }
    requires sizes { AllInRange payments.now }
    ensures { result ≡ sum_over everyone (of_bidder payments.now) (length payments.now) }
{
    let mut sum = 0;
    for k in 0..payments.len() {
        sum += payments[k];
    }
    sum
}
