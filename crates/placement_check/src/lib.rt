//! The certificates of placements in a band: what each test asks, what acceptance shows, and the checker. It takes no memory.
//!
//! A placement certificate shows which bidders win their bids for a start in a band, the order that places all bidders side by
//! side, what the winners pay, and why. It is a certificate whose tables go over sets of bidders: the entry of a set is the
//! greatest worth of the bidders outside it, if the bidders of the set are placed first (Held and Karp, A dynamic programming
//! approach to sequencing problems, Journal of the Society for Industrial and Applied Mathematics 10, 1962). Each choice has an
//! order that allows it. So the tests P1 to P9 need no search, and they ask that the choice is one of the greatest, not the
//! first of them.
//!
//! The nine tests, in their order, and the function that runs each at a place:
//!
//! - P1: the denominator and the value are of the right size: `heads::sizes_hold`;
//! - P2: each number names a bid, the order allows the choice, and its worth is the value: `heads::choice_holds`;
//! - P3: the table shows that no choice is worth more: `heads::amounts_hold`;
//! - P4: each winner's part shows a best choice without it: `parts::part_holds`;
//! - P5: a winner pays no more than it bids, and a loser nothing: `claims::payment_holds`;
//! - P6: the members of a row win, and pay just what they have to pay together: `claims::row_holds`;
//! - P7: the first multipliers of the rows show that no core payments have a smaller sum: `claims::least_holds`;
//! - P8: the second ones show that these are nearest to the Vickrey prices among those of least sum: `claims::nearest_holds`;
//! - P9: the lowered table shows that no set of bidders blocks the payments: `heads::lowered_holds`.
#![tactic(auto)]

mod amounts;
mod checking;
mod claims;
mod figures;
mod heads;
mod laws;
mod offers;
mod parts;
mod sums;
mod tables;

pub use cert_check::{Verdict, sum_paid};
pub use checking::check_places;
pub use claims::vickrey;
pub use laws::{
    exact_set_tables, exact_tests, first_entries, one_place_verdict, one_pricing, set_sizes,
    sound_places,
};
