//! Relative caps: what a bidder may offer for a package in the sealed round, by what it did in the clock.
//!
//! A list is tested in one of two ways, with the same result. The functions compute one package, amount or list from the
//! history, and take no memory: they are for single questions. A `ListTester` is for a bidder's lists one after another, as a
//! desk gets them: it keeps the rounds' results for the packages that it has tested.
#![tactic(auto)]

mod amounts;
mod answer;
mod caps;
mod entries;
mod levels;
mod packages;
mod rounds;
mod terms;
mod tester;

pub use amounts::{amount_listed, highest, place_of};
pub use answer::{Cap, OverCap};
pub use caps::{cap, list_fault};
pub use packages::is_same;
pub use rounds::constraining_round;
pub use tester::ListTester;
