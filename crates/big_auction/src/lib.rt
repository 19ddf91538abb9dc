//! A large valid auction from a number: an award, and a complete log of it.
#![tactic(auto)]

mod award;
mod draws;
mod laws;
mod lines;
mod made;
mod prices;
mod values;

pub use laws::{answered_log, few_winners, lawful_award, stated_award, stated_log};
pub use made::{Made, make};
