//! The printed texts: the winners of an auction and, if it is priced, their prices and the turns that led to them, in lines or
//! as JSON. Also the text of a review of a book.
//!
//! Prices are kept net of reserve and are printed gross: the reserve of a winner's package is added.
#![tactic(auto)]

mod certified;
mod fraction;
mod json;
mod json_values;
mod lines;
mod numbers;
mod prices;
mod reviewing;
mod turns;
mod win;

pub use certified::outcome_text;
pub use fraction::{Fraction, add_fraction};
pub use json::outcome_json;
pub use numbers::{add_net, add_numbers};
pub use reviewing::{one_review_text, review_text};
pub use turns::rounds_text;
pub use win::win_text;
