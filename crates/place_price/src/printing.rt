// The printed text of a placement: where each bidder starts, what the winners pay, the value and the revenue. A band has no reserves, so
// all amounts are printed as they are kept.

mod laws;
mod lines;
mod text;

pub use laws::one_place_text;
pub use text::place_text;
