//! The prices of a book with their certificate.
//!
//! The table of all bids is built once. The winning choice, the tables without each winner and the winners' Vickrey prices come
//! from it, and the certificate shares its lines and the lines of all other tables.
#![tactic(auto)]

mod bidder_rows;
mod certificate;
mod laws;
mod parts;
mod pricing;

pub use laws::books_can_be_priced;
pub use pricing::{PricedBook, price_book};
