//! What is printed of a certificate: its facts, without its tables and its rows.
#![tactic(auto)]

mod shown;
mod singles;

pub use shown::{CertFacts, facts};
pub use singles::Singles;
