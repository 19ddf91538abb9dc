//! The top call: from words and files to what is printed.
#![tactic(auto)]

mod append;
mod auction_laws;
mod laws;
mod print;
mod top;

pub use auction_laws::{made_auction, one_auction};
pub use cca_commands::{CertKind, FileKind, Status};
pub use laws::{
    awarded_cert_passes, complete_log_ends, complete_log_is_awarded, headline, limit_of_ones,
    one_outcome, placed_cert_passes, verdicts, weighed_cert_passes, written_cert_passes,
};
pub use top::run;
