//! What each command computes of its files: what it prints, and what it appends.
#![tactic(auto)]

mod auction;
mod checked;
mod commands;
mod made;
mod placing;
mod price_text;
mod pricing;
mod reviewing;
mod verdict;
mod win;
mod work;

pub use auction_model::{book_market, core_outcome, vickrey_prices, winning_choice};
pub use auction_rules::{bidders_of_book, bids_of_book, book_in_order};
pub use award_file::book_of_award;
pub use bid_book::{one_book, one_text};
pub use cca_cli::{CertKind, Command, FileKind, FileText, Status, line_of, read_command};
pub use cert_grammar::{one_cert, text_of_cert};
pub use cert_output::write_long;
pub use cert_soundness::{one_verdict, short_text, sound_yes};
pub use commands::work_out;
pub use core_laws::plain_outcome;
pub use edits_file::one_edits;
pub use log_file::{one_reading, packages_of_log};
pub use outcome::one_review_text;
pub use place_price::one_place_text;
pub use placement_cert::{one_place_cert, short_place_text, text_of_place_cert};
pub use placement_check::{one_place_verdict, one_pricing, sound_places};
pub use print_grammar::{one_outcome_json, one_price_text, one_run_text};
pub use slot_places::{one_slots, slot_market};
pub use weights_file::one_weighing;
pub use work::{Stop, Work};
