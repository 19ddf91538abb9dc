//! Certificates of the prices of a book: their content and their text.
//!
//! A certificate shows that the winners are the first choice of greatest net value and that their prices are the core outcome.
//! It contains the winning choice with its exact table, a choice and a table without each winner, the payments, the rows that
//! require them with their multipliers, and the table of the worths that are lowered by each winner's surplus. Amounts are net
//! of reserve.
#![tactic(auto)]

mod certificate;
mod fields;
mod lists;
mod read;
mod shared;
mod spelled;
mod stop;
mod version;
mod write;

pub use certificate::{CertRow, Certificate, Shape, WithoutPart};
pub use lists::{CertRows, WithoutList};
pub use read::read_cert;
pub use shared::shared_table;
pub use stop::CertStop;
pub use version::has_first_version;
pub use write::write_cert;

// What the text of another certificate by a plan is read and written with.
pub use read::end_at;
pub use read::fields::{
    ChoiceRead, CountRead, MembersRead, SignedRead, SmallRead, take_choice, take_count, take_each,
    take_members, take_signed, take_these,
};
pub use read::parts::take_winner;
pub use read::rows::{PairRead, take_pair};
pub use read::stages::{Opening, take_closing, take_opening};
pub use read::tables::{TableRead, take_named};
pub use write::{
    add_choice, add_head, add_number_line, add_rows, add_signed_line, add_table, add_version,
};
