//! Placement certificates: their content and their text.
//!
//! A placement certificate shows that a choice of slots in a band is a greatest one and that the prices of its winners are the
//! core outcome. It contains what a certificate of a book contains, with an order of the bidders for each choice and with
//! tables over sets of bidders. Its text is the text of a certificate with another first line, a line `order` before each line
//! `choice`, and tables of one line.
#![tactic(auto)]

mod certificate;
mod laws;
mod read;
mod write;

pub use cert_text::CertStop;
pub use certificate::{PlaceCertificate, PlaceRow, PlaceRows, PlaceWithout, PlaceWithouts};
pub use laws::{one_place_cert, short_place_text, text_of_place_cert};
pub use read::read_places;
pub use write::write_places;
