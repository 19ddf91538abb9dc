//! The prices of placements in a band with their certificate, and their printed text.
//!
//! The winning choice, the best choices without each winner and the searches of pricing each leave an exact table over sets of
//! bidders after, which the certificate keeps, with the placement of each of its choices.
#![tactic(auto)]

mod alone;
mod bidder_rows;
mod certificate;
mod placing;
mod pricing;
mod printing;

pub use placement_cert::{
    CertStop, PlaceCertificate, PlaceRow, PlaceRows, PlaceWithout, PlaceWithouts, read_places,
    write_places,
};
pub use placement_check::{Verdict, check_places};
pub use pricing::{PricedPlaces, place_rounds, price_places, priced_places};
pub use printing::{one_place_text, place_text};
