//! The settings of an award: what is sold, at what reserves and points, how prices rise, who bids, and the spectrum caps. It
//! also has the reader of their files.
#![tactic(auto)]

mod award;
mod caps;
mod entrants;
mod laws;
mod read;
mod steps;

pub use award::Award;
pub use caps::CapFault;
pub use laws::{book_of_award, stated_award};
pub use limits::LimitKind;
pub use read::{AwardStop, read_award};
pub use steps::StepTable;
