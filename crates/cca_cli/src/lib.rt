//! From the arguments and files of a run to a command and the values of its inputs: the commands and their files, the statuses
//! and their lines, and one way to read the value of an input from its file.
#![tactic(auto)]

mod file_text;
mod input;
mod inputs;
mod kind;
mod line;
mod price_form;
mod status;
mod stops;
mod words;

pub use file_text::FileText;
pub use input::{Input, read_input};
pub use inputs::award_input::AwardInput;
pub use inputs::book_input::BookInput;
pub use inputs::edits_input::EditsInput;
pub use inputs::log_input::LogInput;
pub use inputs::place_cert_input::PlaceCertInput;
pub use inputs::slots_input::SlotsInput;
pub use inputs::weights_input::WeightsInput;
pub use kind::{Flags, Kind, Row, Use};
pub use line::{Line, line_of};
pub use price_form::PriceForm;
pub use status::{CertKind, FileKind, Status};
pub use stops::status_of_read;
pub use words::{Command, read_command};
