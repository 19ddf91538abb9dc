// How each kind of file is read.

pub(crate) mod award_input;
pub(crate) mod book_input;
pub(crate) mod edits_input;
pub(crate) mod log_input;
pub(crate) mod place_cert_input;
pub(crate) mod slots_input;
pub(crate) mod weights_input;
