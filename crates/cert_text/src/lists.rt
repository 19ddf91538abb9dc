// Lists of the parts and the rows of a certificate.
use crate::{CertRow, WithoutPart};
use wide_num::ItemList;

/// A list of parts without a winner.
pub type WithoutList = ItemList<WithoutPart>;

/// A list of rows.
pub type CertRows = ItemList<CertRow>;
