// Lists of rows and of turns.
use crate::{PricedRow, Turn};
use wide_num::ItemList;

/// A list of rows with their multipliers.
pub type RowList = ItemList<PricedRow>;

/// A list of turns.
pub type TurnList = ItemList<Turn>;
