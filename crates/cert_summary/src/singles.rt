// Lists of single winners.
use choices::Single;
use wide_num::ItemList;

/// The single winners of a choice, in order.
pub type Singles = ItemList<Single>;
