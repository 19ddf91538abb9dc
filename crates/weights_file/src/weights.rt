// Lists of weights.
use wide_num::ItemList;

/// The weights of the bidders of a book, in the order of the bidders.
pub type Weights = ItemList<u32>;
