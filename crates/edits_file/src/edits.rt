// Lists of edits.
use review::Edit;
use wide_num::ItemList;

/// Edits of a book, in their order.
pub type Edits = ItemList<Edit>;
