// Lists of events.
use auction_rules::Event;
use wide_num::ItemList;

/// The lines of a log in order, the oldest first.
pub type Events = ItemList<Event>;
