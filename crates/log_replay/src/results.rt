// What a replay leads to.
use bid_book::BidBook;
use wide_num::Text;

/// Why a log has no book.
#[derive(Clone, Copy, Debug, PartialEq, Eq)]
pub enum ReplayStop {
    /// A close was refused because there are as many rounds as there may be and still more is asked for than is sold: the number of the
    /// round that it would have posted.
    Rounds(u64),
    /// A close was refused because it would raise a price to this, which is above the greatest price.
    Price(u64),
    /// No close was refused, but the sealed round isn't closed after the last line.
    Open,
}

/// What the log of an auction leads to.
#[derive(Drop)]
pub struct Replay {
    /// A line for each line of the log, in its order: its number, counted from 1, and its reply.
    pub replies: Text,
    /// The book of the log, or why there is none.
    pub end: Result<BidBook, ReplayStop>,
}
