// Edits of a book, and the replies to them.
use lots::Package;

/// A change of one bid of a book. Bidder 0 is one that the book doesn't have.
#[derive(Drop)]
pub enum Edit {
    /// A bid for a package without a bid of the bidder.
    Add {
        bidder: u16,
        package: Package,
        amount: u64,
    },
    /// A greater amount for a package with a bid of the bidder.
    Raise {
        bidder: u16,
        package: Package,
        amount: u64,
    },
    /// The bid of the bidder for a package is taken out.
    Remove {
        bidder: u16,
        package: Package,
    },
}

/// The reply to an edit: the first of these, in this order after `Ok`, whose condition is true.
#[derive(Clone, Copy, Debug, PartialEq, Eq)]
pub enum EditReply {
    /// The book has the edit.
    Ok,
    /// The book doesn't have the bidder.
    Unknown,
    /// The count of this category, counted from 1, is above the supply; it is the first such category.
    Supply(u16),
    /// The package is empty.
    Empty,
    /// The bidder has a bid for the package that is to be added, of this amount.
    Present(u64),
    /// The bidder has no bid for the package that is to be raised or taken out.
    Absent,
    /// The raised amount isn't above this one of the bid.
    NotHigher(u64),
    /// The amount of an added bid is below this price of the package at reserve.
    BelowReserve(u64),
    /// The amount is above this greatest one.
    AmountTop(u64),
    /// The bidder has this many bids, and no room for one more.
    Full(u64),
    /// Out of memory.
    Memory,
}
