//! Books of bids and their text.
#![tactic(auto)]

mod bidders;
mod book;
mod laws;
mod lists;
mod name;
mod read;
mod stop;
mod write;

pub use bidders::{BidderBids, Bidders};
pub use book::BidBook;
pub use book_grammar::Excess;
pub use laws::{one_book, one_text, rules_with_bid, some_book};
pub use limits::LimitKind;
pub use lists::{BidList, Reserves};
pub use name::Name;
pub use read::entries::name_text;
pub use read::fields::is_name;
pub use read::read_book;
pub use write::write_book;

/// Why bytes aren't a book.
#[derive(Clone, Copy, Debug, PartialEq, Eq)]
pub enum BookStop {
    /// The byte where the first faulty line begins, counted from 0.
    Form(u64),
    /// A quantity that exceeds its limit, at the first line where one does, with its count.
    Limit(LimitKind, u64),
    /// Out of memory.
    Memory,
}
