// A line that has come.
ghost use Rattle.std.specs.Prelude.{◌≡◌, length};
ghost use Rattle.auction_model.specs.Prices.{AreWeights};
ghost use Rattle.cert_soundness.specs.Tests.{bidders_of, states};
ghost use Rattle.cert_stream.specs.Rooms.{room_size};

use crate::row_totals::RowTotals;
use bid_book::BidBook;
use cert_stream::NextLine;

/// A line that has come whole and in range, and what is kept of those before it.
#[derive(Drop)]
pub(crate) struct LineContext<'a> {
    pub(crate) book: &'a BidBook,
    pub(crate) weights: &'a [u32],
    /// Which line it is.
    pub(crate) due: NextLine,
    /// How many numbers it has.
    pub(crate) count: usize,
    /// The numbers of the lines, each line's in its part.
    pub(crate) room: &'a [i128],
    /// What was found early of the table that is read.
    pub(crate) late: Option<u64>,
    /// How many members the row has that is read.
    pub(crate) members: usize,
    /// Whether the line before it, if both are lines of one table, is known never to fall.
    pub(crate) grows: bool,
    pub(crate) totals: &'a RowTotals,
    pub ghost sized: { length room.now ≡ room_size (bidders_of book.now) (states book.now) },
    pub ghost weighed: { AreWeights (bidders_of book.now) weights.now },
}
