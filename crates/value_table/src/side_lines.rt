// The lines of both sides of a book, computed one by one in place.
ghost use Rattle.std.specs.Prelude.{◌≡◌, ℕ, ◌-◌, ◌≤◌, ◌<◌, length, pos, slice_index_or};
ghost use Rattle.auction_model.specs.Book.{bids_of, menu_of, net_of};
ghost use Rattle.auction_model.specs.Place.{left_at, states_of};
ghost use Rattle.auction_model.specs.Steps.{IsFirstNumber};
ghost use Rattle.auction_model.specs.Table.{IsLine};
ghost use Rattle.value_table.specs.LineBuffers.{HasRoom};
ghost use Rattle.value_table.specs.SideLines.{IsLeftLine, IsRightLine};
ghost use Rattle.value_table.specs.SideValues.{IsRightEntry};
ghost use Rattle.value_table.specs.Turned.{in_order, worths_in_order};

use crate::buffers::LineBuffers;
use crate::lines::put_line;
use crate::lowered_bids::LoweredBids;
use crate::short::is_short;
use crate::tracing::first_number;
use bid_book::BidBook;
use limits::MOST_BIDDERS;

/// Makes `line` the line of the bidders after `k - 1` from the line of the bidders after `k`: line `k - 1` of the exact table
/// of the net amounts from line `k`. Each has one number for each place of the supply. It is computed in 32 bits, or if these
/// are too few in 64, in lists of room as long as a line, and takes no memory.
pub fn narrow_right_line(
    book: &BidBook,
    k: u16,
    after: &[i128],
    line: &mut [i128],
    buffers: &mut LineBuffers,
)
    requires bidder { (0 < k) × (k ≤ length book.now.bidders) }
    requires after { IsRightLine book.now k after.now }
    requires places { length line.old ≡ states_of book.now.supply }
    requires buffers { HasRoom (states_of book.now.supply) buffers.old }
    ensures line { IsRightLine book.now (k - 1) line.new }
    ensures buffers { HasRoom (states_of book.now.supply) buffers.new }
{
    let zeros = [0i128; MOST_BIDDERS];
    side_line(
        book,
        false,
        &zeros[..book.bidders()],
        k,
        after,
        line,
        buffers,
    );
}

/// Makes `line` the line of the bidders up to `k` from the line of the bidders up to `k - 1`, in the same way. Each number is
/// the greatest net value of a choice of these bidders within what the place leaves.
pub fn narrow_left_line(
    book: &BidBook,
    k: u16,
    before: &[i128],
    line: &mut [i128],
    buffers: &mut LineBuffers,
)
    requires bidder { (0 < k) × (k ≤ length book.now.bidders) }
    requires before { IsLeftLine book.now (k - 1) before.now }
    requires places { length line.old ≡ states_of book.now.supply }
    requires buffers { HasRoom (states_of book.now.supply) buffers.old }
    ensures line { IsLeftLine book.now k line.new }
    ensures buffers { HasRoom (states_of book.now.supply) buffers.new }
{
    let zeros = [0i128; MOST_BIDDERS];
    let bidders = book.bidders();
    let turned = bidders as u16 - k + 1;
    side_line(book, true, &zeros[..bidders], turned, before, line, buffers);
}

/// The first number of bidder `k`, by the order of ties, that lets it and the bidders after it reach the entry of a place: the
/// entry is in line `k - 1` of the exact table of the net amounts, and `after` is line `k`. It takes no memory.
pub fn right_number(book: &BidBook, k: u16, place: usize, entry: i128, after: &[i128]) -> u16
    requires bidder { (0 < k) × (k ≤ length book.now.bidders) }
    requires place { place < states_of book.now.supply }
    requires entry { IsRightEntry book.now (k - 1) (left_at book.now.supply place) entry }
    requires after { IsRightLine book.now k after.now }
    ensures known { result ≤ length (bids_of book.now k) }
    ensures first { IsFirstNumber (menu_of book.now) (net_of book.now) book.now.supply k place entry after.now result }
{
    let zeros = [0i128; MOST_BIDDERS];
    plain_number(book, &zeros[..book.bidders()], k, place, entry, after)
}

/// Line `j - 1` of the table of the net amounts from line `j`, with the bidders as in the book or turned round, computed in 32 bits or
/// 64. No bidder has a surplus.
fn side_line(
    book: &BidBook,
    turned: bool,
    surplus: &[i128],
    j: u16,
    below: &[i128],
    line: &mut [i128],
    buffers: &mut LineBuffers,
)
    requires bidder { (0 < j) × (j ≤ length book.now.bidders) }
    requires count { length surplus.now ≡ length book.now.bidders }
    requires zeros { (k : ℕ) → slice_index_or surplus.now k (pos 0) ≡ pos 0 }
    requires below { IsLine (in_order turned (menu_of book.now))
        (worths_in_order turned (length book.now.bidders) (net_of book.now)) book.now.supply j below.now }
    requires places { length line.old ≡ states_of book.now.supply }
    requires buffers { HasRoom (states_of book.now.supply) buffers.old }
    ensures line { IsLine (in_order turned (menu_of book.now))
        (worths_in_order turned (length book.now.bidders) (net_of book.now)) book.now.supply (j - 1) line.new }
    ensures buffers { HasRoom (states_of book.now.supply) buffers.new }
{
    book.kept();
    let lowered = LoweredBids {
        book,
        turned,
        skip: 0,
        den: 1,
        surplus,
    };
    if is_short(&lowered, j, below) {
        put_line(
            &lowered,
            j,
            below,
            line,
            &mut buffers.short,
            &mut buffers.low,
            &mut buffers.high,
        );
    } else {
        put_line(
            &lowered,
            j,
            below,
            line,
            &mut buffers.wide,
            &mut buffers.low,
            &mut buffers.high,
        );
    }
}

/// The first number of bidder `k` that reaches the entry, if no bidder has a surplus.
fn plain_number(
    book: &BidBook,
    surplus: &[i128],
    k: u16,
    place: usize,
    entry: i128,
    after: &[i128],
) -> u16
    requires bidder { (0 < k) × (k ≤ length book.now.bidders) }
    requires count { length surplus.now ≡ length book.now.bidders }
    requires zeros { (k : ℕ) → slice_index_or surplus.now k (pos 0) ≡ pos 0 }
    requires place { place < states_of book.now.supply }
    requires entry { IsRightEntry book.now (k - 1) (left_at book.now.supply place) entry }
    requires after { IsRightLine book.now k after.now }
    ensures known { result ≤ length (bids_of book.now k) }
    ensures first { IsFirstNumber (menu_of book.now) (net_of book.now) book.now.supply k place entry after.now result }
{
    book.kept();
    let lowered = LoweredBids {
        book,
        turned: false,
        skip: 0,
        den: 1,
        surplus,
    };
    first_number(&lowered, k, place, entry, after)
}
