// The winning choice from the lines of the bidders after each, without memory.
ghost use Rattle.std.specs.Prelude.{◌≡◌, ◌≤◌, ◌<◌, length, IsTrue};
ghost use Rattle.auction_model.specs.Book.{bids_of, lots_of, market_of};
ghost use Rattle.auction_model.specs.Greatest.{IsWinning};
ghost use Rattle.auction_model.specs.Package.{is_within, less};
ghost use Rattle.auction_model.specs.Place.{left_at, place_of, states_of};
ghost use Rattle.review.specs.ReviewValue.{AreRightLines, lines_of};
ghost use Rattle.review.specs.Reviewed.{AreSideLines, IsReviewed};

use crate::lines::SideLines;
use bid_book::BidBook;
use choices::{Choice, place_after};
use std::alloc::Global;
use value_table::right_number;

/// Makes a choice of as many numbers the winning one, from lines that may be stale.
pub fn retrace(alloc: Global, book: &BidBook, lines: &mut SideLines, choice: &mut Choice)
    requires lines { AreSideLines book.now lines.old }
    requires count { length choice.old ≡ length book.now.bidders }
    ensures { IsReviewed book.now lines.new choice.new }
{
    lines.renew_right(alloc, book, 0);
    trace(book, &lines.right, choice);
}

/// Makes a choice of as many numbers the winning one, from the lines of the bidders after each.
fn trace(book: &BidBook, right: &[Vec<i128>], choice: &mut Choice)
    requires right { AreRightLines book.now 0 (lines_of right.now) }
    requires count { length choice.old ≡ length book.now.bidders }
    ensures { IsWinning (market_of book.now) choice.new }
{
    let mut place = book.supply().states() - 1;
    for k in 0..book.bidders() {
        let j = k as u16 + 1;
        let number = right_number(book, j, place, right[k][place], &right[k + 1]);
        place = place_left(book, j, number, place);
        choice.set(j, number);
    }
}

/// The place of what is left after bid `i` of bidder `j`, whose package fits.
fn place_left(book: &BidBook, j: u16, i: u16, place: usize) -> usize
    requires bidder { (0 < j) × (j ≤ length book.now.bidders) }
    requires bid { i ≤ length (bids_of book.now j) }
    requires place { place < states_of book.now.supply }
    requires fits { IsTrue (is_within (lots_of book.now j i) (left_at book.now.supply place)) }
    ensures place { result ≡ place_of book.now.supply (less (left_at book.now.supply place) (lots_of book.now j i)) }
    ensures below { result < states_of book.now.supply }
{
    place_after(book, j, i, place).unwrap()
}
