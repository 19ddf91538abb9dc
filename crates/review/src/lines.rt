// The lines of both sides of a book that a review keeps: for each bidder and one more, a number for each place of the supply.
ghost use Rattle.std.specs.Prelude.{◌≡◌, ◌+◌, ◌-◌, ◌≤◌, ◌<◌, IfOk, List, length, pos, replicate};
ghost use Rattle.auction_model.specs.Book.{Book, BookBid};
ghost use Rattle.auction_model.specs.Place.{states_of};
ghost use Rattle.bid_book.specs.Changes.{with_bids};
ghost use Rattle.value_table.specs.LineBuffers.{HasRoom};
ghost use Rattle.review.specs.ReviewValue.{AreLeftLines, AreRightLines, lines_of};
ghost use Rattle.review.specs.Reviewed.{AreSideLines};

use bid_book::BidBook;
use std::alloc::{AllocError, Global};
use std::mem;
use value_table::{LineBuffers, narrow_left_line, narrow_right_line};

/// The lines of both sides of a book. An edit makes some of them stale, and these are computed again only when needed.
#[derive(Drop)]
pub struct SideLines {
    /// Line `k` is for the bidders after `k`.
    pub right: Vec<Vec<i128>>,
    /// The lines of the right side match the book from this one on.
    pub right_from: usize,
    /// Line `k` is for the bidders up to `k`.
    pub left: Vec<Vec<i128>>,
    /// The lines of the left side match the book up to this one.
    pub left_to: usize,
    /// Buffers to compute a line.
    pub buffers: LineBuffers,
}

impl SideLines {
    /// The lines of a book. All but the line of no bidder on each side are stale.
    pub fn new(alloc: Global, book: &BidBook) -> Result<SideLines, AllocError>
        ensures { IfOk result (λ lines. AreSideLines book.now lines) }
    {
        let bidders = book.bidders();
        let states = book.supply().states();
        let right = zero_lines(alloc, bidders + 1, states)?;
        let left = zero_lines(alloc, bidders + 1, states)?;
        let buffers = LineBuffers::new(alloc, states)?;
        Ok(SideLines {
            right,
            right_from: bidders,
            left,
            left_to: 0,
            buffers,
        })
    }

    /// Computes the stale lines of the right side from line `k` on.
    pub fn renew_right(&mut self, alloc: Global, book: &BidBook, k: usize)
        requires known { k ≤ length book.now.bidders }
        requires lines { AreSideLines book.now self.old }
        ensures lines { AreSideLines book.now self.new }
        ensures exact { self.new.right_from ≤ k }
        ensures left { self.new.left_to ≡ self.old.left_to }
    {
        if k < self.right_from {
            renew_right(
                alloc,
                book,
                &mut self.right,
                &mut self.buffers,
                k,
                self.right_from,
            );
            self.right_from = k;
        }
    }

    /// Computes the stale lines of the left side up to line `k`.
    pub fn renew_left(&mut self, alloc: Global, book: &BidBook, k: usize)
        requires known { k ≤ length book.now.bidders }
        requires lines { AreSideLines book.now self.old }
        ensures lines { AreSideLines book.now self.new }
        ensures exact { k ≤ self.new.left_to }
    {
        if self.left_to < k {
            renew_left(
                alloc,
                book,
                &mut self.left,
                &mut self.buffers,
                self.left_to,
                k,
            );
            self.left_to = k;
        }
    }

    /// Marks the lines that include bidder `j` as stale. The other lines match each book where it has other bids.
    pub fn mark(&mut self, j: u16)
        requires { 0 < j }
        ensures { (book : Book) → (bids : List BookBid) → AreSideLines book self.old → j ≤ length book.bidders
            → AreSideLines (with_bids book j bids) self.new }
    {
        self.right_from = self.right_from.max(j as usize);
        self.left_to = self.left_to.min(j as usize - 1);
    }
}

/// That many lines of that many zeros.
fn zero_lines(alloc: Global, count: usize, states: usize) -> Result<Vec<Vec<i128>>, AllocError>
    ensures { IfOk result (λ v. lines_of v.items ≡ replicate count (replicate states (pos 0))) }
{
    let mut lines = Vec::new(alloc);
    for _line in 0..count {
        let line = zero_line(alloc, states)?;
        lines.push(line)?;
    }
    Ok(lines)
}

/// A line of that many zeros.
fn zero_line(alloc: Global, states: usize) -> Result<Vec<i128>, AllocError>
    ensures { IfOk result (λ v. v.items ≡ replicate states (pos 0)) }
{
    vec![in alloc; 0i128; states]
}

/// Computes the lines from line `bottom` to the one below line `top` again, each from the one after it, in place. Line `k` is
/// for the bidders after `k`.
fn renew_right(
    alloc: Global,
    book: &BidBook,
    lines: &mut Vec<Vec<i128>>,
    buffers: &mut LineBuffers,
    bottom: usize,
    top: usize,
)
    requires top { (bottom ≤ top) × (top ≤ length book.now.bidders) }
    requires lines { AreRightLines book.now top (lines_of lines.old.items) }
    requires buffers { HasRoom (states_of book.now.supply) buffers.old }
    ensures lines { AreRightLines book.now bottom (lines_of lines.new.items) }
    ensures buffers { HasRoom (states_of book.now.supply) buffers.new }
{
    book.kept();
    for k in (bottom..top).rev() {
        renew_right_line(alloc, book, lines, buffers, k);
    }
}

/// Computes line `k` from line `k + 1`.
fn renew_right_line(
    alloc: Global,
    book: &BidBook,
    lines: &mut Vec<Vec<i128>>,
    buffers: &mut LineBuffers,
    k: usize,
)
    requires bidder { k < length book.now.bidders }
    requires lines { AreRightLines book.now (k + 1) (lines_of lines.old.items) }
    requires buffers { HasRoom (states_of book.now.supply) buffers.old }
    ensures lines { AreRightLines book.now k (lines_of lines.new.items) }
    ensures buffers { HasRoom (states_of book.now.supply) buffers.new }
{
    book.kept();
    let mut line = mem::replace(&mut lines[k], Vec::new(alloc));
    narrow_right_line(book, k as u16 + 1, &lines[k + 1], &mut line, buffers);
    lines[k] = line;
}

/// Computes the lines after line `bottom` up to line `top` again, each from the one before it, in place. Line `k` is for the
/// bidders up to `k`.
fn renew_left(
    alloc: Global,
    book: &BidBook,
    lines: &mut Vec<Vec<i128>>,
    buffers: &mut LineBuffers,
    bottom: usize,
    top: usize,
)
    requires top { (bottom ≤ top) × (top ≤ length book.now.bidders) }
    requires lines { AreLeftLines book.now bottom (lines_of lines.old.items) }
    requires buffers { HasRoom (states_of book.now.supply) buffers.old }
    ensures lines { AreLeftLines book.now top (lines_of lines.new.items) }
    ensures buffers { HasRoom (states_of book.now.supply) buffers.new }
{
    book.kept();
    for k in bottom..top {
        renew_left_line(alloc, book, lines, buffers, k + 1);
    }
}

/// Computes line `k` from line `k - 1`.
fn renew_left_line(
    alloc: Global,
    book: &BidBook,
    lines: &mut Vec<Vec<i128>>,
    buffers: &mut LineBuffers,
    k: usize,
)
    requires bidder { (0 < k) × (k ≤ length book.now.bidders) }
    requires lines { AreLeftLines book.now (k - 1) (lines_of lines.old.items) }
    requires buffers { HasRoom (states_of book.now.supply) buffers.old }
    ensures lines { AreLeftLines book.now k (lines_of lines.new.items) }
    ensures buffers { HasRoom (states_of book.now.supply) buffers.new }
{
    book.kept();
    let mut line = mem::replace(&mut lines[k], Vec::new(alloc));
    narrow_left_line(book, k as u16, &lines[k - 1], &mut line, buffers);
    lines[k] = line;
}
