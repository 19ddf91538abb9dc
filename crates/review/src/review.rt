// Reviews.
ghost use Rattle.std.specs.Prelude.{◌≡◌, ◌≢◌, ℕ, ◌⊎◌, ◌≤◌, ◌<◌, IfOk, List, None, OnErr, OnOk, length};
ghost use Rattle.auction_model.specs.Book.{market_of};
ghost use Rattle.auction_model.specs.Greatest.{IsWinning};
ghost use Rattle.auction_model.specs.Market.{value_of};
ghost use Rattle.review.specs.Edits.{edit_lots, edit_reply, edited};
ghost use Rattle.review.specs.Reviewed.{IsReviewed};

use crate::changes::change;
use crate::edit::{Edit, EditReply};
use crate::lines::SideLines;
use crate::replies::reply_to;
use crate::tracing::retrace;
use bid_book::BidBook;
use choices::{Choice, Numbers, value};
use std::alloc::{AllocError, Global};
use std::marker::Model;

/// A book with its winning choice, which are kept through edits of single bids. An edit that can't change the winners computes
/// only lines that are stale at its own bidder. Any other edit computes the stale lines of the bidders after each.
#[derive(Drop)]
pub struct Review {
    book: BidBook,
    lines: SideLines,
    choice: Choice,
}

impl Model for Review {
    ghost use Rattle.review.specs.ReviewValue.{ReviewValue};
    ghost use Rattle.review.specs.Reviewed.{IsReviewed};

    ghost Value = { ReviewValue };

    ghost view = { λ r. record { book = r.book; choice = r.choice } };

    ghost invariant = { λ r. IsReviewed r.book r.lines r.choice };
}

impl Review {
    /// The review of a book. The only error is out of memory.
    pub fn start(alloc: Global, book: BidBook) -> Result<Review, AllocError>
        ensures { IfOk result (λ review. review.book ≡ book) }
    {
        let mut lines = SideLines::new(alloc, &book)?;
        let mut choice = no_numbers(alloc, book.bidders())?;
        retrace(alloc, &book, &mut lines, &mut choice);
        Ok(Review {
            book,
            lines,
            choice,
        })
    }

    /// Takes an edit, whose package has as many categories as the book, and returns `Ok`. Or it returns the first condition
    /// that refuses the edit, or out of memory, and leaves the review unchanged. Removing a bid needs no memory.
    pub fn edit(&mut self, alloc: Global, edit: &Edit) -> EditReply
        requires { length (edit_lots edit.now) ≡ length self.old.book.supply }
        ensures reply { (result ≡ edit_reply self.old.book edit.now)
            ⊎ ((result ≡ EditReply.Memory) × (edit_reply self.old.book edit.now ≡ EditReply.Ok)) }
        ensures taken { result ≡ EditReply.Ok → self.new.book ≡ edited self.old.book edit.now }
        ensures unchanged { result ≢ EditReply.Ok → self.new ≡ self.old }
        ensures removed { (j : ℕ) → (lots : List ℕ) → edit.now ≡ Edit.Remove j lots → result ≡ edit_reply self.old.book edit.now }
    {
        let reply = reply_to(&self.book, edit);
        if reply != EditReply::Ok {
            return reply;
        }
        match change(
            alloc,
            &mut self.book,
            &mut self.lines,
            &mut self.choice,
            edit,
        ) {
            Ok(()) => EditReply::Ok,
            Err(_) => EditReply::Memory,
        }
    }

    /// The book with all edits that were taken.
    pub fn book(&self) -> &BidBook
        ensures { result.now ≡ self.now.book }
    {
        &self.book
    }

    /// The winning choice of the book.
    pub fn choice(&self) -> &Choice
        ensures choice { result.now ≡ self.now.choice }
        ensures winning { IsWinning (market_of self.now.book) result.now }
    {
        &self.choice
    }

    /// The net value of the winning choice.
    pub fn net(&self) -> i128
        ensures { result ≡ value_of (market_of self.now.book) self.now.choice }
    {
        value(&self.book, &self.choice)
    }
}

/// That many numbers, all 0.
fn no_numbers(alloc: Global, count: usize) -> Result<Choice, AllocError>
    ensures { IfOk result (λ choice. length choice ≡ count) }
{
    let mut numbers = Numbers::new(alloc);
    for _number in 0..count {
        numbers.push(0)?;
    }
    Ok(Choice::new(numbers))
}
