// The text of a review.
ghost use Rattle.std.specs.Prelude.{◌≡◌, ◌++◌, List, ℕ, IfOk, OnErr, OnOk, length};
ghost use Rattle.std.specs.List.{AllByRecursion};
ghost use Rattle.review.specs.Edits.{edit_lots, edit_reply};
ghost use Rattle.outcome.specs.ReviewText.{IsReplyLine, IsReviewText, book_after};

use crate::reviewing::lines::{add_refusal, add_state};
use crate::win_text;
use bid_book::BidBook;
use review::{Edit, EditReply, Review};
use std::alloc::{AllocError, Global};
use wide_num::Text;

/// What is printed of the edits of a book: a line for the book as it is, a line for each edit in order, which is taken or refused, and
/// the winners of the book after the last. Each edit's package has the book's number of categories. The only error is out of memory.
pub fn review_text(alloc: Global, book: BidBook, edits: &[Edit]) -> Result<Text, AllocError>
    requires { AllByRecursion (λ e. length (edit_lots e) ≡ length book.supply) edits.now }
    ensures { IfOk result (λ text. IsReviewText book edits.now text) }
{
    let mut review = Review::start(alloc, book)?;
    let text = reviewed(alloc, &mut review, edits)?;
    Ok(text)
}

/// The text of the edits of a review that has begun.
fn reviewed(alloc: Global, review: &mut Review, edits: &[Edit]) -> Result<Text, AllocError>
    requires { AllByRecursion (λ e. length (edit_lots e) ≡ length review.old.book.supply) edits.now }
    ensures { IfOk result (λ text. IsReviewText review.old.book edits.now text) }
{
    let mut text = Text::new(alloc);
    add_state(&mut text, 0, review)?;
    for (k, edit) in edits.iter().enumerate() {
        add_edit(alloc, &mut text, review, k as u64 + 1, edit)?;
    }
    let winners = win_text(alloc, review.book(), review.choice())?;
    text.add(winners.items())?;
    Ok(text)
}

/// Takes an edit and adds the line of this number for it.
fn add_edit(
    alloc: Global,
    text: &mut Text,
    review: &mut Review,
    n: u64,
    edit: &Edit,
) -> Result<(), AllocError>
    requires { length (edit_lots edit.now) ≡ length review.old.book.supply }
    ensures line { OnOk result
        ((line : List ℕ)
        × IsReplyLine (edit_reply review.old.book edit.now) n (book_after review.old.book edit.now) line
        × (text.new ≡ text.old ++ line)) }
    ensures book { OnOk result (review.new.book ≡ book_after review.old.book edit.now) }
{
    match take_edit(alloc, review, edit)? {
        EditReply::Ok => add_state(text, n, review),
        refusal => add_refusal(text, n, refusal),
    }
}

/// Takes an edit, and returns the reply to it. It takes memory only if no condition refuses the edit, so out of memory never
/// hides a refusal. The review is then unchanged.
fn take_edit(alloc: Global, review: &mut Review, edit: &Edit) -> Result<EditReply, AllocError>
    requires { length (edit_lots edit.now) ≡ length review.old.book.supply }
    ensures reply { IfOk result (λ reply. reply ≡ edit_reply review.old.book edit.now) }
    ensures book { OnOk result (review.new.book ≡ book_after review.old.book edit.now) }
    ensures memory { OnErr result (edit_reply review.old.book edit.now ≡ EditReply.Ok) }
    ensures unchanged { OnErr result (review.new ≡ review.old) }
{
    match review.edit(alloc, edit) {
        EditReply::Memory => Err(AllocError),
        reply => Ok(reply),
    }
}
