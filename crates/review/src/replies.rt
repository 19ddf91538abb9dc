// The replies to edits. Nothing here takes memory.
ghost use Rattle.std.specs.Prelude.{◌≡◌, ◌≤◌, ◌<◌, length, IfNone, IfSome, Some, None};
ghost use Rattle.auction_model.specs.Book.{bid_of, bids_of};
ghost use Rattle.bid_book.specs.Changes.{IsBidFor};
ghost use Rattle.review.specs.Edits.{amount_for, edit_lots, edit_reply, unfit};

use crate::edit::{Edit, EditReply};
use bid_book::BidBook;
use limits::{MOST_AMOUNT, MOST_BIDS};
use lots::Package;

/// The reply to an edit, if there is memory: `Ok` if the book can have it.
pub fn reply_to(book: &BidBook, edit: &Edit) -> EditReply
    requires { length (edit_lots edit.now) ≡ length book.now.supply }
    ensures { result ≡ edit_reply book.now edit.now }
{
    match edit {
        Edit::Add {
            bidder,
            package,
            amount,
        } => reply_to_add(book, *bidder, package, *amount),
        Edit::Raise {
            bidder,
            package,
            amount,
        } => reply_to_raise(book, *bidder, package, *amount),
        Edit::Remove { bidder, package } => reply_to_remove(book, *bidder, package),
    }
}

fn reply_to_add(book: &BidBook, j: u16, wanted: &Package, amount: u64) -> EditReply
    requires { length wanted.now ≡ length book.now.supply }
    ensures { result ≡ edit_reply book.now (Edit.Add j wanted.now amount) }
{
    book.kept();
    if let Some(reply) = refusal(book, j, wanted) {
        return reply;
    }
    if let Some(number) = bid_for(book, j, wanted) {
        return EditReply::Present(book.bid(j, number).amount);
    }
    let reserve = wanted.cost(book.reserves());
    if amount < reserve {
        return EditReply::BelowReserve(reserve);
    }
    if amount > MOST_AMOUNT {
        return EditReply::AmountTop(MOST_AMOUNT);
    }
    if book.bids(j) >= MOST_BIDS {
        return EditReply::Full(MOST_BIDS as u64);
    }
    EditReply::Ok
}

fn reply_to_raise(book: &BidBook, j: u16, wanted: &Package, amount: u64) -> EditReply
    requires { length wanted.now ≡ length book.now.supply }
    ensures { result ≡ edit_reply book.now (Edit.Raise j wanted.now amount) }
{
    if let Some(reply) = refusal(book, j, wanted) {
        return reply;
    }
    let Some(number) = bid_for(book, j, wanted) else {
        return EditReply::Absent;
    };
    let was = book.bid(j, number).amount;
    if amount <= was {
        return EditReply::NotHigher(was);
    }
    if amount > MOST_AMOUNT {
        return EditReply::AmountTop(MOST_AMOUNT);
    }
    EditReply::Ok
}

fn reply_to_remove(book: &BidBook, j: u16, wanted: &Package) -> EditReply
    requires { length wanted.now ≡ length book.now.supply }
    ensures { result ≡ edit_reply book.now (Edit.Remove j wanted.now) }
{
    if let Some(reply) = refusal(book, j, wanted) {
        return reply;
    }
    match bid_for(book, j, wanted) {
        Some(_) => EditReply::Ok,
        None => EditReply::Absent,
    }
}

/// Why no edit of bidder `j` for the package can be had.
fn refusal(book: &BidBook, j: u16, wanted: &Package) -> Option<EditReply>
    requires { length wanted.now ≡ length book.now.supply }
    ensures reply { result ≡ unfit book.now j wanted.now }
    ensures known { result ≡ None → (0 < j) × (j ≤ length book.now.bidders) }
{
    if j == 0 || j as usize > book.bidders() {
        return Some(EditReply::Unknown);
    }
    if let Some(category) = wanted.first_over(book.supply()) {
        return Some(EditReply::Supply(category));
    }
    if wanted.is_empty() {
        return Some(EditReply::Empty);
    }
    None
}

/// The number of the bid of bidder `j` for the package, if it has one.
pub fn bid_for(book: &BidBook, j: u16, wanted: &Package) -> Option<u16>
    requires { (0 < j) × (j ≤ length book.now.bidders) }
    ensures own { IfSome result (λ i. IsBidFor book.now j wanted.now i) }
    ensures amount { IfSome result
        (λ i. amount_for wanted.now (bids_of book.now j) ≡ Some (bid_of book.now j i).amount) }
    ensures none { IfNone result (amount_for wanted.now (bids_of book.now j) ≡ None) }
{
    for i in 0..book.bids(j) {
        if book.bid(j, i + 1).package.counts() == wanted.counts() {
            return Some(i + 1);
        }
    }
    None
}
