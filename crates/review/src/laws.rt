// What is true for edited books.
ghost use Rattle.std.specs.Prelude.{◌≡◌, ◌≢◌, ℕ, ◌<◌, List};
ghost use Rattle.auction_model.specs.Book.{Book, bidder_of, bids_of};
ghost use Rattle.review.specs.declared.edit.Edit.{Edit};
ghost use Rattle.review.specs.Edits.{amount_for, edit_amount, edit_bidder, edit_lots, edit_reply, edited};

use crate::edit::EditReply;

/// In the book after an edit that it can have, the bidder's bid for the package has the new amount, or there is none if it was
/// removed. Every other package of the bidder keeps its bid, or has none. Every other bidder is unchanged.
pub fn edited_amounts()
    ensures own { (book : Book) → (edit : Edit) → edit_reply book edit ≡ EditReply.Ok
        → amount_for (edit_lots edit) (bids_of (edited book edit) (edit_bidder edit)) ≡ edit_amount edit }
    ensures packages { (book : Book) → (edit : Edit) → (lots : List ℕ) → edit_reply book edit ≡ EditReply.Ok → lots ≢ edit_lots edit
        → amount_for lots (bids_of (edited book edit) (edit_bidder edit)) ≡ amount_for lots (bids_of book (edit_bidder edit)) }
    ensures bidders { (book : Book) → (edit : Edit) → (j : ℕ) → edit_reply book edit ≡ EditReply.Ok → 0 < j → j ≢ edit_bidder edit
        → bidder_of (edited book edit) j ≡ bidder_of book j }
{}
