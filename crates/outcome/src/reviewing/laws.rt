// What is true for the text of a review, regardless of who writes it.
ghost use Rattle.std.specs.Prelude.{◌≡◌, ℕ, List, length};
ghost use Rattle.std.specs.List.{AllByRecursion};
ghost use Rattle.auction_model.specs.Book.{Book};
ghost use Rattle.book_grammar.specs.BookLines.{IsBookWithinLimits};
ghost use Rattle.review.specs.Edits.{edit_lots};
ghost use Rattle.review.specs.declared.edit.Edit.{Edit};
ghost use Rattle.outcome.specs.ReviewText.{IsReviewText};

use auction_model::{book_market, winning_choice};

/// The edits of a book within the limits, whose packages have the book's number of categories, have one text.
pub fn one_review_text()
    ensures { (book : Book) (edits : List Edit) (a b : List ℕ) → IsBookWithinLimits book
        → AllByRecursion (λ e. length (edit_lots e) ≡ length book.supply) edits
        → IsReviewText book edits a → IsReviewText book edits b → a ≡ b }
{
    winning_choice();
    book_market();
}
