// What a book gives as it is edited.
ghost use Rattle.std.specs.Prelude.{◌≡◌, [], length};
ghost use Rattle.std.specs.List.{AllByRecursion};
ghost use Rattle.review.specs.Edits.{edit_lots};
ghost use Rattle.cca_commands.specs.Gives.{ReviewGives};
ghost use Rattle.cca_commands.specs.Works.{IsWork};

use crate::work::{Stop, Work};
use bid_book::BidBook;
use outcome::review_text;
use review::Edit;
use std::alloc::Global;

/// What is printed of the edits of a book.
pub fn reviewed(alloc: Global, book: BidBook, edits: &[Edit]) -> Result<Work, Stop>
    requires { AllByRecursion (λ e. length (edit_lots e) ≡ length book.supply) edits.now }
    ensures { IsWork (ReviewGives book edits.now) [] result }
{
    let printed = review_text(alloc, book, edits)?;
    Ok(Work {
        printed,
        appended: Vec::new(alloc),
    })
}
