// The line of an edit.
ghost use Rattle.std.specs.Prelude.{IfNone, IfSome, ◌≡◌};
ghost use Rattle.edits_file.specs.EditsForm.{NamedEdit};
ghost use Rattle.edits_file.specs.Stages.{States};

use crate::fields::{read_bid, read_package};
use bid_book::BidBook;
use review::Edit;

/// The edit of the book that a line states. It takes no memory, so a line of no form is found without any.
pub fn read_edit(book: &BidBook, line: &[u8]) -> Option<Edit>
    ensures found { IfSome result (λ edit. (named : NamedEdit) × States book.now line.now named edit) }
    ensures none { IfNone result ((named : NamedEdit) (edit : Edit) → States book.now line.now named edit → ⊥) }
{
    if let Some(fields) = line.strip_prefix(b"add ") {
        let (bidder, package, amount) = read_bid(book, fields)?;
        return Some(Edit::Add {
            bidder,
            package,
            amount,
        });
    }
    if let Some(fields) = line.strip_prefix(b"raise ") {
        let (bidder, package, amount) = read_bid(book, fields)?;
        return Some(Edit::Raise {
            bidder,
            package,
            amount,
        });
    }
    let fields = line.strip_prefix(b"drop ")?;
    let (bidder, package) = read_package(book, fields)?;
    Some(Edit::Remove { bidder, package })
}
