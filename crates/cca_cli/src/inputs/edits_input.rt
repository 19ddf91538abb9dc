// Edits of a book as inputs.
use crate::{FileKind, Input, Status};
use bid_book::BidBook;
use edits_file::{Edits, read_edits};
use limits::EDITS_BYTES;
use std::alloc::Global;

/// The edits of a book.
#[derive(Clone, Copy)]
pub struct EditsInput<'a> {
    /// The book that is edited.
    pub book: &'a BidBook,
}

impl<'a> Input for EditsInput<'a> {
    ghost use Rattle.std.specs.Prelude.{◌≡◌, length};
    ghost use Rattle.std.specs.List.{AllByRecursion};
    ghost use Rattle.limits.specs.declared.TheConstants.{EDITS_BYTES};
    ghost use Rattle.review.specs.Edits.{edit_lots};
    ghost use Rattle.cca_cli.specs.Answers.{EditsAnswers};
    ghost use Rattle.cca_cli.specs.Outcome.{value, stops};
    ghost use Rattle.cca_cli.specs.declared.status.FileKind.TheVariants as kinds;

    type Value = Edits;

    ghost part = { λ _. kinds.Edits };

    ghost room = { λ _. EDITS_BYTES };

    ghost states = { λ s bytes edits. EditsAnswers s.book.now bytes (value edits)
        × AllByRecursion (λ e. length (edit_lots e) ≡ length s.book.now.supply) edits };

    ghost halts = { λ s bytes status. EditsAnswers s.book.now bytes (stops status) };

    fn kind(&self) -> FileKind {
        FileKind::Edits
    }

    fn most(&self) -> u64 {
        EDITS_BYTES
    }

    fn read(&self, alloc: Global, bytes: &[u8]) -> Result<Edits, Status> {
        match read_edits(alloc, bytes, self.book) {
            Ok(edits) => Ok(edits),
            Err(stop) => Err(Status::from(stop)),
        }
    }
}
