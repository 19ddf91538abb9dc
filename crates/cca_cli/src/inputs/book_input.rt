// Books as inputs.
use crate::{FileKind, Input, Status};
use bid_book::{BidBook, read_book};
use limits::BOOK_BYTES;
use std::alloc::Global;

/// A book of bids.
#[derive(Clone, Copy, Debug)]
pub struct BookInput;

impl Input for BookInput {
    ghost use Rattle.limits.specs.declared.TheConstants.{BOOK_BYTES};
    ghost use Rattle.cca_cli.specs.Answers.{BookAnswers};
    ghost use Rattle.cca_cli.specs.Outcome.{value, stops};
    ghost use Rattle.cca_cli.specs.declared.status.FileKind.TheVariants.{Book};

    type Value = BidBook;

    ghost part = { λ _. Book };

    ghost room = { λ _. BOOK_BYTES };

    ghost states = { λ _ bytes book. BookAnswers bytes (value book) };

    ghost halts = { λ _ bytes status. BookAnswers bytes (stops status) };

    fn kind(&self) -> FileKind {
        FileKind::Book
    }

    fn most(&self) -> u64 {
        BOOK_BYTES
    }

    fn read(&self, alloc: Global, bytes: &[u8]) -> Result<BidBook, Status> {
        match read_book(alloc, bytes) {
            Ok(book) => Ok(book),
            Err(stop) => Err(Status::from(stop)),
        }
    }
}
