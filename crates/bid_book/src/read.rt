// The reader of a book's text.
ghost use Rattle.std.specs.Prelude.{IfOk, None, Some, ℕ, ◌≡◌};
ghost use Rattle.bid_book.specs.declared.read.Stage.TheVariants.{Ended};
ghost use Rattle.book_grammar.specs.BookForm.{IsBook};
ghost use Rattle.book_grammar.specs.BookLines.{book_lines};
ghost use Rattle.bid_book.specs.Stages.{Step, excess};
ghost use Rattle.line_format.specs.LineText.{Says, beyond, faulty, stated};

pub(crate) mod entries;
pub(crate) mod fields;
pub(crate) mod head;

use crate::book::rivals::Rivals;
use crate::read::entries::take_entry;
use crate::read::head::{take_first, take_reserve, take_supply};
use crate::{BidBook, BookStop, LimitKind};
use book_grammar::Excess;
use line_format::{LineReader, LineStop, TextStop, read_lines};
use lots::Supply;
use std::alloc::Global;
use std::marker::Model;

/// What the lines so far say.
#[derive(Drop)]
pub enum Stage {
    /// No line so far.
    Start,
    /// The first line.
    Headed,
    /// The first two lines: what is sold.
    Supplied(Supply),
    /// The first three lines, and the lines of some bidders with bids.
    Listing(OpenBook),
    /// All lines, the last one too.
    Ended(BidBook),
}

/// A book whose bidders are being read, with the guesses for the next bid of the last one.
#[derive(Drop)]
pub struct OpenBook {
    book: BidBook,
    rivals: Rivals,
}

impl Model for OpenBook {
    ghost use Rattle.auction_model.specs.Book.{Book};

    ghost Value = { Book };

    ghost view = { λ listing. listing.book };
}

/// The reader of a book's text.
#[derive(Drop)]
struct BookReader;

impl LineReader for BookReader {
    type Stage = Stage;

    type Value = BidBook;

    type Excess = Excess;

    ghost leads = { λ _. Step };

    ghost over = { λ _. excess };

    ghost ended = { λ _ book. Ended book };

    fn take(&self, alloc: Global, stage: Stage, line: &[u8]) -> Result<Stage, LineStop<Excess>> {
        take_line(alloc, stage, line)
    }

    fn end(&self, stage: Stage) -> Option<BidBook> {
        match stage {
            Stage::Ended(book) => Some(book),
            _ => None,
        }
    }
}

/// The book that the bytes state. The first faulty line, or the first limit that a line exceeds, stops it; within one line a
/// fault of form comes before a limit.
pub fn read_book(alloc: Global, bytes: &[u8]) -> Result<BidBook, BookStop>
    ensures text { IfOk result (λ book. Says IsBook book_lines bytes.now (stated book)) }
    ensures form { (place : ℕ) → result ≡ Err (BookStop.Form place) → Says IsBook book_lines bytes.now (faulty place) }
    ensures limit { (kind : LimitKind) (count : ℕ) → result ≡ Err (BookStop.Limit kind count)
        → Says IsBook book_lines bytes.now (beyond (kind, count)) }
{
    match read_lines(alloc, &BookReader, Stage::Start, bytes) {
        Ok(book) => Ok(book),
        Err(TextStop::Form(place)) => Err(BookStop::Form(place)),
        Err(TextStop::Limit((kind, count))) => Err(BookStop::Limit(kind, count)),
        Err(TextStop::Memory) => Err(BookStop::Memory),
    }
}

/// Takes the next line.
fn take_line(alloc: Global, stage: Stage, line: &[u8]) -> Result<Stage, LineStop<Excess>>
    ensures ok { IfOk result (λ next. Step stage line.now next × (excess next ≡ None)) }
    ensures form { result ≡ Err LineStop.Form → (t : Stage) → Step stage line.now t → ⊥ }
    ensures limit { (kind : LimitKind) (count : ℕ) → result ≡ Err (LineStop.Limit (kind, count))
        → (t : Stage) × Step stage line.now t × (excess t ≡ Some (kind, count)) }
{
    match stage {
        Stage::Start => take_first(line),
        Stage::Headed => Ok(Stage::Supplied(take_supply(alloc, line)?)),
        Stage::Supplied(supply) => {
            let book = take_reserve(alloc, supply, line)?;
            let rivals = Rivals::new(alloc);
            Ok(Stage::Listing(OpenBook { book, rivals }))
        }
        Stage::Listing(listing) => take_listed(alloc, listing, line),
        Stage::Ended(_) => Err(LineStop::Form),
    }
}

/// Takes the line of a bidder or of a bid, or the last line.
fn take_listed(alloc: Global, listing: OpenBook, line: &[u8]) -> Result<Stage, LineStop<Excess>>
    ensures ok { IfOk result (λ next. Step (Stage.Listing listing) line.now next × (excess next ≡ None)) }
    ensures form { result ≡ Err LineStop.Form → (t : Stage) → Step (Stage.Listing listing) line.now t → ⊥ }
    ensures limit { (kind : LimitKind) (count : ℕ) → result ≡ Err (LineStop.Limit (kind, count))
        → (t : Stage) × Step (Stage.Listing listing) line.now t × (excess t ≡ Some (kind, count)) }
{
    let OpenBook {
        mut book,
        mut rivals,
    } = listing;
    if line == b"end".as_slice() {
        return Ok(Stage::Ended(book));
    }
    take_entry(alloc, &mut book, &mut rivals, line)?;
    Ok(Stage::Listing(OpenBook { book, rivals }))
}
