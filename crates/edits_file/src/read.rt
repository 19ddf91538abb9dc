// The reader of a file of edits.
ghost use Rattle.std.specs.Prelude.{Err, IfNone, IfOk, IfSome, IsTrue, List, None, Some, [], codes, length, ℕ, ◌↔◌, ◌≡◌, ◌≢◌, ◌≤◌};
ghost use Rattle.std.specs.List.{AllByRecursion};
ghost use Rattle.limits.specs.declared.TheConstants.{MOST_EDITS};
ghost use Rattle.line_format.specs.LineText.{beyond, faulty, stated};
ghost use Rattle.review.specs.Edits.{edit_lots};
ghost use Rattle.edits_file.specs.EditsForm.{EditsSay, NamedEdit, edits_of};
ghost use Rattle.edits_file.specs.Stages.{Step, excess};
ghost use Rattle.edits_file.specs.declared.read.Stage.TheVariants.{Ended};

use crate::line::read_edit;
use crate::{EditStop, Edits};
use bid_book::{BidBook, Excess};
use limits::{LimitKind, MOST_EDITS};
use line_format::{LineReader, LineStop, TextStop, read_lines};
use std::alloc::Global;

/// What the lines so far say.
#[derive(Drop)]
pub enum Stage {
    /// No line so far.
    Start,
    /// The first line, and the lines of some edits.
    Listing(Edits),
    /// All lines, the last one too.
    Ended(Edits),
}

/// The reader of a file of edits of a book.
#[derive(Drop)]
struct EditReader<'a> {
    book: &'a BidBook,
}

impl<'a> LineReader for EditReader<'a> {
    type Stage = Stage;

    type Value = Edits;

    type Excess = Excess;

    ghost leads = { λ reader. Step reader.book.now };

    ghost over = { λ _. excess };

    ghost ended = { λ _ edits. Ended edits };

    fn take(&self, alloc: Global, stage: Stage, line: &[u8]) -> Result<Stage, LineStop<Excess>> {
        take_line(alloc, stage, self.book, line)
    }

    fn end(&self, stage: Stage) -> Option<Edits> {
        match stage {
            Stage::Ended(edits) => Some(edits),
            _ => None,
        }
    }
}

/// The edits that the bytes state for a book. The first faulty line, or the edit 1,001, stops it. The lines are `edits 1`, then
/// `add` or `raise` with a name, a count for each category and an amount, or `drop` with a name and the counts, and last `end`. A
/// name that the book doesn't have is bidder 0.
pub fn read_edits(alloc: Global, bytes: &[u8], book: &BidBook) -> Result<Edits, EditStop>
    ensures text { IfOk result
        (λ edits. (named : List NamedEdit) × EditsSay (length book.now.supply) bytes.now (stated named)
        × (edits ≡ edits_of book.now named)) }
    ensures categories { IfOk result
        (λ edits. AllByRecursion (λ e. length (edit_lots e) ≡ length book.now.supply) edits) }
    ensures form { (place : ℕ) → result ≡ Err (EditStop.Form place)
        → EditsSay (length book.now.supply) bytes.now (faulty place) }
    ensures limit { (which : LimitKind) (count : ℕ) → result ≡ Err (EditStop.Limit which count)
        → EditsSay (length book.now.supply) bytes.now (beyond (which, count)) }
{
    match read_lines(alloc, &EditReader { book }, Stage::Start, bytes) {
        Ok(edits) => Ok(edits),
        Err(TextStop::Form(place)) => Err(EditStop::Form(place)),
        Err(TextStop::Limit((kind, count))) => Err(EditStop::Limit(kind, count)),
        Err(TextStop::Memory) => Err(EditStop::Memory),
    }
}

/// Takes the next line.
fn take_line(
    alloc: Global,
    stage: Stage,
    book: &BidBook,
    line: &[u8],
) -> Result<Stage, LineStop<Excess>>
    ensures ok { IfOk result (λ next. Step book.now stage line.now next × (excess next ≡ None)) }
    ensures form { result ≡ Err LineStop.Form → (t : Stage) → Step book.now stage line.now t → ⊥ }
    ensures limit { (kind : LimitKind) (count : ℕ) → result ≡ Err (LineStop.Limit (kind, count))
        → (t : Stage) × Step book.now stage line.now t × (excess t ≡ Some (kind, count)) }
    ensures memory { result ≡ Err LineStop.Memory → (t : Stage) × Step book.now stage line.now t × (excess t ≡ None) }
{
    match stage {
        Stage::Start => take_first(alloc, line).ok_or(LineStop::Form),
        Stage::Listing(edits) => take_listed(edits, book, line),
        Stage::Ended(_) => Err(LineStop::Form),
    }
}

/// Takes the first line. It takes no memory.
fn take_first(alloc: Global, line: &[u8]) -> Option<Stage>
    ensures found { IfSome result (λ next. (line.now ≡ codes "edits 1") × (next ≡ Stage.Listing [])) }
    ensures none { IfNone result (line.now ≢ codes "edits 1") }
{
    if line != b"edits 1".as_slice() {
        return None;
    }
    Some(Stage::Listing(Edits::new(alloc)))
}

/// Takes the line of an edit, or the last line. Memory is asked for only after the line was found right.
fn take_listed(mut edits: Edits, book: &BidBook, line: &[u8]) -> Result<Stage, LineStop<Excess>>
    ensures ok { IfOk result (λ next. Step book.now (Stage.Listing edits) line.now next × (excess next ≡ None)) }
    ensures form { result ≡ Err LineStop.Form → (t : Stage) → Step book.now (Stage.Listing edits) line.now t → ⊥ }
    ensures limit { (kind : LimitKind) (count : ℕ) → result ≡ Err (LineStop.Limit (kind, count))
        → (t : Stage) × Step book.now (Stage.Listing edits) line.now t × (excess t ≡ Some (kind, count)) }
    ensures memory { result ≡ Err LineStop.Memory
        → (t : Stage) × Step book.now (Stage.Listing edits) line.now t × (excess t ≡ None) }
{
    if line == b"end".as_slice() {
        return Ok(Stage::Ended(edits));
    }
    let Some(edit) = read_edit(book, line) else {
        return Err(LineStop::Form);
    };
    if is_full(&edits) {
        return Err(LineStop::Limit((LimitKind::Records, MOST_EDITS + 1)));
    }
    edits.push(edit)?;
    Ok(Stage::Listing(edits))
}

/// Whether there are as many edits as there may be.
fn is_full(edits: &Edits) -> bool
    ensures { IsTrue result ↔ (MOST_EDITS ≤ length edits.now) }
{
    edits.items().len() as u64 >= MOST_EDITS
}
