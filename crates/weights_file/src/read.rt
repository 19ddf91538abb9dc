// The reader of a file of weights.
ghost use Rattle.std.specs.Prelude.{Err, IfNone, IfOk, IfSome, None, [], codes, length, ℕ, ◌<◌, ◌≡◌, ◌≢◌};
ghost use Rattle.line_format.specs.LineText.{faulty, stated};
ghost use Rattle.weights_file.specs.Stages.{Step, Weighs};
ghost use Rattle.weights_file.specs.WeightsForm.{WeightsSay};
ghost use Rattle.weights_file.specs.declared.read.Stage.TheVariants.{Ended};

use crate::line::line_weight;
use crate::{WeightStop, Weights};
use bid_book::BidBook;
use line_format::{LineReader, LineStop, TextStop, read_lines};
use std::alloc::Global;
use std::convert::Infallible;

/// What the lines so far say.
#[derive(Drop)]
pub enum Stage {
    /// No line so far.
    Start,
    /// The first line, and the lines of some bidders.
    Listing(Weights),
    /// All lines, the last one too.
    Ended(Weights),
}

/// The reader of a file of weights. No line exceeds a limit.
#[derive(Drop)]
struct WeightReader<'a> {
    book: &'a BidBook,
}

impl<'a> LineReader for WeightReader<'a> {
    type Stage = Stage;

    type Value = Weights;

    type Excess = Infallible;

    ghost leads = { λ reader. Step reader.book.now };

    ghost over = { λ _ _. None };

    ghost ended = { λ _ weights. Ended weights };

    fn take(
        &self,
        alloc: Global,
        stage: Stage,
        line: &[u8],
    ) -> Result<Stage, LineStop<Infallible>> {
        take_line(alloc, stage, self.book, line)
    }

    fn end(&self, stage: Stage) -> Option<Weights> {
        match stage {
            Stage::Ended(weights) => Some(weights),
            _ => None,
        }
    }
}

/// The weights that the bytes state for the bidders of the book, one of 1 to 20 for each. The first faulty line stops it: the lines
/// are `weights 1`, then `weight`, its name and its weight for each bidder in order, and last `end`.
pub fn read_weights(alloc: Global, bytes: &[u8], book: &BidBook) -> Result<Weights, WeightStop>
    ensures text { IfOk result (λ weights. WeightsSay book.now bytes.now (stated weights)) }
    ensures form { (place : ℕ) → result ≡ Err (WeightStop.Form place) → WeightsSay book.now bytes.now (faulty place) }
{
    book.kept();
    match read_lines(alloc, &WeightReader { book }, Stage::Start, bytes) {
        Ok(weights) => Ok(weights),
        Err(TextStop::Form(place)) => Err(WeightStop::Form(place)),
        Err(TextStop::Limit(none)) => match none {},
        Err(TextStop::Memory) => Err(WeightStop::Memory),
    }
}

/// Takes the next line.
fn take_line(
    alloc: Global,
    stage: Stage,
    book: &BidBook,
    line: &[u8],
) -> Result<Stage, LineStop<Infallible>>
    ensures ok { IfOk result (λ next. Step book.now stage line.now next) }
    ensures form { result ≡ Err LineStop.Form → (t : Stage) → Step book.now stage line.now t → ⊥ }
    ensures memory { result ≡ Err LineStop.Memory → (t : Stage) × Step book.now stage line.now t }
{
    match stage {
        Stage::Start => take_first(alloc, line).ok_or(LineStop::Form),
        Stage::Listing(weights) => take_listed(weights, book, line),
        Stage::Ended(_) => Err(LineStop::Form),
    }
}

/// Takes the first line. It takes no memory.
fn take_first(alloc: Global, line: &[u8]) -> Option<Stage>
    ensures found { IfSome result (λ next. (line.now ≡ codes "weights 1") × (next ≡ Stage.Listing [])) }
    ensures none { IfNone result (line.now ≢ codes "weights 1") }
{
    if line != b"weights 1".as_slice() {
        return None;
    }
    Some(Stage::Listing(Weights::new(alloc)))
}

/// Takes the line of the next bidder, or the last line after the lines of all bidders.
fn take_listed(weights: Weights, book: &BidBook, line: &[u8]) -> Result<Stage, LineStop<Infallible>>
    ensures ok { IfOk result (λ next. Step book.now (Stage.Listing weights) line.now next) }
    ensures form { result ≡ Err LineStop.Form → (t : Stage) → Step book.now (Stage.Listing weights) line.now t → ⊥ }
    ensures memory { result ≡ Err LineStop.Memory → (t : Stage) × Step book.now (Stage.Listing weights) line.now t }
{
    if weights.items().len() < book.bidders() {
        take_weight(weights, book, line)
    } else {
        take_end(weights, line).ok_or(LineStop::Form)
    }
}

/// Takes the line of the next bidder. Memory is asked for only after the line was found right.
fn take_weight(
    mut weights: Weights,
    book: &BidBook,
    line: &[u8],
) -> Result<Stage, LineStop<Infallible>>
    requires { length weights < length book.now.bidders }
    ensures ok { IfOk result (Weighs book.now weights line.now) }
    ensures form { result ≡ Err LineStop.Form → (t : Stage) → Weighs book.now weights line.now t → ⊥ }
    ensures memory { result ≡ Err LineStop.Memory → (t : Stage) × Weighs book.now weights line.now t }
{
    book.kept();
    let j = weights.items().len() as u16 + 1;
    let Some(weight) = line_weight(line, book.name(j)) else {
        return Err(LineStop::Form);
    };
    weights.push(weight)?;
    Ok(Stage::Listing(weights))
}

/// Takes the last line. It takes no memory.
fn take_end(weights: Weights, line: &[u8]) -> Option<Stage>
    ensures found { IfSome result (λ next. (line.now ≡ codes "end") × (next ≡ Stage.Ended weights)) }
    ensures none { IfNone result (line.now ≢ codes "end") }
{
    if line != b"end".as_slice() {
        return None;
    }
    Some(Stage::Ended(weights))
}
