// The reader of texts by lines.
ghost use Rattle.std.specs.Prelude.{◌≡◌, ℕ, List, Option, Some, None, length, IfOk, IfSome, IfNone};
ghost use Rattle.line_format.specs.Reading.{SoFar, HaltsAt, ExceedsFirst};

use crate::line_len;
use crate::stop::{LineStop, TextStop};
use std::alloc::Global;

/// A reader that goes from stage to stage, line by line. A stage is what the lines so far say.
pub trait LineReader {
    /// What the lines so far say.
    type Stage: Drop;

    /// What a text states.
    type Value: Drop;

    /// What a line may exceed.
    type Excess: Drop;

    /// The line leads from one stage to the other.
    ghost leads: { Self → Self.Stage → List ℕ → Self.Stage → Type 0 };

    /// What the line that led to a stage exceeds.
    ghost over: { Self → Self.Stage → Option Self.Excess };

    /// The stage after the last line of a text that states this value.
    ghost ended: { Self → Self.Value → Self.Stage };

    /// Takes the next line, without its line feed.
    ///
    /// # Errors
    ///
    /// Form, only where the line leads to no stage; Limit, only where it leads to one that exceeds this limit; Memory.
    fn take(
        &self,
        alloc: Global,
        stage: Self::Stage,
        line: &[u8],
    ) -> Result<Self::Stage, LineStop<Self::Excess>>
        ensures ok { IfOk result (λ next. leads self.now stage line.now next × (over self.now next ≡ None)) }
        ensures form { result ≡ Err LineStop.Form → (t : Self.Stage) → leads self.now stage line.now t → ⊥ }
        ensures limit { (excess : Self.Excess) → result ≡ Err (LineStop.Limit excess)
            → (t : Self.Stage) × leads self.now stage line.now t × (over self.now t ≡ Some excess) };

    /// The value that a text states whose lines lead to this stage, and None if more lines have to come.
    fn end(&self, stage: Self::Stage) -> Option<Self::Value>
        ensures some { IfSome result (λ value. stage ≡ ended self.now value) }
        ensures none { IfNone result ((value : Self.Value) → stage ≡ ended self.now value → ⊥) };
}

/// The value that the bytes state, read line by line from this stage on. Each line has a line feed, the last one too.
///
/// # Errors
///
/// Form, with the byte where the first line begins that leads to no stage, or that is missing; Limit, with what the first line that
/// exceeds one exceeds; Memory.
pub fn read_lines<R: LineReader>(
    alloc: Global,
    reader: &R,
    start: R::Stage,
    bytes: &[u8],
) -> Result<R::Value, TextStop<R::Excess>>
    ensures text { IfOk result
        (λ value. SoFar (R.leads reader.now) (R.over reader.now) start bytes.now (length bytes.now)
        (R.ended reader.now value)) }
    ensures form { (place : ℕ) → result ≡ Err (TextStop.Form place)
        → HaltsAt (R.leads reader.now) (R.over reader.now) start (R.ended reader.now) bytes.now place }
    ensures limit { (excess : R.Excess) → result ≡ Err (TextStop.Limit excess)
        → ExceedsFirst (R.leads reader.now) (R.over reader.now) start bytes.now excess }
{
    let mut stage = start;
    let mut place = 0;
    while let Some(len) = line_len(&bytes[place..]) {
        match reader.take(alloc, stage, &bytes[place..][..len]) {
            Ok(next) => stage = next,
            Err(stop) => return Err(stop.at(place as u64)),
        }
        place += len + 1;
    }
    if place < bytes.len() {
        return Err(TextStop::Form(place as u64));
    }
    match reader.end(stage) {
        Some(value) => Ok(value),
        None => Err(TextStop::Form(place as u64)),
    }
}
