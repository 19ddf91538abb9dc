// The reader of the text of slots.
ghost use Rattle.std.specs.Prelude.{IfNone, IfOk, IfSome, None, Some, ℕ, ◌≡◌, ◌≢◌, ◌≤◌};
ghost use Rattle.limits.specs.declared.TheConstants.{MOST_COUNT};
ghost use Rattle.line_format.specs.LineText.{Says, beyond, faulty, stated};
ghost use Rattle.slot_places.specs.SlotForm.{IsSlotText, band_line, slot_lines};
ghost use Rattle.slot_places.specs.Stages.{Step, excess};
ghost use Rattle.slot_places.specs.declared.read.Stage.TheVariants.{Ended};

pub(crate) mod entries;
pub(crate) mod fields;

use crate::read::entries::take_entry;
use crate::read::fields::read_within;
use crate::{SlotStop, Slots};
use bid_book::Excess;
use limits::{LimitKind, MOST_COUNT, MOST_LOTS};
use line_format::{LineReader, LineStop, TextStop, read_lines};
use std::alloc::Global;

/// What the lines so far say.
#[derive(Drop)]
pub enum Stage {
    /// No line so far.
    Start,
    /// The first line.
    Headed,
    /// The first two lines, and the lines of some bidders with bids.
    Listing(Slots),
    /// All lines, the last one too.
    Ended(Slots),
}

/// The reader of the text of slots.
#[derive(Drop)]
struct SlotReader;

impl LineReader for SlotReader {
    type Stage = Stage;

    type Value = Slots;

    type Excess = Excess;

    ghost leads = { λ _. Step };

    ghost over = { λ _. excess };

    ghost ended = { λ _ slots. Ended slots };

    fn take(&self, alloc: Global, stage: Stage, line: &[u8]) -> Result<Stage, LineStop<Excess>> {
        take_line(alloc, stage, line)
    }

    fn end(&self, stage: Stage) -> Option<Slots> {
        match stage {
            Stage::Ended(slots) => Some(slots),
            _ => None,
        }
    }
}

/// The slots that the bytes state. The first faulty line, or the first limit that a line exceeds, stops it; within one line a fault
/// of form comes before a limit.
pub fn read_slots(alloc: Global, bytes: &[u8]) -> Result<Slots, SlotStop>
    ensures text { IfOk result (λ slots. Says IsSlotText slot_lines bytes.now (stated slots)) }
    ensures form { (place : ℕ) → result ≡ Err (SlotStop.Form place)
        → Says IsSlotText slot_lines bytes.now (faulty place) }
    ensures limit { (kind : LimitKind) (count : ℕ) → result ≡ Err (SlotStop.Limit kind count)
        → Says IsSlotText slot_lines bytes.now (beyond (kind, count)) }
{
    match read_lines(alloc, &SlotReader, Stage::Start, bytes) {
        Ok(slots) => Ok(slots),
        Err(TextStop::Form(place)) => Err(SlotStop::Form(place)),
        Err(TextStop::Limit((kind, count))) => Err(SlotStop::Limit(kind, count)),
        Err(TextStop::Memory) => Err(SlotStop::Memory),
    }
}

/// Takes the next line.
fn take_line(alloc: Global, stage: Stage, line: &[u8]) -> Result<Stage, LineStop<Excess>>
    ensures ok { IfOk result (λ next. Step stage line.now next × (excess next ≡ None)) }
    ensures form { result ≡ Err LineStop.Form → (t : Stage) → Step stage line.now t → ⊥ }
    ensures limit { (kind : LimitKind) (count : ℕ) → result ≡ Err (LineStop.Limit (kind, count))
        → (t : Stage) × Step stage line.now t × (excess t ≡ Some (kind, count)) }
    ensures memory { result ≡ Err LineStop.Memory → (t : Stage) × Step stage line.now t × (excess t ≡ None) }
{
    match stage {
        Stage::Start => take_first(line),
        Stage::Headed => take_band(alloc, line),
        Stage::Listing(slots) => take_listed(alloc, slots, line),
        Stage::Ended(_) => Err(LineStop::Form),
    }
}

/// Takes the first line.
fn take_first(line: &[u8]) -> Result<Stage, LineStop<Excess>>
    ensures ok { IfOk result (λ next. Step Stage.Start line.now next × (excess next ≡ None)) }
    ensures form { result ≡ Err LineStop.Form → (t : Stage) → Step Stage.Start line.now t → ⊥ }
    ensures no_limit { (kind : LimitKind) (count : ℕ) → result ≡ Err (LineStop.Limit (kind, count)) → ⊥ }
    ensures no_memory { result ≢ Err LineStop.Memory }
{
    if line != b"slots 1".as_slice() {
        return Err(LineStop::Form);
    }
    Ok(Stage::Headed)
}

/// Takes the line of the band. It takes no memory.
fn take_band(alloc: Global, line: &[u8]) -> Result<Stage, LineStop<Excess>>
    ensures ok { IfOk result (λ next. Step Stage.Headed line.now next × (excess next ≡ None)) }
    ensures form { result ≡ Err LineStop.Form → (t : Stage) → Step Stage.Headed line.now t → ⊥ }
    ensures limit { (kind : LimitKind) (count : ℕ) → result ≡ Err (LineStop.Limit (kind, count))
        → (t : Stage) × Step Stage.Headed line.now t × (excess t ≡ Some (kind, count)) }
    ensures no_memory { result ≢ Err LineStop.Memory }
{
    let Some(band) = read_band(line) else {
        return Err(LineStop::Form);
    };
    if band > MOST_LOTS {
        return Err(LineStop::Limit((LimitKind::Lots, band)));
    }
    Ok(Stage::Listing(Slots::open(alloc, band as u16)))
}

/// The slots of the band that the line states.
fn read_band(line: &[u8]) -> Option<u64>
    ensures found { IfSome result (λ n. ((1 ≤ n) × (n ≤ MOST_COUNT)) × (line.now ≡ (band_line n).0)) }
    ensures none { IfNone result ((n : ℕ) → 1 ≤ n → n ≤ MOST_COUNT → line.now ≡ (band_line n).0 → ⊥) }
{
    let field = line.strip_prefix(b"band ")?;
    read_within(field, 1, MOST_COUNT)
}

/// Takes the line of a bidder or of a bid, or the last line. Memory is asked for only after the line was found right.
fn take_listed(alloc: Global, mut slots: Slots, line: &[u8]) -> Result<Stage, LineStop<Excess>>
    ensures ok { IfOk result (λ next. Step (Stage.Listing slots) line.now next × (excess next ≡ None)) }
    ensures form { result ≡ Err LineStop.Form → (t : Stage) → Step (Stage.Listing slots) line.now t → ⊥ }
    ensures limit { (kind : LimitKind) (count : ℕ) → result ≡ Err (LineStop.Limit (kind, count))
        → (t : Stage) × Step (Stage.Listing slots) line.now t × (excess t ≡ Some (kind, count)) }
    ensures memory { result ≡ Err LineStop.Memory
        → (t : Stage) × Step (Stage.Listing slots) line.now t × (excess t ≡ None) }
{
    if line == b"end".as_slice() {
        return Ok(Stage::Ended(slots));
    }
    take_entry(alloc, &mut slots, line)?;
    Ok(Stage::Listing(slots))
}
