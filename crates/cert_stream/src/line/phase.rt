// How far a line of a word and numbers has come, byte by byte.
ghost use Rattle.std.specs.Prelude.{◌≡◌, ◌≤◌, ◌<◌, ◌↔◌, IsTrue, ℕ, List, length, ℤ};
ghost use Rattle.cert_stream.specs.Partway.{Partway, StepsTo, IsOpen};
ghost use Rattle.cert_stream.specs.Tallies.{IsKept};

use crate::line::digits::{first, is_zero, more};
use crate::line::tally::Magnitude;

/// What the last bytes of a line are.
#[derive(Clone, Copy, Debug, PartialEq, Eq)]
pub(crate) enum Phase {
    /// That many bytes of the word.
    Word(usize),
    /// A space, after which a number has to begin.
    Space,
    /// A minus after a space.
    Minus,
    /// Digits, after a minus or not.
    Digits { negative: bool, tally: Magnitude },
}

/// A number, or 0 if it is out of range.
#[derive(Clone, Copy, Debug, PartialEq, Eq)]
pub(crate) struct ReadNumber {
    pub(crate) number: i128,
    pub(crate) beyond: bool,
}

/// What one more byte makes of a line.
#[derive(Clone, Copy)]
pub(crate) enum NextPhase {
    /// The line goes on.
    Open(Phase),
    /// A space ends a number.
    Field(ReadNumber),
    /// The line feed ends the last number.
    Last(ReadNumber),
    /// The line feed ends the word.
    Bare,
    /// No line of the word and numbers has this byte there.
    Fault,
}

/// One more byte.
pub(crate) fn advance(phase: Phase, word: &[u8], byte: u8) -> NextPhase
    ensures { (ns : List ℤ) (bytes : List ℕ) → Partway word.now ns phase bytes → StepsTo word.now ns bytes byte result }
{
    match phase {
        Phase::Word(count) => word_step(count, word, byte),
        Phase::Space => space_step(byte),
        Phase::Minus => minus_step(byte),
        Phase::Digits { negative, tally } => digit_step(negative, tally, byte),
    }
}

fn word_step(count: usize, word: &[u8], byte: u8) -> NextPhase
    ensures { (ns : List ℤ) (bytes : List ℕ) → Partway word.now ns (Phase.Word count) bytes
        → StepsTo word.now ns bytes byte result }
{
    if count < word.len() {
        if byte == word[count] && byte != b'\n' {
            return NextPhase::Open(Phase::Word(count + 1));
        }
        return NextPhase::Fault;
    }
    if byte == b' ' {
        return NextPhase::Open(Phase::Space);
    }
    if byte == b'\n' {
        return NextPhase::Bare;
    }
    NextPhase::Fault
}

fn space_step(byte: u8) -> NextPhase
    ensures { (word : List ℕ) (ns : List ℤ) (bytes : List ℕ) → Partway word ns Phase.Space bytes
        → StepsTo word ns bytes byte result }
{
    if byte == b'-' {
        return NextPhase::Open(Phase::Minus);
    }
    if !byte.is_ascii_digit() {
        return NextPhase::Fault;
    }
    NextPhase::Open(Phase::Digits {
        negative: false,
        tally: first(byte - b'0'),
    })
}

fn minus_step(byte: u8) -> NextPhase
    ensures { (word : List ℕ) (ns : List ℤ) (bytes : List ℕ) → Partway word ns Phase.Minus bytes
        → StepsTo word ns bytes byte result }
{
    if !begins_below_zero(byte) {
        return NextPhase::Fault;
    }
    NextPhase::Open(Phase::Digits {
        negative: true,
        tally: first(byte - b'0'),
    })
}

/// Whether a number below 0 may begin with this byte after its minus.
fn begins_below_zero(byte: u8) -> bool
    ensures { IsTrue result ↔ ((48 < byte) × (byte ≤ 57)) }
{
    b'0' < byte && byte <= b'9'
}

fn digit_step(negative: bool, tally: Magnitude, byte: u8) -> NextPhase
    ensures { (word : List ℕ) (ns : List ℤ) (bytes : List ℕ) → Partway word ns (Phase.Digits negative tally) bytes
        → StepsTo word ns bytes byte result }
{
    if byte == b' ' {
        return NextPhase::Field(whole_number(negative, tally));
    }
    if byte == b'\n' {
        return NextPhase::Last(whole_number(negative, tally));
    }
    if !byte.is_ascii_digit() || is_zero(tally) {
        return NextPhase::Fault;
    }
    NextPhase::Open(Phase::Digits {
        negative,
        tally: more(tally, byte - b'0'),
    })
}

/// The number that ends.
fn whole_number(negative: bool, tally: Magnitude) -> ReadNumber
    ensures { (z : ℤ) → IsOpen negative tally z → IsKept result z }
{
    if tally.beyond {
        return ReadNumber {
            number: 0,
            beyond: true,
        };
    }
    let size = tally.size as i128;
    ReadNumber {
        number: if negative { -size } else { size },
        beyond: false,
    }
}
