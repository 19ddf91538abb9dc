// A line of a word and numbers from pieces of bytes.
ghost use Rattle.std.specs.Prelude.{◌≡◌, ◌≤◌, ◌↔◌, ℕ, List, [], ◌∷◌, ◌++◌, length, ◌<◌, ◌+◌, slice_set, ℤ};
ghost use Rattle.cert_stream.specs.declared.line.form.Form.{Form};
ghost use Rattle.cert_stream.specs.Forms.{numbers_of, room_for, MayBegin, MayFollow, Keeps};
ghost use Rattle.line_format.specs.LineText.{IsLine};
ghost use Rattle.cert_stream.specs.Pieces.{between};
ghost use Rattle.cert_stream.specs.LineParts.{IsPart, Becomes, Accepts, ReadsOn};
ghost use Rattle.cert_stream.specs.Tallies.{IsKept};

pub(crate) mod digits;
pub(crate) mod fields;
pub(crate) mod form;
pub(crate) mod numbers;
pub(crate) mod phase;
pub(crate) mod tally;
pub(crate) mod words;

use crate::line::digits::{is_zero, read_digits};
use crate::line::fields::put_fields;
use crate::line::form::Form;
use crate::line::numbers::{is_whole, may_follow};
use crate::line::phase::{NextPhase, Phase, ReadNumber, advance};

/// How far a line has come: what its last bytes are, how many whole numbers it has, and whether one of them is out of range.
#[derive(Clone, Copy, Debug, PartialEq, Eq)]
pub(crate) struct LinePart {
    pub(crate) phase: Phase,
    pub(crate) count: usize,
    pub(crate) beyond: bool,
}

/// What one more byte makes of a line.
#[derive(Clone, Copy, Debug, PartialEq, Eq)]
pub(crate) enum Outcome {
    /// It goes on.
    Open,
    /// It is whole.
    Whole,
    /// It isn't a line of its kind.
    Fault,
}

impl LinePart {
    /// A line before its first byte.
    pub(crate) fn new() -> LinePart
        ensures { (word : List ℕ) (form : Form) (out : List ℤ) → IsPart word form result out [] }
    {
        LinePart {
            phase: Phase::Word(0),
            count: 0,
            beyond: false,
        }
    }

    /// Takes one more byte of a line of the word and such numbers. Whole numbers go into `out`.
    pub(crate) fn take(&mut self, form: Form, word: &[u8], out: &mut [i128], byte: u8) -> Outcome
        requires room { room_for form ≤ length out.old }
        requires part { (bytes : List ℕ) × IsPart word.now form self.old out.old bytes }
        ensures becomes { (bytes : List ℕ) → IsPart word.now form self.old out.old bytes
            → Becomes word.now form self.new out.new bytes byte result }
        ensures room { length out.new ≡ length out.old }
    {
        match advance(self.phase, word, byte) {
            NextPhase::Open(phase) => {
                self.phase = phase;
                Outcome::Open
            }
            NextPhase::Field(kept) => {
                if !self.keep(form, out, kept) {
                    return Outcome::Fault;
                }
                self.phase = Phase::Space;
                Outcome::Open
            }
            NextPhase::Last(kept) => {
                if !self.keep(form, out, kept) {
                    return Outcome::Fault;
                }
                if !is_whole(form, self.count) {
                    return Outcome::Fault;
                }
                Outcome::Whole
            }
            NextPhase::Bare => {
                if !is_whole(form, 0) {
                    return Outcome::Fault;
                }
                Outcome::Whole
            }
            NextPhase::Fault => Outcome::Fault,
        }
    }

    /// Keeps a whole number, if it may follow those that are kept.
    fn keep(&mut self, form: Form, out: &mut [i128], kept: ReadNumber) -> bool
        requires room { room_for form ≤ length out.old }
        requires some { (ns : List ℤ) × (z : ℤ) × Keeps ns out.old self.old.count self.old.beyond
            × MayBegin (numbers_of form) ns × IsKept kept z }
        ensures accepts { (ns : List ℤ) (z : ℤ) → Keeps ns out.old self.old.count self.old.beyond
            → MayBegin (numbers_of form) ns → IsKept kept z → Accepts form ns z out.new self.new result }
        ensures phase { self.new.phase ≡ self.old.phase }
        ensures room { length out.new ≡ length out.old }
    {
        if !may_follow(form, out, self.count, kept) {
            return false;
        }
        self.count = store(out, self.count, kept.number);
        self.beyond = self.beyond || kept.beyond;
        true
    }

    /// Takes what is at the start of a piece and needs no step for each byte: whole numbers, and then digits. Returns where
    /// they end.
    pub(crate) fn take_front(
        &mut self,
        form: Form,
        out: &mut [i128],
        piece: &[u8],
        at: usize,
    ) -> usize
        requires room { room_for form ≤ length out.old }
        requires at { at ≤ length piece.now }
        ensures from { at ≤ result }
        ensures to { result ≤ length piece.now }
        ensures line { IsLine (between at result piece.now) }
        ensures part { (word : List ℕ) (bytes : List ℕ) → IsPart word form self.old out.old bytes
            → IsPart word form self.new out.new (bytes ++ between at result piece.now) }
        ensures room { length out.new ≡ length out.old }
    {
        let mid = self.take_fields(form, out, piece, at);
        self.take_digits(piece, mid)
    }

    /// Takes the whole numbers at the start of a piece, where one has to begin in a line of signed ones. Returns where they
    /// end.
    fn take_fields(&mut self, form: Form, out: &mut [i128], piece: &[u8], at: usize) -> usize
        requires room { room_for form ≤ length out.old }
        requires at { at ≤ length piece.now }
        ensures from { at ≤ result }
        ensures to { result ≤ length piece.now }
        ensures line { IsLine (between at result piece.now) }
        ensures part { (word : List ℕ) (bytes : List ℕ) → IsPart word form self.old out.old bytes
            → IsPart word form self.new out.new (bytes ++ between at result piece.now) }
        ensures room { length out.new ≡ length out.old }
    {
        let Form::Signed(most) = form else {
            return at;
        };
        let Phase::Space = self.phase else {
            return at;
        };
        let fields = put_fields(out, self.count, most, piece, at);
        self.count = fields.count;
        fields.end
    }

    /// Takes the digits at the start of a piece, if the line is in a number. Returns where they end.
    pub(crate) fn take_digits(&mut self, piece: &[u8], at: usize) -> usize
        requires { at ≤ length piece.now }
        ensures from { at ≤ result }
        ensures to { result ≤ length piece.now }
        ensures digits { IsLine (between at result piece.now) }
        ensures part { (word : List ℕ) (form : Form) (out : List ℤ) (bytes : List ℕ)
            → IsPart word form self.old out bytes
            → IsPart word form self.new out (bytes ++ between at result piece.now) }
    {
        let Phase::Digits { negative, tally } = self.phase else {
            return at;
        };
        if is_zero(tally) {
            return at;
        }
        let run = read_digits(piece, at, tally);
        self.phase = Phase::Digits {
            negative,
            tally: run.tally,
        };
        run.end
    }
}

/// A line after more bytes: what it is then, and the place of the byte that made it whole or wrong, or the end of the piece.
#[derive(Clone, Copy)]
pub(crate) struct LineRead {
    pub(crate) part: LinePart,
    pub(crate) outcome: Outcome,
    pub(crate) end: usize,
}

/// Reads on in a line of the word and such numbers, from a place of a piece on. Whole numbers go into `out`.
pub(crate) fn read_line(
    part: LinePart,
    form: Form,
    word: &[u8],
    out: &mut [i128],
    piece: &[u8],
    at: usize,
) -> LineRead
    requires room { room_for form ≤ length out.old }
    requires part { (bytes : List ℕ) × IsPart word.now form part out.old bytes }
    requires at { at ≤ length piece.now }
    ensures reads { (bytes : List ℕ) → IsPart word.now form part out.old bytes
        → ReadsOn word.now form result.part out.new bytes piece.now at result.end result.outcome }
    ensures line { IsLine (between at result.end piece.now) }
    ensures from { at ≤ result.end }
    ensures to_end { result.outcome ≡ Outcome.Open → result.end ≡ length piece.now }
    ensures ended { (result.outcome ≡ Outcome.Open → ⊥) → result.end < length piece.now }
    ensures room { length out.new ≡ length out.old }
{
    let mut part = part;
    let mut end = at;
    while end < piece.len() {
        end = part.take_front(form, out, piece, end);
        if end < piece.len() {
            let outcome = part.take(form, word, out, piece[end]);
            if outcome != Outcome::Open {
                return LineRead { part, outcome, end };
            }
            end += 1;
        }
    }
    LineRead {
        part,
        outcome: Outcome::Open,
        end,
    }
}

/// Puts a number at a place. Returns the next place.
fn store(out: &mut [i128], at: usize, number: i128) -> usize
    requires { at < length out.old }
    ensures next { result ≡ at + 1 }
    ensures stored { out.new ≡ slice_set out.old at number }
{
    out[at] = number;
    at + 1
}
