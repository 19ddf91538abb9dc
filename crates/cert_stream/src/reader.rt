// The lines of a certificate from pieces of bytes.
ghost use Rattle.std.specs.Prelude.{◌≡◌, ◌≤◌, ◌<◌, ◌+◌, ◌^◌, ℕ, List, [], ◌∷◌, ◌++◌, length, take, drop, Option, Some, None, OnOk, IfErr, ℤ, ◌-◌, ◌≢◌, IsTrue, false, get_or, pos};
ghost use Rattle.line_format.specs.LineText.{stated};
ghost use Rattle.cert_grammar.specs.Certificate.{CertValue};
ghost use Rattle.cert_grammar.specs.Lines.{Line};
ghost use Rattle.cert_grammar.specs.Says.{CertSays};
ghost use Rattle.cert_stream.specs.Dues.{line_with};
ghost use Rattle.cert_stream.specs.LinesLeft.{LeadsInRoom};
ghost use Rattle.cert_stream.specs.Order.{ComesBehind};
ghost use Rattle.cert_stream.specs.Pieces.{between};
ghost use Rattle.cert_stream.specs.Rooms.{room_size, start_due, KeepsOthers};
ghost use Rattle.cert_stream.specs.Stops.{SaysStop};
ghost use Rattle.cert_stream.specs.Advances.{Advances, IsWithin};

use crate::due::NextLine;
use crate::line::{LinePart, Outcome};
use crate::next::next;
use crate::room::{numbers_span, read_due};
use crate::stop::TextStop;
use cert_text::Shape;

/// Reads a certificate for that many bidders and states, piece by piece.
#[derive(Clone, Copy)]
pub struct Reader {
    /// For how many bidders and states it is.
    pub shape: Shape,
    /// The line that is to come, or has come in part.
    pub due: NextLine,
    /// How far that line has come.
    pub(crate) part: LinePart,
    /// The byte where it begins.
    pub(crate) place: u64,
    /// How many bytes came.
    pub(crate) read: u64,
    /// Why the text that came is the prefix of no certificate. A reader that has stopped reads no more.
    pub stop: Option<TextStop>,
}

/// How far a reader has come in a piece.
#[derive(Clone, Copy, Debug, PartialEq, Eq)]
pub enum Progress {
    /// The bytes before this place are read.
    Open(usize),
    /// The line feed at this place makes the line whole that is due.
    Ended(usize),
}

impl Reader {
    ghost use Rattle.cert_stream.specs.Standing.{StandsFor, StandsBehind, EndsBehind};

    /// A reader before its first piece. It leaves the room unchanged.
    pub fn start(shape: Shape) -> Reader
        ensures stands { (room : List ℤ) → StandsFor result room [] }
        ensures fresh { (room : List ℤ) → StandsBehind result room [] [] }
        ensures shape { result.shape ≡ shape }
        ensures first { (result.due ≡ NextLine.Version) × (result.stop ≡ None) }
    {
        Reader {
            shape,
            due: NextLine::Version,
            part: LinePart::new(),
            place: 0,
            read: 0,
            stop: None,
        }
    }

    /// Feeds the next bytes. However a text is cut into pieces, the reader then stands for the text.
    pub fn feed(&mut self, room: &mut [i128], piece: &[u8])
        requires room { length room.old ≡ room_size self.old.shape.bidders self.old.shape.states }
        requires stands { (text : List ℕ) × StandsFor self.old room.old text
            × (length text + length piece.now < 2 ^ 40) }
        ensures stands { (text : List ℕ) → StandsFor self.old room.old text
            → StandsFor self.new room.new (text ++ piece.now) }
        ensures shape { self.new.shape ≡ self.old.shape }
        ensures room { length room.new ≡ length room.old }
    {
        let mut at = 0;
        while at < piece.len() {
            if self.stop.is_some() {
                return;
            }
            at = self.feed_line(room, piece, at);
        }
    }

    /// Whether the text that was fed to the reader is the text of a certificate. Errors: `Form` and `Range` with the byte where
    /// the first faulty line begins, as for `read_cert` on the whole text.
    pub fn finish(&self) -> Result<(), TextStop>
        ensures says { (room : List ℤ) (text : List ℕ) → StandsFor self.now room text
            → OnOk result ((c : CertValue) × CertSays self.now.shape.bidders self.now.shape.states text (stated c)) }
        ensures done { OnOk result ((self.now.stop ≡ None) × (self.now.due ≡ NextLine.Nothing)) }
        ensures stops { (room : List ℤ) (text : List ℕ) → StandsFor self.now room text
            → IfErr result (SaysStop self.now.shape.bidders self.now.shape.states text) }
    {
        if let Some(stop) = self.stop {
            return Err(stop);
        }
        if self.due != NextLine::Nothing {
            return Err(TextStop::Form(self.place));
        }
        Ok(())
    }

    /// Feeds the bytes of a piece from a place on, up to the end of the line at most. Returns the place after them.
    fn feed_line(&mut self, room: &mut [i128], piece: &[u8], at: usize) -> usize
        requires room { length room.old ≡ room_size self.old.shape.bidders self.old.shape.states }
        requires stands { (text : List ℕ) × StandsFor self.old room.old text
            × (length text + length piece.now < at + 2 ^ 40) }
        requires reading { self.old.stop ≡ None }
        requires at { at < length piece.now }
        ensures stands { (text : List ℕ) → StandsFor self.old room.old text
            → StandsFor self.new room.new (text ++ between at result piece.now) }
        ensures from { at < result }
        ensures to { result ≤ length piece.now }
        ensures shape { self.new.shape ≡ self.old.shape }
        ensures room { length room.new ≡ length room.old }
    {
        match self.read_on(room, piece, at) {
            Progress::Open(end) => end,
            Progress::Ended(end) => {
                self.end_line(room);
                end + 1
            }
        }
    }

    /// Reads on in the line that is due, from a place of a piece on, up to the end of the line at most. A line that came whole
    /// is left to `end_line`. The room keeps all numbers except the line's.
    pub fn read_on(&mut self, room: &mut [i128], piece: &[u8], at: usize) -> Progress
        requires room { length room.old ≡ room_size self.old.shape.bidders self.old.shape.states }
        requires stands { (text : List ℕ) × StandsFor self.old room.old text
            × (length text + length piece.now < at + 2 ^ 40) }
        requires reading { self.old.stop ≡ None }
        requires at { at < length piece.now }
        ensures advances { (text : List ℕ) (items : List Line) → StandsBehind self.old room.old text items
            → Advances self.new room.new text items piece.now at result }
        ensures within { IsWithin at (length piece.now) result }
        ensures reading { (end : ℕ) → result ≡ Progress.Ended end → self.new.stop ≡ None }
        ensures shape { self.new.shape ≡ self.old.shape }
        ensures due { self.new.due ≡ self.old.due }
        ensures others { KeepsOthers self.old.shape.bidders self.old.shape.states self.old.due room.old room.new }
        ensures room { length room.new ≡ length room.old }
    {
        if self.due == NextLine::Nothing {
            self.stop = Some(TextStop::Form(self.place));
            return Progress::Open(at + 1);
        }
        let line = read_due(self.part, self.due, self.shape, room, piece, at);
        self.part = line.part;
        match line.outcome {
            Outcome::Open => {
                self.read += (line.end - at) as u64;
                Progress::Open(line.end)
            }
            Outcome::Whole => {
                self.read += (line.end - at + 1) as u64;
                Progress::Ended(line.end)
            }
            Outcome::Fault => {
                self.stop = Some(TextStop::Form(self.place));
                Progress::Open(line.end + 1)
            }
        }
    }

    /// How many whole numbers of the line that is due have come.
    pub fn count(&self) -> usize
        ensures { result ≡ self.now.part.count }
    {
        self.part.count
    }

    /// Continues after a whole line, whose line feed came.
    pub fn end_line(&mut self, room: &[i128])
        requires room { length room.now ≡ room_size self.old.shape.bidders self.old.shape.states }
        requires ends { (text : List ℕ) × (items : List Line) × EndsBehind self.old room.now text items }
        requires reading { self.old.stop ≡ None }
        ensures stands { (text : List ℕ) (items : List Line) (ends : EndsBehind self.old room.now text items)
            → StandsBehind self.new room.now (text ++ 10 ∷ [])
            (items ++ line_with self.old.due ends.whole.numbers ∷ []) }
        ensures next { self.new.stop ≡ None
            → LeadsInRoom self.old.shape.bidders self.old.shape.states self.old.due room.now self.new.due }
        ensures order { self.new.stop ≡ None
            → ComesBehind self.old.shape.bidders (take self.old.shape.bidders room.now)
            (get_or room.now (start_due self.old.shape.bidders self.old.shape.states self.old.due)
            (pos 0)) self.old.due self.new.due }
        ensures beyond { self.new.stop ≡ None → self.old.part.beyond ≡ false }
        ensures shape { self.new.shape ≡ self.old.shape }
    {
        if self.part.beyond {
            self.stop = Some(TextStop::Range(self.place));
            return;
        }
        let span = numbers_span(self.due, self.shape);
        let bidders = self.shape.bidders as usize;
        self.due = next(self.due, self.shape, &room[..bidders], room[span.start]);
        self.part = LinePart::new();
        self.place = self.read;
    }
}
