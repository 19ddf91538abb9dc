// A certificate that is checked from pieces of its text.
ghost use Rattle.std.specs.Prelude.{◌≡◌, ◌≤◌, ◌<◌, ◌+◌, ◌^◌, ℕ, List, [], ◌∷◌, ◌++◌, length, IfOk, IfErr, ℤ, None};
ghost use Rattle.auction_model.specs.Prices.{AreWeights, weight_of};
ghost use Rattle.line_format.specs.LineText.{stated};
ghost use Rattle.cert_summary.specs.Facts.{AreFacts};
ghost use Rattle.cert_grammar.specs.Certificate.{CertValue};
ghost use Rattle.cert_grammar.specs.Lines.{Line};
ghost use Rattle.cert_grammar.specs.Says.{CertSays};
ghost use Rattle.cert_soundness.specs.Sound.{IsSound};
ghost use Rattle.cert_soundness.specs.Tests.{Holds, bidders_of, states};
ghost use Rattle.cert_check.specs.Verdicts.{IsVerdict};
ghost use Rattle.cert_stream.specs.Pieces.{between};
ghost use Rattle.cert_stream.specs.Rooms.{room_size};
ghost use Rattle.cert_stream.specs.Stops.{SaysStop};

use crate::facts::facts_in;
use crate::judging::judged;
use crate::kept::{members_after, totals_after};
use crate::moment::LineContext;
use crate::row_totals::{RowTotals, no_totals};
use bid_book::BidBook;
use cert_check::{Failure, Verdict, verdict_of};
use cert_grammar::one_cert;
use cert_soundness::{one_verdict, sound_yes};
use cert_stream::{NextLine, Progress, Reader, TextStop, room_len};
use cert_summary::CertFacts;
use cert_text::Shape;
use std::alloc::{AllocError, Global};

/// Checks a certificate of a book from pieces of its bytes.
#[derive(Drop)]
pub struct StreamCheck<'a> {
    book: &'a BidBook,
    weights: &'a [u32],
    reader: Reader,
    /// The first test that fails, as far as the certificate has come.
    failed: Option<Failure>,
    /// What was found early of the table that is read: its place after the rules.
    late: Option<u64>,
    /// How many members the row has that is read.
    members: usize,
    /// Whether the last line of the table that is read is known never to fall.
    grows: bool,
    /// The multipliers of the rows that have come.
    totals: RowTotals,
}

impl<'a> StreamCheck<'a> {
    ghost use Rattle.stream_check.specs.Standing.{HasTaken, StandsWith, EndsFor};

    /// How many numbers the room has.
    pub fn room(book: &BidBook) -> usize
        ensures { result ≡ room_size (bidders_of book.now) (states book.now) }
    {
        room_len(Shape::of(book))
    }

    /// A checker before its first piece, for a weight of 1 to 20 for each bidder. It fills the room with zeros.
    pub fn start(book: &'a BidBook, room: &mut [i128], weights: &'a [u32]) -> StreamCheck<'a>
        requires room { length room.old ≡ room_size (bidders_of book.now) (states book.now) }
        requires weights { AreWeights (bidders_of book.now) weights.now }
        ensures stands { HasTaken result room.new [] }
        ensures book { result.book.now ≡ book.now }
        ensures weights { result.weights.now ≡ weights.now }
        ensures room { length room.new ≡ length room.old }
    {
        for k in 0..room.len() {
            room[k] = 0;
        }
        StreamCheck {
            book,
            weights,
            reader: Reader::start(Shape::of(book)),
            failed: None,
            late: None,
            members: 0,
            grows: false,
            totals: no_totals(),
        }
    }

    /// Feeds the next bytes. However a text is cut into pieces, the checker then stands for the text.
    pub fn feed(&mut self, room: &mut [i128], piece: &[u8])
        requires room { length room.old ≡ room_size (bidders_of self.old.book.now) (states self.old.book.now) }
        requires stands { (text : List ℕ) × HasTaken self.old room.old text
            × (length text + length piece.now < 2 ^ 40) }
        ensures stands { (text : List ℕ) → HasTaken self.old room.old text
            → HasTaken self.new room.new (text ++ piece.now) }
        ensures book { self.new.book.now ≡ self.old.book.now }
        ensures weights { self.new.weights.now ≡ self.old.weights.now }
        ensures room { length room.new ≡ length room.old }
    {
        let mut at = 0;
        while at < piece.len() {
            if self.reader.stop.is_some() {
                return;
            }
            at = self.feed_line(room, piece, at);
        }
    }

    /// The verdict of the certificate whose text was fed. Errors: `Form` and `Range` with the byte where the first faulty line
    /// begins, as for `read_cert` on the whole text.
    ///
    /// The verdict equals the one of `check`: the first test that fails, with its first place, or else `Yes`. Then the choice
    /// is the winning one, and with the payments it is the core outcome for these weights.
    pub fn finish(&self, room: &[i128]) -> Result<Verdict, TextStop>
        ensures verdict { (text : List ℕ) → HasTaken self.now room.now text
            → IfOk result (λ v. (c : CertValue)
            × CertSays (bidders_of self.now.book.now) (states self.now.book.now) text (stated c)
            × IsVerdict self.now.book.now (weight_of self.now.weights.now) c v
            × (v ≡ Verdict.Yes → IsSound self.now.book.now (weight_of self.now.weights.now) c)) }
        ensures stops { (text : List ℕ) → HasTaken self.now room.now text
            → IfErr result (SaysStop (bidders_of self.now.book.now) (states self.now.book.now) text) }
    {
        sound_yes();
        match self.reader.finish() {
            Err(stop) => Err(stop),
            Ok(()) => Ok(verdict_of(self.failed)),
        }
    }

    /// The facts of the certificate whose text was fed. The condition is that `finish` returns `Yes`. The only error is out of
    /// memory.
    pub fn read_facts(&self, alloc: Global, room: &[i128]) -> Result<CertFacts, AllocError>
        requires room { length room.now ≡ room_size (bidders_of self.now.book.now) (states self.now.book.now) }
        requires yes { (text : List ℕ) × HasTaken self.now room.now text
            × ((c : CertValue) × CertSays (bidders_of self.now.book.now) (states self.now.book.now) text (stated c)
            × Holds self.now.book.now (weight_of self.now.weights.now) c) }
        ensures { (text : List ℕ) → HasTaken self.now room.now text
            → IfOk result (λ f. (c : CertValue)
            × CertSays (bidders_of self.now.book.now) (states self.now.book.now) text (stated c)
            × AreFacts self.now.book.now c f) }
    {
        one_cert();
        one_verdict();
        Ok(facts_in(alloc, self.book, room)?)
    }

    /// Feeds the bytes of a piece from a place on, up to the end of the line at most. Returns the place after them.
    fn feed_line(&mut self, room: &mut [i128], piece: &[u8], at: usize) -> usize
        requires room { length room.old ≡ room_size (bidders_of self.old.book.now) (states self.old.book.now) }
        requires stands { (text : List ℕ) × HasTaken self.old room.old text
            × (length text + length piece.now < at + 2 ^ 40) }
        requires reading { self.old.reader.stop ≡ None }
        requires at { at < length piece.now }
        ensures stands { (text : List ℕ) → HasTaken self.old room.old text
            → HasTaken self.new room.new (text ++ between at result piece.now) }
        ensures from { at < result }
        ensures to { result ≤ length piece.now }
        ensures book { self.new.book.now ≡ self.old.book.now }
        ensures weights { self.new.weights.now ≡ self.old.weights.now }
        ensures room { length room.new ≡ length room.old }
    {
        match self.reader.read_on(room, piece, at) {
            Progress::Open(end) => end,
            Progress::Ended(end) => {
                self.end_line(room);
                end + 1
            }
        }
    }

    /// Continues after a whole line, whose line feed came.
    fn end_line(&mut self, room: &[i128])
        requires room { length room.now ≡ room_size (bidders_of self.old.book.now) (states self.old.book.now) }
        requires ends { (text : List ℕ) × (items : List Line) × EndsFor self.old room.now text items }
        requires reading { self.old.reader.stop ≡ None }
        ensures stands { (text : List ℕ) (items : List Line) → EndsFor self.old room.now text items
            → HasTaken self.new room.now (text ++ 10 ∷ []) }
        ensures book { self.new.book.now ≡ self.old.book.now }
        ensures weights { self.new.weights.now ≡ self.old.weights.now }
    {
        self.book.kept();
        let due = self.reader.due;
        let count = self.reader.count();
        self.reader.end_line(room);
        if self.reader.stop.is_some() {
            return;
        }
        if self.failed.is_some() {
            return;
        }
        let at = LineContext {
            book: self.book,
            weights: self.weights,
            due,
            count,
            room,
            late: self.late,
            members: self.members,
            grows: self.grows,
            totals: &self.totals,
        };
        let found = judged(&at);
        let members = members_after(&at);
        let totals = totals_after(&at);
        self.failed = found.failed;
        self.late = found.late;
        self.members = members;
        self.grows = found.grows;
        self.totals = totals;
    }
}
