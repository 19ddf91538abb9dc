// A certificate that is checked from pieces of its file.
ghost use Rattle.std.specs.Prelude.{◌≡◌, ◌≢◌, ◌≤◌, ◌<◌, ℕ, List, Err, length, IfOk, IfErr, IsTrue, IsSome, OnOk};
ghost use Rattle.limits.specs.declared.TheConstants.{CERT_BYTES};
ghost use Rattle.auction_model.specs.Prices.{AreWeights};
ghost use Rattle.cca_base.specs.Faults.{Rose};
ghost use Rattle.cca_base.specs.Files.{CountsOnly, GaveMore, GaveSome, KeepsFiles};
ghost use Rattle.cert_soundness.specs.Tests.{bidders_of, states};
ghost use Rattle.cert_stream.specs.Rooms.{room_size};
ghost use Rattle.stream_check.specs.Standing.{HasTaken};
ghost use Rattle.cca_commands.specs.Checked.{IsFed, IsFoundRight, IsJudged, PassesTests, ShowsFacts, StopsCheck, feed_status, text_status};
ghost use Rattle.cca_cli.specs.Reading.{InputStops, IsRead, IsStop, OnlyLoads};
ghost use Rattle.cca_cli.specs.declared.status.FileKind.TheVariants.{Cert};
ghost use Rattle.cca_cli.specs.declared.status.Status.{Status};

use bid_book::BidBook;
use cca_base::Files;
use cca_cli::{CertKind, FileKind, Status};
use cert_check::Verdict;
use cert_grammar::one_cert;
use cert_stream::TextStop;
use cert_summary::CertFacts;
use limits::{CERT_BYTES, LimitKind};
use std::alloc::{AllocError, Global};
use stream_check::StreamCheck;

// Bytes that one load asks for.
const PIECE: usize = 4_096;

// Room for the bytes of one load.
fn empty_piece(alloc: Global) -> Result<Vec<u8>, AllocError>
    ensures { IfOk result (λ v. 0 < length v.items) }
{
    vec![in alloc; 0u8; PIECE]
}

// Room for what a checker keeps.
fn empty_room(alloc: Global, book: &BidBook) -> Result<Vec<i128>, AllocError>
    ensures { IfOk result (λ v. length v.items ≡ room_size (bidders_of book.now) (states book.now)) }
{
    vec![in alloc; 0i128; StreamCheck::room(book)]
}

// Why a checker isn't fed a whole file. Feeding takes no memory.
#[derive(Clone, Copy)]
enum FeedStop {
    // A load failed.
    Fault,
    // The file has more bytes than a certificate may have.
    TooLong,
}

// A checker after the whole file, one piece with each load. A file with more bytes than a certificate may have is too long,
// whatever its first bytes say.
fn feed_file<'a, F: Files>(
    files: &mut F,
    name: &str,
    book: &'a BidBook,
    weights: &'a [u32],
    room: &mut [i128],
    piece: &mut [u8],
) -> Result<StreamCheck<'a>, FeedStop>
    requires known { IsTrue ((F.folder files.old).knows name.now) }
    requires weights { AreWeights (bidders_of book.now) weights.now }
    requires room { length room.old ≡ room_size (bidders_of book.now) (states book.now) }
    requires piece { 0 < length piece.old }
    ensures fed { IfOk result
        (IsFed book.now weights.now name.now (F.folder files.old) (F.folder files.new) room.new) }
    ensures room { length room.new ≡ length room.old }
    ensures too_long { result ≡ Err FeedStop.TooLong
        → GaveMore name.now (F.folder files.old) (F.folder files.new) CERT_BYTES }
    ensures some { GaveSome name.now (F.folder files.old) (F.folder files.new) }
    ensures quiet { result ≢ Err FeedStop.Fault → (F.folder files.new).load_faults ≡ (F.folder files.old).load_faults }
    ensures fault { result ≡ Err FeedStop.Fault
        → Rose ((F.folder files.old).load_faults name.now) ((F.folder files.new).load_faults name.now) }
    ensures no_fault { IsSome ((F.folder files.old).room name.now) → result ≢ Err FeedStop.Fault }
    ensures kept { KeepsFiles (F.folder files.old) (F.folder files.new) }
    ensures count { CountsOnly name.now (F.folder files.old).load_faults (F.folder files.new).load_faults }
    ensures appends { (F.folder files.new).append_faults ≡ (F.folder files.old).append_faults }
{
    let mut checker = StreamCheck::start(book, room, weights);
    let mut at: u64 = 0;
    loop {
        match files.load(name, at, piece) {
            Err(_) => return Err(FeedStop::Fault),
            Ok(0) => return Ok(checker),
            Ok(n) => {
                if n as u64 > CERT_BYTES - at {
                    return Err(FeedStop::TooLong);
                }
                checker.feed(room, &piece[..n]);
                at += n as u64;
            }
        }
    }
}

// The status of a file that wasn't fed whole.
fn status_of_feed(stop: FeedStop) -> Status
    ensures { result ≡ feed_status stop }
{
    match stop {
        FeedStop::Fault => Status::ReadFault {
            file: FileKind::Cert,
        },
        FeedStop::TooLong => Status::Limit {
            which: LimitKind::Bytes,
            count: CERT_BYTES + 1,
        },
    }
}

// The status of a text that isn't a certificate.
fn status_of_text(stop: TextStop) -> Status
    ensures { result ≡ text_status stop }
{
    match stop {
        TextStop::Form(place) | TextStop::Range(place) => Status::Refused {
            file: FileKind::Cert,
            place,
            entry: 0,
        },
    }
}

// Why the text that was fed isn't a certificate that passes all tests, and nothing if it is. It takes no memory.
fn test_cert(checker: &StreamCheck<'_>, room: &[i128]) -> Result<(), Status>
    requires room { length room.now ≡ room_size (bidders_of checker.now.book.now) (states checker.now.book.now) }
    requires stands { (text : List ℕ) × HasTaken checker.now room.now text }
    ensures yes { OnOk result ((text : List ℕ) → HasTaken checker.now room.now text
        → PassesTests checker.now.book.now checker.now.weights.now text) }
    ensures stop { IfErr result (λ status. (text : List ℕ) → HasTaken checker.now room.now text
        → IsStop status × StopsCheck checker.now.book.now checker.now.weights.now text status) }
{
    match checker.finish(room) {
        Ok(Verdict::Yes) => Ok(()),
        Ok(Verdict::No { test, place }) => Err(Status::No {
            of: CertKind::Book,
            test,
            place,
        }),
        Err(stop) => Err(status_of_text(stop)),
    }
}

// The result of the checker for the certificate that was fed. Memory is taken only after all tests pass.
fn judge_cert(alloc: Global, checker: &StreamCheck<'_>, room: &[i128]) -> Result<CertFacts, Status>
    requires room { length room.now ≡ room_size (bidders_of checker.now.book.now) (states checker.now.book.now) }
    requires stands { (text : List ℕ) × HasTaken checker.now room.now text }
    ensures judged { (text : List ℕ) → HasTaken checker.now room.now text
        → IsJudged checker.now.book.now checker.now.weights.now text result }
    ensures memory { result ≡ Err Status.Memory → (text : List ℕ) → HasTaken checker.now room.now text
        → PassesTests checker.now.book.now checker.now.weights.now text }
{
    one_cert();
    match test_cert(checker, room) {
        Ok(()) => {
            let facts = checker.read_facts(alloc, room)?;
            Ok(facts)
        }
        Err(status) => Err(status),
    }
}

// What the file of a certificate shows, if there is room for its checker. Memory is taken only after all tests pass.
fn check_file<F: Files>(
    alloc: Global,
    files: &mut F,
    name: &str,
    book: &BidBook,
    weights: &[u32],
    room: &mut [i128],
    piece: &mut [u8],
) -> Result<CertFacts, Status>
    requires known { IsTrue ((F.folder files.old).knows name.now) }
    requires weights { AreWeights (bidders_of book.now) weights.now }
    requires room { length room.old ≡ room_size (bidders_of book.now) (states book.now) }
    requires piece { 0 < length piece.old }
    ensures value { IfOk result
        (IsRead CERT_BYTES (ShowsFacts book.now weights.now) name.now (F.folder files.old) (F.folder files.new)) }
    ensures stop { IfErr result
        (InputStops Cert CERT_BYTES (StopsCheck book.now weights.now) name.now (F.folder files.old)
        (F.folder files.new)) }
    ensures memory { result ≡ Err Status.Memory
        → IsFoundRight book.now weights.now name.now (F.folder files.old) (F.folder files.new) }
    ensures loads { OnlyLoads name.now (F.folder files.old) (F.folder files.new) }
{
    match feed_file(files, name, book, weights, room, piece) {
        Ok(checker) => judge_cert(alloc, &checker, room),
        Err(stop) => Err(status_of_feed(stop)),
    }
}

/// The facts of the certificate that is the file of this known name, checked by the weights from pieces of at most 4,096 bytes,
/// so that no memory grows with it. Then all tests pass for the certificate that the file states, and its choice and its
/// payments are the core outcome.
///
/// # Errors
///
/// ReadFault of Cert, only if a load of the file failed in this call, and never if a room is reported for the name; Limit of
/// bytes, if the file has more than a certificate may have; Refused, if it states no certificate of the book; No with the first
/// test that fails and its first place; Memory.
pub fn check_input<F: Files>(
    alloc: Global,
    files: &mut F,
    name: &str,
    book: &BidBook,
    weights: &[u32],
) -> Result<CertFacts, Status>
    requires known { IsTrue ((F.folder files.old).knows name.now) }
    requires weights { AreWeights (bidders_of book.now) weights.now }
    ensures value { IfOk result
        (IsRead CERT_BYTES (ShowsFacts book.now weights.now) name.now (F.folder files.old) (F.folder files.new)) }
    ensures stop { IfErr result
        (InputStops Cert CERT_BYTES (StopsCheck book.now weights.now) name.now (F.folder files.old)
        (F.folder files.new)) }
    ensures loads { OnlyLoads name.now (F.folder files.old) (F.folder files.new) }
{
    let mut numbers = empty_room(alloc, book)?;
    let mut bytes = empty_piece(alloc)?;
    let room = numbers.as_mut_slice();
    check_file(
        alloc,
        files,
        name,
        book,
        weights,
        room,
        bytes.as_mut_slice(),
    )
}
