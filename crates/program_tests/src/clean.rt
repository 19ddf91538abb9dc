// Runs over files and an output in memory that was reserved before. They end and print as over files in memory that grow, where an append
// and a put take a few bytes at a time; here they take the whole piece, or fail and take nothing.
ghost use Rattle.std.specs.Prelude.{◌<◌, length, IfOk, OnOk, All, IsTrue, map, string_bytes};

use crate::samples::{
    AWARD, CHECK, DAY_CRAMTON, DAY_CRAMTON_CERT, LOWERED, LOWERED_OUTCOME, PRICE, SAMPLE,
};
use crate::settings::{Ended, joined, run_plain, words_of};
use cca_base::{CleanFiles, CleanSink, Files, WriteStop, write_file};
use cca_run::{FileKind, Status, run};
use std::alloc::{AllocError, Global};
use std::process::Abort;
use std::test::Fail;

const WIN: &[&str] = &["win", "BOOK"];

const WINNERS: &str = "winner b1 1 0 28\nwinner b2 0 1 20\nnet 48\n";

/// How many bytes the certificate has.
const CERT_LENGTH: u64 = 476;

const PRICES: &str =
    "winner b1 1 0 bid 28 vickrey 14 pays 17\nwinner b2 0 1 bid 20 vickrey 12 pays 15\nnet 48\nrevenue 32\n";

const ACCEPTED: &str =
    "yes\nwinner b1 1 0 bid 28 vickrey 14 pays 17\nwinner b2 0 1 bid 20 vickrey 12 pays 15\nnet 48\nrevenue 32\n";

// The content of the named files before a run, and how many bytes go into each of them and into the output.
#[derive(Clone, Copy)]
struct Setting<'a> {
    first: &'a [u8],
    second: &'a [u8],
    third: &'a [u8],
    room: u64,
    width: u64,
}

// What a run returns and prints.
#[derive(Drop)]
struct Answer {
    status: Status,
    printed: Vec<u8>,
}

// Empty files that know the arguments, each with room for that many bytes.
fn clean_files(alloc: Global, words: &[String], room: u64) -> Result<CleanFiles, AllocError>
    ensures { IfOk result (λ files. All (λ w. IsTrue ((⟦<CleanFiles as Files>⟧.folder files).knows w))
        (map string_bytes words.now)) }
{
    let files = CleanFiles::new(alloc, words, room)?;
    Ok(files)
}

// Puts these bytes into the file that the word at this place names.
fn give(
    files: &mut CleanFiles,
    words: &[String],
    place: usize,
    bytes: &[u8],
) -> Result<(), WriteStop>
    requires place { place < length words.now }
    requires known { All (λ w. IsTrue ((⟦<CleanFiles as Files>⟧.folder files.old).knows w)) (map string_bytes words.now) }
    ensures { OnOk result
        (All (λ w. IsTrue ((⟦<CleanFiles as Files>⟧.folder files.new).knows w)) (map string_bytes words.now)) }
{
    write_file(files, words[place].as_str(), bytes)?;
    Ok(())
}

// Puts these bytes into the file that the word at this place names, if there is such a word.
fn fill(
    files: &mut CleanFiles,
    words: &[String],
    place: usize,
    bytes: &[u8],
) -> Result<(), WriteStop>
    requires { All (λ w. IsTrue ((⟦<CleanFiles as Files>⟧.folder files.old).knows w)) (map string_bytes words.now) }
    ensures { OnOk result
        (All (λ w. IsTrue ((⟦<CleanFiles as Files>⟧.folder files.new).knows w)) (map string_bytes words.now)) }
{
    match words.get(place) {
        Some(_) => give(files, words, place, bytes),
        None => Ok(()),
    }
}

// Files that know the arguments, with their content before the run.
fn files_of(alloc: Global, words: &[String], setting: Setting<'_>) -> Result<CleanFiles, Fail>
    ensures { IfOk result (λ files. All (λ w. IsTrue ((⟦<CleanFiles as Files>⟧.folder files).knows w))
        (map string_bytes words.now)) }
{
    let mut files = clean_files(alloc, words, setting.room)?;
    fill(&mut files, words, 1, setting.first)?;
    fill(&mut files, words, 2, setting.second)?;
    fill(&mut files, words, 3, setting.third)?;
    Ok(files)
}

// A run over such files.
fn run_clean(alloc: Global, words: &[&str], setting: Setting<'_>) -> Result<Answer, Fail> {
    let words = words_of(alloc, words)?;
    let mut files = files_of(alloc, &words, setting)?;
    let mut out = CleanSink::new(alloc, setting.width)?;
    let status = run(alloc, &words, &mut files, &mut out);
    let printed = Vec::from_slice(alloc, out.bytes())?;
    Ok(Answer { status, printed })
}

// Asserts the status and what was printed.
fn ends(rt: &impl Abort, answer: &Answer, status: Status, printed: &str) {
    assert_eq!(rt; answer.status, status);
    assert_eq!(rt; answer.printed.as_slice(), printed.as_bytes());
}

// Asserts that both runs end alike.
fn are_alike(rt: &impl Abort, clean: &Answer, grown: &Ended) {
    assert_eq!(rt; grown.status, clean.status);
    assert_eq!(rt; grown.printed.as_slice(), clean.printed.as_slice());
}

// A run that is done and prints this, over files of both kinds, with an output that has room for that and no more.
fn prints(
    rt: &impl Abort,
    alloc: Global,
    words: &[&str],
    first: &[u8],
    second: &[u8],
    printed: &str,
) -> Result<(), Fail> {
    let clean = run_clean(
        alloc,
        words,
        Setting {
            first,
            second,
            third: b"",
            room: 600,
            width: printed.len() as u64,
        },
    )?;
    let grown = run_plain(alloc, words, first, second)?;
    ends(rt, &clean, Status::Done, printed);
    are_alike(rt, &clean, &grown);
    Ok(())
}

#[test]
fn prints_as_over_files_that_grow(rt: HostRuntime) -> Result<(), Fail> {
    let alloc = rt.alloc();
    let book = DAY_CRAMTON.as_bytes();
    let cert = joined(alloc, DAY_CRAMTON_CERT)?;
    let award = SAMPLE.as_bytes();
    let log = LOWERED.as_bytes();
    prints(&rt, alloc, WIN, book, b"", WINNERS)?;
    prints(&rt, alloc, PRICE, book, b"", PRICES)?;
    prints(&rt, alloc, CHECK, book, &cert, ACCEPTED)?;
    prints(&rt, alloc, AWARD, award, log, LOWERED_OUTCOME)
}

// The book of a run that prices it, if each file has that much room and the output that much.
fn priced_within(alloc: Global, room: u64, width: u64) -> Result<Answer, Fail> {
    let setting = Setting {
        first: DAY_CRAMTON.as_bytes(),
        second: b"",
        third: b"",
        room,
        width,
    };
    run_clean(alloc, PRICE, setting)
}

#[test]
fn a_certificate_fits_to_its_last_byte(rt: HostRuntime) -> Result<(), Fail> {
    let alloc = rt.alloc();
    let fits = priced_within(alloc, CERT_LENGTH, 200)?;
    assert_eq!(rt; fits.status, Status::Done);
    let short = priced_within(alloc, CERT_LENGTH - 1, 200)?;
    let fault = Status::WriteFault {
        file: FileKind::Cert,
    };
    ends(&rt, &short, fault, "cca: write fault cert\n");
    Ok(())
}

#[test]
fn an_output_without_room_is_a_fault(rt: HostRuntime) -> Result<(), Fail> {
    let answer = priced_within(rt.alloc(), 600, PRICES.len() as u64 - 1)?;
    let fault = Status::WriteFault {
        file: FileKind::Out,
    };
    ends(&rt, &answer, fault, "");
    Ok(())
}
