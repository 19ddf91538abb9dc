// An auction that is made from a number, where an append or a put fails.
use crate::settings::{joined, left_at, no_files, sink_of, words_of};
use cca_base::{MemFiles, MemSink};
use cca_run::{FileKind, Status, run};
use std::alloc::{AllocError, Global};
use std::process::Abort;
use std::test::Fail;

/// What a run of `make` answers, prints and leaves in its two files.
#[derive(Drop)]
struct Ended {
    status: Status,
    printed: Vec<u8>,
    award: Vec<u8>,
    log: Vec<u8>,
}

/// The first 100 bytes of the award, the second, and those after them.
const AWARD_START: &str =
    "version = 1\ntick = 1\n\n[[category]]\nname = \"a\"\nsupply = 4\npoints = 10\nreserve = 1000\n\n[[category]]\nna";

const AWARD_MIDDLE: &str =
    "me = \"b\"\nsupply = 1\npoints = 10\nreserve = 1500\n\n[[category]]\nname = \"c\"\nsupply = 14\npoints = 1\nreser";

const AWARD_REST: &str =
    "ve = 100\n\n[[category]]\nname = \"e\"\nsupply = 9\npoints = 1\nreserve = 10\n\n[[bidder]]\nname = \"b1\"\n\
    eligibility = 73\n\n[[bidder]]\nname = \"b2\"\neligibility = 73\n\n[[bidder]]\nname = \"b3\"\neligibility = 73\n\n\
    [[bidder]]\nname = \"b4\"\neligibility = 73\n\n[[bidder]]\nname = \"b5\"\neligibility = 73\n\n[[bidder]]\n\
    name = \"b6\"\neligibility = 73\n\n[[bidder]]\nname = \"b7\"\neligibility = 73\n\n[[bidder]]\nname = \"b8\"\n\
    eligibility = 73\n\n[[bidder]]\nname = \"b9\"\neligibility = 73\n\n[[bidder]]\nname = \"b10\"\neligibility = 73\n\n\
    [[bidder]]\nname = \"b11\"\neligibility = 73\n\n[[bidder]]\nname = \"b12\"\neligibility = 73\n\n[[step]]\n\
    excess = 1\npermille = 100\n\n[[step]]\nexcess = 5\npermille = 200\n";

/// The first 100 bytes of the log of 7.
const LOG_START: &str =
    "bid,b1,1 0 4 4,\nbid,b2,2 1 2 0,\nbid,b3,2 1 5 3,\nbid,b4,1 0 5 2,\nbid,b5,2 0 6 0,\nbid,b6,1 1 7 3,\nbid,";

/// The bytes of the file that the word at this place names; none if it is missing.
fn bytes_at(alloc: Global, files: &MemFiles, place: usize) -> Result<Vec<u8>, AllocError> {
    match left_at(alloc, files, place)? {
        Some(bytes) => Ok(bytes),
        None => Ok(Vec::new(alloc)),
    }
}

/// A run of `make` over missing files, where the append and the put of these numbers fail, 0 for none.
fn run_make(
    alloc: Global,
    words: &[&str],
    fail_append: u64,
    fail_put: u64,
) -> Result<Ended, AllocError> {
    let words = words_of(alloc, words)?;
    let mut files = no_files(alloc, &words)?;
    files.fail_appends.push(fail_append)?;
    let mut out = sink_of(alloc, fail_put)?;
    let status = run(alloc, &words, &mut files, &mut out);
    ended_of(alloc, status, &files, &out)
}

/// What a run that gave this status has left.
fn ended_of(
    alloc: Global,
    status: Status,
    files: &MemFiles,
    out: &MemSink,
) -> Result<Ended, AllocError> {
    let printed = Vec::from_slice(alloc, &out.bytes)?;
    Ok(Ended {
        status,
        printed,
        award: bytes_at(alloc, files, 2)?,
        log: bytes_at(alloc, files, 3)?,
    })
}

/// Asserts the status and what was printed.
fn ends(rt: &impl Abort, ended: &Ended, file: FileKind, printed: &str) {
    assert_eq!(rt; ended.status, Status::WriteFault { file });
    assert_eq!(rt; ended.printed.as_slice(), printed.as_bytes());
}

/// Asserts what is in the two files.
fn leaves(rt: &impl Abort, ended: &Ended, award: &[u8], log: &str) {
    assert_eq!(rt; ended.award.as_slice(), award);
    assert_eq!(rt; ended.log.as_slice(), log.as_bytes());
}

const SEVEN: &[&str] = &["make", "7", "AWARD", "LOG"];

// At most 100 bytes are appended at once, so that the award takes nine appends.
#[test]
fn keeps_the_order_of_appends_after_a_fault(rt: HostRuntime) -> Result<(), Fail> {
    let award_fault = "cca: write fault award\n";
    let log_fault = "cca: write fault log\n";
    let whole: &[&str] = &[AWARD_START, AWARD_MIDDLE, AWARD_REST];
    let table: [(u64, FileKind, &str, &[&str], &str); 5] = [
        (1, FileKind::Award, award_fault, &[], ""),
        (2, FileKind::Award, award_fault, &[AWARD_START], ""),
        (
            3,
            FileKind::Award,
            award_fault,
            &[AWARD_START, AWARD_MIDDLE],
            "",
        ),
        (10, FileKind::Log, log_fault, whole, ""),
        (11, FileKind::Log, log_fault, whole, LOG_START),
    ];
    for (fail_append, file, printed, award, log) in table {
        let ended = run_make(rt.alloc(), SEVEN, fail_append, 0)?;
        let award = joined(rt.alloc(), award)?;
        ends(&rt, &ended, file, printed);
        leaves(&rt, &ended, &award, log);
    }
    Ok(())
}

#[test]
fn reports_a_fault_of_the_output_after_both_files(rt: HostRuntime) -> Result<(), Fail> {
    let ended = run_make(rt.alloc(), SEVEN, 0, 2)?;
    ends(&rt, &ended, FileKind::Out, "made ");
    assert_eq!(rt; ended.award.len(), 836);
    assert_eq!(rt; ended.log.len(), 28996);
    Ok(())
}
