// Each load, append and put of a clean run fails in turn.
ghost use Rattle.std.specs.Prelude.{◌<◌, IfOk, All, IsTrue, map, string_bytes};
ghost use Rattle.cca_base.specs.MemFiles.{mem_folder};

use crate::samples::{
    ALL_ALIKE, CHECK, DAY_CRAMTON, DAY_CRAMTON_CERT, EDITS, LOWERED, PLACE, PLACE_CHECK, PRICE,
    REVIEW, SAMPLE, SLOTS, SLOTS_CERT, WEIGH, WEIGH_CHECK,
};
use crate::settings::{fill, joined, left_at, no_files_in, sink_of, words_of};
use cca_base::{MemFiles, MemSink};
use cca_run::{FileKind, Status, run};
use std::alloc::{AllocError, Global};
use std::process::Abort;
use std::test::Fail;

// The content of the files that arguments 1, 2 and 3 name.
#[derive(Clone, Copy)]
struct Held<'a> {
    first: Option<&'a [u8]>,
    second: Option<&'a [u8]>,
    third: Option<&'a [u8]>,
}

// The numbers of the load, the append and the put that fail; 0 for none.
#[derive(Clone, Copy)]
struct Failing {
    load: u64,
    append: u64,
    put: u64,
}

const CLEAN: Failing = Failing {
    load: 0,
    append: 0,
    put: 0,
};

// What a run answers, prints and leaves in these files, and how many calls it makes.
#[derive(Drop)]
struct Ended {
    status: Status,
    printed: Vec<u8>,
    first: Option<Vec<u8>>,
    second: Option<Vec<u8>>,
    third: Option<Vec<u8>>,
    loads: u64,
    appends: u64,
    puts: u64,
}

// A run whose calls take at most 100 bytes of a file and 5 of the output.
fn run_failing(
    alloc: Global,
    words: &[&str],
    held: Held<'_>,
    failing: Failing,
) -> Result<Ended, AllocError> {
    run_in_bites(alloc, words, held, 100, failing)
}

// A run whose calls take at most that many bytes of a file and 5 of the output.
fn run_in_bites(
    alloc: Global,
    words: &[&str],
    held: Held<'_>,
    bite: usize,
    failing: Failing,
) -> Result<Ended, AllocError>
    requires { 0 < bite }
{
    let words = words_of(alloc, words)?;
    let mut files = files_of(alloc, &words, held, bite, failing)?;
    let mut out = sink_of(alloc, failing.put)?;
    let status = run(alloc, &words, &mut files, &mut out);
    ended_of(alloc, status, &files, &out)
}

// Files that know the arguments, with their content. A call takes at most that many bytes.
fn files_of(
    alloc: Global,
    words: &[String],
    held: Held<'_>,
    bite: usize,
    failing: Failing,
) -> Result<MemFiles, AllocError>
    requires { 0 < bite }
    ensures { IfOk result
        (λ files. All (λ w. IsTrue ((mem_folder files.files.items).knows w)) (map string_bytes words.now)) }
{
    let mut files = no_files_in(alloc, words, bite)?;
    fill(&mut files, words, 1, held.first)?;
    fill(&mut files, words, 2, held.second)?;
    fill(&mut files, words, 3, held.third)?;
    files.fail_loads.push(failing.load)?;
    files.fail_appends.push(failing.append)?;
    Ok(files)
}

// What a run that gave this status has left.
fn ended_of(
    alloc: Global,
    status: Status,
    files: &MemFiles,
    out: &MemSink,
) -> Result<Ended, AllocError> {
    let printed = Vec::from_slice(alloc, &out.bytes)?;
    Ok(Ended {
        status,
        printed,
        first: left_at(alloc, files, 1)?,
        second: left_at(alloc, files, 2)?,
        third: left_at(alloc, files, 3)?,
        loads: files.loads,
        appends: files.appends,
        puts: out.puts,
    })
}

fn holds(left: &Option<Vec<u8>>, bytes: Option<&[u8]>) -> bool {
    left.as_deref() == bytes
}

// Asserts the status and what was printed. It has no owned values, since these make each assert slower to check.
fn ends(rt: &impl Abort, ended: &Ended, status: Status, printed: &[u8]) {
    assert_eq!(rt; ended.status, status);
    assert_eq!(rt; ended.printed.as_slice(), printed);
}

// Asserts that the files are unchanged.
fn leaves(rt: &impl Abort, ended: &Ended, held: Held<'_>) {
    assert!(rt; holds(&ended.first, held.first));
    assert!(rt; holds(&ended.second, held.second));
    assert!(rt; holds(&ended.third, held.third));
}

// The loads of these numbers are of a file of this kind: if one of them fails, only its line is printed and no file has
// changed.
fn loads_fail(
    rt: &impl Abort,
    alloc: Global,
    words: &[&str],
    held: Held<'_>,
    kind: FileKind,
    line: &str,
    from: u64,
    to: u64,
) -> Result<(), Fail> {
    for load in from..to {
        let ended = run_failing(alloc, words, held, Failing { load, ..CLEAN })?;
        ends(
            rt,
            &ended,
            Status::ReadFault { file: kind },
            line.as_bytes(),
        );
        leaves(rt, &ended, held);
    }
    Ok(())
}

// Asserts that the output took this prefix of what a clean run prints, and that the files are as after that.
fn breaks_off(rt: &impl Abort, ended: &Ended, clean: &Ended, front: &[u8]) {
    let file = FileKind::Out;
    ends(rt, ended, Status::WriteFault { file }, front);
    assert!(rt; holds(&ended.second, clean.second.as_deref()));
    assert!(rt; holds(&ended.third, clean.third.as_deref()));
}

// Where the put of any number fails, what went out before is a prefix of the clean text, 5 bytes for each put, and the files are as after
// the clean run.
fn puts_fail(
    rt: &impl Abort,
    alloc: Global,
    words: &[&str],
    held: Held<'_>,
    puts: u64,
) -> Result<(), Fail> {
    let clean = run_failing(alloc, words, held, CLEAN)?;
    assert_eq!(rt; clean.puts, puts);
    let mut done = 0;
    for before in 0..puts {
        let failing = Failing {
            put: before + 1,
            ..CLEAN
        };
        let ended = run_failing(alloc, words, held, failing)?;
        let front = clean.printed.get(..done).expect(rt, "a front");
        breaks_off(rt, &ended, &clean, front);
        done += 5;
    }
    Ok(())
}

// If the append of any number fails, only the line of the fault is printed, and the last file has a prefix of the clean text,
// 100 bytes for each append before.
fn appends_fail(
    rt: &impl Abort,
    alloc: Global,
    words: &[&str],
    held: Held<'_>,
    kind: FileKind,
    line: &str,
    text: &[u8],
) -> Result<(), Fail> {
    let appends = run_failing(alloc, words, held, CLEAN)?.appends;
    let mut done = 0;
    for before in 0..appends {
        let failing = Failing {
            append: before + 1,
            ..CLEAN
        };
        let ended = run_failing(alloc, words, held, failing)?;
        let front = text.get(..done).expect(rt, "a front");
        ends(
            rt,
            &ended,
            Status::WriteFault { file: kind },
            line.as_bytes(),
        );
        assert!(rt; last_of(&ended, words) == front);
        done += 100;
    }
    assert!(rt; text.get(..done).is_none());
    Ok(())
}

// The content of the file that the last argument names, and nothing if it is missing.
fn last_of<'a>(ended: &'a Ended, words: &[&str]) -> &'a [u8] {
    let last = if words.len() > 3 {
        &ended.third
    } else {
        &ended.second
    };
    last.as_deref().unwrap_or(b"")
}

const WIN: &[&str] = &["win", "BOOK"];

const AUCTION: &[&str] = &["auction", "AWARD", "LOG", "BOOK"];

const AWARD: &[&str] = &["award", "AWARD", "LOG", "CERT"];

const AUDIT: &[&str] = &["audit", "AWARD", "LOG", "CERT"];

const LOWERED_BOOK: &str =
    "book 1\nsupply 3\nreserve 10\nbidder east\nbid 1 20\nbid 3 44\nbidder west\nbid 2 24\nend\n";

// Its first 80 bytes.
const LOWERED_BOOK_FRONT: &str =
    "book 1\nsupply 3\nreserve 10\nbidder east\nbid 1 20\nbid 3 44\nbidder west\nbid 2 24\nen";

const BOOK_FAULT: &str = "cca: read fault book\n";

const CERT_FAULT: &str = "cca: read fault cert\n";

const AWARD_FAULT: &str = "cca: read fault award\n";

const LOG_FAULT: &str = "cca: read fault log\n";

const WEIGHTS_FAULT: &str = "cca: read fault weights\n";

const SLOTS_FAULT: &str = "cca: read fault slots\n";

const EDITS_FAULT: &str = "cca: read fault edits\n";

const BOOK_WRITE_FAULT: &str = "cca: write fault book\n";

const CERT_WRITE_FAULT: &str = "cca: write fault cert\n";

// How many loads a clean run makes.
fn makes_loads(
    rt: &impl Abort,
    alloc: Global,
    words: &[&str],
    held: Held<'_>,
    loads: u64,
) -> Result<(), Fail> {
    let clean = run_failing(alloc, words, held, CLEAN)?;
    assert_eq!(rt; clean.status, Status::Done);
    assert_eq!(rt; clean.loads, loads);
    Ok(())
}

#[test]
fn win_stands_each_fault(rt: HostRuntime) -> Result<(), Fail> {
    let alloc = rt.alloc();
    let held = Held {
        first: Some(DAY_CRAMTON.as_bytes()),
        second: None,
        third: None,
    };
    makes_loads(&rt, alloc, WIN, held, 3)?;
    loads_fail(&rt, alloc, WIN, held, FileKind::Book, BOOK_FAULT, 1, 4)?;
    puts_fail(&rt, alloc, WIN, held, 9)
}

#[test]
fn price_stands_each_fault(rt: HostRuntime) -> Result<(), Fail> {
    let alloc = rt.alloc();
    let held = Held {
        first: Some(DAY_CRAMTON.as_bytes()),
        second: None,
        third: None,
    };
    let cert = joined(alloc, DAY_CRAMTON_CERT)?;
    makes_loads(&rt, alloc, PRICE, held, 3)?;
    loads_fail(&rt, alloc, PRICE, held, FileKind::Book, BOOK_FAULT, 1, 4)?;
    appends_fail(
        &rt,
        alloc,
        PRICE,
        held,
        FileKind::Cert,
        CERT_WRITE_FAULT,
        &cert,
    )?;
    puts_fail(&rt, alloc, PRICE, held, 20)
}

#[test]
fn check_stands_each_fault(rt: HostRuntime) -> Result<(), Fail> {
    let alloc = rt.alloc();
    let cert = joined(alloc, DAY_CRAMTON_CERT)?;
    let held = Held {
        first: Some(DAY_CRAMTON.as_bytes()),
        second: Some(&cert),
        third: None,
    };
    makes_loads(&rt, alloc, CHECK, held, 9)?;
    loads_fail(&rt, alloc, CHECK, held, FileKind::Book, BOOK_FAULT, 1, 4)?;
    loads_fail(&rt, alloc, CHECK, held, FileKind::Cert, CERT_FAULT, 4, 10)?;
    puts_fail(&rt, alloc, CHECK, held, 21)
}

#[test]
fn auction_stands_each_fault(rt: HostRuntime) -> Result<(), Fail> {
    let alloc = rt.alloc();
    let held = Held {
        first: Some(SAMPLE.as_bytes()),
        second: Some(LOWERED.as_bytes()),
        third: None,
    };
    makes_loads(&rt, alloc, AUCTION, held, 7)?;
    loads_fail(
        &rt,
        alloc,
        AUCTION,
        held,
        FileKind::Award,
        AWARD_FAULT,
        1,
        5,
    )?;
    loads_fail(&rt, alloc, AUCTION, held, FileKind::Log, LOG_FAULT, 5, 8)?;
    appends_fail(
        &rt,
        alloc,
        AUCTION,
        held,
        FileKind::Book,
        BOOK_WRITE_FAULT,
        LOWERED_BOOK.as_bytes(),
    )?;
    puts_fail(&rt, alloc, AUCTION, held, 19)
}

// Each call of a run of `award`, which writes this certificate, fails in turn.
fn award_stands(rt: &impl Abort, alloc: Global, held: Held<'_>, cert: &[u8]) -> Result<(), Fail> {
    let kind = FileKind::Cert;
    loads_fail(rt, alloc, AWARD, held, FileKind::Award, AWARD_FAULT, 1, 5)?;
    loads_fail(rt, alloc, AWARD, held, FileKind::Log, LOG_FAULT, 5, 8)?;
    appends_fail(rt, alloc, AWARD, held, kind, CERT_WRITE_FAULT, cert)?;
    puts_fail(rt, alloc, AWARD, held, 20)
}

// Each call of a run of `audit` fails in turn.
fn audit_stands(rt: &impl Abort, alloc: Global, held: Held<'_>) -> Result<(), Fail> {
    loads_fail(rt, alloc, AUDIT, held, FileKind::Award, AWARD_FAULT, 1, 5)?;
    loads_fail(rt, alloc, AUDIT, held, FileKind::Log, LOG_FAULT, 5, 8)?;
    makes_loads(rt, alloc, AUDIT, held, 11)?;
    loads_fail(rt, alloc, AUDIT, held, FileKind::Cert, CERT_FAULT, 8, 12)?;
    puts_fail(rt, alloc, AUDIT, held, 21)
}

#[test]
fn award_and_audit_stand_each_fault(rt: HostRuntime) -> Result<(), Fail> {
    let alloc = rt.alloc();
    let held = Held {
        first: Some(SAMPLE.as_bytes()),
        second: Some(LOWERED.as_bytes()),
        third: None,
    };
    let clean = run_failing(alloc, AWARD, held, CLEAN)?;
    let cert = clean.third.as_deref().unwrap_or(b"");
    award_stands(&rt, alloc, held, cert)?;
    let tested = Held {
        third: Some(cert),
        ..held
    };
    audit_stands(&rt, alloc, tested)
}

#[test]
fn weigh_and_weigh_check_stand_each_fault(rt: HostRuntime) -> Result<(), Fail> {
    let alloc = rt.alloc();
    let cert = joined(alloc, DAY_CRAMTON_CERT)?;
    let held = Held {
        first: Some(DAY_CRAMTON.as_bytes()),
        second: Some(ALL_ALIKE.as_bytes()),
        third: None,
    };
    let weights = FileKind::Weights;
    makes_loads(&rt, alloc, WEIGH, held, 5)?;
    loads_fail(&rt, alloc, WEIGH, held, FileKind::Book, BOOK_FAULT, 1, 4)?;
    loads_fail(&rt, alloc, WEIGH, held, weights, WEIGHTS_FAULT, 4, 6)?;
    let kind = FileKind::Cert;
    appends_fail(&rt, alloc, WEIGH, held, kind, CERT_WRITE_FAULT, &cert)?;
    puts_fail(&rt, alloc, WEIGH, held, 20)?;
    let tested = Held {
        third: Some(&cert),
        ..held
    };
    let command = WEIGH_CHECK;
    makes_loads(&rt, alloc, command, tested, 11)?;
    loads_fail(
        &rt,
        alloc,
        command,
        tested,
        FileKind::Book,
        BOOK_FAULT,
        1,
        4,
    )?;
    loads_fail(&rt, alloc, command, tested, weights, WEIGHTS_FAULT, 4, 6)?;
    loads_fail(&rt, alloc, command, tested, kind, CERT_FAULT, 6, 12)?;
    puts_fail(&rt, alloc, command, tested, 21)
}

#[test]
fn place_and_place_check_stand_each_fault(rt: HostRuntime) -> Result<(), Fail> {
    let alloc = rt.alloc();
    let cert = SLOTS_CERT.as_bytes();
    let held = Held {
        first: Some(SLOTS.as_bytes()),
        second: None,
        third: None,
    };
    let (slots, kind) = (FileKind::Slots, FileKind::Cert);
    makes_loads(&rt, alloc, PLACE, held, 2)?;
    loads_fail(&rt, alloc, PLACE, held, slots, SLOTS_FAULT, 1, 3)?;
    appends_fail(&rt, alloc, PLACE, held, kind, CERT_WRITE_FAULT, cert)?;
    puts_fail(&rt, alloc, PLACE, held, 26)?;
    let tested = Held {
        second: Some(cert),
        ..held
    };
    let command = PLACE_CHECK;
    makes_loads(&rt, alloc, command, tested, 6)?;
    loads_fail(&rt, alloc, command, tested, slots, SLOTS_FAULT, 1, 3)?;
    loads_fail(&rt, alloc, command, tested, kind, CERT_FAULT, 3, 7)?;
    puts_fail(&rt, alloc, command, tested, 27)
}

#[test]
fn review_stands_each_fault(rt: HostRuntime) -> Result<(), Fail> {
    let alloc = rt.alloc();
    let held = Held {
        first: Some(DAY_CRAMTON.as_bytes()),
        second: Some(EDITS.as_bytes()),
        third: None,
    };
    let edits = FileKind::Edits;
    makes_loads(&rt, alloc, REVIEW, held, 5)?;
    loads_fail(&rt, alloc, REVIEW, held, FileKind::Book, BOOK_FAULT, 1, 4)?;
    loads_fail(&rt, alloc, REVIEW, held, edits, EDITS_FAULT, 4, 6)?;
    puts_fail(&rt, alloc, REVIEW, held, 31)
}

// What is left after a run of `auction` whose book is appended in pieces of 40 bytes, and whose append of this number fails.
fn leaves_a_front(
    rt: &impl Abort,
    alloc: Global,
    held: Held<'_>,
    append: u64,
    front: &str,
) -> Result<(), Fail> {
    let failing = Failing { append, ..CLEAN };
    let ended = run_in_bites(alloc, AUCTION, held, 40, failing)?;
    let fault = Status::WriteFault {
        file: FileKind::Book,
    };
    ends(rt, &ended, fault, BOOK_WRITE_FAULT.as_bytes());
    assert!(rt; last_of(&ended, AUCTION) == front.as_bytes());
    Ok(())
}

// A clean run of `auction` with such bites makes that many appends, and then the book is whole.
fn makes_appends(
    rt: &impl Abort,
    alloc: Global,
    held: Held<'_>,
    appends: u64,
    book: &str,
) -> Result<(), Fail> {
    let clean = run_in_bites(alloc, AUCTION, held, 40, CLEAN)?;
    assert_eq!(rt; clean.appends, appends);
    assert!(rt; last_of(&clean, AUCTION) == book.as_bytes());
    Ok(())
}

#[test]
fn a_book_holds_the_bites_before_a_fault(rt: HostRuntime) -> Result<(), Fail> {
    let alloc = rt.alloc();
    let held = Held {
        first: Some(SAMPLE.as_bytes()),
        second: Some(LOWERED.as_bytes()),
        third: None,
    };
    makes_appends(&rt, alloc, held, 3, LOWERED_BOOK)?;
    leaves_a_front(&rt, alloc, held, 3, LOWERED_BOOK_FRONT)
}

#[test]
fn a_certificate_that_held_something_still_holds_it(rt: HostRuntime) -> Result<(), Fail> {
    let alloc = rt.alloc();
    let held = Held {
        first: Some(DAY_CRAMTON.as_bytes()),
        second: Some("x".as_bytes()),
        third: None,
    };
    let failing = Failing { append: 1, ..CLEAN };
    let ended = run_failing(alloc, PRICE, held, failing)?;
    let fault = Status::WriteFault {
        file: FileKind::Cert,
    };
    ends(&rt, &ended, fault, CERT_WRITE_FAULT.as_bytes());
    leaves(&rt, &ended, held);
    Ok(())
}
