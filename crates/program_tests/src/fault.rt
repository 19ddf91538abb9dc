// Runs with faults of files and of the output.
use crate::samples::{CHECK, DAY_CRAMTON, DAY_CRAMTON_CERT, DAY_CRAMTON_FRONT, PRICE, TIE};
use crate::settings::{Ended, Setting, joined, run_on};
use bid_book::LimitKind;
use cca_run::{FileKind, Status};
use std::process::Abort;
use std::test::Fail;

const WIN: &[&str] = &["win", "BOOK"];

const BOOK_FAULT: &str = "cca: read fault book\n";

const CERT_FAULT: &str = "cca: read fault cert\n";

// Asserts the status and what was printed.
fn ends(rt: &impl Abort, ended: &Ended, status: Status, printed: &str) {
    assert_eq!(rt; ended.status, status);
    assert_eq!(rt; ended.printed.as_slice(), printed.as_bytes());
}

// The load of this number fails. A book of less than 100 bytes is read by two loads, the second at its end.
#[test]
fn tells_faults_of_reading(rt: HostRuntime) -> Result<(), Fail> {
    let book = Some(TIE.as_bytes());
    let cert = Some(b"cert 1\n".as_slice());
    let table: [(&[&str], Option<&[u8]>, Option<&[u8]>, u64, FileKind, &str); 7] = [
        (WIN, None, None, 0, FileKind::Book, BOOK_FAULT),
        (WIN, book, None, 1, FileKind::Book, BOOK_FAULT),
        (WIN, book, None, 2, FileKind::Book, BOOK_FAULT),
        (CHECK, None, None, 0, FileKind::Book, BOOK_FAULT),
        (CHECK, book, None, 0, FileKind::Cert, CERT_FAULT),
        (CHECK, book, cert, 3, FileKind::Cert, CERT_FAULT),
        (CHECK, book, cert, 4, FileKind::Cert, CERT_FAULT),
    ];
    for (words, book, cert, fail_load, file, printed) in table {
        let setting = Setting {
            book,
            cert,
            fail_load,
            fail_append: 0,
            fail_put: 0,
        };
        let ended = run_on(rt.alloc(), words, &setting)?;
        ends(&rt, &ended, Status::ReadFault { file }, printed);
    }
    Ok(())
}

const WRITE_FAULT: &str = "cca: write fault cert\n";

const NOTHING: &[&str] = &[];

const FRONT: &[&str] = &[DAY_CRAMTON_FRONT];

// The append and the put of these numbers fail. At most 100 bytes are appended at once.
#[test]
fn tells_faults_of_writing(rt: HostRuntime) -> Result<(), Fail> {
    let table: [(&[&str], u64, u64, FileKind, &str, &[&str]); 5] = [
        (WIN, 0, 1, FileKind::Out, "", NOTHING),
        (WIN, 0, 3, FileKind::Out, "winner b1 ", NOTHING),
        (PRICE, 3, 0, FileKind::Cert, WRITE_FAULT, FRONT),
        (PRICE, 3, 1, FileKind::Out, "", FRONT),
        (PRICE, 0, 2, FileKind::Out, "winne", DAY_CRAMTON_CERT),
    ];
    for (words, fail_append, fail_put, file, printed, left) in table {
        let setting = Setting {
            book: Some(DAY_CRAMTON.as_bytes()),
            cert: None,
            fail_load: 0,
            fail_append,
            fail_put,
        };
        let ended = run_on(rt.alloc(), words, &setting)?;
        ends(&rt, &ended, Status::WriteFault { file }, printed);
        let left = joined(rt.alloc(), left)?;
        assert_eq!(rt; ended.cert.as_deref().unwrap_or(b""), left.as_slice());
    }
    Ok(())
}

#[test]
fn refuses_a_long_book(rt: HostRuntime) -> Result<(), Fail> {
    let long = vec![in rt.alloc(); b'x'; 1_048_577]?;
    let setting = Setting {
        book: Some(&long),
        cert: None,
        fail_load: 0,
        fail_append: 0,
        fail_put: 0,
    };
    let ended = run_on(rt.alloc(), WIN, &setting)?;
    let too_long = Status::Limit {
        which: LimitKind::Bytes,
        count: 1_048_577,
    };
    ends(&rt, &ended, too_long, "cca: limit bytes 1048577\n");
    Ok(())
}
