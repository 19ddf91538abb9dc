// The lines of the statuses, put together without memory.
ghost use Rattle.std.specs.Prelude.{◌≡◌, ◌≤◌, ◌+◌, ◌∷◌, ◌++◌, length, codes};
ghost use Rattle.std.specs.Fmt.{decimal};
ghost use Rattle.cca_cli.specs.StatusLine.{status_line, file_text, limit_text, entry_text, test_text};

use crate::{CertKind, FileKind, Status};
use arrayvec::ArrayVec;
use itoa::Buffer;
use limits::LimitKind;

// No line is longer.
const ROOM: usize = 80;

/// A line of at most `ROOM` bytes.
pub type Line = ArrayVec<u8, ROOM>;

fn file_name(file: FileKind) -> &'static [u8]
    ensures text { result.now ≡ file_text file }
    ensures short { length result.now ≤ 7 }
{
    match file {
        FileKind::Award => b"award",
        FileKind::Log => b"log",
        FileKind::Book => b"book",
        FileKind::Cert => b"cert",
        FileKind::Weights => b"weights",
        FileKind::Slots => b"slots",
        FileKind::Edits => b"edits",
        FileKind::Out => b"out",
    }
}

fn limit_name(which: LimitKind) -> &'static [u8]
    ensures text { result.now ≡ limit_text which }
    ensures short { length result.now ≤ 10 }
{
    match which {
        LimitKind::Bytes => b"bytes",
        LimitKind::Categories => b"categories",
        LimitKind::Lots => b"lots",
        LimitKind::States => b"states",
        LimitKind::Bidders => b"bidders",
        LimitKind::Bids => b"bids",
        LimitKind::Records => b"records",
        LimitKind::Rounds => b"rounds",
        LimitKind::Price => b"price",
        LimitKind::Winners => b"winners",
    }
}

fn add(line: &mut Line, piece: &[u8])
    requires { length line.old.items + length piece.now ≤ 80 }
    ensures { line.new.items ≡ line.old.items ++ piece.now }
{
    for b in piece {
        line.push(*b);
    }
}

fn add_number(line: &mut Line, n: u64)
    requires { length line.old.items ≤ 60 }
    ensures text { line.new.items ≡ line.old.items ++ decimal n }
    ensures short { length line.new.items ≤ length line.old.items + 20 }
{
    let mut buffer = Buffer::new();
    add(line, buffer.format(n).as_bytes());
}

// The end of the line of a refused file: its place, and for an award the entry.
fn add_place(line: &mut Line, file: FileKind, place: u64, entry: u32)
    requires { length line.old.items ≤ 22 }
    ensures { line.new.items ≡ line.old.items ++ decimal place ++ entry_text file entry ++ codes "\n" }
{
    add_number(line, place);
    if let FileKind::Award = file {
        add(line, b" ");
        add_number(line, entry as u64);
    }
    add(line, b"\n");
}

// The line of a fault of a file, which begins with these words.
fn fault_line(words: &[u8], file: FileKind) -> Line
    requires { length words.now ≤ 20 }
    ensures { result.items ≡ words.now ++ file_text file ++ codes "\n" }
{
    let mut line = ArrayVec::new();
    add(&mut line, words);
    add(&mut line, file_name(file));
    add(&mut line, b"\n");
    line
}

fn refused_line(file: FileKind, place: u64, entry: u32) -> Line
    ensures { result.items ≡ codes "cca: refused " ++ file_text file ++ 32 ∷ decimal place ++ entry_text file entry ++ codes "\n" }
{
    let mut line = ArrayVec::new();
    add(&mut line, b"cca: refused ");
    add(&mut line, file_name(file));
    add(&mut line, b" ");
    add_place(&mut line, file, place, entry);
    line
}

fn limit_line(which: LimitKind, count: u64) -> Line
    ensures { result.items ≡ codes "cca: limit " ++ limit_text which ++ 32 ∷ decimal count ++ codes "\n" }
{
    let mut line = ArrayVec::new();
    add(&mut line, b"cca: limit ");
    add(&mut line, limit_name(which));
    add(&mut line, b" ");
    add_number(&mut line, count);
    add(&mut line, b"\n");
    line
}

// The letter of the tests of a certificate.
fn test_letter(of: CertKind) -> &'static [u8]
    ensures text { result.now ≡ test_text of }
    ensures short { length result.now ≤ 1 }
{
    match of {
        CertKind::Book => b"C",
        CertKind::Placement => b"P",
    }
}

fn no_line(of: CertKind, test: u8, place: u64) -> Line
    ensures { result.items ≡ codes "no " ++ test_text of ++ decimal test ++ 32 ∷ decimal place ++ codes "\n" }
{
    let mut line = ArrayVec::new();
    add(&mut line, b"no ");
    add(&mut line, test_letter(of));
    add_number(&mut line, test as u64);
    add(&mut line, b" ");
    add_number(&mut line, place);
    add(&mut line, b"\n");
    line
}

fn plain_line(words: &[u8]) -> Line
    requires { length words.now ≤ 80 }
    ensures { result.items ≡ words.now }
{
    let mut line = ArrayVec::new();
    add(&mut line, words);
    line
}

/// The line that is printed for a status; none for Done.
pub fn line_of(status: Status) -> Line
    ensures { result.items ≡ status_line status }
{
    match status {
        Status::Done => ArrayVec::new(),
        Status::No { of, test, place } => no_line(of, test, place),
        Status::Words => plain_line(b"cca: words\n"),
        Status::Refused { file, place, entry } => refused_line(file, place, entry),
        Status::ReadFault { file } => fault_line(b"cca: read fault ", file),
        Status::WriteFault { file } => fault_line(b"cca: write fault ", file),
        Status::Memory => plain_line(b"cca: memory\n"),
        Status::Limit { which, count } => limit_line(which, count),
    }
}
