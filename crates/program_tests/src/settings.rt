// Runs over files in memory, and the codes of the statuses.
ghost use Rattle.std.specs.Prelude.{◌<◌, length, IfOk, OnOk, All, IsTrue, map, string_bytes};
ghost use Rattle.cca_base.specs.MemFiles.{mem_folder};

use bid_book::LimitKind;
use cca_base::{MemFiles, MemSink};
use cca_run::{CertKind, FileKind, Status, run};
use std::alloc::{AllocError, Global};

/// The content of the files before a run, and the load, the append and the put that fail, 0 for none.
#[derive(Clone, Copy, Debug)]
pub(crate) struct Setting<'a> {
    /// The bytes of the file that the second argument names.
    pub book: Option<&'a [u8]>,
    /// The bytes of the file that the third argument names.
    pub cert: Option<&'a [u8]>,
    pub fail_load: u64,
    pub fail_append: u64,
    pub fail_put: u64,
}

/// What a run answers, prints and leaves in the file that the third word names.
#[derive(Drop)]
pub(crate) struct Ended {
    pub status: Status,
    pub printed: Vec<u8>,
    pub cert: Option<Vec<u8>>,
}

/// These arguments.
pub(crate) fn words_of(alloc: Global, words: &[&str]) -> Result<Vec<String>, AllocError> {
    let mut list = Vec::new(alloc);
    for word in words {
        list.push(String::from_str(alloc, word)?)?;
    }
    Ok(list)
}

/// Files that know the arguments, and are all missing. A call takes at most 100 bytes.
pub(crate) fn no_files(alloc: Global, words: &[String]) -> Result<MemFiles, AllocError>
    ensures { IfOk result
        (λ files. All (λ w. IsTrue ((mem_folder files.files.items).knows w)) (map string_bytes words.now)) }
{
    no_files_in(alloc, words, 100)
}

/// Files that know the arguments, and are all missing. A call takes at most that many bytes.
pub(crate) fn no_files_in(
    alloc: Global,
    words: &[String],
    bite: usize,
) -> Result<MemFiles, AllocError>
    requires { 0 < bite }
    ensures { IfOk result
        (λ files. All (λ w. IsTrue ((mem_folder files.files.items).knows w)) (map string_bytes words.now)) }
{
    let files = MemFiles::new(alloc, words, bite)?;
    Ok(files)
}

// Sets the file that the argument at this place names to these bytes.
fn set_at(
    files: &mut MemFiles,
    words: &[String],
    place: usize,
    bytes: &[u8],
) -> Result<(), AllocError>
    requires place { place < length words.now }
    requires known { All (λ w. IsTrue ((mem_folder files.old.files.items).knows w)) (map string_bytes words.now) }
    ensures { OnOk result
        (All (λ w. IsTrue ((mem_folder files.new.files.items).knows w)) (map string_bytes words.now)) }
{
    files.set(words[place].as_str(), bytes)?;
    Ok(())
}

/// Sets the file that the argument at this place names to these bytes, if there are such an argument and
/// bytes.
pub(crate) fn fill(
    files: &mut MemFiles,
    words: &[String],
    place: usize,
    bytes: Option<&[u8]>,
) -> Result<(), AllocError>
    requires { All (λ w. IsTrue ((mem_folder files.old.files.items).knows w)) (map string_bytes words.now) }
    ensures { OnOk result
        (All (λ w. IsTrue ((mem_folder files.new.files.items).knows w)) (map string_bytes words.now)) }
{
    match bytes {
        Some(bytes) if place < words.len() => set_at(files, words, place, bytes),
        _ => Ok(()),
    }
}

// Files that know the arguments, with the bytes of the book and of the certificate, and with the calls that
// fail.
fn files_of(alloc: Global, words: &[String], setting: &Setting<'_>) -> Result<MemFiles, AllocError>
    ensures { IfOk result
        (λ files. All (λ w. IsTrue ((mem_folder files.files.items).knows w)) (map string_bytes words.now)) }
{
    let mut files = no_files(alloc, words)?;
    fill(&mut files, words, 1, setting.book)?;
    fill(&mut files, words, 2, setting.cert)?;
    files.fail_loads.push(setting.fail_load)?;
    files.fail_appends.push(setting.fail_append)?;
    Ok(files)
}

/// An output that takes at most 5 bytes in one call, and whose put of this number fails, 0 for none.
pub(crate) fn sink_of(alloc: Global, fail_put: u64) -> Result<MemSink, AllocError> {
    let mut out = MemSink::new(alloc, 5);
    out.fail_puts.push(fail_put)?;
    Ok(out)
}

/// The bytes of the file that the word at this place names, of different words.
pub(crate) fn left_at(
    alloc: Global,
    files: &MemFiles,
    place: usize,
) -> Result<Option<Vec<u8>>, AllocError> {
    let Some(file) = files.files.get(place) else {
        return Ok(None);
    };
    match &file.bytes {
        Some(bytes) => Ok(Some(Vec::from_slice(alloc, bytes)?)),
        None => Ok(None),
    }
}

/// What a run over files in memory answers, prints and leaves.
pub(crate) fn run_on(
    alloc: Global,
    words: &[&str],
    setting: &Setting<'_>,
) -> Result<Ended, AllocError> {
    let words = words_of(alloc, words)?;
    let mut files = files_of(alloc, &words, setting)?;
    let mut out = sink_of(alloc, setting.fail_put)?;
    let status = run(alloc, &words, &mut files, &mut out);
    ended_of(alloc, status, &files, &out)
}

// What a run that gave this status has left.
fn ended_of(
    alloc: Global,
    status: Status,
    files: &MemFiles,
    out: &MemSink,
) -> Result<Ended, AllocError> {
    let printed = Vec::from_slice(alloc, &out.bytes)?;
    Ok(Ended {
        status,
        printed,
        cert: left_at(alloc, files, 2)?,
    })
}

/// A run where both files are there and no call fails, and what it has left.
pub(crate) fn run_plain(
    alloc: Global,
    words: &[&str],
    book: &[u8],
    cert: &[u8],
) -> Result<Ended, AllocError> {
    let setting = Setting {
        book: Some(book),
        cert: Some(cert),
        fail_load: 0,
        fail_append: 0,
        fail_put: 0,
    };
    run_on(alloc, words, &setting)
}

/// The bytes of the pieces together.
pub(crate) fn joined(alloc: Global, pieces: &[&str]) -> Result<Vec<u8>, AllocError> {
    let mut bytes = Vec::new(alloc);
    for piece in pieces {
        bytes.extend_from_slice(piece.as_bytes())?;
    }
    Ok(bytes)
}

#[test]
fn ends_with_codes(rt: HostRuntime) {
    let table: [(Status, u8); 8] = [
        (Status::Done, 0),
        (
            Status::No {
                of: CertKind::Book,
                test: 8,
                place: 2,
            },
            1,
        ),
        (Status::Words, 2),
        (
            Status::Refused {
                file: FileKind::Book,
                place: 42,
                entry: 0,
            },
            3,
        ),
        (
            Status::ReadFault {
                file: FileKind::Book,
            },
            4,
        ),
        (
            Status::WriteFault {
                file: FileKind::Cert,
            },
            5,
        ),
        (Status::Memory, 6),
        (
            Status::Limit {
                which: LimitKind::Winners,
                count: 11,
            },
            7,
        ),
    ];
    for (status, code) in table {
        assert_eq!(rt; status.code(), code);
    }
}
