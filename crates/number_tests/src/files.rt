// Calls with ample memory, with results found by hand. A test owns files and lends them to functions that assert: each assert
// next to an owned value makes its proof slower.
ghost use Rattle.std.specs.Prelude.{IfOk, IsTrue, ◌<◌, ◌^◌};
ghost use Rattle.cca_base.specs.Files.{KeepsFiles};
ghost use Rattle.cca_base.specs.CleanFiles.{clean_folder};
ghost use Rattle.cca_base.specs.MemFiles.{mem_folder};

use crate::edge::{new_name, real_files, remove_files};
use cca_base::{
    CleanFiles, CleanSink, Files, MemFiles, MemSink, ReadStop, RealSink, Sink, WriteStop, read_all,
    write_file, write_sink,
};
use std::alloc::{AllocError, Global};
use std::fs;
use std::process::Abort;
use std::test::Fail;

// Files in memory of these two names.
fn mem_files(alloc: Global, first: &str, second: &str, bite: usize) -> Result<MemFiles, AllocError>
    requires { 0 < bite }
    ensures first { IfOk result (λ files. IsTrue ((mem_folder files.files.items).knows first.now)) }
    ensures second { IfOk result (λ files. IsTrue ((mem_folder files.files.items).knows second.now)) }
{
    let names = [
        String::from_str(alloc, first)?,
        String::from_str(alloc, second)?,
    ];
    let files = MemFiles::new(alloc, &names, bite)?;
    Ok(files)
}

// Asserts that the whole file is read, and has these bytes.
fn has_whole<F: Files>(rt: &impl Abort, alloc: Global, files: &mut F, name: &str, bytes: &[u8])
    requires { IsTrue ((F.folder files.old).knows name.now) }
    ensures { KeepsFiles (F.folder files.old) (F.folder files.new) }
{
    assert!(rt; bytes.len() < 1 << 40);
    let Ok(read) = read_all(alloc, files, name, bytes.len() as u64) else {
        panic!(rt; "the file is read");
    };
    assert!(rt; read.as_slice() == bytes);
}

// Asserts how a read of at most that many bytes stops.
fn stops<F: Files>(
    rt: &impl Abort,
    alloc: Global,
    files: &mut F,
    name: &str,
    limit: u64,
    stop: ReadStop,
)
    requires known { IsTrue ((F.folder files.old).knows name.now) }
    requires place { limit < 2 ^ 40 }
    ensures { KeepsFiles (F.folder files.old) (F.folder files.new) }
{
    assert_eq!(rt; read_all(alloc, files, name, limit).err(), Some(stop));
}

// Asserts how often loads and appends of a name have failed.
fn has_faults<F: Files>(rt: &impl Abort, files: &F, name: &str, loads: u64, appends: u64)
    requires { IsTrue ((F.folder files.now).knows name.now) }
{
    assert_eq!(rt; files.load_faults(name), loads);
    assert_eq!(rt; files.append_faults(name), appends);
}

// Reads a file in three pieces.
fn reads_three_pieces(
    rt: &impl Abort,
    alloc: Global,
    files: &mut MemFiles,
    name: &str,
) -> Result<(), Fail>
    requires { IsTrue ((mem_folder files.old.files.items).knows name.now) }
{
    files.set(name, b"abcdefgh")?;
    has_whole(rt, alloc, files, name, b"abcdefgh");
    assert_eq!(rt; files.loads, 4);
    stops(rt, alloc, files, name, 7, ReadStop::TooLong);
    has_faults(rt, files, name, 0, 0);
    Ok(())
}

#[test]
fn reads_a_file_piece_by_piece(rt: HostRuntime) -> Result<(), Fail> {
    let mut files = mem_files(rt.alloc(), "book", "book", 3)?;
    reads_three_pieces(&rt, rt.alloc(), &mut files, "book")
}

// Reads a file that is missing, and one whose second load fails.
fn fails_to_read(
    rt: &impl Abort,
    alloc: Global,
    files: &mut MemFiles,
    missing: &str,
    name: &str,
) -> Result<(), Fail>
    requires missing { IsTrue ((mem_folder files.old.files.items).knows missing.now) }
    requires known { IsTrue ((mem_folder files.old.files.items).knows name.now) }
{
    stops(rt, alloc, files, missing, 8, ReadStop::Fault);
    files.set(name, b"abcdefgh")?;
    files.fail_loads.push(3)?;
    stops(rt, alloc, files, name, 8, ReadStop::Fault);
    assert_eq!(rt; files.loads, 3);
    has_faults(rt, files, missing, 1, 0);
    has_faults(rt, files, name, 1, 0);
    Ok(())
}

#[test]
fn stops_at_a_load_that_fails(rt: HostRuntime) -> Result<(), Fail> {
    let mut files = mem_files(rt.alloc(), "book", "log", 3)?;
    fails_to_read(&rt, rt.alloc(), &mut files, "log", "book")
}

// Appends to a file that is missing at first, and whose second append fails.
fn appends_twice(rt: &impl Abort, files: &mut MemFiles, name: &str) -> Result<(), Fail>
    requires { IsTrue ((mem_folder files.old.files.items).knows name.now) }
{
    assert!(rt; files.bytes(name).is_none());
    files.fail_appends.push(2)?;
    assert_eq!(rt; files.append(name, b"hello")?, 3);
    assert!(rt; files.append(name, b"lo").is_err());
    assert_eq!(rt; files.append(name, b"lo")?, 2);
    assert!(rt; files.bytes(name) == Some(b"hello".as_slice()));
    assert_eq!(rt; files.append_faults(name), 1);
    Ok(())
}

#[test]
fn makes_a_missing_file(rt: HostRuntime) -> Result<(), Fail> {
    let mut files = mem_files(rt.alloc(), "cert", "cert", 3)?;
    assert_eq!(rt; files.files.len(), 1);
    appends_twice(&rt, &mut files, "cert")
}

// Asserts how a write to an output ends.
fn writes<S: Sink>(rt: &impl Abort, out: &mut S, text: &[u8], end: Result<(), WriteStop>) {
    assert_eq!(rt; write_sink(out, text), end);
}

// Asserts what an output with one fault has taken, and in how many puts.
fn has_taken(rt: &impl Abort, out: &MemSink, bytes: &[u8], puts: u64) {
    assert_eq!(rt; out.bytes.as_slice(), bytes);
    assert_eq!(rt; out.puts, puts);
    assert_eq!(rt; out.faults(), 1);
}

// Writes to an output whose third put fails, and again after what it took.
fn writes_on(rt: &impl Abort, out: &mut MemSink) -> Result<(), Fail> {
    out.fail_puts.push(3)?;
    writes(rt, out, b"abcdefgh", Err(WriteStop::Fault { written: 6 }));
    has_taken(rt, out, b"abcdef", 3);
    writes(rt, out, b"ghij", Ok(()));
    has_taken(rt, out, b"abcdefghij", 5);
    Ok(())
}

#[test]
fn writes_a_prefix(rt: HostRuntime) -> Result<(), Fail> {
    let mut out = MemSink::new(rt.alloc(), 3);
    writes_on(&rt, &mut out)
}

// Writes to a file whose third append fails, which leaves the other one missing.
fn writes_two_pieces(
    rt: &impl Abort,
    files: &mut MemFiles,
    name: &str,
    other: &str,
) -> Result<(), Fail>
    requires known { IsTrue ((mem_folder files.old.files.items).knows name.now) }
    requires other { IsTrue ((mem_folder files.old.files.items).knows other.now) }
{
    files.fail_appends.push(3)?;
    let text = [b'x'; 350];
    assert_eq!(rt;
        write_file(files, name, &text),
        Err(WriteStop::Fault { written: 200 })
    );
    assert!(rt; files.bytes(name) == Some(&text[..200]));
    has_faults(rt, files, name, 0, 1);
    assert!(rt; files.bytes(other).is_none());
    Ok(())
}

#[test]
fn writes_a_prefix_to_a_file(rt: HostRuntime) -> Result<(), Fail> {
    let mut files = mem_files(rt.alloc(), "cert", "log", 100)?;
    writes_two_pieces(&rt, &mut files, "cert", "log")
}

// Writes nothing, and then twice, to a file that is missing at first.
fn writes_twice(rt: &impl Abort, files: &mut MemFiles, name: &str) -> Result<(), Fail>
    requires { IsTrue ((mem_folder files.old.files.items).knows name.now) }
{
    write_file(files, name, b"")?;
    assert!(rt; files.bytes(name).is_none());
    write_file(files, name, b"abcdefgh")?;
    write_file(files, name, b"ij")?;
    assert!(rt; files.bytes(name) == Some(b"abcdefghij".as_slice()));
    assert_eq!(rt; files.appends, 4);
    Ok(())
}

#[test]
fn writes_after_what_a_file_holds(rt: HostRuntime) -> Result<(), Fail> {
    let mut files = mem_files(rt.alloc(), "cert", "cert", 3)?;
    writes_twice(&rt, &mut files, "cert")
}

#[test]
fn prints(rt: HostRuntime) -> Result<(), Fail> {
    let mut out = RealSink::new(&rt);
    write_sink(&mut out, b"printed by a test\n")?;
    assert_eq!(rt; out.faults(), 0);
    Ok(())
}

// Appends twice to a file that is missing at first, and reads it.
fn appends_and_reads<F: Files>(
    rt: &impl Abort,
    alloc: Global,
    files: &mut F,
    name: &str,
) -> Result<(), Fail>
    requires { IsTrue ((F.folder files.old).knows name.now) }
{
    stops(rt, alloc, files, name, 8, ReadStop::Fault);
    assert_eq!(rt; files.append(name, b"ab")?, 2);
    assert_eq!(rt; files.append(name, b"cd")?, 2);
    has_whole(rt, alloc, files, name, b"abcd");
    has_faults(rt, files, name, 1, 0);
    Ok(())
}

fn appends_and_reads_a_real_file(
    abort: &impl Abort,
    rt: HostRuntime,
    name: &str,
) -> Result<(), Fail> {
    let mut files = real_files(rt.alloc(), &rt, name, name)?;
    appends_and_reads(abort, rt.alloc(), &mut files, name)
}

#[test]
fn reads_and_appends_real_files(rt: HostRuntime) -> Result<(), Fail> {
    let name = new_name(rt, "real")?;
    appends_and_reads_a_real_file(&rt, rt, name.as_str())?;
    remove_files(rt, &[name.as_str()])
}

// How many bytes three loads from two files in turn give, and the bytes of the last two loads.
fn loads_in_turn<F: Files>(
    files: &mut F,
    one: &str,
    two: &str,
) -> Result<([usize; 3], [u8; 3]), Fail>
    requires one { IsTrue ((F.folder files.old).knows one.now) }
    requires two { IsTrue ((F.folder files.old).knows two.now) }
{
    let mut piece = [0u8; 2];
    let first = files.load(one, 0, &mut piece)?;
    let second = files.load(two, 1, &mut piece)?;
    let [y, z] = piece;
    let third = files.load(one, 2, &mut piece)?;
    Ok(([first, second, third], [y, z, piece[0]]))
}

// `loads_in_turn` over real files.
fn real_loads_in_turn(
    rt: HostRuntime,
    one: &str,
    two: &str,
) -> Result<([usize; 3], [u8; 3]), Fail> {
    let mut files = real_files(rt.alloc(), &rt, one, two)?;
    loads_in_turn(&mut files, one, two)
}

// Makes these two files, and loads from them in turn.
fn loads_from_two(abort: &impl Abort, rt: HostRuntime, one: &str, two: &str) -> Result<(), Fail> {
    fs::write(&rt, one, b"abc")?;
    fs::write(&rt, two, b"xyz")?;
    let (counts, bytes) = real_loads_in_turn(rt, one, two)?;
    assert!(abort; counts == [2, 2, 1]);
    assert!(abort; bytes == *b"yzc");
    Ok(())
}

#[test]
fn loads_from_two_real_files_in_turn(rt: HostRuntime) -> Result<(), Fail> {
    let one = new_name(rt, "one")?;
    let two = new_name(rt, "two")?;
    loads_from_two(&rt, rt, one.as_str(), two.as_str())?;
    remove_files(rt, &[one.as_str(), two.as_str()])
}

// Adds two whole pieces and a part of one.
fn add_pieces(bytes: &mut Vec<u8>) -> Result<(), AllocError> {
    bytes.resize(65_536, b'a')?;
    bytes.resize(131_072, b'b')?;
    bytes.extend_from_slice(b"the last piece")
}

// Writes these bytes, and reads them back.
fn writes_and_reads<F: Files>(
    rt: &impl Abort,
    alloc: Global,
    files: &mut F,
    name: &str,
    bytes: &[u8],
) -> Result<(), Fail>
    requires { IsTrue ((F.folder files.old).knows name.now) }
{
    write_file(files, name, bytes)?;
    has_whole(rt, alloc, files, name, bytes);
    Ok(())
}

// Writes these bytes to a real file, and reads them back.
fn real_file_holds(
    abort: &impl Abort,
    rt: HostRuntime,
    name: &str,
    bytes: &[u8],
) -> Result<(), Fail> {
    let mut files = real_files(rt.alloc(), &rt, name, name)?;
    writes_and_reads(abort, rt.alloc(), &mut files, name, bytes)
}

#[test]
fn reads_a_real_file_of_several_pieces(rt: HostRuntime) -> Result<(), Fail> {
    let mut whole = Vec::new(rt.alloc());
    add_pieces(&mut whole)?;
    let name = new_name(rt, "pieces")?;
    real_file_holds(&rt, rt, name.as_str(), &whole)?;
    remove_files(rt, &[name.as_str()])
}

// Fills the room of a file, which has five bytes.
fn fills_five_bytes(
    rt: &impl Abort,
    alloc: Global,
    files: &mut CleanFiles,
    name: &str,
) -> Result<(), Fail>
    requires { IsTrue ((clean_folder files.old.files.items).knows name.now) }
{
    assert_eq!(rt; files.append(name, b"abc")?, 3);
    assert!(rt; files.append(name, b"def").is_err());
    assert_eq!(rt; files.append(name, b"de")?, 2);
    assert_eq!(rt; files.bytes(name), b"abcde".as_slice());
    has_whole(rt, alloc, files, name, b"abcde");
    has_faults(rt, files, name, 0, 1);
    Ok(())
}

#[test]
fn fills_a_room_and_no_more(rt: HostRuntime) -> Result<(), Fail> {
    let names = [String::from_str(rt.alloc(), "cert")?];
    let mut files = CleanFiles::new(rt.alloc(), &names, 5)?;
    fills_five_bytes(&rt, rt.alloc(), &mut files, "cert")
}

// Fills the room of an output, which has four bytes.
fn takes_four_bytes(rt: &impl Abort, out: &mut CleanSink) {
    writes(rt, out, b"abc", Ok(()));
    writes(rt, out, b"de", Err(WriteStop::Fault { written: 0 }));
    writes(rt, out, b"d", Ok(()));
    assert_eq!(rt; out.bytes(), b"abcd".as_slice());
    assert_eq!(rt; out.faults(), 1);
}

#[test]
fn takes_what_has_room(rt: HostRuntime) -> Result<(), Fail> {
    let mut out = CleanSink::new(rt.alloc(), 4)?;
    takes_four_bytes(&rt, &mut out);
    Ok(())
}
