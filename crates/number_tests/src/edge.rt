// Real files where links, other writers, pipes and devices get in the way. An owner of names or files lends them at once: each
// step next to an owned value makes a proof slower.
ghost use Rattle.std.specs.Prelude.{IfOk, IsTrue};

use cca_base::{Files, RealFiles, write_file};
use std::alloc::{AllocError, Global};
use std::fs::{File, TryLockError};
use std::io::{PipeReader, Read, Write};
use std::os::fd::{AsRawFd, RawFd};
use std::os::unix::fs::symlink;
use std::process::Abort;
use std::test::Fail;
use std::{env, fs, io, process, rt};

/// A name of no file yet, in the folder for such files.
pub(crate) fn new_name(rt: HostRuntime, kind: &str) -> Result<String, Fail> {
    let folder = env::temp_dir(&rt)?;
    let number = process::id(rt.process());
    Ok(format!(in rt.alloc(); "{}/cca_base_{kind}_{number}", folder.to_string_lossy())?)
}

/// Files of the system of these two names.
pub(crate) fn real_files<R: rt::Files<File = File> + Drop>(
    alloc: Global,
    rt: R,
    first: &str,
    second: &str,
) -> Result<RealFiles<R>, AllocError>
    ensures first { IfOk result (λ files. IsTrue ((⟦<RealFiles<R> as Files>⟧.folder files).knows first.now)) }
    ensures second { IfOk result (λ files. IsTrue ((⟦<RealFiles<R> as Files>⟧.folder files).knows second.now)) }
{
    let names = [
        String::from_str(alloc, first)?,
        String::from_str(alloc, second)?,
    ];
    let files = RealFiles::new(alloc, rt, &names)?;
    Ok(files)
}

// Whether a single append to this name is done.
fn appends(rt: HostRuntime, name: &str) -> Result<bool, Fail> {
    let mut files = real_files(rt.alloc(), &rt, name, name)?;
    Ok(write_file(&mut files, name, b"abc").is_ok())
}

// Whether a single load of this name is done.
fn loads(rt: HostRuntime, name: &str) -> Result<bool, Fail> {
    let mut files = real_files(rt.alloc(), &rt, name, name)?;
    let mut piece = [0u8; 8];
    Ok(files.load(name, 0, &mut piece).is_ok())
}

// How often appends to the name have failed, after one more.
fn faults<F: Files>(files: &mut F, name: &str) -> u64
    requires { IsTrue ((F.folder files.old).knows name.now) }
{
    let _stop = write_file(files, name, b"d");
    files.append_faults(name)
}

// How often an append fails to the second name, once the first one was read.
fn faults_once_read<F: Files>(files: &mut F, read: &str, other: &str) -> Result<u64, Fail>
    requires read { IsTrue ((F.folder files.old).knows read.now) }
    requires other { IsTrue ((F.folder files.old).knows other.now) }
{
    let mut piece = [0u8; 8];
    files.load(read, 0, &mut piece)?;
    Ok(faults(files, other))
}

// `faults_once_read` over real files.
fn faults_after_reading(rt: HostRuntime, read: &str, other: &str) -> Result<u64, Fail> {
    let mut files = real_files(rt.alloc(), &rt, read, other)?;
    faults_once_read(&mut files, read, other)
}

// How often an append fails to the second name, once the first one was appended to.
fn faults_once_appended<F: Files>(files: &mut F, first: &str, second: &str) -> Result<u64, Fail>
    requires first { IsTrue ((F.folder files.old).knows first.now) }
    requires second { IsTrue ((F.folder files.old).knows second.now) }
{
    write_file(files, first, b"abc")?;
    Ok(faults(files, second))
}

// `faults_once_appended` over real files.
fn faults_after_appending(rt: HostRuntime, first: &str, second: &str) -> Result<u64, Fail> {
    let mut files = real_files(rt.alloc(), &rt, first, second)?;
    faults_once_appended(&mut files, first, second)
}

// Whether the file of this name has these bytes.
fn holds(rt: HostRuntime, name: &str, bytes: &[u8]) -> Result<bool, Fail> {
    Ok(fs::read(&rt, name)?.as_slice() == bytes)
}

pub(crate) fn remove_files(rt: HostRuntime, names: &[&str]) -> Result<(), Fail> {
    for name in names {
        fs::remove_file(&rt, *name)?;
    }
    Ok(())
}

// How often appends fail under a second name of one file: after an append, and after three loads.
fn faults_under_second_names(
    rt: HostRuntime,
    file: &str,
    link: &str,
    hard: &str,
    spelled: &str,
) -> Result<[u64; 4], Fail> {
    let appended = faults_after_appending(rt, file, spelled)?;
    symlink(&rt, file, link)?;
    fs::hard_link(&rt, file, hard)?;
    Ok([
        appended,
        faults_after_reading(rt, file, spelled)?,
        faults_after_reading(rt, file, link)?,
        faults_after_reading(rt, hard, file)?,
    ])
}

// Asserts that a file takes nothing under a second name. Only a test may abort, so it lends what does.
fn takes_nothing(
    abort: &impl Abort,
    rt: HostRuntime,
    file: &str,
    link: &str,
    hard: &str,
    spelled: &str,
) -> Result<(), Fail> {
    assert!(abort; faults_under_second_names(rt, file, link, hard, spelled)? == [1, 1, 1, 1]);
    assert!(abort; holds(rt, file, b"abc")?);
    remove_files(rt, &[hard, link, file])
}

// `takes_nothing`, with a second spelling of the name made here.
fn takes_nothing_by_links(
    abort: &impl Abort,
    rt: HostRuntime,
    file: &str,
    link: &str,
    hard: &str,
) -> Result<(), Fail> {
    let spelled = format!(in rt.alloc(); "/.{file}")?;
    takes_nothing(abort, rt, file, link, hard, spelled.as_str())
}

#[test]
fn appends_nothing_to_a_file_that_has_another_name(rt: HostRuntime) -> Result<(), Fail> {
    let file = new_name(rt, "file")?;
    let link = new_name(rt, "link")?;
    let hard = new_name(rt, "hard")?;
    takes_nothing_by_links(&rt, rt, file.as_str(), link.as_str(), hard.as_str())
}

fn lock(file: &File) -> Result<(), Fail> {
    file.try_lock().map_err(io::Error::from)?;
    Ok(())
}

// Whether an append to this name is done while its file is locked.
fn appends_while_locked(rt: HostRuntime, name: &str) -> Result<bool, Fail> {
    let holder = File::create(&rt, name)?;
    lock(&holder)?;
    appends(rt, name)
}

// Asserts that an append to this name is done only once its file is locked no more.
fn appends_after_a_lock(abort: &impl Abort, rt: HostRuntime, name: &str) -> Result<(), Fail> {
    assert!(abort; !appends_while_locked(rt, name)?);
    assert!(abort; appends(rt, name)?);
    assert!(abort; holds(rt, name, b"abc")?);
    remove_files(rt, &[name])
}

#[test]
fn appends_nothing_to_a_file_that_is_locked(rt: HostRuntime) -> Result<(), Fail> {
    let name = new_name(rt, "locked")?;
    appends_after_a_lock(&rt, rt, name.as_str())
}

// Whether someone has locked this file.
fn is_locked(rt: HostRuntime, name: &str) -> Result<bool, Fail> {
    let file = File::open(&rt, name)?;
    match file.try_lock() {
        Ok(()) => Ok(false),
        Err(TryLockError::WouldBlock) => Ok(true),
        Err(TryLockError::Error(error)) => Err(error.into()),
    }
}

// Whether the first file is locked after two appends to it, and whether after one to the second file.
fn locks_in_turn<F: Files>(
    rt: HostRuntime,
    files: &mut F,
    first: &str,
    second: &str,
) -> Result<(bool, bool), Fail>
    requires first { IsTrue ((F.folder files.old).knows first.now) }
    requires second { IsTrue ((F.folder files.old).knows second.now) }
{
    write_file(files, first, b"abc")?;
    write_file(files, first, b"def")?;
    let between = is_locked(rt, first)?;
    write_file(files, second, b"ghi")?;
    Ok((between, is_locked(rt, first)?))
}

// `locks_in_turn` over real files.
fn locks(rt: HostRuntime, first: &str, second: &str) -> Result<(bool, bool), Fail> {
    let mut files = real_files(rt.alloc(), &rt, first, second)?;
    locks_in_turn(rt, &mut files, first, second)
}

// Asserts that the first file stays locked until the second one is appended to.
fn holds_a_lock(
    abort: &impl Abort,
    rt: HostRuntime,
    first: &str,
    second: &str,
) -> Result<(), Fail> {
    assert_eq!(abort; locks(rt, first, second)?, (true, false));
    assert!(abort; holds(rt, first, b"abcdef")?);
    remove_files(rt, &[first, second])
}

#[test]
fn holds_a_lock_until_another_file_is_appended_to(rt: HostRuntime) -> Result<(), Fail> {
    let first = new_name(rt, "first")?;
    let second = new_name(rt, "second")?;
    holds_a_lock(&rt, rt, first.as_str(), second.as_str())
}

// What loads of this name give from its first byte, from its fourth one, and from its fourth one again, if they are done.
fn three_loads<F: Files>(files: &mut F, name: &str) -> [Option<usize>; 3]
    requires { IsTrue ((F.folder files.old).knows name.now) }
{
    let mut piece = [0u8; 3];
    let first = files.load(name, 0, &mut piece).ok();
    let next = files.load(name, 3, &mut piece).ok();
    let again = files.load(name, 3, &mut piece).ok();
    [first, next, again]
}

// `three_loads` over a real file.
fn loads_in_order(rt: HostRuntime, name: &str) -> Result<[Option<usize>; 3], Fail> {
    let mut files = real_files(rt.alloc(), &rt, name, name)?;
    Ok(three_loads(&mut files, name))
}

// What loads of the first byte of this name give before and after a load of the other one, if they are done.
fn loads_around_one<F: Files>(
    files: &mut F,
    name: &str,
    other: &str,
) -> Result<[Option<usize>; 2], Fail>
    requires known { IsTrue ((F.folder files.old).knows name.now) }
    requires other { IsTrue ((F.folder files.old).knows other.now) }
{
    let mut piece = [0u8; 3];
    let before = files.load(name, 0, &mut piece).ok();
    files.load(other, 0, &mut piece)?;
    let behind = files.load(name, 0, &mut piece).ok();
    Ok([before, behind])
}

// `loads_around_one` over real files.
fn loads_around(rt: HostRuntime, name: &str, other: &str) -> Result<[Option<usize>; 2], Fail> {
    let mut files = real_files(rt.alloc(), &rt, name, other)?;
    loads_around_one(&mut files, name, other)
}

// The name of an open file of this process.
fn name_of(rt: HostRuntime, open: RawFd) -> Result<String, Fail> {
    Ok(format!(in rt.alloc(); "/proc/self/fd/{open}")?)
}

// Asserts what loads from a pipe of eight bytes give.
fn reads_a_pipe(abort: &impl Abort, rt: HostRuntime, name: &str) -> Result<(), Fail> {
    assert!(abort; loads_in_order(rt, name)? == [Some(3), Some(3), None]);
    assert!(abort; loads_around(rt, name, "/dev/null")? == [Some(2), None]);
    Ok(())
}

fn reads_an_open_pipe(abort: &impl Abort, rt: HostRuntime, open: RawFd) -> Result<(), Fail> {
    let name = name_of(rt, open)?;
    reads_a_pipe(abort, rt, name.as_str())
}

#[test]
fn reads_a_pipe_in_order_and_no_byte_of_it_twice(rt: HostRuntime) -> Result<(), Fail> {
    let (reader, mut writer) = io::pipe(&rt)?;
    writer.write_all(b"abcdefgh")?;
    reads_an_open_pipe(&rt, rt, reader.as_raw_fd())
}

// Asserts what loads from a file of five bytes give.
fn reads_a_file(abort: &impl Abort, rt: HostRuntime, name: &str) -> Result<(), Fail> {
    fs::write(&rt, name, b"abcde")?;
    assert!(abort; loads_in_order(rt, name)? == [Some(3), Some(2), Some(2)]);
    assert!(abort; loads_around(rt, name, "/dev/null")? == [Some(3), Some(3)]);
    remove_files(rt, &[name])
}

#[test]
fn reads_any_place_of_a_file(rt: HostRuntime) -> Result<(), Fail> {
    let name = new_name(rt, "places")?;
    reads_a_file(&rt, rt, name.as_str())
}

// Whether an append to an open file is done.
fn appends_to_open(rt: HostRuntime, open: RawFd) -> Result<bool, Fail> {
    let name = name_of(rt, open)?;
    appends(rt, name.as_str())
}

// How many bytes come out of a pipe that was appended to, if that is done.
fn read_appended(
    rt: HostRuntime,
    reader: &mut PipeReader,
    writer: RawFd,
) -> Result<Option<usize>, Fail> {
    if !appends_to_open(rt, writer)? {
        return Ok(None);
    }
    let mut piece = [0u8; 8];
    Ok(Some(reader.read(&mut piece)?))
}

// `read_appended` over a new pipe.
fn appends_to_a_pipe(rt: HostRuntime) -> Result<Option<usize>, Fail> {
    let (mut reader, writer) = io::pipe(&rt)?;
    read_appended(rt, &mut reader, writer.as_raw_fd())
}

#[test]
fn tells_devices_and_folders(rt: HostRuntime) -> Result<(), Fail> {
    assert_eq!(rt; appends_to_a_pipe(rt)?, Some(3));
    assert!(rt; appends(rt, "/dev/null")?);
    assert!(rt; loads(rt, "/dev/null")?);
    assert!(rt; !appends(rt, "/")?);
    assert!(rt; !loads(rt, "/")?);
    if fs::exists(&rt, "/dev/full")? {
        assert!(rt; !appends(rt, "/dev/full")?);
    }
    Ok(())
}
