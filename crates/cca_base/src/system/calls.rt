// The calls of the system, which nothing else in the crate makes. Each method makes one call and notes it with its answer, and decides nothing.
//
// This file and `interrupted.rt` are trusted: 146 lines of code, without imports, comments and clauses. Trusted is that the system was asked
// what a note says and gave that answer, that a call which a signal interrupted did nothing, and which words and output the system gives. What
// the answers mean is decided and proved in the other files of this folder, for every implementation of `SystemCalls`. If the system reports
// more bytes than it was asked for, the count is cut to what was asked.
ghost use Rattle.std.specs.Fd.{file_raw_fd};
ghost use Rattle.std.specs.Prelude.{◌≡◌, ◌≤◌, [], length, IfOk};
ghost use Rattle.cca_base.specs.Made.{answer_by};

use crate::system::event::Event;
use crate::system::events::Events;
use crate::system::interrupted::tried;
use crate::system::met::{FileIdentity, Told};
use crate::system::system_calls::SystemCalls;
use std::alloc::Global;
use std::env::Args;
use std::fs::{File, Metadata, OpenOptions};
use std::io::{ErrorKind, Read, Seek, SeekFrom, Write};
use std::os::fd::AsRawFd;
use std::os::unix::fs::MetadataExt;
use std::path::PathBuf;
use std::{env, fs, io, rt};

/// The system, and what it was asked.
#[derive(Drop)]
pub(crate) struct System<R: Drop> {
    rt: R,
    events: Events,
}

impl<R: Drop> System<R> {
    /// The system before any call.
    pub(crate) fn new(rt: R) -> Self
        ensures { result.events.made ≡ [] }
    {
        System {
            rt,
            events: Events::new(),
        }
    }
}

impl<R: rt::Env + Alloc + Drop> System<R> {
    /// The program's name and its arguments.
    pub(crate) fn words(&self) -> io::Result<Args<R::A>> {
        env::args(&self.rt)
    }
}

impl<R: Print + Drop> System<R> {
    /// Writes a prefix of the piece to the standard output.
    pub(crate) fn put(&self, piece: &[u8]) -> Result<usize, ErrorKind>
        ensures { IfOk result (λ n. n ≤ length piece.now) }
    {
        let mut to = io::writer(&self.rt);
        by_kind(tried(|| to.write(piece))).map(|n| n.min(piece.len()))
    }
}

// An answer whose error is known by its kind.
fn by_kind<T: Drop>(answer: io::Result<T>) -> Result<T, ErrorKind>
    ensures { IfOk result (λ value. answer ≡ Ok value) }
{
    match answer {
        Ok(value) => Ok(value),
        Err(error) => Err(error.kind()),
    }
}

// What the system reports about a file.
fn told_by(answer: io::Result<Metadata>) -> Result<Told, ErrorKind> {
    let told = by_kind(answer)?;
    Ok(Told {
        file: FileIdentity {
            device: told.dev(),
            inode: told.ino(),
        },
        is_regular: told.is_file(),
        is_link: told.is_symlink(),
    })
}

// The open file under a number above the standard streams' numbers. A stream that the caller closed leaves its number free, and
// what is printed must not go into a file of the command.
fn above_streams(opened: io::Result<File>) -> Result<File, ErrorKind> {
    let file = by_kind(opened)?;
    by_kind(tried(|| file.try_clone()))
}

// The number of a file that was opened.
fn number_of(opened: &Result<File, ErrorKind>) -> Result<i32, ErrorKind>
    ensures { result ≡ answer_by file_raw_fd opened.now }
{
    match opened {
        Ok(file) => Ok(file.as_raw_fd()),
        Err(kind) => Err(*kind),
    }
}

impl<R: rt::Files<File = File> + Drop> SystemCalls for System<R> {
    ghost made = { λ s. s.events.made };

    fn told(&mut self, name: &str) -> Result<Told, ErrorKind> {
        let rt = &self.rt;
        let answer = told_by(tried(|| fs::metadata(rt, name)));
        self.events = self.events.with(&Event::Told { name, answer });
        answer
    }

    fn told_of_name(&mut self, name: &str) -> Result<Told, ErrorKind> {
        let rt = &self.rt;
        let answer = told_by(tried(|| fs::symlink_metadata(rt, name)));
        self.events = self.events.with(&Event::ToldOfName { name, answer });
        answer
    }

    fn told_of_open(&mut self, file: &File) -> Result<Told, ErrorKind> {
        let answer = told_by(tried(|| file.metadata()));
        let file = file.as_raw_fd();
        self.events = self.events.with(&Event::ToldOfOpen { file, answer });
        answer
    }

    fn resolved(&mut self, alloc: Global, name: &str) -> Result<PathBuf, ErrorKind> {
        let rt = &self.rt;
        let path = by_kind(tried(|| rt.canonicalize(alloc, name)))?;
        let text = path.as_str();
        self.events = self.events.with(&Event::Resolved { name, text });
        Ok(path)
    }

    fn opened_to_read(&mut self, name: &str) -> Result<File, ErrorKind> {
        let opened = above_streams(File::open(&self.rt, name));
        let answer = number_of(&opened);
        self.events = self.events.with(&Event::OpenedToRead { name, answer });
        opened
    }

    fn opened_to_append(&mut self, name: &str) -> Result<File, ErrorKind> {
        let mut how = OpenOptions::new();
        how.append(true).create(true);
        let opened = above_streams(how.open(&self.rt, name));
        let answer = number_of(&opened);
        self.events = self.events.with(&Event::OpenedToAppend { name, answer });
        opened
    }

    fn locked(&mut self, file: &File) -> bool {
        let done = file.try_lock().is_ok();
        let file = file.as_raw_fd();
        self.events = self.events.with(&Event::Locked { file, done });
        done
    }

    fn sought(&mut self, file: &File, at: u64) -> bool {
        let mut from = file;
        let done = tried(|| from.seek(SeekFrom::Start(at))).is_ok();
        let file = file.as_raw_fd();
        self.events = self.events.with(&Event::Sought { file, at, done });
        done
    }

    fn read(&mut self, file: &File, buf: &mut [u8]) -> Result<usize, ErrorKind> {
        let mut from = file;
        let len = buf.len();
        let answer = by_kind(tried(|| from.read(buf))).map(|n| n.min(len));
        let file = file.as_raw_fd();
        self.events = self.events.with(&Event::Read { file, buf, answer });
        answer
    }

    fn wrote(&mut self, file: &File, piece: &[u8]) -> Result<usize, ErrorKind> {
        let mut to = file;
        let answer = by_kind(tried(|| to.write(piece))).map(|n| n.min(piece.len()));
        let file = file.as_raw_fd();
        self.events = self.events.with(&Event::Wrote {
            file,
            piece,
            answer,
        });
        answer
    }

    fn synced(&mut self, file: &File) -> bool {
        let done = file.sync_all().is_ok();
        let file = file.as_raw_fd();
        self.events = self.events.with(&Event::Synced { file, done });
        done
    }
}
