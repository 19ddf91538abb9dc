// Files of the system. They report no bytes, but know what they gave and took.
ghost use Rattle.std.specs.Prelude.{◌≡◌, ℕ, List, string_bytes, IfOk};
ghost use Rattle.std.specs.List.{list_any};
ghost use Rattle.std.specs.Str.{bytes_eq};
ghost use Rattle.cca_base.specs.RealFiles.{real_folder, real_seen, known};
ghost use Rattle.cca_base.specs.Entries.{roomy_by, with_calls};

use crate::named::{append_faults_of, count_append_fault, count_load_fault, load_faults_of};
use crate::system::calls::System;
use crate::system::known_file::{KnownFile, known_files};
use crate::system::system_files::{FileCalls, SystemFiles};
use crate::{Failed, Files};
use std::alloc::{AllocError, Global};
use std::fs::File;
use std::rt;

// Files over calls, known only by the calls' clauses. They gave and took what the calls returned.
#[derive(Drop)]
struct CountedFiles<C: Drop> {
    calls: C,
    files: Vec<KnownFile>,
}

impl<C: FileCalls> Files for CountedFiles<C> {
    ghost folder = { λ s. with_calls (real_folder s.files.items) (C.gave s.calls) (C.took s.calls) };

    fn load(&mut self, name: &str, at: u64, buf: &mut [u8]) -> Result<usize, Failed> {
        match self.calls.read_at(&self.files, name, at, buf) {
            Ok(n) => Ok(n),
            Err(_) => {
                count_load_fault(&mut self.files, name);
                Err(Failed)
            }
        }
    }

    fn append(&mut self, name: &str, piece: &[u8]) -> Result<usize, Failed> {
        let appended = self.calls.append(&self.files, name, piece);
        if appended.is_err() {
            count_append_fault(&mut self.files, name);
        }
        appended
    }

    fn load_faults(&self, name: &str) -> u64 {
        load_faults_of(&self.files, name)
    }

    fn append_faults(&self, name: &str) -> u64 {
        append_faults_of(&self.files, name)
    }

    ghost roomy = { λ f name told some. roomy_by real_seen (λ e none. Prim.cc) (known f.files.items name) some };
}

/// Files of the system.
///
/// The file of the last load stays open for the next one, until another name is loaded, a load fails or anything is appended,
/// so a pipe can be loaded from in order. The file of the last append stays open, and locked if it is a regular one, until
/// another name is appended to, an append fails or anything is loaded.
///
/// What was appended to a regular file is on its disk when `append` returns, and so is the name of a new file. The name still
/// means this file. If a sync fails, or the name means another file then, the piece is reported as not taken, though the file
/// may contain it. An append fails, and takes nothing, if its file was loaded from or appended to under another name, whatever
/// link or spelling that is, if the standard output goes to it, and if someone else has locked it. Each fault of the system
/// raises the count of its kind and name, and so does a call that takes nothing of a piece that isn't empty.
#[derive(Drop)]
pub struct RealFiles<R: Drop> {
    counted: CountedFiles<SystemFiles<System<R>>>,
}

impl<R: rt::Files<File = File> + Drop> RealFiles<R> {
    /// Files of exactly these names, all counts 0. A name that is given twice is one file.
    ///
    /// # Errors
    ///
    /// `AllocError` when out of memory.
    pub fn new(alloc: Global, rt: R, names: &[String]) -> Result<RealFiles<R>, AllocError>
        ensures names { IfOk result
            (λ files. (name : List ℕ)
            → (⟦<RealFiles<R> as Files>⟧.folder files).knows name
            ≡ list_any (λ s. bytes_eq (string_bytes s) name) names.now) }
        ensures faults { IfOk result
            (λ files. (name : List ℕ)
            → ((⟦<RealFiles<R> as Files>⟧.folder files).load_faults name ≡ 0)
            × ((⟦<RealFiles<R> as Files>⟧.folder files).append_faults name ≡ 0)) }
    {
        let files = known_files(alloc, names)?;
        let calls = SystemFiles::new(alloc, System::new(rt), files.len())?;
        Ok(RealFiles {
            counted: CountedFiles { calls, files },
        })
    }
}

impl<R: rt::Files<File = File> + Drop> Files for RealFiles<R> {
    ghost folder = { λ s. ⟦<CountedFiles<SystemFiles<System<R>>> as Files>⟧.folder s.counted };

    fn load(&mut self, name: &str, at: u64, buf: &mut [u8]) -> Result<usize, Failed> {
        self.counted.load(name, at, buf)
    }

    fn append(&mut self, name: &str, piece: &[u8]) -> Result<usize, Failed> {
        self.counted.append(name, piece)
    }

    fn load_faults(&self, name: &str) -> u64 {
        self.counted.load_faults(name)
    }

    fn append_faults(&self, name: &str) -> u64 {
        self.counted.append_faults(name)
    }

    ghost roomy = { λ f name told some. roomy_by real_seen (λ e none. Prim.cc) (known f.counted.files.items name) some };
}
