// Files in memory that was reserved when they were made.
ghost use Rattle.std.specs.Prelude.{◌≡◌, ◌∷◌, take, ◌<◌, ◌≤◌, ◌^◌, ◌-◌, min, ℕ, List, length, string_bytes, [], Some, IfOk, IsOk, IsTrue, refl, IsSomeAnd, OnOk, OnErr};
ghost use Rattle.std.specs.List.{list_any};
ghost use Rattle.std.specs.Str.{bytes_eq};
ghost use Rattle.cca_base.specs.Faults.{Rose, one_more};
ghost use Rattle.cca_base.specs.Files.{KeepsFiles, CountsOnly, Stands, Appends};
ghost use Rattle.cca_base.specs.CleanFiles.{clean_folder, clean_seen};
ghost use Rattle.cca_base.specs.Entries.{entry_of, roomy_by, with_gave};

use crate::memory::clean_file::{CleanFile, add_to, bytes_of};
use crate::memory::mem_file::copy_from;
use crate::named::{append_faults_of, load_faults_of, new_files};
use crate::trace::{Call, Trace};
use crate::{Failed, Files};
use std::alloc::{AllocError, Global};

/// Files in memory, each over a buffer that was reserved when it was made. They report the room that is
/// left, in bytes, and no call on them takes memory. No load fails, and no file is missing.
#[derive(Drop)]
pub struct CleanFiles {
    files: Vec<CleanFile>,
    gave: Trace,
}

impl CleanFiles {
    /// An empty file with room for that many bytes for each of these names, all counts 0. A name that is
    /// given twice is known once.
    ///
    /// # Errors
    ///
    /// `AllocError` when out of memory.
    pub fn new(alloc: Global, names: &[String], room: u64) -> Result<CleanFiles, AllocError>
        ensures names { IfOk result
            (λ files. (name : List ℕ)
            → (⟦<CleanFiles as Files>⟧.folder files).knows name
            ≡ list_any (λ s. bytes_eq (string_bytes s) name) names.now) }
        ensures empty { IfOk result
            (λ files. (name : List ℕ) → IsTrue ((⟦<CleanFiles as Files>⟧.folder files).knows name)
            → (⟦<CleanFiles as Files>⟧.folder files).file name ≡ Some []) }
        ensures room { IfOk result
            (λ files. (name : List ℕ) → IsTrue ((⟦<CleanFiles as Files>⟧.folder files).knows name)
            → (⟦<CleanFiles as Files>⟧.folder files).room name ≡ Some room) }
        ensures faults { IfOk result
            (λ files. (name : List ℕ)
            → ((⟦<CleanFiles as Files>⟧.folder files).load_faults name ≡ 0)
            × ((⟦<CleanFiles as Files>⟧.folder files).append_faults name ≡ 0)) }
    {
        Ok(CleanFiles {
            files: new_files(alloc, names, room as usize)?,
            gave: Trace::new(),
        })
    }

    /// The bytes of the file of this known name.
    pub fn bytes(&self, name: &str) -> &[u8]
        requires { IsTrue ((clean_folder self.now.files.items).knows name.now) }
        ensures { (clean_folder self.now.files.items).file name.now ≡ Some result.now }
    {
        bytes_of(&self.files, name)
    }
}

impl Files for CleanFiles {
    ghost folder = { λ s. with_gave (clean_folder s.files.items) s.gave.calls };

    fn load(&mut self, name: &str, at: u64, buf: &mut [u8]) -> Result<usize, Failed>
        requires known { IsTrue ((clean_folder self.old.files.items).knows name.now) }
        requires place { at < 2 ^ 40 }
        ensures within { IfOk result (λ n. n ≤ length buf.old) }
        ensures bytes { IfOk result (λ n.
            (file : List ℕ) → (clean_folder self.old.files.items).file name.now ≡ Some file
            → Stands file at (length buf.old) buf.new n) }

        ensures kept { KeepsFiles (with_gave (clean_folder self.old.files.items) self.old.gave.calls)
            (with_gave (clean_folder self.new.files.items) self.new.gave.calls) }
        ensures gave { IfOk result (λ n. self.new.gave.calls
            ≡ record { name = name.now; at = at; room = length buf.old; bytes = take n buf.new } ∷ self.old.gave.calls) }

        // No load fails, no file changes, and as many bytes come as the buffer takes.
        ensures loaded { IsOk result }
        ensures same { self.new.files ≡ self.old.files }
        ensures exact { IfOk result (λ n.
            (file : List ℕ) → (clean_folder self.old.files.items).file name.now ≡ Some file
            → n ≡ min (length buf.old) (length file - at)) }
    {
        let bite = buf.len();
        let n = copy_from(bytes_of(&self.files, name), at as usize, bite, buf);
        self.gave = self.gave.with(&Call {
            name,
            at,
            room: buf.len(),
            bytes: &buf[..n],
        });
        Ok(n)
    }

    fn append(&mut self, name: &str, piece: &[u8]) -> Result<usize, Failed>
        requires { IsTrue ((clean_folder self.old.files.items).knows name.now) }
        ensures kept { OnErr result
            (KeepsFiles (with_gave (clean_folder self.old.files.items) self.old.gave.calls)
            (with_gave (clean_folder self.new.files.items) self.new.gave.calls)) }
        ensures gave { self.new.gave.calls ≡ self.old.gave.calls }
        ensures count { CountsOnly name.now (clean_folder self.old.files.items).append_faults
            (clean_folder self.new.files.items).append_faults }
        ensures loads { (clean_folder self.new.files.items).load_faults
            ≡ (clean_folder self.old.files.items).load_faults }
        ensures quiet { OnOk result
            ((clean_folder self.new.files.items).append_faults
            ≡ (clean_folder self.old.files.items).append_faults) }
        ensures cause { OnErr result
            (Rose ((clean_folder self.old.files.items).append_faults name.now)
            ((clean_folder self.new.files.items).append_faults name.now)) }
        ensures counted { OnErr result ((clean_folder self.new.files.items).append_faults name.now
            ≡ one_more ((clean_folder self.old.files.items).append_faults name.now)) }

        // The whole piece, or a failure exactly if it is longer than the room.
        ensures bytes { IfOk result
            (λ n. Appends name.now (with_gave (clean_folder self.old.files.items) self.old.gave.calls)
            (with_gave (clean_folder self.new.files.items) self.new.gave.calls) piece.now n × (n ≡ length piece.now)) }
        ensures full { OnErr result
            (IsSomeAnd ((clean_folder self.old.files.items).room name.now) (λ r. r < length piece.now)) }
    {
        add_to(&mut self.files, name, piece)?;
        Ok(piece.len())
    }

    fn load_faults(&self, name: &str) -> u64 {
        load_faults_of(&self.files, name)
    }

    fn append_faults(&self, name: &str) -> u64 {
        append_faults_of(&self.files, name)
    }

    ghost roomy = { λ f name told some. roomy_by clean_seen (λ e has. refl)
        (entry_of clean_seen f.files.items name) some };
}
