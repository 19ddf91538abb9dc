// Reads and appends of files as calls of the system.
ghost use Rattle.std.specs.Fd.{file_raw_fd};
ghost use Rattle.std.specs.List.{Any};
ghost use Rattle.std.specs.Prelude.{◌≡◌, ◌≢◌, ◌⊎◌, ◌≤◌, ◌<◌, ◌∷◌, ◌++◌, [], List, length, take, false, Some, None, IfOk, IfSome, IsSomeAnd, IsTrue, OnErr, OnOk};
ghost use Rattle.cca_base.specs.Barred.{IsOutput};
ghost use Rattle.cca_base.specs.Given.{Given};
ghost use Rattle.cca_base.specs.Made.{Made};
ghost use Rattle.cca_base.specs.RealFiles.{real_folder};
ghost use Rattle.cca_base.specs.Settled.{IsOpenOrOpened, IsRead, IsReadyToRead, IsTaken};

use crate::Failed;
use crate::named::place_of;
use crate::sink::taken;
use crate::system::known_file::KnownFile;
use crate::system::met::{FileIdentity, Met};
use crate::system::opening::{Appending, Reading, open_to_append, open_to_read, read_from};
use crate::system::settling::append_to;
use crate::system::system_calls::SystemCalls;
use crate::trace::{Call, Trace};
use std::alloc::{AllocError, Global};

/// Reads and appends of files, as the system takes them.
pub(crate) trait FileCalls: Drop {
    /// The reads that returned, the last one first.
    ghost gave: { Self → List Given };

    /// The appends that returned, the last one first.
    ghost took: { Self → List Given };

    /// The calls of the system that were made for them, the last one first.
    ghost made: { Self → List Made };

    /// Reads from a place of the file of a known name. The file stays open for the next read of this name. After the last read no place
    /// is asked for, so what can only be read in order, as a pipe, serves too.
    ///
    /// # Errors
    ///
    /// `Failed`, if the system fails or the place can't be reached. No file stays open then.
    fn read_at(
        &mut self,
        known: &[KnownFile],
        name: &str,
        at: u64,
        buf: &mut [u8],
    ) -> Result<usize, Failed>
        requires { IsTrue ((real_folder known.now).knows name.now) }
        ensures within { IfOk result (λ n. n ≤ length buf.old) }
        ensures gave { IfOk result (λ n. gave self.new
            ≡ record { name = name.now; at = at; room = length buf.old; bytes = take n buf.new } ∷ gave self.old) }
        ensures gave_none { OnErr result (gave self.new ≡ gave self.old) }
        ensures read { IfOk result (λ n. IsRead name.now at (take n buf.new) (made self.old) (made self.new)) }
        ensures took { took self.new ≡ took self.old };

    /// Adds a prefix of the piece to the end of the file of a known name, which is made if it is missing. The file stays open,
    /// and locked, for the next append to this name. What a regular file took is on its disk, and the name of a file that was
    /// made; the name means that file still.
    ///
    /// # Errors
    ///
    /// `Failed`, if the system fails, or takes nothing of a piece that isn't empty, if the file was read or appended to under
    /// another name, if the standard output goes to it, if a regular file is locked by someone else, and if the name means
    /// another file after the sync. No file stays open then.
    fn append(&mut self, known: &[KnownFile], name: &str, piece: &[u8]) -> Result<usize, Failed>
        requires { IsTrue ((real_folder known.now).knows name.now) }
        ensures some { IfOk result (λ n. (n ≤ length piece.now) × (0 < length piece.now → 0 < n)) }
        ensures took { IfOk result (λ n. took self.new
            ≡ record { name = name.now; at = 0; room = length piece.now; bytes = take n piece.now } ∷ took self.old) }
        ensures took_none { OnErr result (took self.new ≡ took self.old) }
        ensures settled { IfOk result (λ n. IsTaken name.now (take n piece.now) (made self.old) (made self.new)) }
        ensures gave { gave self.new ≡ gave self.old };
}

/// The system's own files.
#[derive(Drop)]
pub(crate) struct SystemFiles<S: Drop> {
    alloc: Global,
    system: S,
    // The regular file that the standard output goes to, if it goes to one.
    output: Option<FileIdentity>,
    met: Vec<Met>,
    reading: Option<Reading>,
    appending: Option<Appending>,
    gave: Trace,
    took: Trace,
}

// The regular file that the standard output goes to, if it goes to one. It is looked at by a name, so nothing is opened.
pub(crate) fn output_file<S: SystemCalls>(system: &mut S) -> Option<FileIdentity>
    ensures { IsOutput result (S.made system.old) (S.made system.new) }
{
    match system.told("/proc/self/fd/1") {
        Ok(told) if told.is_regular => Some(told.file),
        _ => None,
    }
}

impl<S: SystemCalls> SystemFiles<S> {
    /// The files of this system, with memory for what that many names show to be, each before its file is opened and after it.
    pub(crate) fn new(alloc: Global, mut system: S, names: usize) -> Result<Self, AllocError>
        ensures output { IfOk result (λ files. IsOutput files.output (S.made system) (S.made files.system)) }
        ensures met { IfOk result (λ files. files.met.items ≡ []) }
    {
        let met = Vec::with_capacity(alloc, names.saturating_mul(2))?;
        let output = output_file(&mut system);
        Ok(SystemFiles {
            alloc,
            system,
            output,
            met,
            reading: None,
            appending: None,
            gave: Trace::new(),
            took: Trace::new(),
        })
    }

    // The file of the name at this place to read from: the one that is open, if it is that one.
    fn reading_at(&mut self, place: usize, name: &str) -> Result<Reading, Failed>
        ensures place { IfOk result (λ opened. opened.place ≡ place) }
        ensures ready { IfOk result (λ opened. IsReadyToRead name.now (file_raw_fd opened.file)
            (S.made self.old.system) (S.made self.new.system)) }
        ensures noted { IfOk result (λ opened. IsSomeAnd self.old.reading (λ file. file.place ≡ place)
            ⊎ Any (λ m. m.place ≡ place) self.new.met.items) }
        ensures kept { (m : Met) → Any (λ old. old ≡ m) self.old.met.items → Any (λ new. new ≡ m) self.new.met.items }
        ensures output { self.new.output ≡ self.old.output }
        ensures gave { self.new.gave ≡ self.old.gave }
        ensures took { self.new.took ≡ self.old.took }
    {
        self.appending = None;
        match self.reading.take() {
            Some(open) if open.place == place => Ok(open),
            _ => open_to_read(&mut self.system, &mut self.met, place, name),
        }
    }

    // The file of the name at this place to append to: the one that is open, if it is that one.
    fn appending_at(&mut self, place: usize, name: &str) -> Result<Appending, Failed>
        ensures gave { self.new.gave ≡ self.old.gave }
        ensures took { self.new.took ≡ self.old.took }
        ensures place { IfOk result (λ opened. opened.seen.place ≡ place) }
        ensures closed { self.new.appending ≡ None }
        ensures again { IfOk result (λ opened. IfSome self.old.appending (λ file. file.seen.place ≡ place
            → (opened ≡ file) × (S.made self.new.system ≡ S.made self.old.system))) }
        ensures apart { IfOk result (λ opened. IsSomeAnd self.old.appending (λ file. file.seen.place ≡ place)
            ⊎ ((self.old.output ≢ Some opened.seen.file)
            × (Any (λ m. (m.place ≢ place) × (m.file ≡ opened.seen.file)) self.old.met.items → ⊥))) }
        ensures kept { (m : Met) → Any (λ old. old ≡ m) self.old.met.items → Any (λ new. new ≡ m) self.new.met.items }
        ensures output { self.new.output ≡ self.old.output }
        ensures opened { IfOk result (λ opened. IsOpenOrOpened name.now (file_raw_fd opened.file) opened.before opened.seen.file
            opened.is_regular opened.is_new (S.made self.old.system) (S.made self.new.system)) }
    {
        self.reading = None;
        match self.appending.take() {
            Some(open) if open.seen.place == place => Ok(open),
            _ => open_to_append(&mut self.system, self.output, &mut self.met, place, name),
        }
    }

    // Appends to the file of the name at this place, which stays open for the next piece. No file stays open after an error.
    fn append_at(&mut self, place: usize, name: &str, piece: &[u8]) -> Result<usize, Failed>
        ensures some { IfOk result (λ n. (n ≤ length piece.now) × (0 < length piece.now → 0 < n)) }
        ensures settled { IfOk result (λ n. IsTaken name.now (take n piece.now) (S.made self.old.system) (S.made self.new.system)) }
        ensures open { OnOk result (IsSomeAnd self.new.appending (λ file. (file.seen.place ≡ place)
            × (IsTrue file.is_regular → file.is_new ≡ false)
            × IfSome self.old.appending (λ before. before.seen.place ≡ place
            → (file.file ≡ before.file) × (file.seen ≡ before.seen) × (file.is_regular ≡ before.is_regular)))) }
        ensures closed { OnErr result (self.new.appending ≡ None) }
        ensures kept { (m : Met) → Any (λ old. old ≡ m) self.old.met.items → Any (λ new. new ≡ m) self.new.met.items }
        ensures output { self.new.output ≡ self.old.output }
        ensures gave { self.new.gave ≡ self.old.gave }
        ensures took { self.new.took ≡ self.old.took }
    {
        let mut open = self.appending_at(place, name)?;
        let written = append_to(&mut self.system, self.alloc, &mut open, name, piece);
        let n = taken(written, piece.len())?;
        self.appending = Some(open);
        Ok(n)
    }
}

impl<S: SystemCalls> FileCalls for SystemFiles<S> {
    ghost gave = { λ s. s.gave.calls };

    ghost took = { λ s. s.took.calls };

    ghost made = { λ s. S.made s.system };

    fn read_at(
        &mut self,
        known: &[KnownFile],
        name: &str,
        at: u64,
        buf: &mut [u8],
    ) -> Result<usize, Failed> {
        let mut open = self.reading_at(place_of(known, name), name)?;
        let n = read_from(&mut self.system, &mut open, at, buf)?;
        self.reading = Some(open);
        self.gave = self.gave.with(&Call {
            name,
            at,
            room: buf.len(),
            bytes: &buf[..n],
        });
        Ok(n)
    }

    fn append(&mut self, known: &[KnownFile], name: &str, piece: &[u8]) -> Result<usize, Failed> {
        let n = self.append_at(place_of(known, name), name, piece)?;
        self.took = self.took.with(&Call {
            name,
            at: 0,
            room: piece.len(),
            bytes: &piece[..n],
        });
        Ok(n)
    }
}
