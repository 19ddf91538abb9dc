// Files that are opened by their names.
ghost use Rattle.std.specs.Fd.{file_raw_fd};
ghost use Rattle.std.specs.List.{Any};
ghost use Rattle.std.specs.Prelude.{◌≡◌, ◌≢◌, ◌≤◌, ◌+◌, ◌∷◌, Some, Ok, length, take, IfOk, IfSome, IsSome, is_none};
ghost use Rattle.cca_base.specs.Made.{opens_to_read, tells_open};
ghost use Rattle.cca_base.specs.Settled.{IsLookedAt, IsOpened, IsReadAt};
ghost use Rattle.cca_base.specs.declared.system.met.Told.{Told};

use crate::Failed;
use crate::system::met::{
    FileIdentity, Met, first_position, may_open, may_take, note, note_before, position_after,
};
use crate::system::system_calls::SystemCalls;
use std::fs::File;
use std::io::ErrorKind;

// A file that is open to read from, by the place of its name among the known ones.
#[derive(Drop)]
pub(crate) struct Reading {
    pub place: usize,
    pub file: File,
    // Where a plain read goes on, if that is known.
    pub position: Option<u64>,
}

// A file that is open to append to, and what its name has shown to be. A regular one is locked as long as it is open.
#[derive(Drop)]
pub(crate) struct Appending {
    // The file that the name meant before it was opened, if it meant one. A file system of layers opens a copy instead.
    pub before: Option<FileIdentity>,
    pub seen: Met,
    pub file: File,
    pub is_regular: bool,
    // Whether it was made here, and its name isn't synced yet.
    pub is_new: bool,
}

// The file that a name means now, and None if it means none.
pub(crate) fn file_of<S: SystemCalls>(
    system: &mut S,
    name: &str,
) -> Result<Option<FileIdentity>, Failed>
    ensures { IfOk result (λ file. IsLookedAt name.now file (S.made system.old) (S.made system.new)) }
{
    match system.told(name) {
        Ok(told) => Ok(Some(told.file)),
        Err(ErrorKind::NotFound) => Ok(None),
        Err(_) => Err(Failed),
    }
}

// The file of the name at this place, opened again to read from, and noted.
pub(crate) fn open_to_read<S: SystemCalls>(
    system: &mut S,
    met: &mut Vec<Met>,
    place: usize,
    name: &str,
) -> Result<Reading, Failed>
    ensures place { IfOk result (λ opened. opened.place ≡ place) }
    ensures calls { IfOk result (λ opened. (told : Told)
        × (S.made system.new ≡ tells_open (file_raw_fd opened.file) (Ok told)
        ∷ opens_to_read name.now (Ok (file_raw_fd opened.file)) ∷ S.made system.old)
        × Any (λ m. m ≡ record { place = place; file = told.file }) met.new.items) }
    ensures first { IfOk result (λ opened. IsSome opened.position → Any (λ m. m.place ≡ place) met.old.items → ⊥) }
    ensures kept { (m : Met) → Any (λ old. old ≡ m) met.old.items → Any (λ new. new ≡ m) met.new.items }
{
    let file = system.opened_to_read(name)?;
    let told = system.told_of_open(&file)?;
    let position = first_position(met, place);
    let seen = Met {
        place,
        file: told.file,
    };
    note(met, seen)?;
    Ok(Reading {
        place,
        file,
        position,
    })
}

// Reads from a place of an open file.
pub(crate) fn read_from<S: SystemCalls>(
    system: &mut S,
    opened: &mut Reading,
    at: u64,
    buf: &mut [u8],
) -> Result<usize, Failed>
    ensures within { IfOk result (λ n. n ≤ length buf.old) }
    ensures read { IfOk result (λ n. IsReadAt (file_raw_fd opened.old.file) opened.old.position at (take n buf.new)
        (S.made system.old) (S.made system.new)) }
    ensures position { IfOk result (λ n. IfSome opened.new.position (λ p. p ≡ at + n)) }
    ensures file { opened.new.file ≡ opened.old.file }
    ensures place { opened.new.place ≡ opened.old.place }
{
    if opened.position != Some(at) && !system.sought(&opened.file, at) {
        return Err(Failed);
    }
    let read = system.read(&opened.file, buf)?;
    opened.position = position_after(at, read);
    Ok(read)
}

// The file of the name at this place, opened again to append to, and noted. This file and the one that the name meant before
// weren't met under another name, and the standard output doesn't go to them.
pub(crate) fn open_to_append<S: SystemCalls>(
    system: &mut S,
    output: Option<FileIdentity>,
    met: &mut Vec<Met>,
    place: usize,
    name: &str,
) -> Result<Appending, Failed>
    ensures place { IfOk result (λ opened. opened.seen.place ≡ place) }
    ensures calls { IfOk result (λ opened. IsOpened name.now (file_raw_fd opened.file) opened.before opened.seen.file
        opened.is_regular (S.made system.old) (S.made system.new)) }
    ensures new { IfOk result (λ opened. opened.is_new ≡ is_none opened.before) }
    ensures apart { IfOk result (λ opened. Any (λ m. (m.place ≢ place) × (m.file ≡ opened.seen.file)) met.old.items → ⊥) }
    ensures apart_before { IfOk result (λ opened.
        IfSome opened.before (λ file. Any (λ m. (m.place ≢ place) × (m.file ≡ file)) met.old.items → ⊥)) }
    ensures no_output { IfOk result (λ opened. output ≢ Some opened.seen.file) }
    ensures no_output_before { IfOk result (λ opened. IfSome opened.before (λ file. output ≢ Some file)) }
    ensures noted { IfOk result (λ opened. Any (λ m. m ≡ opened.seen) met.new.items) }
    ensures noted_before { IfOk result (λ opened.
        IfSome opened.before (λ file. Any (λ m. (m.place ≡ place) × (m.file ≡ file)) met.new.items)) }
    ensures kept { (m : Met) → Any (λ old. old ≡ m) met.old.items → Any (λ new. new ≡ m) met.new.items }
{
    let before = file_of(system, name)?;
    if !may_open(met, place, before, output) {
        return Err(Failed);
    }
    let file = system.opened_to_append(name)?;
    let told = system.told_of_open(&file)?;
    let seen = Met {
        place,
        file: told.file,
    };
    let is_regular = told.is_regular;
    if !may_take(met, seen, output) || is_regular && !system.locked(&file) {
        return Err(Failed);
    }
    note(met, seen)?;
    note_before(met, place, before)?;
    Ok(Appending {
        before,
        seen,
        file,
        is_regular,
        is_new: before.is_none(),
    })
}
