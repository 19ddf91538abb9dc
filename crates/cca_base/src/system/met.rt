// Which file each name has shown to be, and what follows from it. Nothing here calls the system.
ghost use Rattle.std.specs.Prelude.{◌≡◌, ◌≢◌, ◌↔◌, ◌+◌, ◌≤◌, ◌^◌, ℕ, Some, None, OnOk, IfSome, IsTrue};
ghost use Rattle.std.specs.List.{Any};

use std::alloc::AllocError;

// A file of the system, by its device and by its number there. Two names mean one file exactly if these are equal, whatever the
// names are. That is believed, and no system promises it everywhere: two mounts of one folder may show one file under two
// devices, and a network file system may renumber its files. Overlayfs changes a file's number when it is first opened for
// writing, so an append looks at a name both before and after it opens the file.
#[derive(Clone, Copy, PartialEq, Eq)]
pub(crate) struct FileIdentity {
    pub device: u64,
    pub inode: u64,
}

// What the system reports about a file.
#[derive(Clone, Copy, PartialEq, Eq)]
pub(crate) struct Told {
    pub file: FileIdentity,
    pub is_regular: bool,
    pub is_link: bool,
}

// What the name at this place among the known ones has shown to be.
#[derive(Clone, Copy, PartialEq, Eq)]
pub(crate) struct Met {
    pub place: usize,
    pub file: FileIdentity,
}

// Whether this file was met under another name.
pub(crate) fn is_met_elsewhere(met: &[Met], place: usize, file: FileIdentity) -> bool
    ensures { IsTrue result ↔ Any (λ m. (m.place ≢ place) × (m.file ≡ file)) met.now }
{
    met.iter().any(|m| m.place != place && m.file == file)
}

// Whether a name that meant this file may be appended to: it was met under no other name, and the output doesn't go there.
pub(crate) fn may_take(met: &[Met], seen: Met, output: Option<FileIdentity>) -> bool
    ensures apart { IsTrue result → Any (λ m. (m.place ≢ seen.place) × (m.file ≡ seen.file)) met.now → ⊥ }
    ensures no_output { IsTrue result → output ≢ Some seen.file }
    ensures taken { (Any (λ m. (m.place ≢ seen.place) × (m.file ≡ seen.file)) met.now → ⊥) → output ≢ Some seen.file
        → IsTrue result }
{
    output != Some(seen.file) && !is_met_elsewhere(met, seen.place, seen.file)
}

// Whether a name may be opened to append to that means this file, or no file yet.
pub(crate) fn may_open(
    met: &[Met],
    place: usize,
    before: Option<FileIdentity>,
    output: Option<FileIdentity>,
) -> bool
    ensures apart { IsTrue result → IfSome before (λ file. Any (λ m. (m.place ≢ place) × (m.file ≡ file)) met.now → ⊥) }
    ensures no_output { IsTrue result → IfSome before (λ file. output ≢ Some file) }
    ensures new { before ≡ None → IsTrue result }
    ensures taken { (file : FileIdentity) → before ≡ Some file → (Any (λ m. (m.place ≢ place) × (m.file ≡ file)) met.now → ⊥)
        → output ≢ Some file → IsTrue result }
{
    match before {
        Some(file) => may_take(met, Met { place, file }, output),
        None => true,
    }
}

// Whether any file was met under this name.
pub(crate) fn is_met(met: &[Met], place: usize) -> bool
    ensures { IsTrue result ↔ Any (λ m. m.place ≡ place) met.now }
{
    met.iter().any(|m| m.place == place)
}

// The start of a plain read of a file that was opened just now: its first byte, if nothing was met under its name before. Else
// it is unknown, since a pipe's bytes can be read only once.
pub(crate) fn first_position(met: &[Met], place: usize) -> Option<u64>
    ensures new { result ≡ Some 0 → Any (λ m. m.place ≡ place) met.now → ⊥ }
    ensures old { result ≢ Some 0 → (result ≡ None) × Any (λ m. m.place ≡ place) met.now }
{
    if is_met(met, place) { None } else { Some(0) }
}

// Where a plain read goes on that gave that many bytes from this place.
pub(crate) fn position_after(at: u64, read: usize) -> Option<u64>
    ensures some { (n : ℕ) → result ≡ Some n → n ≡ at + read }
    ensures none { result ≡ None → 2 ^ 64 ≤ at + read }
{
    at.checked_add(read as u64)
}

// Notes what the name at this place has shown to be. What was met before stays.
pub(crate) fn note(met: &mut Vec<Met>, seen: Met) -> Result<(), AllocError>
    ensures noted { OnOk result (Any (λ m. m ≡ seen) met.new.items) }
    ensures kept { (m : Met) → Any (λ old. old ≡ m) met.old.items → Any (λ new. new ≡ m) met.new.items }
{
    if met.iter().any(|m| *m == seen) {
        return Ok(());
    }
    met.push(seen)?;
    Ok(())
}

// Notes what the name at this place meant before it was opened, if it meant a file.
pub(crate) fn note_before(
    met: &mut Vec<Met>,
    place: usize,
    before: Option<FileIdentity>,
) -> Result<(), AllocError>
    ensures noted { OnOk result (IfSome before (λ file. Any (λ m. (m.place ≡ place) × (m.file ≡ file)) met.new.items)) }
    ensures kept { (m : Met) → Any (λ old. old ≡ m) met.old.items → Any (λ new. new ≡ m) met.new.items }
{
    match before {
        Some(file) => note(met, Met { place, file }),
        None => Ok(()),
    }
}
