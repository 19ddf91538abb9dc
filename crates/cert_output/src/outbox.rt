// Bytes that wait in a room until they are appended to a file together, since each append costs the system a visit to the disk.
ghost use Rattle.std.specs.Prelude.{◌≤◌, [], length, take, IsTrue, OnErr, OnOk};
ghost use Rattle.cert_output.specs.Writes.{AddsAll, AddsSome, TakesText};

use crate::CutShort;
use crate::room::put_at;
use cca_base::{Files, write_file};

/// Adds bytes after the first `waiting` ones of the room, and returns how many wait there now. If they don't fit, the waiting
/// bytes are appended first.
pub(crate) fn add_bytes<F: Files>(
    files: &mut F,
    name: &str,
    room: &mut [u8],
    waiting: usize,
    bytes: &[u8],
) -> Result<usize, CutShort>
    requires known { IsTrue ((F.folder files.old).knows name.now) }
    requires waiting { waiting ≤ length room.old }
    ensures { TakesText name.now (F.folder files.old) (F.folder files.new) (take waiting room.old) room.new bytes.now result }
{
    if bytes.len() <= room.len() - waiting {
        put_at(room, waiting, bytes);
        return Ok(waiting + bytes.len());
    }
    match append_front(files, name, room, waiting) {
        Ok(()) => add_first(files, name, room, bytes),
        Err(stop) => Err(stop),
    }
}

/// Adds bytes if none wait. Bytes that are too many for the room are appended at once.
fn add_first<F: Files>(
    files: &mut F,
    name: &str,
    room: &mut [u8],
    bytes: &[u8],
) -> Result<usize, CutShort>
    requires { IsTrue ((F.folder files.old).knows name.now) }
    ensures { TakesText name.now (F.folder files.old) (F.folder files.new) [] room.new bytes.now result }
{
    if bytes.len() <= room.len() {
        put_at(room, 0, bytes);
        return Ok(bytes.len());
    }
    match append(files, name, bytes) {
        Ok(()) => Ok(0),
        Err(stop) => Err(stop),
    }
}

/// Appends the first `waiting` bytes of the room.
pub(crate) fn append_front<F: Files>(
    files: &mut F,
    name: &str,
    room: &[u8],
    waiting: usize,
) -> Result<(), CutShort>
    requires known { IsTrue ((F.folder files.old).knows name.now) }
    requires waiting { waiting ≤ length room.now }
    ensures whole { OnOk result (AddsAll name.now (F.folder files.old) (F.folder files.new) (take waiting room.now)) }
    ensures part { OnErr result (AddsSome name.now (F.folder files.old) (F.folder files.new) (take waiting room.now)) }
{
    append(files, name, &room[..waiting])
}

/// Appends bytes.
pub(crate) fn append<F: Files>(files: &mut F, name: &str, bytes: &[u8]) -> Result<(), CutShort>
    requires { IsTrue ((F.folder files.old).knows name.now) }
    ensures whole { OnOk result (AddsAll name.now (F.folder files.old) (F.folder files.new) bytes.now) }
    ensures part { OnErr result (AddsSome name.now (F.folder files.old) (F.folder files.new) bytes.now) }
{
    match write_file(files, name, bytes) {
        Ok(()) => Ok(()),
        Err(_) => Err(CutShort),
    }
}
