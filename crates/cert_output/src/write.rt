// Texts in parts, to a file.
ghost use Rattle.std.specs.Prelude.{◌≡◌, ◌≤◌, ◌<◌, ℕ, [], length, take, IfSome, IsOk, IsTrue, OnErr, OnOk};
ghost use Rattle.cca_base.specs.Faults.{Rose};
ghost use Rattle.cca_base.specs.Files.{Adds, AddsPrefix, CountsOnly};
ghost use Rattle.cca_base.specs.Sink.{HasRoom};
ghost use Rattle.cert_output.specs.TextParts.{all_bytes, part_bytes, AreWritable, IsWritable};
ghost use Rattle.cert_output.specs.Writes.{AddsAll, AddsSome, TakesText};

use crate::LongText;
use crate::lines::add_table;
use crate::outbox::{add_bytes, append, append_front};
use crate::part::Part;
use cca_base::Files;
use wide_num::Text;

/// A text isn't written whole, since an append failed.
#[derive(Clone, Copy, Debug, PartialEq, Eq)]
pub struct CutShort;

// That many bytes are appended at once, if there are as many.
const ROOM: usize = 262_144;

/// Adds the whole text to the end of the file of this known name. A missing file is treated as empty. Takes no memory.
///
/// # Errors
///
/// `CutShort`, only if the count of the name's failed appends rose in this call or is at its last value. Some bytes at
/// the start of the text went out then, and not all. If a room is reported for the name and the whole text fits in it,
/// the answer is `Ok`.
pub fn write_long<F: Files>(files: &mut F, name: &str, text: &LongText) -> Result<(), CutShort>
    requires { IsTrue ((F.folder files.old).knows name.now) }
    ensures whole { OnOk result (Adds name.now (F.folder files.old) (F.folder files.new) text.now (length text.now)) }
    ensures part { OnErr result ((n : ℕ)
        × (n < length text.now) × Adds name.now (F.folder files.old) (F.folder files.new) text.now n) }
    ensures prefix { AddsPrefix name.now (F.folder files.old) (F.folder files.new) text.now }
    ensures count { CountsOnly name.now (F.folder files.old).append_faults (F.folder files.new).append_faults }
    ensures quiet { OnOk result ((F.folder files.new).append_faults ≡ (F.folder files.old).append_faults) }
    ensures gave { (F.folder files.new).gave ≡ (F.folder files.old).gave }
    ensures loads { (F.folder files.new).load_faults ≡ (F.folder files.old).load_faults }
    ensures cause { OnErr result
        (Rose ((F.folder files.old).append_faults name.now) ((F.folder files.new).append_faults name.now)) }
    ensures room { HasRoom ((F.folder files.old).room name.now) (length text.now) → IsOk result }
{
    write_whole(files, name, text)
}

fn write_whole<F: Files>(files: &mut F, name: &str, text: &LongText) -> Result<(), CutShort>
    requires { IsTrue ((F.folder files.old).knows name.now) }
    ensures whole { OnOk result (AddsAll name.now (F.folder files.old) (F.folder files.new) text.now) }
    ensures part { OnErr result (AddsSome name.now (F.folder files.old) (F.folder files.new) text.now) }
{
    // A room costs a short text more than all else.
    match only_bytes(text.parts()) {
        Some(bytes) => append(files, name, bytes.items()),
        None => write_with_room(files, name, text.parts()),
    }
}

/// The bytes if these are all parts.
fn only_bytes(parts: &[Part]) -> Option<&Text>
    ensures { IfSome result (λ bytes. bytes.now ≡ all_bytes parts.now) }
{
    if parts.len() != 1 {
        return None;
    }
    match &parts[0] {
        Part::Bytes(text) => Some(text),
        Part::Lines(_) => None,
    }
}

fn write_with_room<F: Files>(files: &mut F, name: &str, parts: &[Part]) -> Result<(), CutShort>
    requires known { IsTrue ((F.folder files.old).knows name.now) }
    requires writable { AreWritable parts.now }
    ensures whole { OnOk result (AddsAll name.now (F.folder files.old) (F.folder files.new) (all_bytes parts.now)) }
    ensures part { OnErr result (AddsSome name.now (F.folder files.old) (F.folder files.new) (all_bytes parts.now)) }
{
    let mut room = [0u8; ROOM];
    write_through(files, name, &mut room, parts)
}

/// Appends the parts of a text through a room.
fn write_through<F: Files>(
    files: &mut F,
    name: &str,
    room: &mut [u8],
    parts: &[Part],
) -> Result<(), CutShort>
    requires known { IsTrue ((F.folder files.old).knows name.now) }
    requires writable { AreWritable parts.now }
    ensures whole { OnOk result (AddsAll name.now (F.folder files.old) (F.folder files.new) (all_bytes parts.now)) }
    ensures part { OnErr result (AddsSome name.now (F.folder files.old) (F.folder files.new) (all_bytes parts.now)) }
{
    match add_parts(files, name, room, parts) {
        Ok(waiting) => append_front(files, name, room, waiting),
        Err(stop) => Err(stop),
    }
}

/// Adds the parts to a room without waiting bytes, and returns how many bytes wait there then.
fn add_parts<F: Files>(
    files: &mut F,
    name: &str,
    room: &mut [u8],
    parts: &[Part],
) -> Result<usize, CutShort>
    requires known { IsTrue ((F.folder files.old).knows name.now) }
    requires writable { AreWritable parts.now }
    ensures { TakesText name.now (F.folder files.old) (F.folder files.new) [] room.new (all_bytes parts.now) result }
{
    let mut waiting = 0;
    for part in parts {
        match add_part(files, name, room, waiting, part) {
            Ok(now) => waiting = now,
            Err(stop) => return Err(stop),
        }
    }
    Ok(waiting)
}

fn add_part<F: Files>(
    files: &mut F,
    name: &str,
    room: &mut [u8],
    waiting: usize,
    part: &Part,
) -> Result<usize, CutShort>
    requires known { IsTrue ((F.folder files.old).knows name.now) }
    requires waiting { waiting ≤ length room.old }
    requires writable { IsWritable part.now }
    ensures { TakesText name.now (F.folder files.old) (F.folder files.new) (take waiting room.old) room.new
        (part_bytes part.now) result }
{
    match part {
        Part::Bytes(text) => add_bytes(files, name, room, waiting, text.items()),
        Part::Lines(table) => add_table(files, name, room, waiting, table),
    }
}
