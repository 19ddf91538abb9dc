// One file in memory that was reserved when the file was made.
ghost use Rattle.std.specs.Prelude.{◌≡◌, ◌++◌, ◌<◌, length, take, Some, unwrap_or, [], IsTrue, IsSomeAnd, OnOk, OnErr};
ghost use Rattle.std.specs.Option.{option_map};
ghost use Rattle.cca_base.specs.Faults.{Rose, one_more};
ghost use Rattle.cca_base.specs.Files.{KeepsFiles, CountsOnly, Becomes};
ghost use Rattle.cca_base.specs.CleanFiles.{clean_folder};

use crate::Failed;
use crate::buffer::Buffer;
use crate::named::{Named, count_append_fault, place_of};
use std::alloc::{AllocError, Global};

// A file of a known name, which is never missing.
#[derive(Drop)]
pub(crate) struct CleanFile {
    name: String,
    buffer: Buffer,
    load_faults: u64,
    append_faults: u64,
}

impl Named for CleanFile {
    ghost use Rattle.std.specs.Prelude.{true, Some, []};
    ghost use Rattle.cca_base.specs.CleanFiles.{clean_seen};

    ghost seen = { clean_seen };

    ghost told = { true };

    ghost first_seen = { λ name room. record { name = name; file = Some []; load_faults = 0; append_faults = 0; room = Some room } };

    fn name(&self) -> &str {
        self.name.as_str()
    }

    fn load_faults(&self) -> u64 {
        self.load_faults
    }

    fn append_faults(&self) -> u64 {
        self.append_faults
    }

    fn set_load_faults(&mut self, count: u64) {
        self.load_faults = count;
    }

    fn set_append_faults(&mut self, count: u64) {
        self.append_faults = count;
    }

    fn with_name(alloc: Global, name: String, room: usize) -> Result<CleanFile, AllocError> {
        Ok(CleanFile {
            name,
            buffer: Buffer::new(alloc, room)?,
            load_faults: 0,
            append_faults: 0,
        })
    }
}

// The bytes of the file of this name.
pub(crate) fn bytes_of<'a>(files: &'a [CleanFile], name: &str) -> &'a [u8]
    requires { IsTrue ((clean_folder files.now).knows name.now) }
    ensures { (clean_folder files.now).file name.now ≡ Some result.now }
{
    files[place_of(files, name)].buffer.held()
}

// Adds the whole piece to the file of this name, and fails exactly if it is longer than the room.
fn add_bytes(files: &mut [CleanFile], name: &str, piece: &[u8]) -> Result<(), Failed>
    requires { IsTrue ((clean_folder files.old).knows name.now) }
    ensures added { OnOk result
        (Becomes name.now (clean_folder files.old) (clean_folder files.new)
        (Some (unwrap_or ((clean_folder files.old).file name.now) [] ++ piece.now)) [] (length piece.now)) }
    ensures full { OnErr result (IsSomeAnd ((clean_folder files.old).room name.now) (λ r. r < length piece.now)) }
    ensures kept { OnErr result (KeepsFiles (clean_folder files.old) (clean_folder files.new)) }
    ensures loads { (clean_folder files.new).load_faults ≡ (clean_folder files.old).load_faults }
    ensures appends { (clean_folder files.new).append_faults ≡ (clean_folder files.old).append_faults }
{
    let place = place_of(files, name);
    let file = &mut files[place];
    file.buffer.add(piece)?;
    Ok(())
}

// Adds a piece as `add_bytes` does, and counts a failed append if that fails.
pub(crate) fn add_to(files: &mut [CleanFile], name: &str, piece: &[u8]) -> Result<(), Failed>
    requires { IsTrue ((clean_folder files.old).knows name.now) }
    ensures added { OnOk result
        (Becomes name.now (clean_folder files.old) (clean_folder files.new)
        (Some (unwrap_or ((clean_folder files.old).file name.now) [] ++ piece.now)) [] (length piece.now)) }
    ensures quiet { OnOk result ((clean_folder files.new).append_faults ≡ (clean_folder files.old).append_faults) }
    ensures full { OnErr result (IsSomeAnd ((clean_folder files.old).room name.now) (λ r. r < length piece.now)) }
    ensures kept { OnErr result (KeepsFiles (clean_folder files.old) (clean_folder files.new)) }
    ensures count { CountsOnly name.now (clean_folder files.old).append_faults (clean_folder files.new).append_faults }
    ensures rose { OnErr result
        (Rose ((clean_folder files.old).append_faults name.now) ((clean_folder files.new).append_faults name.now)) }
    ensures counted { OnErr result
        ((clean_folder files.new).append_faults name.now ≡ one_more ((clean_folder files.old).append_faults name.now)) }
    ensures loads { (clean_folder files.new).load_faults ≡ (clean_folder files.old).load_faults }
{
    if add_bytes(files, name, piece).is_err() {
        count_append_fault(files, name);
        return Err(Failed);
    }
    Ok(())
}
