// One file in memory, and changes of one file in a list of them.
ghost use Rattle.std.specs.Prelude.{◌≡◌, ◌++◌, ◌-◌, length, min, take, drop, unwrap_or, [], Some, IsTrue, OnOk, OnErr};
ghost use Rattle.std.specs.Option.{option_map};
ghost use Rattle.cca_base.specs.Faults.{Rose, one_more};
ghost use Rattle.cca_base.specs.Files.{KeepsFiles, CountsOnly, Becomes};
ghost use Rattle.cca_base.specs.MemFiles.{bytes_in, mem_folder};

use crate::Failed;
use crate::named::{Named, count_append_fault, place_of};
use std::alloc::{AllocError, Global};

/// A file of a known name. Its `bytes` are `None` exactly if it is missing.
#[derive(Drop)]
pub struct MemFile {
    pub name: String,
    pub bytes: Option<Vec<u8>>,
    pub load_faults: u64,
    pub append_faults: u64,
}

impl Named for MemFile {
    ghost use Rattle.std.specs.Prelude.{true, None};
    ghost use Rattle.cca_base.specs.MemFiles.{mem_seen};

    ghost seen = { mem_seen };

    ghost told = { true };

    ghost first_seen = { λ name room. record { name = name; file = None; load_faults = 0; append_faults = 0; room = None } };

    fn name(&self) -> &str {
        self.name.as_str()
    }

    fn load_faults(&self) -> u64 {
        self.load_faults
    }

    fn append_faults(&self) -> u64 {
        self.append_faults
    }

    fn set_load_faults(&mut self, count: u64) {
        self.load_faults = count;
    }

    fn set_append_faults(&mut self, count: u64) {
        self.append_faults = count;
    }

    fn with_name(_alloc: Global, name: String, _room: usize) -> Result<MemFile, AllocError> {
        Ok(MemFile {
            name,
            bytes: None,
            load_faults: 0,
            append_faults: 0,
        })
    }
}

// The bytes of the file of this name.
pub(crate) fn bytes_of<'a>(files: &'a [MemFile], name: &str) -> Option<&'a [u8]>
    requires { IsTrue ((mem_folder files.now).knows name.now) }
    ensures { option_map (λ b. b.now) result ≡ (mem_folder files.now).file name.now }
{
    match &files[place_of(files, name)].bytes {
        Some(bytes) => Some(bytes.as_slice()),
        None => None,
    }
}

// Adds bytes to the end of a file, which is made if it is missing.
fn extend(alloc: Global, bytes: &mut Option<Vec<u8>>, piece: &[u8]) -> Result<(), AllocError>
    ensures added { OnOk result (bytes_in bytes.new ≡ Some (unwrap_or (bytes_in bytes.old) [] ++ piece.now)) }
    ensures kept { OnErr result (bytes_in bytes.new ≡ bytes_in bytes.old) }
{
    match bytes {
        Some(bytes) => bytes.extend_from_slice(piece),
        None => {
            *bytes = Some(Vec::from_slice(alloc, piece)?);
            Ok(())
        }
    }
}

// Adds a piece to the file of this name, which is made if it is missing.
fn add_bytes(
    alloc: Global,
    files: &mut [MemFile],
    name: &str,
    piece: &[u8],
) -> Result<(), AllocError>
    requires { IsTrue ((mem_folder files.old).knows name.now) }
    ensures added { OnOk result
        (Becomes name.now (mem_folder files.old) (mem_folder files.new)
        (Some (unwrap_or ((mem_folder files.old).file name.now) [] ++ piece.now)) [] (length piece.now)) }
    ensures kept { OnErr result (KeepsFiles (mem_folder files.old) (mem_folder files.new)) }
    ensures appends { (mem_folder files.new).append_faults ≡ (mem_folder files.old).append_faults }
    ensures loads { (mem_folder files.new).load_faults ≡ (mem_folder files.old).load_faults }
{
    let place = place_of(files, name);
    let file = &mut files[place];
    extend(alloc, &mut file.bytes, piece)?;
    Ok(())
}

// Adds a piece as `add_bytes` does, and counts a failed append if that fails.
pub(crate) fn add_to(
    alloc: Global,
    files: &mut [MemFile],
    name: &str,
    piece: &[u8],
) -> Result<(), Failed>
    requires { IsTrue ((mem_folder files.old).knows name.now) }
    ensures added { OnOk result
        (Becomes name.now (mem_folder files.old) (mem_folder files.new)
        (Some (unwrap_or ((mem_folder files.old).file name.now) [] ++ piece.now)) [] (length piece.now)) }
    ensures quiet { OnOk result ((mem_folder files.new).append_faults ≡ (mem_folder files.old).append_faults) }
    ensures kept { OnErr result (KeepsFiles (mem_folder files.old) (mem_folder files.new)) }
    ensures count { CountsOnly name.now (mem_folder files.old).append_faults (mem_folder files.new).append_faults }
    ensures rose { OnErr result
        (Rose ((mem_folder files.old).append_faults name.now) ((mem_folder files.new).append_faults name.now)) }
    ensures counted { OnErr result
        ((mem_folder files.new).append_faults name.now ≡ one_more ((mem_folder files.old).append_faults name.now)) }
    ensures loads { (mem_folder files.new).load_faults ≡ (mem_folder files.old).load_faults }
{
    if add_bytes(alloc, files, name, piece).is_err() {
        count_append_fault(files, name);
        return Err(Failed);
    }
    Ok(())
}

// Sets the file of this name to these bytes.
pub(crate) fn set_bytes(files: &mut [MemFile], name: &str, bytes: Vec<u8>)
    requires { IsTrue ((mem_folder files.old).knows name.now) }
    ensures set { Becomes name.now (mem_folder files.old) (mem_folder files.new) (Some bytes.items) [] 0 }
    ensures loads { (mem_folder files.new).load_faults ≡ (mem_folder files.old).load_faults }
    ensures appends { (mem_folder files.new).append_faults ≡ (mem_folder files.old).append_faults }
{
    let place = place_of(files, name);
    let file = &mut files[place];
    file.bytes = Some(bytes);
}

// The bytes at a place of the file go to the start of the buffer, at most `bite` of them.
pub(crate) fn copy_from(file: &[u8], at: usize, bite: usize, buf: &mut [u8]) -> usize
    ensures count { result ≡ min (min bite (length buf.old)) (length file.now - at) }
    ensures bytes { take result buf.new ≡ take result (drop at file.now) }
{
    if at >= file.len() {
        return 0;
    }
    let rest = &file[at..];
    let n = rest.len().min(buf.len()).min(bite);
    buf[..n].copy_from_slice(&rest[..n]);
    n
}
