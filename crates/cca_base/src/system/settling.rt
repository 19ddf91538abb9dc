// What is appended, and on the disk before it is reported as taken.
ghost use Rattle.std.specs.Fd.{file_raw_fd};
ghost use Rattle.std.specs.Prelude.{◌≡◌, ◌≤◌, ◌∷◌, ◌++◌, false, Ok, length, take, IfOk, IsTrue, OnOk, OnErr};
ghost use Rattle.cca_base.specs.Made.{tells};
ghost use Rattle.cca_base.specs.Settled.{IsFolderOf, IsNameSynced, IsSettled, IsSynced, IsWritten};
ghost use Rattle.cca_base.specs.declared.system.met.FileIdentity.{FileIdentity};
ghost use Rattle.cca_base.specs.declared.system.met.Told.{Told};

use crate::Failed;
use crate::system::met::FileIdentity;
use crate::system::opening::{Appending, file_of};
use crate::system::system_calls::SystemCalls;
use std::alloc::Global;

// Fails unless the name means this file now.
fn must_mean<S: SystemCalls>(system: &mut S, name: &str, file: FileIdentity) -> Result<(), Failed>
    ensures { OnOk result ((told : Told) × (told.file ≡ file) × (S.made system.new ≡ tells name.now (Ok told) ∷ S.made system.old)) }
{
    if file_of(system, name)? == Some(file) {
        Ok(())
    } else {
        Err(Failed)
    }
}

// The folder where the system looks for a name: all before the last slash.
fn folder_of(name: &str) -> &str
    ensures { IsFolderOf name.now result.now }
{
    match name.rsplit_once('/') {
        Some((folder, _)) => { if folder.is_empty() { "/" } else { folder } }
        None => ".",
    }
}

// Waits until the disk has the entries of this folder.
fn sync_folder<S: SystemCalls>(system: &mut S, folder: &str) -> Result<(), Failed>
    ensures { OnOk result (IsSynced folder.now (S.made system.old) (S.made system.new)) }
{
    let file = system.opened_to_read(folder)?;
    if system.synced(&file) {
        Ok(())
    } else {
        Err(Failed)
    }
}

// Waits until the disk has the name of this new file. After a link the name is in another folder, which takes memory to find.
fn sync_name<S: SystemCalls>(system: &mut S, alloc: Global, name: &str) -> Result<(), Failed>
    ensures { OnOk result (IsNameSynced name.now (S.made system.old) (S.made system.new)) }
{
    if system.told_of_name(name)?.is_link {
        let path = system.resolved(alloc, name)?;
        return sync_folder(system, folder_of(path.as_str()));
    }
    sync_folder(system, folder_of(name))
}

// Waits until the disk has what a regular file took, and the name of a new one. Then the name has to mean the same file still.
fn settle<S: SystemCalls>(
    system: &mut S,
    alloc: Global,
    opened: &mut Appending,
    name: &str,
) -> Result<(), Failed>
    ensures settled { OnOk result (IsSettled name.now (file_raw_fd opened.old.file) opened.old.seen.file opened.old.is_new
        (S.made system.old) (S.made system.new)) }
    ensures open { OnOk result (opened.new ≡ record opened.old { is_new = false }) }
{
    if !system.synced(&opened.file) {
        return Err(Failed);
    }
    if opened.is_new {
        sync_name(system, alloc, name)?;
        opened.is_new = false;
    }
    must_mean(system, name, opened.seen.file)
}

// Adds a prefix of a piece to the end of the open file of this name.
pub(crate) fn append_to<S: SystemCalls>(
    system: &mut S,
    alloc: Global,
    opened: &mut Appending,
    name: &str,
    piece: &[u8],
) -> Result<usize, Failed>
    ensures within { IfOk result (λ n. n ≤ length piece.now) }
    ensures written { IfOk result (λ n. IsWritten name.now (file_raw_fd opened.old.file) opened.old.seen.file opened.old.is_regular
        opened.old.is_new (take n piece.now) (S.made system.old) (S.made system.new)) }
    ensures open { OnOk result ((opened.new.file ≡ opened.old.file) × (opened.new.seen ≡ opened.old.seen)
        × (opened.new.is_regular ≡ opened.old.is_regular) × (IsTrue opened.old.is_regular → opened.new.is_new ≡ false)) }
{
    let written = system.wrote(&opened.file, piece)?;
    if opened.is_regular {
        settle(system, alloc, opened, name)?;
    }
    Ok(written)
}
