// From the name of a file to the value that its bytes state.
ghost use Rattle.std.specs.Prelude.{◌≡◌, ◌⊎◌, ◌≤◌, ◌<◌, ◌^◌, ℕ, List, Err, length, IfOk, IfErr, IsTrue};
ghost use Rattle.cca_cli.specs.Reading.{InputStops, IsRead, IsStop, OnlyLoads};
ghost use Rattle.cca_cli.specs.declared.status.FileKind.{FileKind};
ghost use Rattle.cca_cli.specs.declared.status.Status.{Status};
ghost use Rattle.cca_cli.specs.declared.status.Status.TheVariants.{Memory};

use crate::stops::status_of_read;
use crate::{FileKind, Status};
use cca_base::{Files, read_all};
use std::alloc::Global;

/// A kind of input: which part it plays, how many bytes it may have, and what its bytes state.
pub trait Input {
    /// What its bytes state.
    type Value: Drop;

    /// The part that it plays.
    ghost part: { Self → FileKind };

    /// The most bytes that it may have.
    ghost room: { Self → ℕ };

    /// The bytes state this value.
    ghost states: { Self → List ℕ → Self.Value → Type 0 };

    /// The bytes stop a run with this status.
    ghost halts: { Self → List ℕ → Status → Type 0 };

    /// The part that it plays.
    fn kind(&self) -> FileKind
        ensures { result ≡ part self.now };

    /// The most bytes that it may have.
    fn most(&self) -> u64
        ensures most { result ≡ room self.now }
        ensures small { result < 2 ^ 40 };

    /// The value that the bytes state.
    ///
    /// # Errors
    ///
    /// The status with which the bytes stop a run, or Memory.
    fn read(&self, alloc: Global, bytes: &[u8]) -> Result<Self::Value, Status>
        ensures value { IfOk result (states self.now bytes.now) }
        ensures stop { IfErr result (λ s. (s ≡ Memory) ⊎ (IsStop s × halts self.now bytes.now s)) };
}

/// The value of the input that is the file of this known name.
///
/// # Errors
///
/// ReadFault of the input's kind, only if a load of the file failed in this call, and never if a room is reported for the name;
/// Limit of bytes, where the file has more than the input may have, and else the status at which its bytes stop a run; Memory.
pub fn read_input<F: Files, I: Input>(
    alloc: Global,
    files: &mut F,
    name: &str,
    what: &I,
) -> Result<I::Value, Status>
    requires { IsTrue ((F.folder files.old).knows name.now) }
    ensures value { IfOk result
        (IsRead (I.room what.now) (I.states what.now) name.now (F.folder files.old) (F.folder files.new)) }
    ensures stop { IfErr result
        (InputStops (I.part what.now) (I.room what.now) (I.halts what.now) name.now (F.folder files.old)
        (F.folder files.new)) }
    // Memory isn't the answer to a load that failed.
    ensures memory { result ≡ Err Memory → (F.folder files.new).load_faults ≡ (F.folder files.old).load_faults }
    ensures loads { OnlyLoads name.now (F.folder files.old) (F.folder files.new) }
{
    match read_all(alloc, files, name, what.most()) {
        Ok(bytes) => what.read(alloc, &bytes),
        Err(stop) => Err(status_of_read(what.kind(), what.most(), stop)),
    }
}
