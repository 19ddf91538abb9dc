// Writes to standard output as calls of the system.
ghost use Rattle.std.specs.Prelude.{◌≡◌, ◌≤◌, ◌<◌, ◌∷◌, [], List, length, take, drop, map, string_bytes, true, false, Bool, IfOk, IsErr, IsTrue, OnErr};
ghost use Rattle.std.specs.Vec.Iter.{into_iter_items};
ghost use Rattle.cca_base.specs.Barred.{AreOthers, IsAsked, IsFree, IsFreeOfSome};
ghost use Rattle.cca_base.specs.Given.{Given};

use crate::Failed;
use crate::sink::taken;
use crate::system::calls::System;
use crate::system::met::FileIdentity;
use crate::system::system_calls::SystemCalls;
use crate::system::system_files::output_file;
use crate::trace::{Call, Trace};
use std::alloc::Allocator;
use std::env::Args;
use std::fs::File;
use std::{io, rt};

/// Writes to standard output, as the system takes them.
pub(crate) trait OutputCalls: Drop {
    /// The writes that returned, the last one first.
    ghost took: { Self → List Given };

    /// Whether nothing may be printed.
    ghost is_barred: { Self → Bool };

    /// Writes a prefix of the piece.
    ///
    /// # Errors
    ///
    /// `Failed`, if the system fails, or takes nothing of a piece that isn't empty, or if the output goes to a file that the
    /// arguments name.
    fn put(&mut self, piece: &[u8]) -> Result<usize, Failed>
        ensures some { IfOk result (λ n. (n ≤ length piece.now) × (0 < length piece.now → 0 < n)) }
        ensures took { IfOk result (λ n. took self.new
            ≡ record { name = []; at = 0; room = length piece.now; bytes = take n piece.now } ∷ took self.old) }
        ensures took_none { OnErr result (took self.new ≡ took self.old) }
        ensures barred { IsTrue (is_barred self.old) → IsErr result }
        ensures same { is_barred self.new ≡ is_barred self.old };
}

/// The system's own standard output.
#[derive(Drop)]
pub(crate) struct SystemOutput<R: Drop> {
    system: System<R>,
    // Whether it goes to a regular file that the arguments name. Nothing is printed into such a file.
    is_barred: bool,
    took: Trace,
}

// Whether the name means this file now.
fn means<S: SystemCalls>(system: &mut S, name: &str, file: FileIdentity) -> bool
    ensures { IsAsked name.now file result (S.made system.old) (S.made system.new) }
{
    match system.told(name) {
        Ok(told) => told.file == file,
        Err(_) => false,
    }
}

// The arguments after the command's name.
fn after_command<A: Allocator>(mut words: Args<A>) -> Args<A>
    ensures { into_iter_items result ≡ drop 2 (into_iter_items words) }
{
    let _program = words.next();
    let _command = words.next();
    words
}

// Whether one of the arguments means this file.
fn is_among<S: SystemCalls, A: Allocator>(
    system: &mut S,
    words: Args<A>,
    file: FileIdentity,
) -> bool
    ensures { result ≡ false → AreOthers file (map string_bytes (into_iter_items words)) (S.made system.old) (S.made system.new) }
{
    for word in words {
        if means(system, word.as_str(), file) {
            return true;
        }
    }
    false
}

// Whether the output goes to a regular file that an argument after the command's name means, or the arguments are unavailable.
// The line of a fault must not go into a file that isn't opened yet either.
fn is_barred<S: SystemCalls, A: Allocator>(system: &mut S, words: io::Result<Args<A>>) -> bool
    ensures known { IfOk words (λ all. result ≡ false → IsFree (drop 2 (map string_bytes (into_iter_items all))) true
        (S.made system.old) (S.made system.new)) }
    ensures unknown { OnErr words (result ≡ false → IsFree [] false (S.made system.old) (S.made system.new)) }
{
    match output_file(system) {
        Some(file) => match words {
            Ok(words) => is_among(system, after_command(words), file),
            Err(_) => true,
        },
        None => false,
    }
}

impl<R: rt::Files<File = File> + rt::Env + Alloc + Drop> SystemOutput<R> {
    /// The standard output of this runtime, before any call.
    pub(crate) fn new(rt: R) -> Self
        ensures empty { result.took.calls ≡ [] }
        ensures free { result.is_barred ≡ false → IsFreeOfSome [] result.system.events.made }
    {
        let mut system = System::new(rt);
        let words = system.words();
        SystemOutput {
            is_barred: is_barred(&mut system, words),
            system,
            took: Trace::new(),
        }
    }
}

impl<R: Print + Drop> OutputCalls for SystemOutput<R> {
    ghost took = { λ s. s.took.calls };

    ghost is_barred = { λ s. s.is_barred };

    fn put(&mut self, piece: &[u8]) -> Result<usize, Failed> {
        if self.is_barred {
            return Err(Failed);
        }
        let n = taken(self.system.put(piece), piece.len())?;
        self.took = self.took.with(&Call {
            name: "",
            at: 0,
            room: piece.len(),
            bytes: &piece[..n],
        });
        Ok(n)
    }
}
