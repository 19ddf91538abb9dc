//! The program `cca`: runs the command of its arguments, and ends with the exit code of its status.
#![tactic(auto)]

ghost use Rattle.std.specs.IoError.{error_kind};
ghost use Rattle.std.specs.Prelude.{◌≡◌, ◌≢◌, All, drop, IfErr, IfOk, IsOk, IsTrue, map, string_bytes};
ghost use Rattle.std.specs.Process.{exit_status};
ghost use Rattle.std.specs.Vec.Iter.{into_iter_items};
ghost use Rattle.std.specs.declared.io.ErrorKind.TheVariants.{OutOfMemory};
ghost use Rattle.std.specs.declared.result.Result.TheVariants.{Err};
ghost use Rattle.cca_cli.specs.Code.{code_of};
ghost use Rattle.cca.specs.Ends.{EndsAs};
ghost use Rattle.cca.specs.declared.NoWords.{NoWords};
ghost use Rattle.cca.specs.declared.NoWords.TheVariants.{Memory, NotText};

use cca_base::{Files, RealFiles, RealSink, Sink};
use cca_run::{Status, run};
use std::alloc::{AllocError, Global};
use std::env::Args;
use std::fs::File;
use std::io::ErrorKind;
use std::process::ExitCode;
use std::{env, io, rt};

/// Why there are no arguments to run.
#[derive(Clone, Copy, Debug, PartialEq, Eq)]
enum NoWords {
    /// Out of memory.
    Memory,
    /// An argument isn't UTF-8.
    NotText,
}

impl NoWords {
    /// The exit status: 6 as for the status Memory, and 8, which no status has.
    fn code(self) -> u8
        ensures memory { self ≡ Memory → result ≡ 6 }
        ensures not_text { self ≡ NotText → result ≡ 8 }
    {
        match self {
            NoWords::Memory => 6,
            NoWords::NotText => 8,
        }
    }
}

// Why there are no arguments, if the system's list of them is unavailable.
fn none_by(error: &io::Error) -> NoWords
    ensures memory { error_kind error.now ≡ OutOfMemory → result ≡ Memory }
    ensures not_text { error_kind error.now ≢ OutOfMemory → result ≡ NotText }
{
    match error.kind() {
        ErrorKind::OutOfMemory => NoWords::Memory,
        _ => NoWords::NotText,
    }
}

// The arguments as a list.
fn listed(alloc: Global, all: Args) -> Result<Vec<String>, AllocError>
    ensures { IfOk result (λ list. list.items ≡ into_iter_items all) }
{
    let mut list = Vec::new(alloc);
    for word in all {
        list.push(word)?;
    }
    Ok(list)
}

// All words but the first, which is the program's name.
fn after_name(mut all: Vec<String>) -> Vec<String>
    ensures { result.items ≡ drop 1 all.items }
{
    if !all.is_empty() {
        let _name = all.remove(0);
    }
    all
}

// The arguments after the program's name, from the system's list.
fn words(alloc: Global, given: io::Result<Args>) -> Result<Vec<String>, NoWords>
    ensures words { IfOk given (λ all. IfOk result (λ words. words.items ≡ drop 1 (into_iter_items all))) }
    ensures memory { IfOk given (λ all. IfErr result (λ none. none ≡ Memory)) }
    ensures no_memory { IfErr given (λ error. error_kind error ≡ OutOfMemory → result ≡ Err Memory) }
    ensures not_text { IfErr given (λ error. error_kind error ≢ OutOfMemory → result ≡ Err NotText) }
{
    match given {
        Ok(all) => match listed(alloc, all) {
            Ok(list) => Ok(after_name(list)),
            Err(_) => Err(NoWords::Memory),
        },
        Err(error) => Err(none_by(&error)),
    }
}

/// What a run needs.
#[derive(Drop)]
struct Start<F: Drop> {
    /// The words after the program's name.
    words: Vec<String>,
    /// Files that know these arguments.
    files: F,
}

// The arguments after the program's name, from the system's list, and files of just these names.
fn prepared<R: rt::Files<File = File> + Drop>(
    alloc: Global,
    rt: R,
    given: io::Result<Args>,
) -> Result<Start<RealFiles<R>>, NoWords>
    ensures words { IfOk given (λ all. IfOk result (λ r. r.words.items ≡ drop 1 (into_iter_items all))) }
    ensures known { IfOk result
        (λ r. All (λ w. IsTrue ((⟦<RealFiles<R> as Files>⟧.folder r.files).knows w)) (map string_bytes r.words.items)) }
    ensures memory { IfOk given (λ all. IfErr result (λ none. none ≡ Memory)) }
    ensures no_memory { IfErr given (λ error. error_kind error ≡ OutOfMemory → result ≡ Err Memory) }
    ensures not_text { IfErr given (λ error. error_kind error ≢ OutOfMemory → result ≡ Err NotText) }
{
    match words(alloc, given) {
        Ok(words) => match RealFiles::new(alloc, rt, &words) {
            Ok(files) => Ok(Start { words, files }),
            Err(_) => Err(NoWords::Memory),
        },
        Err(none) => Err(none),
    }
}

// The exit code of a run that ended so.
fn exit_of(status: Status) -> ExitCode
    ensures { exit_status result ≡ code_of status }
{
    ExitCode::from(status.code())
}

// The exit code if there was no run.
fn exit_without(none: NoWords) -> ExitCode
    ensures memory { none ≡ Memory → exit_status result ≡ 6 }
    ensures not_text { none ≡ NotText → exit_status result ≡ 8 }
{
    ExitCode::from(none.code())
}

// Runs the words, and answers the exit code of the status with which the run ended.
fn exit_after<F: Files, O: Sink>(
    alloc: Global,
    words: &[String],
    files: &mut F,
    out: &mut O,
) -> ExitCode
    requires { All (λ w. IsTrue ((F.folder files.old).knows w)) (map string_bytes words.now) }
    ensures { EndsAs (map string_bytes words.now) (F.folder files.old) (F.folder files.new) (O.output out.old)
        (O.output out.new) (exit_status result) }
{
    exit_of(run(alloc, words, files, out))
}

// The program over any files and any output: the exit code of the run, which left these files, or the code of why there was no
// run.
fn ended<F: Files + Drop, O: Sink>(
    alloc: Global,
    start: &mut Result<Start<F>, NoWords>,
    out: &mut O,
) -> ExitCode
    requires { IfOk start.old
        (λ r. All (λ w. IsTrue ((F.folder r.files).knows w)) (map string_bytes r.words.items)) }
    ensures run { IfOk start.old (λ r. IfOk start.new
        (λ q. EndsAs (map string_bytes r.words.items) (F.folder r.files) (F.folder q.files) (O.output out.old)
        (O.output out.new) (exit_status result))) }
    ensures some { IfOk start.old (λ _. IsOk start.new) }
    ensures memory { start.old ≡ Err Memory → exit_status result ≡ 6 }
    ensures not_text { start.old ≡ Err NotText → exit_status result ≡ 8 }
    ensures silent { IfErr start.old (λ _. O.output out.new ≡ O.output out.old) }
    ensures same { IfErr start.old (λ _. start.new ≡ start.old) }
{
    match start {
        Ok(Start { words, files }) => exit_after(alloc, words, files, out),
        Err(none) => exit_without(*none),
    }
}

fn main(rt: HostRuntime) -> ExitCode {
    let mut out = RealSink::new(&rt);
    let mut start = prepared(rt.alloc(), &rt, env::args(&rt));
    ended(rt.alloc(), &mut start, &mut out)
}
