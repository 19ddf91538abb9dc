// What is printed.
ghost use Rattle.std.specs.Prelude.{◌≤◌, ◌++◌};
ghost use Rattle.cca_cli.specs.StatusLine.{status_line};
ghost use Rattle.cca_run.specs.Run.{Prints};
ghost use Rattle.cca_commands.specs.Works.{text_before};
ghost use Rattle.cca_run.specs.Ends.{Written};

use crate::{FileKind, Status};
use cca_base::{Sink, write_sink};
use cca_commands::{Stop, line_of};

// Writes the text, and says whether all of it was written.
fn put_all<O: Sink>(out: &mut O, text: &[u8]) -> bool
    ensures written { Written (O.output out.old) (O.output out.new) text.now result }
    ensures count { (O.output out.old).faults ≤ (O.output out.new).faults }
{
    match write_sink(out, text) {
        Ok(()) => true,
        Err(_) => false,
    }
}

/// Prints two texts, one after the other, and returns the status.
pub fn print<O: Sink>(out: &mut O, before: &[u8], text: &[u8], status: Status) -> Status
    ensures printed { Prints (O.output out.old) (O.output out.new) (before.now ++ text.now) status result }
    ensures count { (O.output out.old).faults ≤ (O.output out.new).faults }
{
    if put_all(out, before) && put_all(out, text) {
        status
    } else {
        Status::WriteFault {
            file: FileKind::Out,
        }
    }
}

/// Prints the text of a stop and the line of its status, and returns the status.
pub fn print_stop<O: Sink>(out: &mut O, stop: &Stop) -> Status
    ensures printed { Prints (O.output out.old) (O.output out.new)
        (text_before stop.now ++ status_line stop.now.status) stop.now.status result }
    ensures count { (O.output out.old).faults ≤ (O.output out.new).faults }
{
    let line = line_of(stop.status);
    match &stop.before {
        Some(text) => print(out, text.items(), line.as_slice(), stop.status),
        None => print(out, b"", line.as_slice(), stop.status),
    }
}
