// Appends of a command's texts.
ghost use Rattle.std.specs.Prelude.{IsSome, [], ◌∷◌};
ghost use Rattle.cca_cli.specs.Command.{output_as};
ghost use Rattle.cca_cli.specs.Words.{KnowsFiles, command_value};
ghost use Rattle.cca_commands.specs.Works.{AreOutputs};
ghost use Rattle.cca_run.specs.Ends.{AppendEnds, OnlyAppends};

use crate::FileKind;
use cca_base::Files;
use cca_commands::{Command, FileText, write_long};

// Appends one text to the command's file of its kind, which the error names.
fn append_text<F: Files>(
    files: &mut F,
    command: Command<'_>,
    text: &FileText,
) -> Result<(), FileKind>
    requires known { KnowsFiles (F.folder files.old) (command_value command) }
    requires output { IsSome (output_as (command_value command) text.now.kind) }
    ensures ends { AppendEnds (command_value command.entry) (text.now ∷ []) (F.folder files.old)
        (F.folder files.new) result }
    ensures counts { OnlyAppends (command_value command.entry) (F.folder files.old) (F.folder files.new) }
    ensures known { KnowsFiles (F.folder files.new) (command_value command.entry) }
{
    let name = command.output(text.kind).unwrap();
    match write_long(files, name, &text.text) {
        Ok(()) => Ok(()),
        Err(_) => Err(text.kind),
    }
}

/// Appends the texts in order, each whole to the command's file of its kind. The error names the kind whose append failed.
pub fn append_all<F: Files>(
    files: &mut F,
    command: Command<'_>,
    texts: &[FileText],
) -> Result<(), FileKind>
    requires known { KnowsFiles (F.folder files.old) (command_value command) }
    requires outputs { AreOutputs (command_value command) texts.now }
    ensures ends { AppendEnds (command_value command.entry) texts.now (F.folder files.old) (F.folder files.new) result }
    ensures counts { OnlyAppends (command_value command.entry) (F.folder files.old) (F.folder files.new) }
{
    match texts {
        [] => Ok(()),
        [first, rest @ ..] => match append_text(files, command, first) {
            Ok(()) => append_all(files, command, rest),
            Err(kind) => Err(kind),
        },
    }
}
