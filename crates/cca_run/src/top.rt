// The top call.
ghost use Rattle.std.specs.Prelude.{◌++◌, codes, take, ◌≡◌, ◌⊎◌, ◌≤◌, ◌<◌, ◌∷◌, ℕ, List, [], length, map, string_bytes, All, Bool, IfOk, IsTrue, Option, Some, None};
ghost use Rattle.auction_rules.specs.Terms.{Terms};
ghost use Rattle.auction_rules.specs.declared.Event.{Event};
ghost use Rattle.cca_base.specs.Files.{Agrees, KeepsFiles};
ghost use Rattle.cca_base.specs.Sink.{Puts};
ghost use Rattle.cca_cli.specs.Command.{audit, award, check, command_of, place, place_check, price, review, weigh, weigh_check};
ghost use Rattle.cca_cli.specs.Outcome.{Outcome};
ghost use Rattle.cca_cli.specs.StatusLine.{status_line};
ghost use Rattle.cca_cli.specs.Statuses.{IsDecided, IsHindered, KeepsAll};
ghost use Rattle.cca_cli.specs.Words.{KnowsFiles, command_value};
ghost use Rattle.cca_cli.specs.declared.price_form.PriceForm.{PriceForm};
ghost use Rattle.cca_cli.specs.declared.status.FileKind.{FileKind};
ghost use Rattle.cca_cli.specs.declared.status.Status.{Status};
ghost use Rattle.cca_commands.specs.Gives.{FilesGive, Gives, cert_file};
ghost use Rattle.cca_run.specs.Headline.{CanBeAwarded, IsAuction, IsAudited, IsAwarded, IsDoneOrLimited};
ghost use Rattle.cca_run.specs.Later.{HoldsCert, HoldsNothing, after};
ghost use Rattle.cca_run.specs.Rooms.{HasRooms};
ghost use Rattle.cca_run.specs.Runs.{Runs};
ghost use Rattle.cca_run.specs.Verdicts.{IsChecked, IsPlaceChecked, IsPlaced, IsPriced, IsReviewed, IsWeighChecked, IsWeighed};
ghost use Rattle.cca_commands.specs.ReadFaults.{CountsAmong, Loaded};
ghost use Rattle.cca_run.specs.Run.{Appended, AppendsAll, Changes, HasNoFault, IsDue, IsReadFault, IsWriteFault, inputs, outputs};
ghost use Rattle.cca_commands.specs.Works.{AreOutputs};
ghost use Rattle.cca_run.specs.Ends.{CommandEnds, FinishEnds, RunEnds};

use crate::append::append_all;
use crate::laws::{
    awarded_cert_passes, complete_log_ends, complete_log_is_awarded, headline, verdicts,
};
use crate::print::{print, print_stop};
use crate::{FileKind, Status};
use cca_base::{Files, Sink};
use cca_commands::{Command, Stop, Work, line_of, read_command, work_out};
use std::alloc::Global;

// Appends what is to be appended, and then prints.
fn finish<F: Files, O: Sink>(
    files: &mut F,
    out: &mut O,
    command: Command<'_>,
    work: &Work,
) -> Status
    requires known { KnowsFiles (F.folder files.old) (command_value command) }
    requires outputs { AreOutputs (command_value command) work.now.appended.items }
    ensures { FinishEnds (command_value command.entry) (F.folder files.old) (F.folder files.new) (O.output out.old)
        (O.output out.new) work.now.printed work.now.appended.items result }
{
    match append_all(files, command, work.appended.as_slice()) {
        Ok(()) => print(out, b"", work.printed.items(), Status::Done),
        Err(file) => {
            let status = Status::WriteFault { file };
            print(out, b"", line_of(status).as_slice(), status)
        }
    }
}

// Ends a command by its work, or by why it has none. It takes no memory.
fn end_command<F: Files, O: Sink>(
    files: &mut F,
    out: &mut O,
    command: Command<'_>,
    worked: &Result<Work, Stop>,
) -> Status
    requires known { KnowsFiles (F.folder files.old) (command_value command) }
    requires outputs { IfOk worked.now (λ work. AreOutputs (command_value command) work.appended.items) }
    ensures ends { CommandEnds (command_value command.entry) (F.folder files.old) (F.folder files.new)
        (O.output out.old) (O.output out.new) worked.now result }
    ensures faults { (O.output out.old).faults ≤ (O.output out.new).faults }
{
    match worked {
        Ok(work) => finish(files, out, command, work),
        Err(stop) => print_stop(out, stop),
    }
}

// Reports arguments that aren't of the plain form.
fn tell_words<F: Files, O: Sink>(files: &F, out: &mut O) -> Status
    ensures ends { RunEnds None (F.folder files.now) (F.folder files.now) (O.output out.old) (O.output out.new) result }
    ensures words { (result ≡ Status.Words) ⊎ (result ≡ Status.WriteFault FileKind.Out) }
    ensures faults { (O.output out.old).faults ≤ (O.output out.new).faults }
{
    print(out, b"", line_of(Status::Words).as_slice(), Status::Words)
}

// Runs the command of the arguments.
fn ran<F: Files, O: Sink>(alloc: Global, words: &[String], files: &mut F, out: &mut O) -> Status
    requires { All (λ w. IsTrue ((F.folder files.old).knows w)) (map string_bytes words.now) }
    ensures { Runs (map string_bytes words.now) (F.folder files.old) (F.folder files.new) (O.output out.old) (O.output out.new) result }
{
    headline();
    complete_log_ends();
    complete_log_is_awarded();
    awarded_cert_passes();
    verdicts();
    match read_command(words) {
        Some(command) => {
            let worked = work_out(alloc, files, command);
            end_command(files, out, command, &worked)
        }
        None => tell_words(files, out),
    }
}

/// Runs the command that the arguments after the program's name state.
///
/// `win BOOK` prints the winners of a book and their net value. `price BOOK CERT` prices the book, appends the certificate to
/// CERT and prints what the winners bid, their Vickrey prices and what they pay; with `--rounds` after the files it first
/// prints a line for each turn of pricing, and with `--json` all is one line of JSON. `check BOOK CERT` tests a certificate of
/// the book, regardless of who wrote it, and prints `yes` and the outcome that it shows, or the first test that fails with its
/// place. Acceptance is sound: the choice is the winning one, and the payments are the core outcome.
///
/// `weigh BOOK WEIGHTS CERT` prices as `price` does, with the same flags, except for the distance from the Vickrey prices: each
/// square is divided by the bidder's weight in WEIGHTS. `weigh-check BOOK WEIGHTS CERT` tests a certificate as `check` does, by
/// these weights. If it accepts, the payments are the core outcome for them.
///
/// `auction AWARD LOG BOOK` replays the log of an auction, appends the text of its book to BOOK and prints a line for the reply
/// to each record. If a close is refused for a limit, or the log isn't complete, it writes no book and prints the line of the
/// status last. `award AWARD LOG CERT` prices the book of the log as `price` does, with the same flags, and `audit AWARD LOG
/// CERT` makes the book from the log and tests the certificate as `check` does. If `auction` would write no book, both end with
/// its status and its lines.
///
/// `make NUMBER AWARD LOG` makes the auction of a number, appends its award to AWARD and then its log to LOG, and prints a line with the
/// number, how many bidders there are and how many lines the log has.
///
/// All is computed before anything is written, and files are appended before anything is printed. Except for that, a status
/// other than Done prints only its line. A fault of the output is WriteFault of Out, whatever came before. Arguments that
/// aren't of the plain form are reported without taking memory. The condition is that `files` knows each argument.
pub fn run<F: Files, O: Sink>(alloc: Global, words: &[String], files: &mut F, out: &mut O) -> Status
    requires { All (λ w. IsTrue ((F.folder files.old).knows w)) (map string_bytes words.now) }

    // Only the arguments decide on Words.
    ensures words { result ≡ Status.Words → command_of (map string_bytes words.now) ≡ None }
    ensures not_plain { command_of (map string_bytes words.now) ≡ None
        → (result ≡ Status.Words) ⊎ (result ≡ Status.WriteFault FileKind.Out) }

    // The headline: whenever `audit` says yes, the book of the log contains exactly the bids that the activity rules admit, the
    // winners are the first feasible choice of greatest net value, no coalition blocks the prices, their sum is least in the
    // core, and every other core point of this sum is farther from the Vickrey point. `award` appends a certificate of such an
    // outcome.
    ensures audit { (terms log cert : List ℕ) → command_of (map string_bytes words.now) ≡ Some (audit terms log cert)
        → (given : List ℕ → Option (List ℕ)) → Agrees given (F.folder files.old) (F.folder files.new)
        → result ≡ Status.Done
        → (text : List ℕ) × IsAudited given terms log cert text
        × Puts (O.output out.old) (O.output out.new) text (length text) }
    // This is true for every status if the printed text begins with `yes`.
    ensures seen { (terms log cert : List ℕ) → command_of (map string_bytes words.now) ≡ Some (audit terms log cert)
        → (given : List ℕ → Option (List ℕ)) → Agrees given (F.folder files.old) (F.folder files.new)
        → (more : List ℕ) → (O.output out.new).bytes ≡ (O.output out.old).bytes ++ (codes "yes" ++ more)
        → (text : List ℕ) × IsAudited given terms log cert text
        × ((n : ℕ) × (codes "yes" ++ more ≡ take n text)) }
    ensures award { (terms log cert : List ℕ) (form : PriceForm)
        → command_of (map string_bytes words.now) ≡ Some (award terms log cert form)
        → (given : List ℕ → Option (List ℕ)) → Agrees given (F.folder files.old) (F.folder files.new)
        → result ≡ Status.Done → (text : List ℕ) × IsAwarded given terms log text
        × AppendsAll (award terms log cert form) (cert_file text ∷ []) (F.folder files.old) (F.folder files.new) }

    // What the other checkers accept is right too, and what the commands that price append has been tested. So are the winners of a review.
    ensures checked { (book cert : List ℕ) → command_of (map string_bytes words.now) ≡ Some (check book cert)
        → (given : List ℕ → Option (List ℕ)) → Agrees given (F.folder files.old) (F.folder files.new)
        → result ≡ Status.Done → (text : List ℕ) × IsChecked given book cert text × Puts (O.output out.old) (O.output out.new) text (length text) }
    ensures check_seen { (book cert : List ℕ) → command_of (map string_bytes words.now) ≡ Some (check book cert)
        → (given : List ℕ → Option (List ℕ)) → Agrees given (F.folder files.old) (F.folder files.new)
        → (more : List ℕ) → (O.output out.new).bytes ≡ (O.output out.old).bytes ++ (codes "yes" ++ more)
        → (text : List ℕ) × IsChecked given book cert text × ((n : ℕ) × (codes "yes" ++ more ≡ take n text)) }
    ensures weigh_checked { (book weights cert : List ℕ) → command_of (map string_bytes words.now) ≡ Some (weigh_check book weights cert)
        → (given : List ℕ → Option (List ℕ)) → Agrees given (F.folder files.old) (F.folder files.new)
        → result ≡ Status.Done → (text : List ℕ) × IsWeighChecked given book weights cert text × Puts (O.output out.old) (O.output out.new) text (length text) }
    ensures weigh_check_seen { (book weights cert : List ℕ) → command_of (map string_bytes words.now) ≡ Some (weigh_check book weights cert)
        → (given : List ℕ → Option (List ℕ)) → Agrees given (F.folder files.old) (F.folder files.new)
        → (more : List ℕ) → (O.output out.new).bytes ≡ (O.output out.old).bytes ++ (codes "yes" ++ more)
        → (text : List ℕ) × IsWeighChecked given book weights cert text × ((n : ℕ) × (codes "yes" ++ more ≡ take n text)) }
    ensures place_checked { (slots cert : List ℕ) → command_of (map string_bytes words.now) ≡ Some (place_check slots cert)
        → (given : List ℕ → Option (List ℕ)) → Agrees given (F.folder files.old) (F.folder files.new)
        → result ≡ Status.Done → (text : List ℕ) × IsPlaceChecked given slots cert text × Puts (O.output out.old) (O.output out.new) text (length text) }
    ensures place_check_seen { (slots cert : List ℕ) → command_of (map string_bytes words.now) ≡ Some (place_check slots cert)
        → (given : List ℕ → Option (List ℕ)) → Agrees given (F.folder files.old) (F.folder files.new)
        → (more : List ℕ) → (O.output out.new).bytes ≡ (O.output out.old).bytes ++ (codes "yes" ++ more)
        → (text : List ℕ) × IsPlaceChecked given slots cert text × ((n : ℕ) × (codes "yes" ++ more ≡ take n text)) }
    ensures priced { (book cert : List ℕ) (form : PriceForm) → command_of (map string_bytes words.now) ≡ Some (price book cert form)
        → (given : List ℕ → Option (List ℕ)) → Agrees given (F.folder files.old) (F.folder files.new)
        → result ≡ Status.Done → (text : List ℕ) × IsPriced given book text
        × AppendsAll (price book cert form) (cert_file text ∷ []) (F.folder files.old) (F.folder files.new) }
    ensures weighed { (book weights cert : List ℕ) (form : PriceForm) → command_of (map string_bytes words.now) ≡ Some (weigh book weights cert form)
        → (given : List ℕ → Option (List ℕ)) → Agrees given (F.folder files.old) (F.folder files.new)
        → result ≡ Status.Done → (text : List ℕ) × IsWeighed given book weights text
        × AppendsAll (weigh book weights cert form) (cert_file text ∷ []) (F.folder files.old) (F.folder files.new) }
    ensures placed { (slots cert : List ℕ) (rounds : Bool) → command_of (map string_bytes words.now) ≡ Some (place slots cert rounds)
        → (given : List ℕ → Option (List ℕ)) → Agrees given (F.folder files.old) (F.folder files.new)
        → result ≡ Status.Done → (text : List ℕ) × IsPlaced given slots text
        × AppendsAll (place slots cert rounds) (cert_file text ∷ []) (F.folder files.old) (F.folder files.new) }
    ensures reviewed { (book edits : List ℕ) → command_of (map string_bytes words.now) ≡ Some (review book edits)
        → (given : List ℕ → Option (List ℕ)) → Agrees given (F.folder files.old) (F.folder files.new)
        → result ≡ Status.Done → (text : List ℕ) × IsReviewed given book edits text
        × Puts (O.output out.old) (O.output out.new) text (length text) }

    // For every complete log `award` is done, with such a certificate, or stopped by a limit, except after a counted fault or
    // when out of memory.
    ensures every_log { (terms log cert : List ℕ) (form : PriceForm)
        → command_of (map string_bytes words.now) ≡ Some (award terms log cert form)
        → (given : List ℕ → Option (List ℕ)) → Agrees given (F.folder files.old) (F.folder files.new)
        → (t : Terms) (lines : List Event) → IsAuction given terms log t lines
        → HasNoFault (command_of (map string_bytes words.now)) (F.folder files.old) (F.folder files.new)
        (O.output out.old) (O.output out.new) → IsDoneOrLimited result ⊎ (result ≡ Status.Memory) }

    // Its other half: `award` writes such a certificate for every auction within the limits, and `audit` accepts over the same
    // bytes, if the certificate's file was empty before, except after a counted fault or when out of memory.
    ensures awarded { (terms log cert : List ℕ) (form : PriceForm)
        → command_of (map string_bytes words.now) ≡ Some (award terms log cert form)
        → (given : List ℕ → Option (List ℕ)) → Agrees given (F.folder files.old) (F.folder files.new)
        → CanBeAwarded given terms log
        → HasNoFault (command_of (map string_bytes words.now)) (F.folder files.old) (F.folder files.new)
        (O.output out.old) (O.output out.new)
        → (result ≡ Status.Done) ⊎ (result ≡ Status.Memory) }
    ensures accepted { (terms log cert : List ℕ) (form : PriceForm) (before : List ℕ → Option (List ℕ)) (o : Outcome)
        → command_of (map string_bytes words.now) ≡ Some (audit terms log cert)
        → (given : List ℕ → Option (List ℕ)) → Agrees given (F.folder files.old) (F.folder files.new)
        → FilesGive (award terms log cert form) before o
        → HoldsCert (terms ∷ log ∷ []) cert before given o
        → HasNoFault (command_of (map string_bytes words.now)) (F.folder files.old) (F.folder files.new)
        (O.output out.old) (O.output out.new) → (result ≡ Status.Done) ⊎ (result ≡ Status.Memory) }
    ensures hands_on { (terms log cert : List ℕ) (form : PriceForm)
        → command_of (map string_bytes words.now) ≡ Some (award terms log cert form)
        → (given : List ℕ → Option (List ℕ)) → Agrees given (F.folder files.old) (F.folder files.new)
        → result ≡ Status.Done → HoldsNothing (given cert)
        → (o : Outcome) × FilesGive (award terms log cert form) given o
        × HoldsCert (terms ∷ log ∷ []) cert given (after given (F.folder files.old) (F.folder files.new)) o }
    ensures handed_on { (terms log cert : List ℕ) (form : PriceForm)
        → command_of (map string_bytes words.now) ≡ Some (award terms log cert form) → IsTrue (F.folder files.old).told
        → result ≡ Status.Done → HoldsNothing ((F.folder files.old).file cert)
        → (o : Outcome) × FilesGive (award terms log cert form) (F.folder files.old).file o
        × HoldsCert (terms ∷ log ∷ []) cert (F.folder files.old).file (F.folder files.new).file o }

    // If no fault was counted, the status is one that the arguments and the bytes decide, or out of memory.
    ensures complete { HasNoFault (command_of (map string_bytes words.now)) (F.folder files.old) (F.folder files.new)
        (O.output out.old) (O.output out.new) → (result ≡ Status.Memory) ⊎ IsDecided result }

    // This is true for files and an output with room for all that the arguments and the bytes ask for.
    ensures roomy { IsTrue (F.folder files.old).told
        → HasRooms (map string_bytes words.now) (F.folder files.old) (O.output out.old)
        → (result ≡ Status.Memory) ⊎ IsDecided result }

    // A fault has its cause, and all that comes before it passed.
    ensures read_fault { (kind : FileKind) → result ≡ Status.ReadFault kind
        → IsReadFault (command_of (map string_bytes words.now)) (F.folder files.old) (F.folder files.new) kind }
    ensures write_fault { (kind : FileKind) → result ≡ Status.WriteFault kind
        → IsWriteFault (command_of (map string_bytes words.now)) (F.folder files.old) (F.folder files.new)
        (O.output out.old) (O.output out.new) kind }

    // Some content of the files agrees with all that the loads of this call gave, whatever the files are: none is loaded twice.
    ensures given { (given : List ℕ → Option (List ℕ)) × Agrees given (F.folder files.old) (F.folder files.new) }

    // Only the files that the command reads are loaded, one after the other, each once.
    ensures loaded { Loaded (inputs (command_of (map string_bytes words.now))) (F.folder files.old) (F.folder files.new) }

    // If the bytes are reported, they come from the loads of this call.
    ensures told { IsTrue (F.folder files.old).told
        → Agrees (F.folder files.old).file (F.folder files.old) (F.folder files.new) }

    // Every other status but out of memory is the one that the arguments and the bytes decide. Its text was printed whole, and
    // what it appends was appended whole.
    ensures answer { (given : List ℕ → Option (List ℕ)) → Agrees given (F.folder files.old) (F.folder files.new)
        → IsDecided result → (o : Outcome) × Gives (map string_bytes words.now) given o
        × (o.status ≡ result) × Puts (O.output out.old) (O.output out.new) o.printed (length o.printed)
        × Appended (command_of (map string_bytes words.now)) o.appended (F.folder files.old) (F.folder files.new) }

    // After a fault of a file and out of memory the line of the status was printed; after a fault of the output a prefix, and not all, of
    // the text that was due.
    ensures line { (result ≡ Status.Words) ⊎ IsHindered result
        → Puts (O.output out.old) (O.output out.new) (status_line result) (length (status_line result)) }
    ensures front { result ≡ Status.WriteFault FileKind.Out
        → (text : List ℕ) × (n : ℕ) × (n < length text) × Puts (O.output out.old) (O.output out.new) text n
        × ((given : List ℕ → Option (List ℕ)) → Agrees given (F.folder files.old) (F.folder files.new)
        → IsDue (map string_bytes words.now) given (F.folder files.old) (F.folder files.new) text) }

    // The command's files grow by the prefix of what it appends, one after the other, and only on Done and faults of writing; no other
    // file changes.
    ensures kept { KeepsAll result → KeepsFiles (F.folder files.old) (F.folder files.new) }
    ensures files { Changes (command_of (map string_bytes words.now)) (F.folder files.old) (F.folder files.new) }

    // The files know the same names, so that another run may follow.
    ensures knows { (F.folder files.new).knows ≡ (F.folder files.old).knows }

    // No count falls, and only the counts of files that the command reads and appends to may rise.
    ensures loads { CountsAmong (inputs (command_of (map string_bytes words.now))) (F.folder files.old).load_faults
        (F.folder files.new).load_faults }
    ensures appends { CountsAmong (outputs (command_of (map string_bytes words.now)))
        (F.folder files.old).append_faults (F.folder files.new).append_faults }
    ensures faults { (O.output out.old).faults ≤ (O.output out.new).faults }
{
    ran(alloc, words, files, out)
}
