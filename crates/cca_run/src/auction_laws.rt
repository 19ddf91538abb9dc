// What is true for the output of `auction`.
ghost use Rattle.std.specs.Prelude.{◌≡◌, ◌≤◌, ℕ, List, Option, length};
ghost use Rattle.limits.specs.declared.TheConstants.{AWARD_BYTES, LOG_BYTES};
ghost use Rattle.big_auction.specs.AwardText.{made_award_text};
ghost use Rattle.big_auction.specs.LogText.{log_text};
ghost use Rattle.big_auction.specs.MadeAward.{made_terms};
ghost use Rattle.big_auction.specs.MadeLog.{made_log};
ghost use Rattle.cca_cli.specs.Command.{auction};
ghost use Rattle.cca_cli.specs.Outcome.{Outcome};
ghost use Rattle.cca_commands.specs.Gives.{FilesGive};
ghost use Rattle.cca_run.specs.Headline.{CanBeAwarded, IsAuction};
ghost use Rattle.cca_run.specs.Made.{HoldMade};

use big_auction::{answered_log, few_winners, stated_award, stated_log};
use cca_commands::{one_reading, one_text};

/// The bytes of an award and of its log give at most one outcome of an auction: with the status and what is printed, the text of its book
/// too is one.
pub fn one_auction()
    ensures { (award log book : List ℕ) (file : List ℕ → Option (List ℕ)) (o p : Outcome)
        → FilesGive (auction award log book) file o → FilesGive (auction award log book) file p → o ≡ p }
{
    one_reading();
    one_text();
}

/// What the headline asks of an auction is met by each that `make` makes: its files state an auction, and if neither is longer than a file
/// may be, it can be awarded.
pub fn made_auction()
    ensures auction { (number : ℕ) (file : List ℕ → Option (List ℕ)) (award log : List ℕ) → HoldMade number file award log
        → IsAuction file award log made_terms (made_log number) }
    ensures awarded { (number : ℕ) (file : List ℕ → Option (List ℕ)) (award log : List ℕ) → HoldMade number file award log
        → length made_award_text ≤ AWARD_BYTES → length (log_text (made_log number)) ≤ LOG_BYTES
        → CanBeAwarded file award log }
{
    stated_award();
    stated_log();
    answered_log();
    few_winners();
}
