// What is true for each made auction.
ghost use Rattle.std.specs.Prelude.{◌≡◌, ◌≤◌, ℕ, IsTrue, List, reverse, true};
ghost use Rattle.auction_model.specs.Book.{market_of};
ghost use Rattle.auction_rules.specs.BookOfLog.{book_of_log, is_complete};
ghost use Rattle.award_file.specs.Award.{IsAward};
ghost use Rattle.award_file.specs.Reading.{reading, stated_terms};
ghost use Rattle.core_laws.specs.Winners.{winners_in};
ghost use Rattle.log_file.specs.LogReading.{AreLog, log_records};
ghost use Rattle.big_auction.specs.Answered.{AreAnsweredOk};
ghost use Rattle.big_auction.specs.LogText.{log_text};
ghost use Rattle.big_auction.specs.AwardText.{made_award_text};
ghost use Rattle.big_auction.specs.MadeAward.{made_terms};
ghost use Rattle.big_auction.specs.MadeLog.{made_log};

use log_file::written_log;

/// The made award keeps all rules and limits of an award.
pub fn lawful_award()
    ensures { IsAward made_terms }
{}

/// The text of the made award is read as its terms.
pub fn stated_award()
    ensures { reading made_award_text ≡ stated_terms made_terms }
{}

/// The text of the log of any number is read as its lines: each record states the line at its place.
pub fn stated_log()
    ensures { (number : ℕ) → AreLog made_terms (log_records (log_text (made_log number))) (made_log number) }
{
    written_log();
}

/// The reply to each line of the log of any number is Ok, and the log is complete.
pub fn answered_log()
    ensures answered { (number : ℕ) → AreAnsweredOk made_terms (reverse (made_log number)) }
    ensures complete { (number : ℕ) → is_complete made_terms (reverse (made_log number)) ≡ true }
{}

/// No choice that fits the supply of a made auction has more than four winners.
pub fn few_winners()
    ensures { (number : ℕ) (choice : List ℕ)
        → IsTrue ((market_of (book_of_log made_terms (reverse (made_log number)))).allowed choice)
        → winners_in choice ≤ 4 }
{}
