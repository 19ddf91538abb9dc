// Laws of awards.
ghost use Rattle.std.specs.Prelude.{◌≡◌, List, ℕ};
ghost use Rattle.std.specs.List.{AllByRecursion};
ghost use Rattle.book_grammar.specs.BookLines.{IsBookWithinLimits};
ghost use Rattle.auction_rules.specs.declared.Event.{Event};
ghost use Rattle.auction_rules.specs.BookOfLog.{book_of_log};
ghost use Rattle.auction_rules.specs.Lawful.{HasCategories};
ghost use Rattle.auction_rules.specs.Terms.{Terms};
ghost use Rattle.award_file.specs.Award.{IsAward};
ghost use Rattle.award_file.specs.Reading.{reading, stated_terms};

use auction_rules::{bids_of_book, book_in_order, lawful_bids, package_tests};

/// The book of a log on an award keeps all rules and all limits of a book, if the packages of the log have the award's number
/// of categories.
pub fn book_of_award()
    ensures { (terms : Terms) (log : List Event) → IsAward terms → AllByRecursion (HasCategories terms) log
        → IsBookWithinLimits (book_of_log terms log) }
{
    bids_of_book();
    book_in_order();
    lawful_bids();
    package_tests();
}

/// What the bytes of an award file state keeps all rules and limits of an award.
pub fn stated_award()
    ensures { (bytes : List ℕ) (terms : Terms) → reading bytes ≡ stated_terms terms → IsAward terms }
{}
