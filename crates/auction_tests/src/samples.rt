// What several tests share. A test owns few values and lends them to functions that assert: each assert and each `?` next to an
// owned value makes its proof slower.
ghost use Rattle.std.specs.Prelude.{◌≡◌, IfOk};

use award_file::{Award, read_award};
use bid_book::{BidBook, read_book};
use choices::{Choice, Grid, Numbers};
use log_file::{Events, read_log};
use std::alloc::{AllocError, Global};
use std::process::Abort;

/// The example of Day and Cramton (2012): one lot of each of two categories, and five bidders; b1 and b2 win.
pub(crate) const DAY_CRAMTON: &str =
    "book 1\nsupply 1 1\nreserve 0 0\nbidder b1\nbid 1 0 28\nbidder b2\nbid 0 1 20\n\
    bidder b3\nbid 1 1 32\nbidder b4\nbid 1 0 14\nbidder b5\nbid 0 1 12\nend\n";

/// The award of a text.
pub(crate) fn award_of(rt: &impl Abort, alloc: Global, text: &str) -> Award {
    let Ok(award) = read_award(alloc, text.as_bytes()) else {
        panic!(rt; "this is an award");
    };
    award
}

/// The lines of a log of this award.
pub(crate) fn events_of(rt: &impl Abort, alloc: Global, log: &str, award: &Award) -> Events {
    let Ok(events) = read_log(alloc, log.as_bytes(), award) else {
        panic!(rt; "this is a log");
    };
    events
}

/// The book of a text.
pub(crate) fn book_of(rt: &impl Abort, alloc: Global, text: &str) -> BidBook {
    let Ok(book) = read_book(alloc, text.as_bytes()) else {
        panic!(rt; "this is a book");
    };
    book
}

/// Whether a grid has such a line, and with these numbers.
pub(crate) fn is_line(grid: &Grid, line: usize, numbers: &[i128]) -> bool {
    if line >= grid.lines() || numbers.len() != grid.width() {
        return false;
    }
    for place in 0..numbers.len() {
        if grid.entry(line, place) != numbers[place] {
            return false;
        }
    }
    true
}

/// A choice of these numbers.
pub(crate) fn choice_of(alloc: Global, numbers: &[u16]) -> Result<Choice, AllocError>
    ensures { IfOk result (λ choice. choice ≡ numbers.now) }
{
    let mut list = Numbers::new(alloc);
    for number in numbers {
        list.push(*number)?;
    }
    Ok(Choice::new(list))
}
