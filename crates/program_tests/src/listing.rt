// The winning choice against a listing of all choices, and a table without a
// bidder.
use crate::samples::{AT_RESERVE, DAY_CRAMTON, EQUALS, NOBODY, TIE, TWO_GLOBALS};
use bid_book::{BidBook, read_book};
use choices::first_by_listing;
use std::alloc::{AllocError, Global};
use std::process::Abort;
use std::test::Fail;
use value_table::{ValueTable, win};

const TIED_AT_RESERVE: &str =
    "book 1\nsupply 1\nreserve 5\nbidder a\nbid 1 5\nbidder b\nbid 1 5\nend\n";

const SOME_WITHOUT_BIDS: &str =
    "book 1\nsupply 1\nreserve 0\nbidder none\nbidder n1\nbid 1 9\nbidder n2\nbid 1 9\nbidder last\nend\n";

const TWO_CATEGORIES: &str =
    "book 1\nsupply 2 1\nreserve 3 2\nbidder a\nbid 0 1 2\nbid 1 0 3\nbid 1 1 9\nbid 2 0 8\nbidder b\nbidder c\n\
    bid 0 1 6\nbid 1 0 5\nbid 2 1 12\nend\n";

const LAST_WINS_ALL: &str =
    "book 1\nsupply 3\nreserve 1\nbidder a\nbid 1 2\nbid 2 3\nbid 3 5\nbidder b\nbid 1 2\nbid 2 3\nbidder c\nbid 3 6\n\
    end\n";

fn book_of(rt: &impl Abort, alloc: Global, text: &str) -> BidBook {
    let Ok(book) = read_book(alloc, text.as_bytes()) else {
        panic!(rt; "this is a book");
    };
    book
}

// Asserts that these win, and that they are the first of the greatest by a listing.
fn wins_and_is_first(
    rt: &impl Abort,
    alloc: Global,
    book: &BidBook,
    numbers: &[u16],
) -> Result<(), AllocError> {
    let choice = win(alloc, book)?;
    assert_eq!(rt; choice.numbers(), numbers);
    let first = first_by_listing(alloc, book)?;
    assert_eq!(rt; first.numbers(), numbers);
    Ok(())
}

#[test]
fn agrees_with_a_listing(rt: HostRuntime) -> Result<(), Fail> {
    let table: [(&str, &[u16]); 10] = [
        (DAY_CRAMTON, &[1, 1, 0, 0, 0]),
        (NOBODY, &[]),
        (TIE, &[1, 1]),
        (AT_RESERVE, &[1]),
        (TWO_GLOBALS, &[1, 1, 1, 0, 0]),
        (EQUALS, &[1, 0, 0, 0]),
        (TIED_AT_RESERVE, &[1, 0]),
        (SOME_WITHOUT_BIDS, &[0, 1, 0, 0]),
        (TWO_CATEGORIES, &[3, 0, 2]),
        (LAST_WINS_ALL, &[0, 0, 1]),
    ];
    let alloc = rt.alloc();
    for (text, numbers) in table {
        let book = book_of(&rt, alloc, text);
        wins_and_is_first(&rt, alloc, &book, numbers)?;
    }
    Ok(())
}

#[test]
fn leaves_a_bidder_out(rt: HostRuntime) -> Result<(), Fail> {
    let alloc = rt.alloc();
    let book = book_of(&rt, alloc, DAY_CRAMTON);
    leaves_out_the_first(&rt, alloc, &book)?;
    Ok(())
}

// Asserts the table without the first of five bidders, with four states.
fn leaves_out_the_first(rt: &impl Abort, alloc: Global, book: &BidBook) -> Result<(), AllocError> {
    if book.bidders() != 5 || book.supply().states() != 4 {
        panic!(rt; "the book is another");
    }
    let table = ValueTable::build(alloc, book, 1, 1, &[0, 0, 0, 0, 0])?;
    assert_eq!(rt; table.grid().lines(), 6);
    assert_eq!(rt; table.entry(0, 3), 34);
    assert_eq!(rt; table.entry(1, 1), 20);
    let choice = table.trace(alloc, book)?;
    assert_eq!(rt; choice.numbers(), [0, 1, 0, 1, 0].as_slice());
    Ok(())
}
