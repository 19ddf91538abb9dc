// What a book says, and a book of three lots with its text.
ghost use Rattle.std.specs.Prelude.{◌≡◌, ◌∷◌, [], IfOk};
ghost use Rattle.bid_book.specs.Lists.{bid_of};

use crate::samples::book_of;
use bid_book::{BidBook, BidList, BidderBids, Bidders, Name, Reserves, write_book};
use lots::{Bid, LotStop, Package, Supply};
use std::alloc::{AllocError, Global};
use std::process::Abort;
use std::test::Fail;

#[test]
fn tells_what_a_book_holds(rt: HostRuntime) {
    let text =
        "book 1\nsupply 2 1\nreserve 5 3\nbidder east\nbid 0 1 9\nbid 2 0 14\nbidder west_2\nend\n";
    let book = book_of(&rt, rt.alloc(), text);
    is_small_sale(&rt, &book);
    has_two_bids(&rt, &book);
}

/// Asserts what is sold, and to whom.
fn is_small_sale(rt: &impl Abort, book: &BidBook) {
    assert!(rt; book.supply().counts() == [2, 1].as_slice());
    assert!(rt; book.reserves() == [5, 3].as_slice());
    assert_eq!(rt; book.bidders(), 2);
    assert_eq!(rt; book.name(1), "east");
    assert_eq!(rt; book.name(2), "west_2");
}

/// Asserts the bids of the first of two bidders; the second has none.
fn has_two_bids(rt: &impl Abort, book: &BidBook) {
    assert_eq!(rt; book.bidders(), 2);
    assert_eq!(rt; book.bids(2), 0);
    assert_eq!(rt; book.bids(1), 2);
    assert_eq!(rt; book.bid(1, 2).amount, 14);
    assert!(rt; book.bid(1, 2).package.counts() == [2, 0].as_slice());
    assert_eq!(rt; book.net(1, 1), 6);
    assert_eq!(rt; book.net(1, 2), 4);
}

#[test]
fn keeps_the_text_of_a_name(rt: HostRuntime) -> Result<(), Fail> {
    let name = Name::new(rt.alloc(), "east")?;
    assert_eq!(rt; name.text(), "east");
    Ok(())
}

// The bid of that many lots of one category.
fn bid(alloc: Global, count: u16, amount: u64) -> Result<Bid, LotStop>
    ensures { IfOk result (λ b. bid_of b ≡ record { lots = count ∷ []; amount = amount }) }
{
    let package = Package::new(alloc, &[count])?;
    Ok(Bid { package, amount })
}

// The bids of east: 20 for one lot and 44 for three.
fn bids_of_east(alloc: Global) -> Result<BidList, LotStop>
    ensures { IfOk result
        (λ list. list ≡ record { lots = 1 ∷ []; amount = 20 } ∷ record { lots = 3 ∷ []; amount = 44 } ∷ []) }
{
    let mut bids = BidList::new(alloc);
    bids.push(bid(alloc, 1, 20)?)?;
    bids.push(bid(alloc, 3, 44)?)?;
    Ok(bids)
}

// The only bid of west: 24 for two lots.
fn bids_of_west(alloc: Global) -> Result<BidList, LotStop>
    ensures { IfOk result (λ list. list ≡ record { lots = 2 ∷ []; amount = 24 } ∷ []) }
{
    let mut bids = BidList::new(alloc);
    bids.push(bid(alloc, 2, 24)?)?;
    Ok(bids)
}

// The book of three lots of one category at a reserve of 10, with the bids of east and west.
fn small_book(alloc: Global) -> Result<BidBook, LotStop> {
    let supply = Supply::new(alloc, &[3])?;
    let mut reserves = Reserves::new(alloc);
    reserves.push(10)?;
    let mut bidders = Bidders::new(alloc);
    bidders.push(BidderBids {
        name: Name::new(alloc, "east")?,
        bids: bids_of_east(alloc)?,
    })?;
    bidders.push(BidderBids {
        name: Name::new(alloc, "west")?,
        bids: bids_of_west(alloc)?,
    })?;
    let book = BidBook::from_lists(alloc, supply, reserves, bidders)?;
    Ok(book)
}

/// Asserts the text of a book.
fn is_written(
    rt: &impl Abort,
    alloc: Global,
    book: &BidBook,
    lines: &str,
) -> Result<(), AllocError> {
    let text = write_book(alloc, book)?;
    assert_eq!(rt; text.items(), lines.as_bytes());
    Ok(())
}

#[test]
fn writes_a_book_of_lists_and_reads_it_back(rt: HostRuntime) -> Result<(), LotStop> {
    let book = small_book(rt.alloc())?;
    let lines =
        "book 1\nsupply 3\nreserve 10\nbidder east\nbid 1 20\nbid 3 44\nbidder west\nbid 2 24\nend\n";
    assert_eq!(rt; lines.len(), 82);
    is_written(&rt, rt.alloc(), &book, lines)?;
    let again = book_of(&rt, rt.alloc(), lines);
    is_written(&rt, rt.alloc(), &again, lines)?;
    Ok(())
}
