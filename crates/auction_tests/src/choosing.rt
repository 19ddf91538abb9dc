use crate::samples::{book_of, choice_of, is_line};
use bid_book::BidBook;
use choices::{Choice, Grid, Numbers, first_by_listing, known};
use std::alloc::{AllocError, Global};
use std::process::Abort;
use wide_num::NumList;

#[test]
fn choices_tell_their_numbers(rt: HostRuntime) -> Result<(), AllocError> {
    let mut numbers = Numbers::new(rt.alloc());
    numbers.push(3)?;
    numbers.push(0)?;
    assert!(rt; numbers.items() == [3, 0].as_slice());
    let mut choice = Choice::new(numbers);
    assert_eq!(rt; choice.count(), 2);
    assert_eq!(rt; choice.number(1), 3);
    assert!(rt; choice.numbers() == [3, 0].as_slice());
    choice.set(2, 7);
    assert!(rt; choice.numbers() == [3, 7].as_slice());
    Ok(())
}

#[test]
fn grids_tell_their_numbers(rt: HostRuntime) -> Result<(), AllocError> {
    let mut grid = Grid::new(rt.alloc());
    assert_eq!(rt; grid.lines(), 0);
    assert_eq!(rt; grid.width(), 0);
    let first = NumList::from_vec(vec![in rt.alloc(); 5i128, -7]?);
    grid.push_line(first)?;
    let second = NumList::from_vec(vec![in rt.alloc(); 0i128, 9]?);
    assert_eq!(rt; grid.width(), 2);
    assert_eq!(rt; second.items().len(), 2);
    grid.push_line(second)?;
    assert_eq!(rt; grid.lines(), 2);
    assert_eq!(rt; grid.width(), 2);
    assert_eq!(rt; grid.entry(0, 1), -7);
    assert!(rt; is_line(&grid, 1, &[0, 9]));
    Ok(())
}

#[test]
fn grids_share_lines(rt: HostRuntime) -> Result<(), AllocError> {
    let mut grid = Grid::new(rt.alloc());
    grid.push_line(NumList::from_vec(vec![in rt.alloc(); 5i128, -7]?))?;
    grid.push_line(NumList::from_vec(vec![in rt.alloc(); 0i128, 9]?))?;
    let mut other = Grid::new(rt.alloc());
    other.push_shared(&grid, 1)?;
    assert_eq!(rt; other.lines(), 1);
    assert!(rt; is_line(&other, 0, &[0, 9]));
    Ok(())
}

fn is_listed_first(
    rt: &impl Abort,
    alloc: Global,
    book: &BidBook,
    numbers: &[u16],
) -> Result<(), AllocError> {
    let choice = first_by_listing(alloc, book)?;
    assert!(rt; choice.numbers() == numbers);
    Ok(())
}

#[test]
fn listing_takes_the_first_of_the_greatest(rt: HostRuntime) -> Result<(), AllocError> {
    // East's second bid is worth as much as both bidders together.
    let text =
        "book 1\nsupply 2\nreserve 0\nbidder east\nbid 1 5\nbid 2 9\nbidder west\nbid 1 4\nend\n";
    let book = book_of(&rt, rt.alloc(), text);
    is_listed_first(&rt, rt.alloc(), &book, &[1, 1])
}

#[test]
fn a_choice_is_known_by_its_numbers(rt: HostRuntime) -> Result<(), AllocError> {
    // East has two bids, and west one.
    let text =
        "book 1\nsupply 2\nreserve 0\nbidder east\nbid 1 5\nbid 2 9\nbidder west\nbid 1 4\nend\n";
    let book = book_of(&rt, rt.alloc(), text);
    assert!(rt; is_known(rt.alloc(), &book, &[0, 0])?);
    assert!(rt; is_known(rt.alloc(), &book, &[2, 1])?);
    assert!(rt; !is_known(rt.alloc(), &book, &[3, 1])?);
    assert!(rt; !is_known(rt.alloc(), &book, &[2, 2])?);
    assert!(rt; !is_known(rt.alloc(), &book, &[2])?);
    assert!(rt; !is_known(rt.alloc(), &book, &[2, 1, 0])?);
    Ok(())
}

fn is_known(alloc: Global, book: &BidBook, numbers: &[u16]) -> Result<bool, AllocError> {
    let choice = choice_of(alloc, numbers)?;
    Ok(known(book, &choice))
}
