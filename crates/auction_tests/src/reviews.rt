// A review of a small book: the values and choices after edits match the edited book.
ghost use Rattle.std.specs.Prelude.{◌≡◌, length};
ghost use Rattle.review.specs.Edits.{edit_lots};

use crate::samples::book_of;
use choices::value;
use lots::{LotStop, Package};
use review::{Edit, EditReply, Review};
use std::alloc::{AllocError, Global};
use value_table::win;

// How many categories the package of an edit has.
fn categories_of(edit: &Edit) -> usize
    ensures { result ≡ length (edit_lots edit.now) }
{
    match edit {
        Edit::Add { package, .. } => package.categories(),
        Edit::Raise { package, .. } => package.categories(),
        Edit::Remove { package, .. } => package.categories(),
    }
}

// The answer to an edit, if its package has as many categories as the book.
fn answer(alloc: Global, review: &mut Review, edit: &Edit) -> Option<EditReply> {
    if categories_of(edit) != review.book().supply().categories() {
        return None;
    }
    Some(review.edit(alloc, edit))
}

fn added(alloc: Global, bidder: u16, counts: &[u16], amount: u64) -> Result<Edit, LotStop> {
    Ok(Edit::Add {
        bidder,
        package: Package::new(alloc, counts)?,
        amount,
    })
}

fn raised(alloc: Global, bidder: u16, counts: &[u16], amount: u64) -> Result<Edit, LotStop> {
    Ok(Edit::Raise {
        bidder,
        package: Package::new(alloc, counts)?,
        amount,
    })
}

fn removed(alloc: Global, bidder: u16, counts: &[u16]) -> Result<Edit, LotStop> {
    Ok(Edit::Remove {
        bidder,
        package: Package::new(alloc, counts)?,
    })
}

/// Packages of two categories.
const PACKAGES: &[[u16; 2]] = &[[0, 1], [1, 0], [1, 1], [2, 0], [2, 1], [0, 0]];

// An edit by a number.
fn edit_by(alloc: Global, number: u32) -> Result<Edit, LotStop> {
    let bidder = (number % 4) as u16;
    let counts = PACKAGES[(number / 4 % 6) as usize];
    let amount = (number / 24 % 40) as u64;
    match number / 960 % 3 {
        0 => added(alloc, bidder, &counts, amount),
        1 => raised(alloc, bidder, &counts, amount),
        _ => removed(alloc, bidder, &counts),
    }
}

// Whether the value and the choice match the present book.
fn is_right(alloc: Global, review: &Review) -> Result<bool, AllocError> {
    let book = review.book();
    let winners = win(alloc, book)?;
    Ok(review.choice().numbers() == winners.numbers() && review.net() == value(book, &winners))
}

#[test]
fn edits_agree_with_the_edited_book(rt: HostRuntime) -> Result<(), LotStop> {
    let alloc = rt.alloc();
    let text =
        "book 1\nsupply 2 1\nreserve 1 0\nbidder a\nbid 1 0 10\nbid 2 0 16\nbidder b\nbid 0 1 5\nbidder c\nend\n";
    let book = book_of(&rt, alloc, text);
    let mut review = Review::start(alloc, book)?;
    let mut number = 7u32;
    let mut taken = 0u32;
    for _edit in 0..60 {
        number = number.wrapping_mul(1_664_525).wrapping_add(1_013_904_223);
        let edit = edit_by(alloc, number / 65_536)?;
        if answer(alloc, &mut review, &edit) == Some(EditReply::Ok) {
            taken = taken.wrapping_add(1);
        }
        assert!(rt; is_right(alloc, &review)?);
    }
    assert!(rt; taken > 10);
    Ok(())
}
