// The lines of bidders and of their bids.
ghost use Rattle.std.specs.Prelude.{IfNone, IfOk, IfSome, IsFalse, IsTrue, None, OnOk, Some, codes, length, ℕ, ◌++◌, ◌<◌, ◌↔◌, ◌≡◌, ◌≢◌};
ghost use Rattle.std.specs.List.{AllByRecursion};
ghost use Rattle.auction_model.specs.Book.{Book, BookBid};
ghost use Rattle.auction_model.specs.Package.{ComesBefore, is_within};
ghost use Rattle.book_grammar.specs.BookForm.{IsBid, IsName};
ghost use Rattle.book_grammar.specs.BookLines.{bid_line};
ghost use Rattle.bid_book.specs.Fields.{HasNet, bid_value};
ghost use Rattle.bid_book.specs.Stages.{Adds, AddsBid, AddsBidder, last_excess, lots_before};

use crate::book::Entry;
use crate::book::rivals::Rivals;
use crate::read::fields::{is_name, naturals_after};
use crate::{BidBook, LimitKind, Name};
use book_grammar::Excess;
use limits::{MOST_BIDDERS, MOST_BIDS};
use line_format::LineStop;
use lots::{Bid, Package, Supply};
use std::alloc::Global;

/// Takes the line of a bidder or of a bid.
pub fn take_entry(
    alloc: Global,
    book: &mut BidBook,
    rivals: &mut Rivals,
    line: &[u8],
) -> Result<(), LineStop<Excess>>
    ensures ok { OnOk result (Adds book.old book.new line.now × (last_excess 0 book.new.bidders ≡ None)) }
    ensures form { result ≡ Err LineStop.Form → (new : Book) → Adds book.old new line.now → ⊥ }
    ensures limit { (kind : LimitKind) (count : ℕ) → result ≡ Err (LineStop.Limit (kind, count))
        → (new : Book) × Adds book.old new line.now × (last_excess 0 new.bidders ≡ Some (kind, count)) }
{
    match line.strip_prefix(b"bidder ") {
        Some(name) => {
            rivals.clear();
            take_bidder(alloc, book, name)
        }
        None => take_bid(alloc, book, rivals, line),
    }
}

/// Takes the line of a bidder with this name.
fn take_bidder(alloc: Global, book: &mut BidBook, name: &[u8]) -> Result<(), LineStop<Excess>>
    ensures ok { OnOk result (AddsBidder book.old book.new (codes "bidder " ++ name.now) × (last_excess 0 book.new.bidders ≡ None)) }
    ensures form { result ≡ Err LineStop.Form → (new : Book) → AddsBidder book.old new (codes "bidder " ++ name.now) → ⊥ }
    ensures limit { (kind : LimitKind) (count : ℕ) → result ≡ Err (LineStop.Limit (kind, count)) → (new : Book) × AddsBidder book.old new (codes "bidder " ++ name.now) × (last_excess 0 new.bidders ≡ Some (kind, count)) }
{
    let Some(text) = name_text(name) else {
        return Err(LineStop::Form);
    };
    if is_used(book, name) {
        return Err(LineStop::Form);
    }
    if book.bidders() >= MOST_BIDDERS {
        return Err(LineStop::Limit((LimitKind::Bidders, MOST_BIDDERS as u64 + 1)));
    }
    let name = Name::new(alloc, text)?;
    book.add_bidder(alloc, name)?;
    Ok(())
}

/// The text of the bytes, if they are a name: 1 to 20 bytes of `a` to `z`, `0` to `9` and `_`, a letter first.
pub fn name_text(name: &[u8]) -> Option<&str>
    ensures some { IfSome result (λ text. (text.now ≡ name.now) × IsName name.now) }
    ensures none { IfNone result (IsName name.now → ⊥) }
{
    if !is_name(name) {
        return None;
    }
    std::str::from_utf8(name).ok()
}

/// Whether a bidder of the book has this name.
fn is_used(book: &BidBook, name: &[u8]) -> bool
    ensures { IsFalse result ↔ AllByRecursion (λ b. b.name ≢ name.now) book.now.bidders }
{
    for j in 0..book.bidders() as u16 {
        if book.name(j + 1).as_bytes() == name {
            return true;
        }
    }
    false
}

/// Takes the line of a bid of the last bidder.
fn take_bid(
    alloc: Global,
    book: &mut BidBook,
    rivals: &mut Rivals,
    line: &[u8],
) -> Result<(), LineStop<Excess>>
    ensures ok { OnOk result (AddsBid book.old book.new line.now × (last_excess 0 book.new.bidders ≡ None)) }
    ensures form { result ≡ Err LineStop.Form → (new : Book) → AddsBid book.old new line.now → ⊥ }
    ensures limit { (kind : LimitKind) (count : ℕ) → result ≡ Err (LineStop.Limit (kind, count))
        → (new : Book) × AddsBid book.old new line.now × (last_excess 0 new.bidders ≡ Some (kind, count)) }
{
    if book.bidders() == 0 {
        return Err(LineStop::Form);
    }
    let entry = read_bid(alloc, book, line)?;
    if book.bids(book.bidders() as u16) >= MOST_BIDS {
        return Err(LineStop::Limit((LimitKind::Bids, MOST_BIDS as u64 + 1)));
    }
    let rival = rivals.take(book.supply(), &entry.bid.package, entry.net)?;
    book.add_bid(entry, rival)?;
    Ok(())
}

/// The bid that a line states, with its net amount, if it may follow the bids of the last bidder.
fn read_bid(alloc: Global, book: &BidBook, line: &[u8]) -> Result<Entry, LineStop<Excess>>
    requires { 0 < length book.now.bidders }
    ensures ok { IfOk result
        (λ entry. (line.now ≡ (bid_line 0 (bid_value entry)).0)
        × IsBid book.now.supply book.now.reserves (lots_before book.now) (bid_value entry)
        × HasNet book.now.reserves entry) }
    ensures form { result ≡ Err LineStop.Form → (bid : BookBid) → line.now ≡ (bid_line 0 bid).0
        → IsBid book.now.supply book.now.reserves (lots_before book.now) bid → ⊥ }
    ensures no_limit { (kind : LimitKind) (count : ℕ) → result ≡ Err (LineStop.Limit (kind, count)) → ⊥ }
{
    let supply = book.supply();
    let mut numbers = naturals_after(alloc, b"bid", line)?;
    let Some(amount) = numbers.pop() else {
        return Err(LineStop::Form);
    };
    let package = read_package(supply, &numbers)?;
    if !comes_next(book, &package) {
        return Err(LineStop::Form);
    }
    let reserve = package.cost(book.reserves());
    if amount < reserve {
        return Err(LineStop::Form);
    }
    let net = amount as i128 - reserve as i128;
    Ok(Entry {
        bid: Bid { package, amount },
        net,
        better: 0,
    })
}

/// The package of these counts, if it has the categories of the supply and fits in it.
fn read_package(supply: &Supply, numbers: &[u64]) -> Result<Package, LineStop<Excess>>
    ensures ok { IfOk result
        (λ p. (p ≡ numbers.now) × (length numbers.now ≡ length supply.now)
        × IsTrue (is_within numbers.now supply.now)) }
    ensures form { result ≡ Err LineStop.Form → length numbers.now ≡ length supply.now
        → IsTrue (is_within numbers.now supply.now) → ⊥ }
    ensures no_limit { (kind : LimitKind) (count : ℕ) → result ≡ Err (LineStop.Limit (kind, count)) → ⊥ }
{
    if numbers.len() != supply.categories() {
        return Err(LineStop::Form);
    }
    let Some(package) = Package::from_numbers(numbers) else {
        return Err(LineStop::Form);
    };
    if !package.fits(supply) {
        return Err(LineStop::Form);
    }
    Ok(package)
}

/// Whether the package comes after the package of the last bidder's last bid, or isn't empty if there is no
/// bid.
fn comes_next(book: &BidBook, package: &Package) -> bool
    requires some { 0 < length book.now.bidders }
    requires categories { length «package».now ≡ length book.now.supply }
    ensures { IsTrue result ↔ ComesBefore (lots_before book.now) «package».now }
{
    let last_bidder = book.bidders() as u16;
    let last = book.bids(last_bidder);
    if last == 0 {
        return !package.is_empty();
    }
    let before = book.bid(last_bidder, last);
    comes_before(before.package.counts(), package.counts())
}

/// Whether the first counts come before the others in the order of packages.
pub fn comes_before(earlier: &[u16], later: &[u16]) -> bool
    requires { length earlier.now ≡ length later.now }
    ensures { IsTrue result ↔ ComesBefore earlier.now later.now }
{
    earlier < later
}
