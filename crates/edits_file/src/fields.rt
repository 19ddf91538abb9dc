// The fields of a line that states an edit.
ghost use Rattle.std.specs.Prelude.{IfNone, IfSome, List, [], length, ℕ, ◌++◌, ◌<◌, ◌≡◌, ◌≢◌, ◌≤◌};
ghost use Rattle.limits.specs.declared.TheConstants.{MOST_CATEGORIES};
ghost use Rattle.line_format.specs.Fields.{FieldEnds};
ghost use Rattle.book_grammar.specs.BookForm.{IsName};
ghost use Rattle.edits_file.specs.EditsForm.{number_among};
ghost use Rattle.edits_file.specs.Stages.{BeginsWithCounts, BeginsWithNumber, IsHead, StatesBid, StatesPackage};

use bid_book::{BidBook, is_name};
use limits::{MOST_CATEGORIES, MOST_STATED_AMOUNT, MOST_STATED_COUNT};
use line_format::{field_len, read_at_most};
use lots::Package;

/// The bidder, the package and the amount that a line states after its word. Bidder 0 is one that the book doesn't have.
pub fn read_bid(book: &BidBook, fields: &[u8]) -> Option<(u16, Package, u64)>
    ensures found { IfSome result (λ b. StatesBid book.now fields.now b.0 b.1 b.2) }
    ensures none { IfNone result ((bidder : ℕ) (lots : List ℕ) (amount : ℕ)
        → StatesBid book.now fields.now bidder lots amount → ⊥) }
{
    let (bidder, package, rest) = read_head(book, fields)?;
    let amount = last_number(rest, MOST_STATED_AMOUNT)?;
    Some((bidder, package, amount))
}

/// The bidder and the package that a line states after its word.
pub fn read_package(book: &BidBook, fields: &[u8]) -> Option<(u16, Package)>
    ensures found { IfSome result (λ p. StatesPackage book.now fields.now p.0 p.1) }
    ensures none { IfNone result ((bidder : ℕ) (lots : List ℕ) → StatesPackage book.now fields.now bidder lots → ⊥) }
{
    let (bidder, package, rest) = read_head(book, fields)?;
    if !rest.is_empty() {
        return None;
    }
    Some((bidder, package))
}

/// The bidder and the package at the start of the fields, and what follows them.
fn read_head<'a>(book: &BidBook, fields: &'a [u8]) -> Option<(u16, Package, &'a [u8])>
    ensures found { IfSome result (λ h. IsHead book.now fields.now h.0 h.1 h.2.now) }
    ensures none { IfNone result ((bidder : ℕ) (lots rest : List ℕ)
        → IsHead book.now fields.now bidder lots rest → ⊥) }
{
    let (bidder, more) = read_bidder(book, fields)?;
    let (package, rest) = read_counts(more, book.supply().categories())?;
    Some((bidder, package, rest))
}

/// The bidder of the name at the start of a text, and what follows the name.
fn read_bidder<'a>(book: &BidBook, text: &'a [u8]) -> Option<(u16, &'a [u8])>
    ensures found { IfSome result
        (λ p. (name : List ℕ) × IsName name × (text.now ≡ name ++ p.1.now) × FieldEnds p.1.now
        × (p.0 ≡ number_among name 0 book.now.bidders)) }
    ensures none { IfNone result ((name rest : List ℕ) → IsName name → FieldEnds rest → text.now ≡ name ++ rest → ⊥) }
{
    let (name, rest) = text.split_at(field_len(text));
    if !is_name(name) {
        return None;
    }
    Some((bidder_named(book, name), rest))
}

/// The number of the bidder of this name, and 0 if the book has none.
fn bidder_named(book: &BidBook, name: &[u8]) -> u16
    ensures { result ≡ number_among name.now 0 book.now.bidders }
{
    for j in 0..book.bidders() as u16 {
        if book.name(j + 1).as_bytes() == name {
            return j + 1;
        }
    }
    0
}

/// The package of that many counts at the start of a text, each after one space, and what follows them.
fn read_counts(text: &[u8], categories: usize) -> Option<(Package, &[u8])>
    requires text { FieldEnds text.now }
    requires categories { (0 < categories) × (categories ≤ MOST_CATEGORIES) }
    ensures found { IfSome result (λ p. BeginsWithCounts categories text.now p.0 p.1.now) }
    ensures none { IfNone result ((lots rest : List ℕ) → BeginsWithCounts categories text.now lots rest → ⊥) }
{
    let mut counts = [0; MOST_CATEGORIES];
    let mut rest = text;
    for i in 0..categories {
        let (count, more) = first_number(rest, MOST_STATED_COUNT)?;
        counts[i] = count as u16;
        rest = more;
    }
    Some((Package::of_counts(&counts[..categories]), rest))
}

/// The number at the start of a text, after one space, and what follows it.
fn first_number(text: &[u8], most: u64) -> Option<(u64, &[u8])>
    ensures found { IfSome result (λ p. BeginsWithNumber most text.now p.0 p.1.now) }
    ensures none { IfNone result ((n : ℕ) (rest : List ℕ) → BeginsWithNumber most text.now n rest → ⊥) }
{
    let behind = text.strip_prefix(b" ")?;
    let (field, rest) = behind.split_at(field_len(behind));
    let number = read_at_most(field, most)?;
    Some((number, rest))
}

/// The number that a text is, after one space.
fn last_number(text: &[u8], most: u64) -> Option<u64>
    ensures found { IfSome result (λ n. BeginsWithNumber most text.now n []) }
    ensures none { IfNone result ((n : ℕ) → BeginsWithNumber most text.now n [] → ⊥) }
{
    let field = text.strip_prefix(b" ")?;
    read_at_most(field, most)
}
