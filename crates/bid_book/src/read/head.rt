// The lines that come before the bidders.
ghost use Rattle.std.specs.Prelude.{IfOk, IsTrue, List, None, Some, ℕ, ◌↔◌, ◌≡◌, ◌≤◌};
ghost use Rattle.std.specs.List.{AllByRecursion};
ghost use Rattle.book_grammar.specs.BookForm.{IsOffer};
ghost use Rattle.book_grammar.specs.BookLines.{supply_line};
ghost use Rattle.bid_book.specs.Stages.{Step, excess};
ghost use Rattle.limits.specs.declared.TheConstants.{MOST_PRICE};

use crate::read::Stage;
use crate::read::fields::{lot_counts, naturals_after};
use crate::stop::lots_stop;
use crate::{BidBook, LimitKind};
use book_grammar::Excess;
use limits::MOST_PRICE;
use line_format::LineStop;
use lots::Supply;
use std::alloc::Global;

/// Takes the first line.
pub fn take_first(line: &[u8]) -> Result<Stage, LineStop<Excess>>
    ensures ok { IfOk result (λ next. Step Stage.Start line.now next × (excess next ≡ None)) }
    ensures form { result ≡ Err LineStop.Form → (t : Stage) → Step Stage.Start line.now t → ⊥ }
    ensures no_limit { (kind : LimitKind) (count : ℕ) → result ≡ Err (LineStop.Limit (kind, count)) → ⊥ }
{
    if line != b"book 1".as_slice() {
        return Err(LineStop::Form);
    }
    Ok(Stage::Headed)
}

/// Takes the line of the supply.
pub fn take_supply(alloc: Global, line: &[u8]) -> Result<Supply, LineStop<Excess>>
    ensures ok { IfOk result
        (λ supply. Step Stage.Headed line.now (Stage.Supplied supply) × (excess (Stage.Supplied supply) ≡ None)) }
    ensures form { result ≡ Err LineStop.Form → (t : Stage) → Step Stage.Headed line.now t → ⊥ }
    ensures limit { (kind : LimitKind) (count : ℕ) → result ≡ Err (LineStop.Limit (kind, count))
        → (t : Stage) × Step Stage.Headed line.now t × (excess t ≡ Some (kind, count)) }
{
    let counts = read_supply(alloc, line)?;
    match Supply::new(alloc, &counts) {
        Ok(supply) => Ok(supply),
        Err(stop) => Err(lots_stop(stop)),
    }
}

/// The counts that the line of a supply states, whatever the limits.
fn read_supply(alloc: Global, line: &[u8]) -> Result<Vec<u16>, LineStop<Excess>>
    ensures ok { IfOk result (λ v. (line.now ≡ (supply_line v.items).0) × IsOffer v.items) }
    ensures form { result ≡ Err LineStop.Form → (supply : List ℕ) → line.now ≡ (supply_line supply).0 → IsOffer supply
        → ⊥ }
    ensures no_limit { (kind : LimitKind) (count : ℕ) → result ≡ Err (LineStop.Limit (kind, count)) → ⊥ }
{
    let numbers = naturals_after(alloc, b"supply", line)?;
    if numbers.is_empty() {
        return Err(LineStop::Form);
    }
    if numbers.contains(&0) {
        return Err(LineStop::Form);
    }
    lot_counts(alloc, &numbers)
}

/// Takes the line of the reserves, and opens the book.
pub fn take_reserve(alloc: Global, supply: Supply, line: &[u8]) -> Result<BidBook, LineStop<Excess>>
    ensures ok { IfOk result
        (λ book. Step (Stage.Supplied supply) line.now (Stage.Listing book)
        × (excess (Stage.Listing book) ≡ None)) }
    ensures form { result ≡ Err LineStop.Form → (t : Stage) → Step (Stage.Supplied supply) line.now t → ⊥ }
    ensures no_limit { (kind : LimitKind) (count : ℕ) → result ≡ Err (LineStop.Limit (kind, count)) → ⊥ }
{
    let reserves = naturals_after(alloc, b"reserve", line)?;
    if reserves.len() != supply.categories() {
        return Err(LineStop::Form);
    }
    if !are_reserves(&reserves) {
        return Err(LineStop::Form);
    }
    Ok(BidBook::open(alloc, supply, reserves))
}

/// Whether no number is above the greatest reserve.
fn are_reserves(numbers: &[u64]) -> bool
    ensures { IsTrue result ↔ AllByRecursion (λ n. n ≤ MOST_PRICE) numbers.now }
{
    for number in numbers {
        if *number > MOST_PRICE {
            return false;
        }
    }
    true
}
