// The Vickrey price of each winner.
ghost use Rattle.std.specs.Prelude.{◌≡◌, ◌≤◌, ◌<◌, length, IfOk, IsTrue};
ghost use Rattle.auction_model.specs.Market.{uses};
ghost use Rattle.auction_model.specs.Book.{market_of};
ghost use Rattle.auction_model.specs.Greatest.{IsWinning};
ghost use Rattle.choices.specs.Singles.{AreSingles, IsSingle, winners_after};
ghost use Rattle.value_table.specs.TableValue.{IsTableOf, IsPlain};
ghost use Rattle.vickrey.specs.Sources.{IsSourceOf};
ghost use Rattle.vickrey.specs.VickreyValue.{IsTableWithout, AreTablesWithout};

use crate::Vickrey;
use crate::source::Source;
use bid_book::BidBook;
use choices::{Choice, Single};
use std::alloc::{AllocError, Global};
use value_table::{Sides, ValueTable};

/// A single winner, and the table without it.
#[derive(Drop)]
struct WithoutEach {
    single: Single,
    table: ValueTable,
}

/// The single winner `j`. Its price is what the others reach without it, less their value in the winning choice.
fn without_winner(
    alloc: Global,
    book: &BidBook,
    winners: &Choice,
    source: &Source,
    j: u16,
) -> Result<WithoutEach, AllocError>
    requires bidder { (0 < j) × (j ≤ length book.now.bidders) }
    requires winners { IsWinning (market_of book.now) winners.now }
    requires used { IsTrue (uses winners.now j) }
    requires source { IsSourceOf book.now source.now }
    ensures winner { IfOk result (λ a. a.single.winner ≡ j) }
    ensures single { IfOk result (λ a. IsSingle (market_of book.now) winners.now a.single) }
    ensures table { IfOk result (λ a. IsTableWithout book.now j a.table.lines) }
{
    book.kept();
    let whole = source.whole();
    let table = whole.without(alloc, book, j)?;
    let choice = table.trace(alloc, book)?;
    let others = source.most_without(book, &table, j);
    let all = whole.most(book);
    let own = book.net(j, winners.number(j));
    let single = Single {
        winner: j,
        price: others - (all - own),
        choice,
    };
    Ok(WithoutEach { single, table })
}

/// The single winners of a book. A winner's Vickrey price is the greatest value of a choice that doesn't use it, less the other
/// winners' value in the winning choice: its net amount less what the value would lose without it. (Vickrey 1961, Clarke 1971,
/// Groves 1973; Ausubel and Milgrom, The lovely but lonely Vickrey auction, 2006.) The values without each winner come from the
/// sides of the book, and the tables without each winner share the lines of its table. There are at most 16.
pub fn vickrey(alloc: Global, book: &BidBook, winners: &Choice) -> Result<Vickrey, AllocError>
    requires { IsWinning (market_of book.now) winners.now }
    ensures singles { IfOk result (λ v. AreSingles (market_of book.now) winners.now v.singles) }
    ensures tables { IfOk result (λ v. AreTablesWithout book.now (winners_after 0 winners.now) v.tables) }
{
    let sides = Sides::build(alloc, book)?;
    let alone = each_winner(alloc, book, winners, &Source::BothSides(&sides))?;
    Ok(alone)
}

/// The single winners that `vickrey` returns, from the table of all bids that the caller already has. If the tables without the
/// winners are wanted anyway, it takes less time than with the sides.
pub fn vickrey_from(
    alloc: Global,
    book: &BidBook,
    winners: &Choice,
    whole: &ValueTable,
) -> Result<Vickrey, AllocError>
    requires winners { IsWinning (market_of book.now) winners.now }
    requires whole { IsTableOf book.now whole.now }
    requires plain { IsPlain whole.now }
    ensures singles { IfOk result (λ v. AreSingles (market_of book.now) winners.now v.singles) }
    ensures tables { IfOk result (λ v. AreTablesWithout book.now (winners_after 0 winners.now) v.tables) }
{
    let alone = each_winner(alloc, book, winners, &Source::WholeTable(whole))?;
    Ok(alone)
}

fn each_winner(
    alloc: Global,
    book: &BidBook,
    winners: &Choice,
    source: &Source,
) -> Result<Vickrey, AllocError>
    requires winners { IsWinning (market_of book.now) winners.now }
    requires source { IsSourceOf book.now source.now }
    ensures singles { IfOk result (λ v. AreSingles (market_of book.now) winners.now v.singles) }
    ensures tables { IfOk result (λ v. AreTablesWithout book.now (winners_after 0 winners.now) v.tables) }
{
    let mut singles = Vec::new(alloc);
    let mut tables = Vec::new(alloc);
    for k in 0..book.bidders() {
        let j = k as u16 + 1;
        if winners.number(j) != 0 {
            let one = without_winner(alloc, book, winners, source, j)?;
            singles.push(one.single)?;
            tables.push(one.table)?;
        }
    }
    Ok(Vickrey::new(singles, tables))
}
