// The certificate of the prices of a book.
ghost use Rattle.std.specs.Prelude.{◌≡◌, IfOk, List, ℕ};
ghost use Rattle.auction_model.specs.Prices.{weight_of};
ghost use Rattle.book_price.specs.Found.{AreFound, cert_found};
ghost use Rattle.cert_soundness.specs.Priced.{IsPricedCert};
ghost use Rattle.cert_soundness.specs.Tests.{bidders_of, states};
ghost use Rattle.cert_text.specs.CertValues.{IsFor, cert_value};

use crate::bidder_rows::all_rows;
use crate::parts::all_parts;
use bid_book::BidBook;
use cert_text::{Certificate, shared_table};
use choices::Choice;
use core_price::{Priced, for_bidders};
use std::alloc::{AllocError, Global};
use value_table::{TurnTable, ValueTable};
use vickrey::Vickrey;
use wide_num::NumList;

/// The certificate of what was found by some weights. It shares the lines of all tables.
pub(crate) fn certificate(
    alloc: Global,
    book: &BidBook,
    winners: Choice,
    whole: &ValueTable,
    alone: &Vickrey,
    priced: &Priced<TurnTable>,
) -> Result<Certificate, AllocError>
    requires { (weights : List ℕ) × AreFound book.now winners whole.now alone.now weights priced.now }
    ensures value { IfOk result (λ c. cert_value c ≡ cert_found book.now winners whole.now alone.now priced.now) }
    ensures priced { (weights : List ℕ) → AreFound book.now winners whole.now alone.now weights priced.now
        → IfOk result (λ c. IsPricedCert book.now (weight_of weights) (cert_value c)) }
    ensures shape { IfOk result (IsFor (bidders_of book.now) (states book.now)) }
{
    book.kept();
    let value = whole.most(book);
    let table = shared_table(alloc, whole.grid())?;
    let withouts = all_parts(alloc, alone)?;
    let at = priced.at.items();
    let pay = NumList::from_vec(for_bidders(alloc, &winners, at)?);
    let kept = priced.rows.items();
    let rows = all_rows(alloc, &winners, kept)?;
    let lowered = priced.last.table.grid(alloc, book)?;
    Ok(Certificate {
        den: priced.den,
        value,
        choice: winners,
        table,
        withouts,
        pay,
        rows,
        lowered,
    })
}
