// The text of a winning choice.
ghost use Rattle.std.specs.Prelude.{◌≡◌, ◌∷◌, ◌++◌, IfOk, OnOk, IsTrue};
ghost use Rattle.auction_model.specs.Menu.{is_known_after};
ghost use Rattle.auction_model.specs.Book.{menu_of};
ghost use Rattle.print_grammar.specs.WinText;
ghost use Rattle.print_grammar.specs.WinText.{winner_line, winner_lines};

use crate::{add_net, add_numbers};
use bid_book::BidBook;
use choices::{Choice, value};
use line_format::add_number;
use lots::Bid;
use std::alloc::{AllocError, Global};
use wide_num::Text;

/// The lines of the winners of a choice, in order, and the line of their net value. The book knows the choice. The only error is
/// out of memory.
pub fn win_text(alloc: Global, book: &BidBook, choice: &Choice) -> Result<Text, AllocError>
    requires { IsTrue (is_known_after (menu_of book.now) 0 choice.now) }
    ensures { IfOk result (λ text. text ≡ WinText.win_text book.now choice.now) }
{
    let mut text = Text::new(alloc);
    add_winners(&mut text, book, choice)?;
    add_net(&mut text, value(book, choice))?;
    Ok(text)
}

// A line for each winner in order.
fn add_winners(text: &mut Text, book: &BidBook, choice: &Choice) -> Result<(), AllocError>
    requires { IsTrue (is_known_after (menu_of book.now) 0 choice.now) }
    ensures { OnOk result (text.new ≡ text.old ++ winner_lines book.now 0 choice.now) }
{
    for k in 0..book.bidders() {
        let j = k as u16 + 1;
        let number = choice.number(j);
        if number != 0 {
            add_winner(text, book.name(j), book.bid(j, number))?;
        }
    }
    Ok(())
}

fn add_winner(text: &mut Text, name: &str, bid: &Bid) -> Result<(), AllocError>
    ensures { OnOk result
        (text.new ≡ text.old ++ winner_line name.now (record { lots = bid.now.package; amount = bid.now.amount })) }
{
    text.add(b"winner ")?;
    text.add(name.as_bytes())?;
    add_numbers(text, bid.package.counts())?;
    add_number(text, bid.amount)?;
    text.push(b'\n')?;
    Ok(())
}
