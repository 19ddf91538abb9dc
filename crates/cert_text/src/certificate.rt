// The content of a certificate.
ghost use Rattle.std.specs.Prelude.{◌≡◌, ◌≢◌, length, map, IfSome, IfNone};
ghost use Rattle.std.specs.List.{AllByRecursion};
ghost use Rattle.auction_model.specs.Place.{states_of};
ghost use Rattle.cert_grammar.specs.Certificate.{part_of};
ghost use Rattle.cert_grammar.specs.CertText.{IsCertificate};
ghost use Rattle.cert_grammar.specs.OneProof.{IsCertificate-prop};
ghost use Rattle.cert_text.specs.Parts.{cert_from, without_value};
ghost use Rattle.choices.specs.Lines.{width_of};

use crate::{CertRows, WithoutList};
use bid_book::BidBook;
use choices::{Choice, Grid, Numbers};
use wide_num::NumList;

/// For how many bidders and states a certificate is.
#[derive(Clone, Copy, Debug, PartialEq, Eq)]
pub struct Shape {
    /// How many bidders there are.
    pub bidders: u16,
    /// How many states the supply has.
    pub states: u32,
}

impl Shape {
    /// The shape of a certificate of the book.
    pub fn of(book: &BidBook) -> Shape
        ensures bidders { result.bidders ≡ length book.now.bidders }
        ensures states { result.states ≡ states_of book.now.supply }
    {
        Shape {
            bidders: book.bidders() as u16,
            states: book.supply().states() as u32,
        }
    }
}

/// The best choice without a winner, and the table that shows it.
#[derive(Drop)]
pub struct WithoutPart {
    /// The number of the winner.
    pub winner: u16,
    /// A choice that doesn't use it.
    pub choice: Choice,
    /// A line for each bidder and one more, each with a number for each state.
    pub table: Grid,
}

/// A set of winners that have to pay a sum together, and its multipliers.
#[derive(Drop)]
pub struct CertRow {
    /// The numbers of its members, at least one, rising.
    pub members: Numbers,
    /// The multiplier that shows the least sum, times the denominator.
    pub first: i128,
    /// The multiplier that shows the nearest point, times the denominator.
    pub second: i128,
    /// The choice with this sum.
    pub choice: Choice,
}

/// A certificate of the prices of a book. All its numbers are strictly between -2^120 and 2^120. It has a part without each
/// bidder that the choice uses, in order, and at most ten rows.
#[derive(Drop)]
pub struct Certificate {
    /// The denominator of the payments.
    pub den: i128,
    /// The value of the choice, net.
    pub value: i128,
    /// The winning choice, one number of at most 65,535 for each bidder.
    pub choice: Choice,
    /// The table of net amounts: a line for each bidder and one more, each with a number for each state.
    pub table: Grid,
    /// The parts without each winner.
    pub withouts: WithoutList,
    /// What each bidder pays, net, times the denominator.
    pub pay: NumList,
    /// The rows.
    pub rows: CertRows,
    /// The table of the net amounts times the denominator, each winner's lowered by its surplus.
    pub lowered: Grid,
    pub ghost rules: { IsCertificate (length choice) (width_of table)
        (cert_from den value choice table withouts pay rows lowered) } by { IsCertificate-prop (length choice)
            (width_of table) (cert_from den value choice table withouts pay rows lowered) },
}

impl Certificate {
    /// The part without bidder `j`, and None if there is none. Each winner has one.
    pub fn part(&self, j: u16) -> Option<&WithoutPart>
        ensures found { IfSome result
            (λ part. without_value part.now ≡ part_of (map without_value self.now.withouts) j) }
        ensures none { IfNone result (AllByRecursion (λ part. part.winner ≢ j) self.now.withouts) }
    {
        for part in self.withouts.items() {
            if part.winner == j {
                return Some(part);
            }
        }
        None
    }
}
