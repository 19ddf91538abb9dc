// What pricing answers.
ghost use Rattle.core_price.specs.declared.priced.PriceStop.TheVariants.{Memory};
ghost use Rattle.std.specs.Prelude.{◌≡◌};

use crate::{RowList, TurnList};
use blocking::Block;
use choices::{Choice, Found};
use far_num::Row;
use std::alloc::AllocError;
use wide_num::NumList;

/// A row with its choice, and its multipliers at the last point.
#[derive(Drop)]
pub struct PricedRow {
    /// The winners of the row, and the least that they have to pay together, net. Bit `i` stands for the winner `i + 1` in
    /// order.
    pub row: Row,
    /// A choice that uses none of them and determines the row's bound.
    pub choice: Choice,
    /// The multiplier that shows the least sum, times the denominator.
    pub first: i128,
    /// The multiplier that shows the nearest point, times the denominator.
    pub second: i128,
}

/// A turn: the point of the rows so far, and what blocks it.
#[derive(Drop)]
pub struct Turn {
    /// The denominator, at least 1.
    pub den: i128,
    /// One net payment for each winner in order, times the denominator.
    pub at: NumList,
    /// The block, whose row the next turn has too; none in the last turn. Its excess is times the denominator.
    pub block: Option<Block>,
}

/// The prices of the winners, with all that shows that they are right.
#[derive(Drop)]
pub struct Priced<T> {
    /// The denominator, at least 1. With all payments and all multipliers it is in lowest terms.
    pub den: i128,
    /// One net payment for each winner in order, times the denominator.
    pub at: NumList,
    /// The rows whose multipliers aren't both 0, in the order of their arrival.
    pub rows: RowList,
    /// The greatest lowered sum at this point, times the denominator, with its choice and its table.
    pub last: Found<T>,
    /// All turns.
    pub turns: TurnList,
}

/// Why there are no prices.
#[derive(Clone, Copy, Debug, Drop, PartialEq, Eq)]
pub enum PriceStop {
    /// More than `MOST_WINNERS` win, or more than `MOST_WEIGHTED_WINNERS` that don't all weigh 1: that many.
    Winners(u64),
    /// Out of memory.
    Memory,
}

impl From<AllocError> for PriceStop {
    ghost from_gives = { λ _ stop. stop ≡ Memory };

    fn from(_error: AllocError) -> PriceStop {
        PriceStop::Memory
    }
}
