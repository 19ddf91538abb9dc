// The turns of pricing.
ghost use Rattle.auction_model.specs.Market.{value_of};
ghost use Rattle.auction_model.specs.Prices.{AreVickreyPrices, IsUnblocked};
ghost use Rattle.auction_model.specs.Lowered.{of_bidder};
ghost use Rattle.nearest_point.specs.Problem.{IsProblem};
ghost use Rattle.nearest_point.specs.Shown.{IsShownNearest};
ghost use Rattle.blocking.specs.Look.{IsFound};
ghost use Rattle.core_price.specs.Lowest.{IsLowest};
ghost use Rattle.core_price.specs.Rows.{block_choices, block_rows};
ghost use Rattle.core_price.specs.SoFar.{CanTurn, HasEnded, IsSoFar};
ghost use Rattle.core_laws.specs.Surplus.{surpluses_of};
ghost use Rattle.core_laws.specs.Winners;
ghost use Rattle.std.specs.Prelude.{IfOk, OnOk, None, Some, [], ◌∷◌, ◌≡◌, ◌++◌};

use crate::bidders::for_bidders;
use crate::reduce::reduced;
use crate::start::Constraints;
use crate::weights::winner_weights;
use crate::{Turn, TurnList};
use blocking::{Block, Looked, find_block};
use choices::{Chooser, Found};
use far_num::Row;
use nearest_point::{Nearest, nearest};
use std::alloc::{AllocError, Global};
use wide_num::NumList;

/// Where the turns end: the last point, what the last search found, all rows and all turns.
#[derive(Drop)]
pub(crate) struct PricingEnd<T> {
    pub(crate) near: Nearest,
    pub(crate) last: Found<T>,
    pub(crate) asked: Constraints,
    pub(crate) turns: TurnList,
}

/// Takes turns until no coalition blocks the point.
pub(crate) fn take_turns<C: Chooser>(
    alloc: Global,
    chooser: &C,
    prices: &[i128],
    weights: &[u32],
    asked: Constraints,
) -> Result<PricingEnd<C::Table>, AllocError>
    requires can { CanTurn (C.market chooser.now) (C.chosen chooser.now) prices.now weights.now }
    requires start { IsSoFar (C.market chooser.now)
        (C.chosen chooser.now) weights.now asked.rows.items asked.choices.items [] }
    ensures ended { IfOk result
        (λ e. HasEnded (C.market chooser.now)
        (C.chosen chooser.now) prices.now weights.now e.asked.rows.items e.asked.choices.items e.turns e.near.den e.near.at e.near.first e.near.second) }
    ensures rows { IfOk result (λ e. e.asked.rows.items ≡ asked.rows.items ++ block_rows e.turns) }
    ensures choices { IfOk result (λ e. e.asked.choices.items ≡ asked.choices.items ++ block_choices e.turns) }
    ensures found { IfOk result
        (λ e. IsFound (C.market chooser.now) (C.chosen chooser.now) e.near.den
        (Winners.for_bidders (C.chosen chooser.now) e.near.at) e.last.choice e.last.sum) }
    ensures table { IfOk result
        (λ e. C.is_table chooser.now e.near.den
        (surpluses_of (C.market chooser.now) (C.chosen chooser.now) e.near.den
        (Winners.for_bidders (C.chosen chooser.now) e.near.at)) e.last.table) }
{
    let mut asked = asked;
    let own = winner_weights(alloc, chooser.winners(), weights)?;
    let mut turns = TurnList::new(alloc);
    'turns: loop {
        let near = turn_point(alloc, prices, &own, &asked.rows)?;
        let at = for_bidders(alloc, chooser.winners(), near.at.items())?;
        match find_block(alloc, chooser, near.den, &at)? {
            Looked::Free(last) => {
                add_last(alloc, &mut turns, &near)?;
                return Ok(PricingEnd {
                    near,
                    last,
                    asked,
                    turns,
                });
            }
            Looked::Block(block) => add_block(alloc, &mut asked, &mut turns, near, block)?,
        }
    }
}

// Adds the turn of a point that nobody blocks.
fn add_last(alloc: Global, turns: &mut TurnList, near: &Nearest) -> Result<(), AllocError>
    ensures { OnOk result
        (turns.new ≡ turns.old ++ (record { den = near.now.den; at = near.now.at; block = None } ∷ [])) }
{
    let at = copied(alloc, near.at.items())?;
    turns.push(Turn {
        den: near.den,
        at,
        block: None,
    })?;
    Ok(())
}

// Adds the turn of a point that is blocked, and what the next turn asks more.
fn add_block(
    alloc: Global,
    asked: &mut Constraints,
    turns: &mut TurnList,
    near: Nearest,
    block: Block,
) -> Result<(), AllocError>
    ensures rows { OnOk result (asked.new.rows.items ≡ asked.old.rows.items ++ (block.row ∷ [])) }
    ensures choices { OnOk result (asked.new.choices.items ≡ asked.old.choices.items ++ (block.choice ∷ [])) }
    ensures turns { OnOk result
        (turns.new ≡ turns.old ++ (record { den = near.den; at = near.at; block = Some block } ∷ [])) }
{
    asked.rows.push(block.row)?;
    asked.choices.push(block.choice.copied(alloc)?)?;
    turns.push(Turn {
        den: near.den,
        at: near.at,
        block: Some(block),
    })?;
    Ok(())
}

// The point of a turn with its multipliers, over the least denominator.
fn turn_point(
    alloc: Global,
    prices: &[i128],
    weights: &[u32],
    rows: &[Row],
) -> Result<Nearest, AllocError>
    requires { IsProblem prices.now weights.now rows.now }
    ensures shown { IfOk result
        (λ p. IsShownNearest prices.now weights.now rows.now p.den p.at p.first p.second) }
    ensures lowest { IfOk result (λ p. IsLowest p.den p.at p.first p.second) }
{
    if prices.is_empty() {
        return Ok(Nearest {
            den: 1,
            at: NumList::new(alloc),
            first: NumList::new(alloc),
            second: NumList::new(alloc),
        });
    }
    let near = nearest(alloc, prices, weights, rows)?;
    reduced(alloc, near)
}

fn copied(alloc: Global, numbers: &[i128]) -> Result<NumList, AllocError>
    ensures { IfOk result (λ list. list ≡ numbers.now) }
{
    let list = Vec::from_slice(alloc, numbers)?;
    Ok(NumList::from_vec(list))
}
