ghost use Rattle.std.specs.Prelude.{◌≡◌, ⊤, ◌∷◌, [], IfOk};
ghost use Rattle.auction_model.specs.Greatest.{IsWinning};
ghost use Rattle.auction_model.specs.Lawful.{IsMarket};
ghost use Rattle.auction_tests.specs.OneOfTwo.{one_of_two, first_wins};

use blocking::{Block, Looked, find_block};
use choices::{Choice, Chooser, Found, Numbers};
use std::alloc::{AllocError, Global};
use std::process::Abort;

// Two bidders bid 5 and 3 for one thing, so the first wins.
#[derive(Drop)]
struct OneOfTwo {
    winners: Choice,
    ghost first: { winners ≡ first_wins },
    ghost lawful: { IsMarket one_of_two },
    ghost winning: { IsWinning one_of_two first_wins },
}

impl Chooser for OneOfTwo {
    type Table = ();

    ghost market = { λ s. one_of_two };

    ghost chosen = { λ s. first_wins };

    ghost is_table = { λ s den surplus table. ⊤ };

    fn members(&self) -> usize {
        2
    }

    fn winners(&self) -> &Choice {
        &self.winners
    }

    fn winner_value(&self, j: u16) -> i128 {
        if j == 1 { 5 } else { 0 }
    }

    // The second bidder loses, so its surplus is 0.
    fn best_lowered(
        &self,
        alloc: Global,
        den: i128,
        surplus: &[i128],
    ) -> Result<Found<()>, AllocError> {
        if surplus[0] <= 2 * den {
            let choice = choice_of(alloc, 1, 0)?;
            return Ok(Found {
                choice,
                sum: 5 * den - surplus[0],
                table: (),
            });
        }
        let choice = choice_of(alloc, 0, 1)?;
        Ok(Found {
            choice,
            sum: 3 * den,
            table: (),
        })
    }

    ghost lawful = { λ s. s.lawful };

    ghost winning = { λ s. s.winning };
}

fn choice_of(alloc: Global, first: u16, second: u16) -> Result<Choice, AllocError>
    ensures { IfOk result (λ choice. choice ≡ first ∷ second ∷ []) }
{
    let mut numbers = Numbers::new(alloc);
    numbers.push(first)?;
    numbers.push(second)?;
    Ok(Choice::new(numbers))
}

fn one_of_two(alloc: Global) -> Result<OneOfTwo, AllocError> {
    let winners = choice_of(alloc, 1, 0)?;
    Ok(OneOfTwo { winners })
}

/// Asserts the members and the bound of a block's row, its excess and its choice.
fn block_is(rt: &impl Abort, block: &Block, row: (u16, i128), excess: i128, choice: &[u16]) {
    assert_eq!(rt; block.row.members, row.0);
    assert_eq!(rt; block.row.bound, row.1);
    assert_eq!(rt; block.excess, excess);
    assert!(rt; block.choice.numbers() == choice);
}

/// Asserts what a search found.
fn found_is(rt: &impl Abort, found: &Found<()>, sum: i128, choice: &[u16]) {
    assert_eq!(rt; found.sum, sum);
    assert!(rt; found.choice.numbers() == choice);
}

#[test]
fn the_loser_blocks_a_payment_of_nothing(rt: HostRuntime) -> Result<(), AllocError> {
    let chooser = one_of_two(rt.alloc())?;
    match find_block(rt.alloc(), &chooser, 1, &[0, 0])? {
        Looked::Free(_) => assert!(rt; false),
        Looked::Block(block) => block_is(&rt, &block, (1, 3), 3, &[0, 1]),
    }
    Ok(())
}

#[test]
fn nobody_blocks_the_losing_bid_as_payment(rt: HostRuntime) -> Result<(), AllocError> {
    let chooser = one_of_two(rt.alloc())?;
    match find_block(rt.alloc(), &chooser, 1, &[3, 0])? {
        Looked::Free(found) => found_is(&rt, &found, 3, &[1, 0]),
        Looked::Block(_) => assert!(rt; false),
    }
    Ok(())
}
