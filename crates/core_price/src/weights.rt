// The weights of the winners.
ghost use Rattle.core_laws.specs.Weights.{FewWin, ManyWin, WeighAlike, weights_in};
ghost use Rattle.core_laws.specs.Winners.{winners_in};
ghost use Rattle.std.specs.Prelude.{IfOk, IsTrue, length, not, ◌≡◌};

use choices::Choice;
use limits::{MOST_WEIGHTED_WINNERS, MOST_WINNERS};
use std::alloc::{AllocError, Global};

/// The weights of the winners in order, from one for each bidder.
pub(crate) fn winner_weights(
    alloc: Global,
    winners: &Choice,
    weights: &[u32],
) -> Result<Vec<u32>, AllocError>
    requires { length weights.now ≡ length winners.now }
    ensures { IfOk result (λ v. v.items ≡ weights_in winners.now weights.now) }
{
    let numbers = winners.numbers();
    let mut list = Vec::new(alloc);
    for k in 0..numbers.len() {
        if numbers[k] != 0 {
            list.push(weights[k])?;
        }
    }
    Ok(list)
}

/// Whether more winners than can be priced win, `count` of them.
pub fn many_win(count: usize, winners: &Choice, weights: &[u32]) -> bool
    requires long { length weights.now ≡ length winners.now }
    requires count { count ≡ winners_in winners.now }
    ensures many { IsTrue result → ManyWin winners.now weights.now }
    ensures few { IsTrue (not result) → FewWin winners.now weights.now }
{
    if count > MOST_WINNERS {
        return true;
    }
    if count <= MOST_WEIGHTED_WINNERS {
        return false;
    }
    !weigh_alike(winners, weights)
}

/// Whether all winners weigh 1.
fn weigh_alike(winners: &Choice, weights: &[u32]) -> bool
    requires { length weights.now ≡ length winners.now }
    ensures alike { IsTrue result → WeighAlike winners.now weights.now }
    ensures apart { IsTrue (not result) → WeighAlike winners.now weights.now → ⊥ }
{
    let numbers = winners.numbers();
    for k in 0..numbers.len() {
        if numbers[k] != 0 {
            if weights[k] != 1 {
                return false;
            }
        }
    }
    true
}
