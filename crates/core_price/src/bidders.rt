// Winners as bidders.
ghost use Rattle.core_laws.specs.Winners;
ghost use Rattle.core_laws.specs.Winners.{has_member, winners_in};
ghost use Rattle.std.specs.Prelude.{IfOk, OnOk, [], length, if◌then◌else◌, ◌++◌, ◌<◌, ◌==◌, ◌%◌, ◌^◌, ◌∷◌, ◌≡◌};

use choices::{Choice, Numbers};
use std::alloc::{AllocError, Global};

/// How many bidders win.
pub fn count_winners(winners: &Choice) -> usize
    ensures { result ≡ winners_in winners.now }
{
    let numbers = winners.numbers();
    let mut count = 0;
    for number in numbers {
        if *number != 0 {
            count += 1;
        }
    }
    count
}

/// A number for each bidder from one for each winner in order: 0 for losers. The only error is out of memory.
pub fn for_bidders(alloc: Global, winners: &Choice, at: &[i128]) -> Result<Vec<i128>, AllocError>
    requires { length at.now ≡ winners_in winners.now }
    ensures { IfOk result (λ v. v.items ≡ Winners.for_bidders winners.now at.now) }
{
    let numbers = winners.numbers();
    let mut list = Vec::new(alloc);
    let mut winner = 0;
    for number in numbers {
        if *number == 0 {
            list.push(0)?;
        } else {
            list.push(at[winner])?;
            winner += 1;
        }
    }
    Ok(list)
}

/// The bidders of a set of winners, rising. Bit `i` stands for the winner `i + 1` in order. The only error is out of memory.
pub fn members_of(alloc: Global, winners: &Choice, bits: u16) -> Result<Numbers, AllocError>
    requires { length winners.now < 2 ^ 16 }
    ensures { IfOk result (λ list. list ≡ Winners.members_of (has_member winners.now bits) (length winners.now)) }
{
    let mut list = Numbers::new(alloc);
    let mut rest = bits;
    for (k, number) in winners.numbers().iter().enumerate() {
        if *number != 0 {
            add_lowest(&mut list, rest, k as u16 + 1)?;
            rest /= 2;
        }
    }
    Ok(list)
}

// Appends the bidder, if the lowest bit is set.
fn add_lowest(list: &mut Numbers, bits: u16, bidder: u16) -> Result<(), AllocError>
    ensures { OnOk result (list.new ≡ list.old ++ (if (bits % 2) == 1 then bidder ∷ [] else [])) }
{
    if bits % 2 == 1 {
        list.push(bidder)?;
    }
    Ok(())
}
