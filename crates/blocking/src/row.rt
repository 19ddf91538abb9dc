// The row that a choice gives at a point.
ghost use Rattle.std.specs.Prelude.{◌≡◌, ℤ, pos, ◌+◌, ◌*◌, ◌^◌, ◌<◌, ◌≤ℤ◌, ◌<ℤ◌, ◌+ℤ◌, ◌*ℤ◌, length, int_le, if◌then◌else◌};
ghost use Rattle.auction_model.specs.Lowered.{of_bidder};
ghost use Rattle.auction_model.specs.Prices.{paid, sum_over};
ghost use Rattle.auction_model.specs.Blocks.{row_bound};
ghost use Rattle.core_laws.specs.Winners.{idle_row, bits_after};
ghost use Rattle.blocking.specs.Look.{CanLook, IsFound, payments};

use choices::{Choice, Chooser};
use far_num::Row;

/// The winners that the choice doesn't use and that pay no more than their bid, with the bound that the choice gives them.
/// `excess` is what the greatest lowered sum is above all payments, times `den`.
pub(crate) fn row_given<C: Chooser>(
    chooser: &C,
    den: i128,
    at: &[i128],
    choice: &Choice,
    excess: i128,
) -> Row
    requires look { CanLook (C.market chooser.now) (C.chosen chooser.now) den at.now }
    requires found { IsFound (C.market chooser.now) (C.chosen chooser.now) den at.now choice.now
        (excess +ℤ paid (C.market chooser.now) (payments den at.now)) }
    ensures members { result.members
        ≡ bits_after (C.chosen chooser.now)
        (idle_row (C.market chooser.now) (C.chosen chooser.now) (payments den at.now) choice.now) 0 }
    ensures bound { result.bound
        ≡ row_bound (C.market chooser.now) (C.chosen chooser.now)
        (idle_row (C.market chooser.now) (C.chosen chooser.now) (payments den at.now) choice.now) choice.now }
{
    let members = row_members(chooser, den, at, choice);
    let paid = row_paid(chooser, den, at, choice);
    let bound = exact_quotient(excess + paid, den);
    Row { members, bound }
}

/// The members of the row as bits: bit `i` stands for the winner `i + 1` in order.
fn row_members<C: Chooser>(chooser: &C, den: i128, at: &[i128], choice: &Choice) -> u16
    requires look { CanLook (C.market chooser.now) (C.chosen chooser.now) den at.now }
    requires choice { length choice.now ≡ (C.market chooser.now).bidders }
    ensures { result
        ≡ bits_after (C.chosen chooser.now)
        (idle_row (C.market chooser.now) (C.chosen chooser.now) (payments den at.now) choice.now) 0 }
{
    let mut members: u16 = 0;
    let mut k = at.len();
    while k > 0 {
        k -= 1;
        if chooser.winners().number(k as u16 + 1) != 0 {
            members = with_bit(members, is_idle(chooser, den, at, choice, k));
        }
    }
    members
}

fn with_bit(members: u16, is_in: bool) -> u16
    requires { members < 2 ^ 15 }
    ensures { result ≡ (if is_in then 1 else 0) + 2 * members }
{
    if is_in { members * 2 + 1 } else { members * 2 }
}

/// What the members of the row pay, times `den`.
fn row_paid<C: Chooser>(chooser: &C, den: i128, at: &[i128], choice: &Choice) -> i128
    requires look { CanLook (C.market chooser.now) (C.chosen chooser.now) den at.now }
    requires choice { length choice.now ≡ (C.market chooser.now).bidders }
    ensures value { result
        ≡ sum_over (idle_row (C.market chooser.now) (C.chosen chooser.now) (payments den at.now) choice.now)
        (of_bidder at.now) (C.market chooser.now).bidders }
    ensures small { (pos 0 ≤ℤ result) × (result <ℤ pos (2 ^ 120)) }
{
    let mut sum: i128 = 0;
    for (k, paid) in at.iter().enumerate() {
        sum += part(is_idle(chooser, den, at, choice, k), *paid);
    }
    sum
}

fn part(is_in: bool, paid: i128) -> i128
    ensures { result ≡ if is_in then paid else pos 0 }
{
    if is_in { paid } else { 0 }
}

/// Whether bidder `k + 1` wins, isn't used by the choice and pays no more than its bid.
fn is_idle<C: Chooser>(chooser: &C, den: i128, at: &[i128], choice: &Choice, k: usize) -> bool
    requires look { CanLook (C.market chooser.now) (C.chosen chooser.now) den at.now }
    requires choice { length choice.now ≡ (C.market chooser.now).bidders }
    requires bidder { k < length at.now }
    ensures { result ≡ idle_row (C.market chooser.now) (C.chosen chooser.now) (payments den at.now) choice.now (k + 1) }
{
    let j = k as u16 + 1;
    let wins = chooser.winners().number(j) != 0;
    let is_used = choice.number(j) != 0;
    let own = chooser.winner_value(j);
    wins && (!is_used && is_within(at[k], den, own))
}

fn is_within(paid: i128, den: i128, own: i128) -> bool
    requires { (pos 0 ≤ℤ (den *ℤ own)) × ((den *ℤ own) <ℤ pos (2 ^ 120)) }
    ensures { result ≡ int_le paid (den *ℤ own) }
{
    paid <= den * own
}

// The quotient of a division without rest.
fn exact_quotient(total: i128, den: i128) -> i128
    requires total { pos 0 ≤ℤ total }
    requires den { pos 1 ≤ℤ den }
    ensures { (x : ℤ) → den *ℤ x ≡ total → result ≡ x }
{
    total / den
}
