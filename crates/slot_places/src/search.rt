// What bids count in a search.
ghost use Rattle.std.specs.Prelude.{◌≡◌, ◌+◌, ◌*◌, ◌^◌, ◌≤◌, ◌<◌, length, pos, unsigned_abs, ℤ, neg_ℤ, ◌-ℤ◌, ◌*ℤ◌};
ghost use Rattle.std.specs.Int.{int_max};
ghost use Rattle.auction_model.specs.Lowered.{of_bidder};
ghost use Rattle.limits.specs.declared.TheConstants.{MOST_LOTS};
ghost use Rattle.slot_places.specs.Slots.{amount_of};
ghost use Rattle.slot_places.specs.Board.{board_without, start_after};
ghost use Rattle.slot_places.specs.SetTable.{holds, StaysInRange};

use crate::Slots;

/// What the bids of slots count in a table over sets. Bidder `skip` has no bids. A bid of another bidder counts `den` times its
/// amount less the surplus of its bidder. A bidder with number 0 counts its idle worth. A surplus is times `den`.
#[derive(Drop)]
pub struct Search<'a> {
    pub slots: &'a Slots,
    pub skip: u16,
    pub den: i128,
    pub surplus: &'a [i128],
    pub ghost bidders: { length surplus.now ≡ length slots.now.bidders },
    pub ghost range: { StaysInRange (board_without slots.now skip) (amount_of slots.now) den surplus.now },
}

impl<'a> Search<'a> {
    ghost use Rattle.slot_places.specs.Steps.{searched, counted};

    /// How many bids of bidder `j` count.
    pub fn bids(&self, j: u16) -> u16
        requires { (0 < j) × (j ≤ length self.now.slots.now.bidders) }
        ensures bids { result ≡ (searched self.now).bids j }
        ensures most { result ≤ MOST_LOTS }
    {
        if j == self.skip {
            0
        } else {
            self.slots.places(j)
        }
    }

    /// What number `i` of bidder `j` counts.
    pub fn worth(&self, j: u16, i: u16) -> i128
        requires bidder { (0 < j) × (j ≤ length self.now.slots.now.bidders) }
        requires bid { i ≤ (searched self.now).bids j }
        requires size { unsigned_abs self.now.den * unsigned_abs (amount_of self.now.slots.now j i)
            + unsigned_abs (of_bidder self.now.surplus.now j) ≤ 2 ^ 120 }
        ensures worth { result ≡ counted self.now j i }
        ensures size { unsigned_abs result ≤ 2 ^ 120 }
    {
        let surplus = self.surplus[j as usize - 1];
        if i == 0 {
            return idle_worth(surplus);
        }
        let place = self.slots.place(j, i);
        lowered_worth(self.den, place.amount, surplus)
    }

    /// The first slot after the bidders of a set.
    pub fn start(&self, set: usize) -> u16
        ensures { result ≡ start_after self.now.slots.now (holds set) }
    {
        self.slots.start_after(set)
    }
}

/// What a bid counts.
fn lowered_worth(den: i128, amount: u64, surplus: i128) -> i128
    requires { unsigned_abs den * amount + unsigned_abs surplus ≤ 2 ^ 120 }
    ensures { result ≡ (den *ℤ pos amount) -ℤ surplus }
{
    den * amount as i128 - surplus
}

/// What a bidder without a bid counts.
fn idle_worth(surplus: i128) -> i128
    requires { unsigned_abs surplus ≤ 2 ^ 120 }
    ensures { result ≡ int_max (pos 0) (neg_ℤ surplus) }
{
    if surplus < 0 { -surplus } else { 0 }
}
