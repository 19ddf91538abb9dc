// Orders that allow a choice, and the first of them.
ghost use Rattle.std.specs.Prelude.{◌≡◌, ◌+◌, ◌^◌, ◌<◌, ◌≤◌, ◌↔◌, IsTrue, IsFalse, IfOk, IfSome, IfNone, length};
ghost use Rattle.slot_places.specs.Slots.{bids_of};
ghost use Rattle.slot_places.specs.Board.{board_of, market_of_slots, start_after, starts_at, is_known, can_place};
ghost use Rattle.slot_places.specs.SetTable.{holds};
ghost use Rattle.slot_places.specs.Orders.{allows, IsPlacement};
ghost use Rattle.slot_places.specs.Steps.{CanFollow, IsFirstNext};
ghost use Rattle.limits.specs.declared.TheConstants.{MOST_PLACED};

use crate::Slots;
use crate::sets::{is_in, weight};
use choices::{Choice, Numbers};
use std::alloc::{AllocError, Global};

impl Slots {
    /// Whether the order lists each bidder once and places each bidder with a number other than 0 at the start of this bid, and
    /// the choice has one number for each bidder, each the number of one of its bids or 0. It takes no memory.
    pub fn allows(&self, order: &[u16], choice: &Choice) -> bool
        ensures { result ≡ allows self.now order.now choice.now }
    {
        let numbers = choice.numbers();
        if order.len() != self.bidders() {
            return false;
        }
        if !self.is_known(numbers) {
            return false;
        }
        let mut set = 0;
        for j in order {
            if !self.can_follow(numbers, set, *j) {
                return false;
            }
            set += weight(*j);
        }
        true
    }

    /// The first order that allows the choice, compared entry by entry, the smaller bidder number first, and None exactly if
    /// the choice isn't allowed. The only error is out of memory.
    pub fn order_of(&self, alloc: Global, choice: &Choice) -> Result<Option<Numbers>, AllocError>
        ensures some { IfOk result (λ found. IfSome found (λ order. IsPlacement self.now choice.now order)) }
        ensures none { IfOk result (λ found. IfNone found (IsFalse ((market_of_slots self.now).allowed choice.now))) }
    {
        let numbers = choice.numbers();
        if !self.is_known(numbers) {
            return Ok(None);
        }
        let count = self.bidders();
        let mut order = Numbers::new(alloc);
        let mut set = 0;
        for k in 0..count {
            let Some(j) = self.next_bidder(numbers, count - 1 - k, set) else {
                return Ok(None);
            };
            order.push(j)?;
            set += weight(j);
        }
        Ok(Some(order))
    }

    /// Whether there is one number for each bidder, each the number of one of its bids or 0.
    fn is_known(&self, numbers: &[u16]) -> bool
        ensures { result ≡ is_known (board_of self.now) numbers.now }
    {
        if numbers.len() != self.bidders() {
            return false;
        }
        for k in 0..numbers.len() {
            if numbers[k] > self.places(k as u16 + 1) {
                return false;
            }
        }
        true
    }

    /// The smallest bidder that can be next after a set, such that that many others can be placed after it.
    fn next_bidder(&self, numbers: &[u16], left: usize, set: usize) -> Option<u16>
        requires known { IsTrue (is_known (board_of self.now) numbers.now) }
        requires set { set < 2 ^ length self.now.bidders }
        ensures some { IfSome result (λ j. IsFirstNext (board_of self.now) numbers.now left (holds set) j) }
        ensures none { IfNone result (IsFalse (can_place (board_of self.now) numbers.now (left + 1) (holds set))) }
    {
        let count = self.bidders();
        for k in 0..count {
            let next = k as u16 + 1;
            if !self.can_follow(numbers, set, next) {
                continue;
            }
            if self.can_place(numbers, left, set + weight(next)) {
                return Some(next);
            }
        }
        None
    }

    /// Whether that many bidders can be placed after a set, each with its number.
    fn can_place(&self, numbers: &[u16], left: usize, set: usize) -> bool
        requires known { IsTrue (is_known (board_of self.now) numbers.now) }
        requires set { set < 2 ^ length self.now.bidders }
        ensures { result ≡ can_place (board_of self.now) numbers.now left (holds set) }
    {
        if left == 0 {
            return true;
        }
        for k in 0..self.bidders() {
            let j = k as u16 + 1;
            if !self.can_follow(numbers, set, j) {
                continue;
            }
            if self.can_place(numbers, left - 1, set + weight(j)) {
                return true;
            }
        }
        false
    }

    /// Whether `j` is a bidder outside a set that can be given its number after the set.
    fn can_follow(&self, numbers: &[u16], set: usize, j: u16) -> bool
        requires { IsTrue (is_known (board_of self.now) numbers.now) }
        ensures { IsTrue result ↔ CanFollow (board_of self.now) numbers.now (holds set) j }
    {
        if !self.is_bidder(j) {
            return false;
        }
        if is_in(set, j) {
            return false;
        }
        self.may_start(set, j, numbers[j as usize - 1])
    }

    /// Whether a bidder has this number.
    fn is_bidder(&self, j: u16) -> bool
        ensures bidder { IsTrue result ↔ ((0 < j) × (j ≤ length self.now.bidders)) }
        ensures most { IsTrue result → j ≤ MOST_PLACED }
    {
        0 < j && j as usize <= self.bidders()
    }

    /// Whether bidder `j` can be given number `i` after a set.
    fn may_start(&self, set: usize, j: u16, i: u16) -> bool
        requires bidder { (0 < j) × (j ≤ length self.now.bidders) }
        requires bid { i ≤ length (bids_of self.now j) }
        ensures { result ≡ starts_at self.now (start_after self.now (holds set)) j i }
    {
        if i == 0 {
            return true;
        }
        let place = self.place(j, i);
        place.start == self.start_after(set)
    }

    /// The first slot after the bidders of a set.
    pub fn start_after(&self, set: usize) -> u16
        ensures { result ≡ start_after self.now (holds set) }
    {
        let mut start: u16 = 1;
        for k in 0..self.bidders() {
            let j = k as u16 + 1;
            if is_in(set, j) {
                start += self.width(j);
            }
        }
        start
    }
}
