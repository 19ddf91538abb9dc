// Choices.
ghost use Rattle.std.specs.Prelude.{◌≡◌, ◌-◌, ◌≤◌, ◌<◌, length, slice_set, IfOk};
ghost use Rattle.auction_model.specs.Market.{number_of};

use crate::Numbers;
use std::alloc::{AllocError, Global};
use std::marker::Model;

/// A choice names for each bidder, in order, the number of one of its bids, or 0 for none. Bidders and bids are numbered
/// from 1.
#[derive(Debug, Drop)]
pub struct Choice {
    numbers: Numbers,
}

impl Model for Choice {
    ghost use Rattle.std.specs.Prelude.{List, ℕ};

    ghost Value = { List ℕ };

    ghost view = { λ choice. choice.numbers };
}

impl Choice {
    /// The choice of these numbers.
    pub fn new(numbers: Numbers) -> Choice
        ensures { result ≡ numbers }
    {
        Choice { numbers }
    }

    /// The choice of these numbers, copied.
    pub fn from_slice(alloc: Global, numbers: &[u16]) -> Result<Choice, AllocError>
        ensures { IfOk result (λ choice. choice ≡ numbers.now) }
    {
        let numbers = Numbers::from_slice(alloc, numbers)?;
        Ok(Choice { numbers })
    }

    /// The number that bidder `j` is given.
    pub fn number(&self, j: u16) -> u16
        requires { (0 < j) × (j ≤ length self.now) }
        ensures { result ≡ number_of self.now j }
    {
        let numbers = self.numbers();
        numbers[j as usize - 1]
    }

    /// Sets the number of bidder `j`, to 0 or any other number, and leaves all others. It takes no memory.
    pub fn set(&mut self, j: u16, number: u16)
        requires { (0 < j) × (j ≤ length self.old) }
        ensures { self.new ≡ slice_set self.old (j - 1) number }
    {
        self.numbers.set(j as usize - 1, number);
    }

    /// A copy of the choice.
    pub fn copied(&self, alloc: Global) -> Result<Choice, AllocError>
        ensures { IfOk result (λ choice. choice ≡ self.now) }
    {
        let numbers = self.numbers.copied(alloc)?;
        Ok(Choice { numbers })
    }

    /// How many numbers there are.
    pub fn count(&self) -> usize
        ensures { result ≡ length self.now }
    {
        self.numbers().len()
    }

    /// The numbers, bidder by bidder.
    pub fn numbers(&self) -> &[u16]
        ensures { result.now ≡ self.now }
    {
        self.numbers.items()
    }
}
