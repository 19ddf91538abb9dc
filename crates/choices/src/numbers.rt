// Lists of numbers of bids.
ghost use Rattle.std.specs.Prelude.{◌≡◌, ◌<◌, [], ◌∷◌, ◌++◌, length, slice_set, OnOk, OnErr, IfOk};

use std::alloc::{AllocError, Global};
use std::marker::Model;

/// A list of numbers, such as bid numbers.
#[derive(Debug, Drop)]
pub struct Numbers {
    numbers: Vec<u16>,
}

impl Model for Numbers {
    ghost use Rattle.std.specs.Prelude.{List, ℕ};

    ghost Value = { List ℕ };

    ghost view = { λ list. list.numbers.items };
}

impl Numbers {
    /// The empty list. It takes no memory.
    pub fn new(alloc: Global) -> Numbers
        ensures { result ≡ [] }
    {
        Numbers {
            numbers: Vec::new(alloc),
        }
    }

    /// A list of these numbers.
    pub fn from_slice(alloc: Global, numbers: &[u16]) -> Result<Numbers, AllocError>
        ensures { IfOk result (λ list. list ≡ numbers.now) }
    {
        let numbers = Vec::from_slice(alloc, numbers)?;
        Ok(Numbers { numbers })
    }

    /// A copy of the list.
    pub fn copied(&self, alloc: Global) -> Result<Numbers, AllocError>
        ensures { IfOk result (λ list. list ≡ self.now) }
    {
        let numbers = Vec::from_slice(alloc, &self.numbers)?;
        Ok(Numbers { numbers })
    }

    /// Appends one number. If memory runs out, the list stays as it is.
    pub fn push(&mut self, item: u16) -> Result<(), AllocError>
        ensures pushed { OnOk result (self.new ≡ self.old ++ item ∷ []) }
        ensures unchanged { OnErr result (self.new ≡ self.old) }
    {
        self.numbers.push(item)?;
        Ok(())
    }

    /// Puts one number first. If memory runs out, the list stays as it is.
    pub fn push_front(&mut self, item: u16) -> Result<(), AllocError>
        ensures pushed { OnOk result (self.new ≡ item ∷ self.old) }
        ensures unchanged { OnErr result (self.new ≡ self.old) }
    {
        self.numbers.insert(0, item)?;
        Ok(())
    }

    /// Sets the number at a place, counted from 0. It takes no memory.
    pub fn set(&mut self, place: usize, item: u16)
        requires { place < length self.old }
        ensures { self.new ≡ slice_set self.old place item }
    {
        self.numbers[place] = item;
    }

    /// The numbers in order.
    pub fn items(&self) -> &[u16]
        ensures { result.now ≡ self.now }
    {
        self.numbers.as_slice()
    }
}
