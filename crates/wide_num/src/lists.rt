ghost use Rattle.std.specs.Prelude.{IfOk, List, OnErr, OnOk, [], if◌then◌else◌, is_ok, ℕ, ℤ, ◌++◌, ◌∷◌, ◌≡◌};

use std::alloc::{AllocError, Global};
use std::marker::Model;

/// A text as a list of bytes.
#[derive(Debug, Drop)]
pub struct Text {
    bytes: Vec<u8>,
}

impl Model for Text {
    ghost Value = { List ℕ };

    ghost view = { λ text. text.bytes.items };
}

impl Text {
    /// The empty text. It takes no memory.
    pub fn new(alloc: Global) -> Self
        ensures { result ≡ [] }
    {
        Text {
            bytes: Vec::new(alloc),
        }
    }

    /// The empty text, with room for that many bytes, so that it need not grow before it has more. The only error is out of
    /// memory.
    pub fn with_capacity(alloc: Global, bytes: usize) -> Result<Self, AllocError>
        ensures { IfOk result (λ text. text ≡ []) }
    {
        Ok(Text {
            bytes: Vec::with_capacity(alloc, bytes)?,
        })
    }

    /// Appends one byte. If memory runs out, the text stays as it is.
    pub fn push(&mut self, byte: u8) -> Result<(), AllocError>
        ensures { self.new ≡ (if is_ok result then self.old ++ byte ∷ [] else self.old) }
    {
        self.bytes.push(byte)?;
        Ok(())
    }

    /// Appends all bytes of the piece. If memory runs out, the text stays as it is.
    pub fn add(&mut self, piece: &[u8]) -> Result<(), AllocError>
        ensures { self.new ≡ (if is_ok result then self.old ++ piece.now else self.old) }
    {
        self.bytes.extend_from_slice(piece)
    }

    /// The bytes in order.
    pub fn items(&self) -> &[u8]
        ensures { result.now ≡ self.now }
    {
        self.bytes.as_slice()
    }
}

/// A list of whole numbers.
#[derive(Debug, Drop)]
pub struct NumList {
    numbers: Vec<i128>,
}

impl Model for NumList {
    ghost Value = { List ℤ };

    ghost view = { λ list. list.numbers.items };
}

impl NumList {
    /// The empty list. It takes no memory.
    pub fn new(alloc: Global) -> Self
        ensures { result ≡ [] }
    {
        NumList {
            numbers: Vec::new(alloc),
        }
    }

    /// The empty list, with room for that many numbers, so that it need not grow before it has more. The only error is out of
    /// memory.
    pub fn with_capacity(alloc: Global, numbers: usize) -> Result<Self, AllocError>
        ensures { IfOk result (λ list. list ≡ []) }
    {
        Ok(NumList {
            numbers: Vec::with_capacity(alloc, numbers)?,
        })
    }

    /// Appends one number. If memory runs out, the list stays as it is.
    pub fn push(&mut self, number: i128) -> Result<(), AllocError>
        ensures { self.new ≡ (if is_ok result then self.old ++ number ∷ [] else self.old) }
    {
        self.numbers.push(number)?;
        Ok(())
    }

    /// The list of these numbers. It takes no memory.
    pub fn from_vec(numbers: Vec<i128>) -> Self
        ensures { result ≡ numbers.items }
    {
        NumList { numbers }
    }

    /// The numbers as a `Vec`. It takes no memory.
    pub fn into_vec(self) -> Vec<i128>
        ensures { result.items ≡ self }
    {
        self.numbers
    }

    /// The numbers in order.
    pub fn items(&self) -> &[i128]
        ensures { result.now ≡ self.now }
    {
        self.numbers.as_slice()
    }
}

/// A list of items that only grows. Its value is the list of its items, which are shown in order.
#[derive(Drop)]
pub struct ItemList<T> {
    items: Vec<T>,
}

impl<T> Model for ItemList<T> {
    ghost Value = { List T };

    ghost view = { λ list. list.items.items };
}

impl<T: Drop> ItemList<T> {
    /// The empty list. It takes no memory.
    pub fn new(alloc: Global) -> ItemList<T>
        ensures { result ≡ [] }
    {
        ItemList {
            items: Vec::new(alloc),
        }
    }

    /// Appends one item. The only error is out of memory, which leaves the list as it is.
    pub fn push(&mut self, item: T) -> Result<(), AllocError>
        ensures pushed { OnOk result (self.new ≡ self.old ++ item ∷ []) }
        ensures unchanged { OnErr result (self.new ≡ self.old) }
    {
        self.items.push(item)?;
        Ok(())
    }

    /// The items in order.
    pub fn items(&self) -> &[T]
        ensures { result.now ≡ self.now }
    {
        self.items.as_slice()
    }

    /// The items as a `Vec`. It takes no memory.
    pub fn into_vec(self) -> Vec<T>
        ensures { result.items ≡ self }
    {
        self.items
    }
}
