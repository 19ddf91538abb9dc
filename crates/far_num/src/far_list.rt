ghost use Rattle.far_num.specs.declared.Far.{Far};
ghost use Rattle.std.specs.Prelude.{IfOk, List, [], if◌then◌else◌, is_ok, ◌++◌, ◌∷◌, ◌≡◌};

use crate::Far;
use std::alloc::{AllocError, Global};
use std::marker::Model;

/// A list of pairs.
#[derive(Debug, Drop)]
pub struct FarList {
    pairs: Vec<Far>,
}

impl Model for FarList {
    ghost Value = { List Far };

    ghost view = { λ list. list.pairs.items };
}

impl FarList {
    /// The empty list, with room for that many pairs, so that it need not grow before it has more. The only error is out of
    /// memory.
    pub fn with_capacity(alloc: Global, pairs: usize) -> Result<Self, AllocError>
        ensures { IfOk result (λ list. list ≡ []) }
    {
        Ok(FarList {
            pairs: Vec::with_capacity(alloc, pairs)?,
        })
    }

    /// Appends one pair. If memory runs out, the list stays as it is.
    pub fn push(&mut self, pair: Far) -> Result<(), AllocError>
        ensures { self.new ≡ (if is_ok result then self.old ++ pair ∷ [] else self.old) }
    {
        self.pairs.push(pair)?;
        Ok(())
    }

    /// The pairs in order.
    pub fn items(&self) -> &[Far]
        ensures { result.now ≡ self.now }
    {
        self.pairs.as_slice()
    }
}
