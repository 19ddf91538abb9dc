ghost use Rattle.limits.specs.declared.TheConstants.{MOST_WINNERS};
ghost use Rattle.lin_solve.specs.Matrix.{IsSquare, row};
ghost use Rattle.std.specs.Prelude.{IfOk, List, length, ℕ, ℤ, ◌*◌, ◌+◌, ◌<◌, ◌≡◌, ◌≤◌};
ghost use Rattle.wide_num.specs.Sums.{nth};

use std::alloc::{AllocError, Global};
use std::marker::Model;
use wide_num::NumList;

/// A square matrix of whole numbers with 1 to `MOST_WINNERS` lines. Contracts see it as the list of its lines.
#[derive(Debug, Drop)]
pub struct Square {
    lines: Vec<NumList>,
}

impl Model for Square {
    ghost Value = { List (List ℤ) };

    ghost view = { λ s. s.lines.items };

    ghost invariant = { λ s. IsSquare s.lines.items };
}

impl Square {
    /// The matrix of this size whose lines, one after the other, are the entries.
    pub fn new(alloc: Global, size: usize, entries: &[i128]) -> Result<Square, AllocError>
        requires size { (1 ≤ size) × (size ≤ MOST_WINNERS) }
        requires entries { length entries.now ≡ size * size }
        ensures square { IfOk result (λ m. IsSquare m) }
        ensures long { IfOk result (λ m. length m ≡ size) }
        ensures entries { IfOk result (λ m. (k i : ℕ) → k < size → i < size
            → row m k i ≡ nth entries.now (k * size + i)) }
    {
        let mut lines = Vec::with_capacity(alloc, size)?;
        for k in 0..size {
            lines.push(line_of(alloc, entries, k * size, size)?)?;
        }
        Ok(Square { lines })
    }

    /// The lines in order.
    pub(crate) fn lines(&self) -> &[NumList]
        ensures same { result.now ≡ self.now }
        ensures square { IsSquare self.now }
    {
        self.lines.as_slice()
    }
}

// The `size` entries from `start` on.
fn line_of(
    alloc: Global,
    entries: &[i128],
    start: usize,
    size: usize,
) -> Result<NumList, AllocError>
    requires { start + size ≤ length entries.now }
    ensures long { IfOk result (λ y. length y ≡ size) }
    ensures entries { IfOk result (λ y. (i : ℕ) → i < size → nth y i ≡ nth entries.now (start + i)) }
{
    let mut line = NumList::with_capacity(alloc, size)?;
    for i in 0..size {
        line.push(entries[start + i])?;
    }
    Ok(line)
}
