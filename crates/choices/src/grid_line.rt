// One line of a grid, in the size that it was made with.
ghost use Rattle.std.specs.Prelude.{◌≡◌, ◌+◌, ◌<◌, ◌≤◌, length, map, take, drop, slice_index_or, pos, IfOk, IsTrue};
ghost use Rattle.choices.specs.GridLines.{numbers_in};
ghost use Rattle.choices.specs.LentLines.{numbers_of};

use std::alloc::AllocError;
use std::rc::RcSlice;

/// A line of a grid. Grids may share it.
#[derive(Drop)]
pub(crate) enum GridLine {
    /// Numbers of 32 bits, none below 0: they take a quarter of the room.
    Short(RcSlice<u32>),
    /// Numbers of 128 bits.
    Wide(RcSlice<i128>),
}

/// The numbers of a line, in the size that the grid keeps.
#[derive(Clone, Copy)]
pub enum LineNumbers<'a> {
    /// Numbers of 32 bits, none below 0.
    Short(&'a [u32]),
    /// Numbers of 128 bits.
    Wide(&'a [i128]),
}

impl LineNumbers<'_> {
    /// How many numbers there are.
    pub fn count(&self) -> usize
        ensures { result ≡ length (numbers_of self.now) }
    {
        match self {
            LineNumbers::Short(numbers) => numbers.len(),
            LineNumbers::Wide(numbers) => numbers.len(),
        }
    }
}

impl GridLine {
    /// How many numbers there are.
    pub(crate) fn len(&self) -> usize
        ensures { result ≡ length (numbers_in self.now) }
    {
        match self {
            GridLine::Short(numbers) => numbers.len(),
            GridLine::Wide(numbers) => numbers.len(),
        }
    }

    /// This line for another grid: its numbers are shared, not copied.
    pub(crate) fn share(&self) -> Result<GridLine, AllocError>
        ensures { IfOk result (λ line. numbers_in line ≡ numbers_in self.now) }
    {
        match self {
            GridLine::Short(numbers) => Ok(GridLine::Short(numbers.clone()?)),
            GridLine::Wide(numbers) => Ok(GridLine::Wide(numbers.clone()?)),
        }
    }

    /// The numbers.
    pub(crate) fn numbers(&self) -> LineNumbers<'_>
        ensures { numbers_of result ≡ numbers_in self.now }
    {
        match self {
            GridLine::Short(numbers) => LineNumbers::Short(numbers.as_slice()),
            GridLine::Wide(numbers) => LineNumbers::Wide(numbers.as_slice()),
        }
    }

    /// The number at a place.
    pub(crate) fn entry(&self, place: usize) -> i128
        requires { place < length (numbers_in self.now) }
        ensures { result ≡ slice_index_or (numbers_in self.now) place (pos 0) }
    {
        match self {
            GridLine::Short(numbers) => numbers.as_slice()[place] as i128,
            GridLine::Wide(numbers) => numbers.as_slice()[place],
        }
    }

    /// Writes the numbers from a place on, as many as there is room for.
    pub(crate) fn put_part(&self, from: usize, to: &mut [i128])
        requires { from + length to.old ≤ length (numbers_in self.now) }
        ensures { to.new ≡ take (length to.old) (drop from (numbers_in self.now)) }
    {
        let end = from + to.len();
        match self {
            GridLine::Short(numbers) => widen_into(to, &numbers.as_slice()[from..end]),
            GridLine::Wide(numbers) => to.copy_from_slice(&numbers.as_slice()[from..end]),
        }
    }

    /// Whether another line is seen to have the same numbers: it isn't if they are of another size.
    pub(crate) fn is_same(&self, other: &GridLine) -> bool
        ensures { IsTrue result → numbers_in self.now ≡ numbers_in other.now }
    {
        match self {
            GridLine::Short(numbers) => other.has_short(numbers.as_slice()),
            GridLine::Wide(numbers) => other.has_wide(numbers.as_slice()),
        }
    }

    fn has_short(&self, others: &[u32]) -> bool
        ensures { IsTrue result → map (λ n. pos n) others.now ≡ numbers_in self.now }
    {
        match self {
            GridLine::Short(numbers) => numbers.as_slice() == others,
            GridLine::Wide(_) => false,
        }
    }

    fn has_wide(&self, others: &[i128]) -> bool
        ensures { IsTrue result → others.now ≡ numbers_in self.now }
    {
        match self {
            GridLine::Short(_) => false,
            GridLine::Wide(numbers) => numbers.as_slice() == others,
        }
    }
}

/// The numbers in 128 bits each.
fn widen_into(to: &mut [i128], numbers: &[u32])
    requires { length to.old ≡ length numbers.now }
    ensures { to.new ≡ map (λ n. pos n) numbers.now }
{
    for i in 0..numbers.len() {
        to[i] = numbers[i] as i128;
    }
}
