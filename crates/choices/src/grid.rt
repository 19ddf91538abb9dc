// Grids.
ghost use Rattle.std.specs.Prelude.{◌≡◌, ◌+◌, ◌<◌, ◌≤◌, ◌++◌, ◌∷◌, [], map, length, take, drop, pos, OnOk, OnErr, IsTrue, slice_index_or};
ghost use Rattle.auction_model.specs.Table.{entry_at};
ghost use Rattle.choices.specs.GridLines.{numbers_in};
ghost use Rattle.choices.specs.LentLines.{numbers_of};
ghost use Rattle.choices.specs.Lines.{width_of, IsEven};

use crate::grid_line::{GridLine, LineNumbers};
use std::alloc::{AllocError, Global};
use std::marker::Model;
use std::rc::RcSlice;
use wide_num::NumList;

/// Lines of equally many numbers. Grids may share lines. Lines and places in a line are counted from 0.
#[derive(Drop)]
pub struct Grid {
    lines: Vec<GridLine>,
}

impl Model for Grid {
    ghost use Rattle.std.specs.Prelude.{map};
    ghost use Rattle.choices.specs.GridLines.{numbers_in};
    ghost use Rattle.choices.specs.Lines.{Lines, IsEven};

    ghost Value = { Lines };

    ghost view = { λ g. map numbers_in g.lines.items };

    ghost invariant = { λ g. IsEven (map numbers_in g.lines.items) };
}

impl Grid {
    /// A grid with no line. It takes no memory.
    pub fn new(alloc: Global) -> Grid
        ensures { result ≡ [] }
    {
        Grid {
            lines: Vec::new(alloc),
        }
    }

    /// The rule that each grid keeps: its lines have equally many numbers. Nothing is done: proofs read the clause.
    pub fn kept(&self)
        ensures { IsEven self.now }
    {
        // The rules of a type are known once its field is used.
        let _ = &self.lines;
    }

    /// How many lines there are.
    pub fn lines(&self) -> usize
        ensures { result ≡ length self.now }
    {
        self.lines.len()
    }

    /// How many numbers each line has, and 0 if there is no line.
    pub fn width(&self) -> usize
        ensures { result ≡ width_of self.now }
    {
        first_width(&self.lines)
    }

    /// Adds a line at the end, which is as long as the others. If memory runs out, the grid stays as it is.
    pub fn push_line(&mut self, line: NumList) -> Result<(), AllocError>
        requires { 0 < length self.old → length line ≡ width_of self.old }
        ensures pushed { OnOk result (self.new ≡ self.old ++ line ∷ []) }
        ensures unchanged { OnErr result (self.new ≡ self.old) }
    {
        let line = RcSlice::from_vec(line.into_vec())?;
        self.lines.push(GridLine::Wide(line))?;
        Ok(())
    }

    /// Adds a line of numbers of 32 bits at the end, which stay so: they take a quarter of the room. If memory runs out, the grid stays as it is.
    pub fn push_short(&mut self, line: Vec<u32>) -> Result<(), AllocError>
        requires { 0 < length self.old → length line.items ≡ width_of self.old }
        ensures pushed { OnOk result (self.new ≡ self.old ++ map (λ n. pos n) line.items ∷ []) }
        ensures unchanged { OnErr result (self.new ≡ self.old) }
    {
        let line = RcSlice::from_vec(line)?;
        self.lines.push(GridLine::Short(line))?;
        Ok(())
    }

    /// Adds a line of another grid at the end, which both then share: its numbers are not copied. It is as long as the others.
    /// If memory runs out, the grid stays as it is.
    pub fn push_shared(&mut self, from: &Grid, line: usize) -> Result<(), AllocError>
        requires line { line < length from.now }
        requires width { 0 < length self.old → width_of from.now ≡ width_of self.old }
        ensures pushed { OnOk result (self.new ≡ self.old ++ slice_index_or from.now line [] ∷ []) }
        ensures unchanged { OnErr result (self.new ≡ self.old) }
    {
        let shared = from.lines[line].share()?;
        self.lines.push(shared)?;
        Ok(())
    }

    /// The numbers of a line.
    pub fn line(&self, line: usize) -> LineNumbers<'_>
        requires { line < length self.now }
        ensures { numbers_of result ≡ slice_index_or self.now line [] }
    {
        let own = line_of(&self.lines, line);
        own.numbers()
    }

    /// The number of a line at a place.
    pub fn entry(&self, line: usize, place: usize) -> i128
        requires line { line < length self.now }
        requires place { place < width_of self.now }
        ensures { result ≡ entry_at self.now line place }
    {
        let own = line_of(&self.lines, line);
        own.entry(place)
    }

    /// Writes the numbers of a line from a place on, as many as there is room for.
    pub fn put_part(&self, line: usize, from: usize, to: &mut [i128])
        requires line { line < length self.now }
        requires part { from + length to.old ≤ width_of self.now }
        ensures { to.new ≡ take (length to.old) (drop from (slice_index_or self.now line [])) }
    {
        let own = line_of(&self.lines, line);
        own.put_part(from, to);
    }

    /// Whether a line is seen to have the numbers of a line of another grid. If the two keep them in different sizes, it isn't.
    pub fn is_line_of(&self, line: usize, other: &Grid, place: usize) -> bool
        requires line { line < length self.now }
        requires place { place < length other.now }
        ensures { IsTrue result → slice_index_or self.now line [] ≡ slice_index_or other.now place [] }
    {
        let own = line_of(&self.lines, line);
        own.is_same(line_of(&other.lines, place))
    }
}

fn first_width(lines: &[GridLine]) -> usize
    ensures { result ≡ width_of (map numbers_in lines.now) }
{
    if lines.is_empty() {
        0
    } else {
        let line = line_of(lines, 0);
        line.len()
    }
}

fn line_of(lines: &[GridLine], line: usize) -> &GridLine
    requires { line < length lines.now }
    ensures { numbers_in result.now ≡ slice_index_or (map numbers_in lines.now) line [] }
{
    &lines[line]
}
