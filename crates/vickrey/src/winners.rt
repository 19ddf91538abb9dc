// What is kept of winners.
ghost use Rattle.std.specs.Prelude.{◌≡◌, ◌<◌, [], length, map, Some, slice_get, slice_index_or};
ghost use Rattle.vickrey.specs.VickreyValue.{VickreyValue};

use choices::{Grid, Single};
use std::marker::Model;
use value_table::ValueTable;

/// The single winners of a book, in order: each winner, its Vickrey price, the first of the greatest choices without it, and
/// the exact table without it. They are counted from 0.
#[derive(Drop)]
pub struct Vickrey {
    singles: Vec<Single>,
    tables: Vec<ValueTable>,
}

impl Model for Vickrey {
    ghost use Rattle.std.specs.Prelude.{◌≡◌, map, length};
    ghost use Rattle.vickrey.specs.VickreyValue.{VickreyValue};

    ghost Value = { VickreyValue };

    ghost view = { λ v. record { singles = v.singles.items; tables = map (λ t. t.lines) v.tables.items } };

    ghost invariant = { λ v. length v.tables.items ≡ length v.singles.items };
}

impl Vickrey {
    /// These winners, with the table without each of them.
    pub(crate) fn new(singles: Vec<Single>, tables: Vec<ValueTable>) -> Vickrey
        requires { length tables.items ≡ length singles.items }
        ensures singles { result.singles ≡ singles.items }
        ensures tables { result.tables ≡ map (λ t. t.lines) tables.items }
    {
        Vickrey { singles, tables }
    }

    /// How many winners there are.
    pub fn count(&self) -> usize
        ensures { result ≡ length self.now.singles }
    {
        self.singles.len()
    }

    /// The winners in order, each with its Vickrey price and the first of the greatest choices without it.
    pub fn singles(&self) -> &[Single]
        ensures { result.now ≡ self.now.singles }
    {
        &self.singles
    }

    /// Winner `i`, with its Vickrey price and the first of the greatest choices without it.
    pub fn single(&self, i: usize) -> &Single
        requires { i < length self.now.singles }
        ensures { slice_get self.now.singles i ≡ Some result.now }
    {
        &self.singles[i]
    }

    /// The exact table without winner `i`, for the net amounts of the other bidders.
    pub fn table(&self, i: usize) -> &Grid
        requires { i < length self.now.singles }
        ensures { result.now ≡ slice_index_or self.now.tables i [] }
    {
        grid_of(&self.tables, i)
    }
}

fn grid_of(tables: &[ValueTable], i: usize) -> &Grid
    requires { i < length tables.now }
    ensures { result.now ≡ slice_index_or (map (λ t. t.lines) tables.now) i [] }
{
    let table = &tables[i];
    table.grid()
}
