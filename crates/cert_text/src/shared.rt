// A table that shares the lines of another.
ghost use Rattle.std.specs.Prelude.{◌≡◌, IfOk};

use choices::Grid;
use std::alloc::{AllocError, Global};

/// A table with the lines of another, which both then share: no number is copied. The only error is out of memory.
pub fn shared_table(alloc: Global, table: &Grid) -> Result<Grid, AllocError>
    ensures { IfOk result (λ lines. lines ≡ table.now) }
{
    let mut lines = Grid::new(alloc);
    for k in 0..table.lines() {
        lines.push_shared(table, k)?;
    }
    Ok(lines)
}
