// Buffers to compute a line of one side of a book.
ghost use Rattle.std.specs.Prelude.{◌≤◌, IfOk};
ghost use Rattle.limits.specs.declared.TheConstants.{MOST_STATES};
ghost use Rattle.value_table.specs.LineBuffers.{HasRoom};

use std::alloc::{AllocError, Global};

/// A line and the line after it, in numbers of one width.
#[derive(Drop)]
pub struct WidthBuffers<C> {
    pub below: Vec<C>,
    pub line: Vec<C>,
}

/// Buffers to compute a line from the one after it, in 32 bits if both are so small and else in 64, with room for both in 16
/// bits.
#[derive(Drop)]
pub struct LineBuffers {
    pub short: WidthBuffers<u32>,
    pub wide: WidthBuffers<i64>,
    pub low: Vec<u16>,
    pub high: Vec<u16>,
}

impl LineBuffers {
    /// Buffers for lines of that many numbers.
    pub fn new(alloc: Global, states: usize) -> Result<LineBuffers, AllocError>
        requires { states ≤ MOST_STATES }
        ensures { IfOk result (λ buffers. HasRoom states buffers) }
    {
        let below = vec![in alloc; 0u32; states]?;
        let line = vec![in alloc; 0u32; states]?;
        let short = WidthBuffers { below, line };
        let below = vec![in alloc; 0i64; states]?;
        let line = vec![in alloc; 0i64; states]?;
        let wide = WidthBuffers { below, line };
        let low = vec![in alloc; 0u16; states]?;
        let high = vec![in alloc; 0u16; states]?;
        Ok(LineBuffers {
            short,
            wide,
            low,
            high,
        })
    }
}
