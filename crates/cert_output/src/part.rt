// The parts of a text.
use choices::Grid;
use wide_num::Text;

/// A part of a text.
#[derive(Drop)]
pub(crate) enum Part {
    /// These bytes.
    Bytes(Text),
    /// The lines of this table.
    Lines(Grid),
}
