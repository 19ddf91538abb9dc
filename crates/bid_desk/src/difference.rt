// How the two lists of a bidder differ.

/// What is known of how the draft list of a bidder differs from its submitted list.
#[derive(Clone, Copy)]
pub enum Difference {
    /// They are the same.
    Nothing,
    /// They are the same except for the amount of the entry at this place, counted from 0.
    AmountAt(usize),
    /// They may differ in any way.
    Anything,
}
