// What caps say.

/// What a package may cost at most, in whole units of money.
#[derive(Clone, Copy, Debug, PartialEq, Eq)]
pub enum Cap {
    /// The package of the final round has no cap.
    NoCap,
    /// The greatest amount that is allowed.
    At(u64),
}

/// An entry of a list whose amount is above its cap.
#[derive(Clone, Copy, Debug, PartialEq, Eq)]
pub struct OverCap {
    /// The number of the entry, counted from 1.
    pub entry: u32,
    /// The cap of its package.
    pub limit: u64,
}
