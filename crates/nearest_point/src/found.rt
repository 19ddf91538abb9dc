use wide_num::NumList;

/// A point with one first and one second multiplier for each row, all over one denominator.
#[derive(Debug, Drop)]
pub struct Nearest {
    /// The denominator, which is at least 1.
    pub den: i128,
    /// One number for each coordinate.
    pub at: NumList,
    /// The multipliers that show that no other point has a smaller sum, one for each row.
    pub first: NumList,
    /// The multipliers that show that no other point of this sum is nearer, one for each row.
    pub second: NumList,
}
