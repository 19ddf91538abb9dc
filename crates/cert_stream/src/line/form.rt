// Which numbers are on a line of a certificate.

/// Which numbers follow the word of a line.
#[derive(Clone, Copy, Debug, PartialEq, Eq)]
pub(crate) enum Form {
    /// None.
    Nothing,
    /// Just this one.
    Just(u16),
    /// Just these two.
    Both(u16, u16),
    /// That many signed numbers.
    Signed(usize),
    /// A choice of that many bidders.
    Chosen(u16),
    /// How many rows there are, for that many bidders.
    Counted(u16),
    /// The members of a row, for that many bidders.
    Members(u16),
}
