// Which line of a certificate is to come.

/// One of the tables of a certificate.
#[derive(Clone, Copy, Debug, PartialEq, Eq)]
pub enum Table {
    /// The table of the winning choice.
    Head,
    /// The table without this winner.
    Part(u16),
    /// The table of the lowered worths.
    Lowered,
}

/// The line that is to come.
#[derive(Clone, Copy, Debug, PartialEq, Eq)]
pub enum NextLine {
    /// The number of the version.
    Version,
    /// How many bidders and states there may be, only in the second version.
    Limits,
    /// The denominator.
    Den,
    /// The value of the head's choice.
    Value,
    /// The head's choice.
    Choice,
    /// The line before a table.
    Title(Table),
    /// A line of a table, after that many.
    Entries(Table, u16),
    /// The first line of the part without this winner.
    Without(u16),
    /// The choice without this winner.
    PartChoice(u16),
    /// The payments.
    Payments,
    /// How many rows there are.
    Rows,
    /// The members of a row. That many rows are to come, with this one.
    Members(u16),
    /// The two multipliers of a row.
    Multipliers(u16),
    /// The choice that determines the bound of a row.
    RowChoice(u16),
    /// The last line.
    End,
    /// No line is to come.
    Nothing,
}
