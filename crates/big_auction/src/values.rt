// What a made auction has for each of its four categories.

/// A package: its lots of each category.
#[derive(Clone, Copy)]
pub struct Lots {
    pub a: u16,
    pub b: u16,
    pub c: u16,
    pub e: u16,
}

/// A number for each category: its prices, or what is asked for of it.
#[derive(Clone, Copy)]
pub struct Figures {
    pub a: u64,
    pub b: u64,
    pub c: u64,
    pub e: u64,
}

/// What is sold.
pub const SUPPLY: Lots = Lots {
    a: 4,
    b: 1,
    c: 14,
    e: 9,
};

/// The prices of round 1.
pub const RESERVES: Figures = Figures {
    a: 1000,
    b: 1500,
    c: 100,
    e: 10,
};

/// The most lots of a package of the first rounds.
pub const WIDEST: Lots = Lots {
    a: 2,
    b: 1,
    c: 7,
    e: 4,
};

/// No lot.
pub const NO_LOTS: Lots = Lots {
    a: 0,
    b: 0,
    c: 0,
    e: 0,
};

/// How many bidders there are.
pub const BIDDERS: u16 = 12;

/// How many bidders still ask for lots in the last round.
pub const STAYING: u16 = 4;

/// How many rounds come before the last one.
pub const FULL_ROUNDS: u16 = 9;

/// How many drafts are drawn for each bidder.
pub const DRAFTS: u16 = 100;
