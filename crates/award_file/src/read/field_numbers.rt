// The numbers of the fields of an award in a stop. They are printed, so a number never changes.

/// The version.
pub const VERSION: u8 = 1;

/// The tick.
pub const TICK: u8 = 2;

/// The categories.
pub const CATEGORIES: u8 = 3;

/// A category's name.
pub const CATEGORY_NAME: u8 = 4;

/// A category's lots.
pub const SUPPLY: u8 = 5;

/// The points of a lot.
pub const POINTS: u8 = 6;

/// The reserve of a lot.
pub const RESERVE: u8 = 7;

/// The bidders.
pub const BIDDERS: u8 = 8;

/// A bidder's name.
pub const BIDDER_NAME: u8 = 9;

/// A bidder's points.
pub const ELIGIBILITY: u8 = 10;

/// What a bidder holds already.
pub const HOLDING: u8 = 11;

/// The price steps.
pub const STEPS: u8 = 12;

/// The excess of a step.
pub const EXCESS: u8 = 13;

/// The raise of a step.
pub const PERMILLE: u8 = 14;

/// The spectrum caps.
pub const CAPS: u8 = 15;

/// The weights of a cap.
pub const CAP_WEIGHTS: u8 = 16;

/// The limit of a cap.
pub const CAP_LIMIT: u8 = 17;

/// A key that has no rule.
pub const OTHER_KEY: u8 = 18;
