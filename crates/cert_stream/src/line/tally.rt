// The size of a number after some of its digits.
ghost use Rattle.std.specs.Prelude.{◌^◌, ◌<◌};

/// The size of a number after some of its digits, while it is below 2^120.
#[derive(Clone, Copy, Debug, PartialEq, Eq)]
pub(crate) struct Magnitude {
    pub(crate) size: u128,
    pub(crate) beyond: bool,
    pub ghost small: { size < 2 ^ 120 },
}
