// What the checker answers.

/// Whether a certificate shows what it says.
#[derive(Clone, Copy, Debug, PartialEq, Eq)]
pub enum Verdict {
    /// All tests pass.
    Yes,
    /// This test, of 1 to 9, is the first that fails, and this is the first place where it does.
    No { test: u8, place: u64 },
}
