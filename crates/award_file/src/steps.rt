// The price step of an award.
ghost use Rattle.std.specs.Prelude.{◌≡◌, ◌≤◌, All, IfOk};
ghost use Rattle.limits.specs.declared.TheConstants.{MOST_PERMILLE};
ghost use Rattle.award_file.specs.Award.{IsSteps, steps_with};

use std::alloc::{AllocError, Global};
use std::marker::Model;

/// By how much prices rise: a tick, whose multiples are the raises, and the thresholds. From a threshold's excess demand on a
/// price rises by at least its permille, until the next threshold is reached.
#[derive(Drop)]
pub struct StepTable {
    tick: u64,
    thresholds: Vec<(u64, u64)>,
}

impl Model for StepTable {
    ghost use Rattle.award_file.specs.Award.{Steps, IsSteps, steps_with};

    ghost Value = { Steps };

    ghost view = { λ t. steps_with t.tick t.thresholds.items };

    ghost invariant = { λ t. IsSteps (steps_with t.tick t.thresholds.items) };
}

impl StepTable {
    /// The table of this tick and these thresholds, each an excess and its permille. The tick is at least 1 and at most
    /// `MOST_PRICE`, and there are 1 to `MOST_STEPS` thresholds: the excesses begin at 1 and rise to at most `MOST_EXCESS`, and each
    /// permille is 1 to `MOST_PERMILLE`.
    pub fn new(alloc: Global, tick: u64, thresholds: &[(u64, u64)]) -> Result<StepTable, AllocError>
        requires { IsSteps (steps_with tick thresholds.now) }
        ensures { IfOk result (λ t. t ≡ steps_with tick thresholds.now) }
    {
        let thresholds = Vec::from_slice(alloc, thresholds)?;
        Ok(StepTable { tick, thresholds })
    }

    /// The tick.
    pub fn tick(&self) -> u64
        ensures tick { result ≡ self.now.tick }
        ensures kept { IsSteps self.now }
    {
        self.tick
    }

    /// The thresholds, each its excess and its permille.
    pub fn thresholds(&self) -> &[(u64, u64)]
        ensures thresholds { result.now ≡ self.now.thresholds }
        ensures most { All (λ t. t.1 ≤ MOST_PERMILLE) result.now }
        ensures kept { IsSteps self.now }
    {
        &self.thresholds
    }
}
