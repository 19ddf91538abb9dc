//! Points over a denominator, the rows that they meet, and the law that multipliers show a point of least sum and the
//! nearest of these.
//!
//! Rows have whole coefficients, so the law serves rows as sets of bits and rows as lists of bidders. It has no code.
#![tactic(auto)]

ghost use Rattle.projection_laws.specs.Multipliers.{AreFirst, AreSecond, AreShares, SumsTo, SumsToOrStands};
ghost use Rattle.projection_laws.specs.Points.{HasLeastSum, IsNearestTo, MeetsRows};
ghost use Rattle.std.specs.Prelude.{pos, ℕ, ℤ, ◌≤ℤ◌};

/// Multipliers show that a point meets the two aims of a core-selecting rule. They are the multipliers that Kuhn and
/// Tucker gave for a least sum and for a least square distance (Nonlinear programming, 1951).
///
/// The point is `n` over `d`, and the rows have the coefficients `a` and bounds. With first multipliers whose sums at
/// each coordinate are `d`, no point that meets the rows has a smaller sum. With second multipliers too, every other
/// such point of the same sum is farther from the target. Square distances are divided by weights: a share of a
/// coordinate times its weight is the same number `l` everywhere.
///
/// If the first multipliers of a coordinate have another sum, both are true among the points with the same value
/// there.
pub fn multipliers()
    ensures least { (m r : ℕ) (a : ℕ → ℕ → ℤ) (bound : ℕ → ℤ)
        (d : ℤ) (n first : ℕ → ℤ) → AreFirst m r a bound d n first → SumsTo m r a d first
        → HasLeastSum m (MeetsRows m r a bound) d n }
    ensures nearest { (m r : ℕ) (a : ℕ → ℕ → ℤ) (bound : ℕ → ℤ) (d : ℤ) (n first second target weight : ℕ → ℤ) (l : ℤ)
        (share : ℕ → ℤ)
        → AreFirst m r a bound d n first → SumsTo m r a d first → AreSecond m r a bound d n first second target weight
        → AreShares m l share weight
        → IsNearestTo m share target (MeetsRows m r a bound) d n }
    ensures least_where_same { (m r : ℕ) (a : ℕ → ℕ → ℤ) (bound : ℕ → ℤ) (d : ℤ) (n first : ℕ → ℤ)
        → AreFirst m r a bound d n first
        → HasLeastSum m (λ e x. MeetsRows m r a bound e x × SumsToOrStands m r a d n first e x) d n }
    ensures nearest_where_same { (m r : ℕ) (a : ℕ → ℕ → ℤ) (bound : ℕ → ℤ) (d : ℤ)
        (n first second target weight : ℕ → ℤ) (l : ℤ) (share : ℕ → ℤ)
        → AreFirst m r a bound d n first → AreSecond m r a bound d n first second target weight
        → AreShares m l share weight
        → IsNearestTo m share target (λ e x. MeetsRows m r a bound e x × SumsToOrStands m r a d n first e x) d n }
{}
