//! Sets of bidders as bits: bit `j - 1` stands for bidder `j`.
ghost use Rattle.std.specs.Prelude.{◌≡◌, ◌-◌, ◌≤◌, ◌<◌, ◌^◌};
ghost use Rattle.slot_places.specs.SetTable.{holds};
ghost use Rattle.limits.specs.declared.TheConstants.{MOST_PLACED};

/// Whether a set contains bidder `j`.
pub fn is_in(set: usize, j: u16) -> bool
    requires { (0 < j) × (j ≤ MOST_PLACED) }
    ensures { result ≡ holds set j }
{
    (set >> (j - 1)) & 1 == 1
}

/// What bidder `j` counts in the bits of a set.
pub fn weight(j: u16) -> usize
    requires { (0 < j) × (j ≤ MOST_PLACED) }
    ensures { result ≡ 2 ^ (j - 1) }
{
    match j {
        1 => 1,
        2 => 2,
        3 => 4,
        4 => 8,
        5 => 16,
        _ => 32,
    }
}
