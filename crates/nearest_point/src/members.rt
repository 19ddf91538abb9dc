ghost use Rattle.far_num.specs.Members.{holds};
ghost use Rattle.limits.specs.declared.TheConstants.{MOST_VALUE, MOST_WINNERS};
ghost use Rattle.nearest_point.specs.Numbers.{AreBelow, at_t, large};
ghost use Rattle.std.specs.Prelude.{IsTrue, if◌then◌else◌, length, not, pos, unsigned_abs, ◌*ℤ◌, ◌*◌, ◌+ℤ◌, ◌<ℤ◌, ◌<◌, ◌^◌, ◌≡◌, ◌≤ℤ◌, ◌≤◌, ◌⊎◌};
ghost use Rattle.wide_num.specs.Sums.{dot, nth};

use far_num::Row;

fn is_member(members: u16, j: usize) -> bool
    requires { j < 16 }
    ensures { pos (if result then 1 else 0) ≡ holds members j }
{
    (members >> j) & 1 == 1
}

// The number if `j` is a member, and else 0.
pub(crate) fn member_part(members: u16, j: usize, x: i128) -> i128
    requires { j < 16 }
    ensures value { result ≡ holds members j *ℤ x }
    ensures either { (result ≡ x) ⊎ (result ≡ pos 0) }
{
    if is_member(members, j) { x } else { 0 }
}

/// The sum of the numbers of the members.
pub(crate) fn sum_over(members: u16, list: &[i128]) -> i128
    requires few { length list.now ≤ MOST_WINNERS }
    requires small { AreBelow (2 ^ 113) list.now }
    ensures value { result ≡ dot (length list.now) (holds members) (nth list.now) }
    ensures small { unsigned_abs result ≤ MOST_WINNERS * 2 ^ 113 }
{
    let mut sum: i128 = 0;
    for (j, x) in list.iter().enumerate() {
        sum += member_part(members, j, *x);
    }
    sum
}

/// Whether the sum over the row is below its bound times the denominator, the far parts compared first.
pub(crate) fn is_below(far: &[i128], near: &[i128], den: i128, row: Row) -> bool
    requires few { (length far.now ≤ MOST_WINNERS) × (length near.now ≡ length far.now) }
    requires far { AreBelow (2 ^ 113) far.now }
    requires near { AreBelow (2 ^ 113) near.now }
    requires den { (pos 0 <ℤ den) × (den ≤ℤ pos (320 ^ 4)) }
    requires bound { (pos 0 ≤ℤ row.bound) × (row.bound ≤ℤ pos MOST_VALUE) }
    ensures below { IsTrue result
        → dot (length far.now) (holds row.members) (at_t large (nth far.now) (nth near.now)) <ℤ (den *ℤ row.bound) }
    ensures above { IsTrue (not result)
        → (den *ℤ row.bound) ≤ℤ dot (length far.now) (holds row.members) (at_t large (nth far.now) (nth near.now)) }
{
    let far_sum = sum_over(row.members, far);
    let near_sum = sum_over(row.members, near);
    let least = den * row.bound;
    is_less(far_sum, near_sum, least)
}

/// Whether the pair is below the number, the far parts compared first.
pub(crate) fn is_less(far: i128, near: i128, least: i128) -> bool
    requires near { unsigned_abs near ≤ 2 ^ 117 }
    requires least { unsigned_abs least ≤ 2 ^ 117 }
    ensures below { IsTrue result → ((far *ℤ large) +ℤ near) <ℤ least }
    ensures above { IsTrue (not result) → least ≤ℤ ((far *ℤ large) +ℤ near) }
{
    far < 0 || (far == 0 && near < least)
}
