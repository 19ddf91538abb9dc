ghost use Rattle.far_num.specs.Members.{IsMembersSum};
ghost use Rattle.far_num.specs.Pairs.{IsExactPair, IsInRange, both, difference_of, multiple_of, sum_of};
ghost use Rattle.std.specs.Prelude.{All, length, ◌<◌, ◌^◌};
ghost use Rattle.wide_num.specs.Range.{InRange};
ghost use Rattle.wide_num.specs.declared.Op.TheVariants.{Add, Mul, Sub};

use crate::Far;
use wide_num::Wide;

/// The exact sum. The error is the first sum of parts that leaves the range, the far part first.
pub fn add(a: Far, b: Far) -> Result<Far, Wide>
    requires left { IsInRange a }
    requires right { IsInRange b }
    ensures { IsExactPair Add a b (sum_of a b) result }
{
    let far = wide_num::add(a.far, b.far)?;
    let near = wide_num::add(a.near, b.near)?;
    Ok(Far { far, near })
}

/// The exact difference `a - b`. The error is the first difference of parts that leaves the range, the far part first.
pub fn sub(a: Far, b: Far) -> Result<Far, Wide>
    requires left { IsInRange a }
    requires right { IsInRange b }
    ensures { IsExactPair Sub a b (difference_of a b) result }
{
    let far = wide_num::sub(a.far, b.far)?;
    let near = wide_num::sub(a.near, b.near)?;
    Ok(Far { far, near })
}

/// Both parts times `k`. The error is the first product that leaves the range, the far part first.
pub fn times(a: Far, k: i128) -> Result<Far, Wide>
    requires pair { IsInRange a }
    requires factor { InRange k }
    ensures { IsExactPair Mul a (both k) (multiple_of a k) result }
{
    let far = wide_num::mul(a.far, k)?;
    let near = wide_num::mul(a.near, k)?;
    Ok(Far { far, near })
}

/// The sum of the entries whose bits are set in `members`, taken in the order of the bits. The error is the first step
/// where a part of the sum leaves the range, the far part first.
pub fn dot01(members: u16, list: &[Far]) -> Result<Far, Wide>
    requires entries { All (λ x. IsInRange x) list.now }
    requires within { members < 2 ^ length list.now }
    ensures { IsMembersSum members list.now result }
{
    let mut sum = Far { far: 0, near: 0 };
    let mut left = members;
    for entry in list {
        if left % 2 == 1 {
            sum = add(sum, *entry)?;
        }
        left /= 2;
    }
    Ok(sum)
}
