// Fractions, worked by hand.
ghost use Rattle.std.specs.Prelude.{◌≤ℤ◌, pos};
ghost use Rattle.wide_num.specs.Range.{InRange};

use outcome::{Fraction, add_fraction};
use std::alloc::{AllocError, Global};
use std::test::Fail;
use wide_num::Text;

fn fraction_text(alloc: Global, n: i128, d: i128) -> Result<Text, AllocError>
    requires number { pos 0 ≤ℤ n }
    requires denominator { (pos 1 ≤ℤ d) × InRange d }
{
    let mut text = Text::new(alloc);
    add_fraction(&mut text, Fraction::new(n, d))?;
    Ok(text)
}

#[test]
fn prints_fractions_in_lowest_terms(rt: HostRuntime) -> Result<(), Fail> {
    let alloc = rt.alloc();
    assert_eq!(rt; fraction_text(alloc, 0, 5)?.items(), "0".as_bytes());
    assert_eq!(rt; fraction_text(alloc, 33, 3)?.items(), "11".as_bytes());
    assert_eq!(rt; fraction_text(alloc, 11, 3)?.items(), "3+2/3".as_bytes());
    assert_eq!(rt; fraction_text(alloc, 7, 2)?.items(), "3+1/2".as_bytes());
    assert_eq!(rt;
        fraction_text(alloc, 4_398_046_511_104, 6)?.items(),
        "733007751850+2/3".as_bytes()
    );
    let great = 1_000_000_000_000_000_000_000_000_000_000_000_000;
    assert_eq!(rt;
        fraction_text(alloc, great, 6)?.items(),
        "166666666666666666666666666666666666+2/3".as_bytes()
    );
    Ok(())
}
