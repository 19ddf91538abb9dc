use crate::samples::{DAY_CRAMTON, book_of, is_line};
use std::alloc::AllocError;
use value_table::win;
use vickrey::vickrey;

#[test]
fn winners_pay_what_the_others_lose_by_them(rt: HostRuntime) -> Result<(), AllocError> {
    let book = book_of(&rt, rt.alloc(), DAY_CRAMTON);
    let winners = win(rt.alloc(), &book)?;
    let alone = vickrey(rt.alloc(), &book, &winners)?;
    if alone.count() != 2 || alone.singles().len() != 2 {
        panic!(rt; "there are two winners");
    }
    let first = alone.single(0);
    assert_eq!(rt; first.winner, 1);
    assert_eq!(rt; first.price, 14);
    assert!(rt; first.choice.numbers() == [0, 1, 0, 1, 0].as_slice());
    assert!(rt; is_line(alone.table(0), 0, &[0, 20, 14, 34]));
    let second = alone.single(1);
    assert_eq!(rt; second.winner, 2);
    assert_eq!(rt; second.price, 12);
    assert!(rt; second.choice.numbers() == [1, 0, 0, 0, 1].as_slice());
    Ok(())
}
