// Tests over plain numbers.
ghost use Rattle.std.specs.Prelude.{IsTrue, ◌≡◌, ◌<◌, ◌≤◌, ◌*ℤ◌, ◌↔◌};

/// Whether a number is a product, which may leave 128 bits: then it isn't.
pub(crate) fn is_product(number: i128, den: i128, factor: i128) -> bool
    ensures { IsTrue result ↔ (number ≡ den *ℤ factor) }
{
    match den.checked_mul(factor) {
        Some(product) => number == product,
        None => false,
    }
}

/// Whether a place is one of that many, counted from 1.
pub(crate) fn is_one_of(place: usize, count: usize) -> bool
    ensures { IsTrue result ↔ ((0 < place) × (place ≤ count)) }
{
    0 < place && place <= count
}
