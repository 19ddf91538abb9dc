// Numbers that are added to a text.
ghost use Rattle.std.specs.Prelude.{◌≡◌, ◌≤◌, ◌<◌, ◌∷◌, ◌++◌, length, take, IfOk, OnOk};
ghost use Rattle.std.specs.Fmt.{decimal, signed_decimal};
ghost use Rattle.line_format.specs.Decimals.{decimals_text};
ghost use Rattle.line_format.specs.Numeral.{numbers_text};
ghost use Rattle.line_format.specs.Range.{AllInRange};

use itoa::Buffer;
use std::alloc::AllocError;
use wide_num::Text;

/// Adds a natural number.
pub fn add_decimal(text: &mut Text, n: u128) -> Result<(), AllocError>
    ensures { OnOk result (text.new ≡ text.old ++ decimal n) }
{
    let mut buffer = Buffer::new();
    text.add(buffer.format(n).as_bytes())
}

/// Adds a number with its sign.
pub fn add_signed(text: &mut Text, n: i128) -> Result<(), AllocError>
    ensures { OnOk result (text.new ≡ text.old ++ signed_decimal n) }
{
    let mut buffer = Buffer::new();
    text.add(buffer.format(n).as_bytes())
}

/// Adds a number after one space.
pub fn add_number(text: &mut Text, n: u64) -> Result<(), AllocError>
    ensures { OnOk result (text.new ≡ text.old ++ 32 ∷ decimal n) }
{
    let mut buffer = Buffer::new();
    text.push(b' ')?;
    text.add(buffer.format(n).as_bytes())
}

/// Adds numbers, each after one space.
pub fn add_numbers(text: &mut Text, numbers: &[u16]) -> Result<(), AllocError>
    ensures { OnOk result (text.new ≡ text.old ++ decimals_text numbers.now) }
{
    for number in numbers {
        add_number(text, *number as u64)?;
    }
    Ok(())
}

/// Adds amounts or prices, each after one space.
pub fn add_amounts(text: &mut Text, amounts: &[u64]) -> Result<(), AllocError>
    ensures { OnOk result (text.new ≡ text.old ++ decimals_text amounts.now) }
{
    for amount in amounts {
        add_number(text, *amount)?;
    }
    Ok(())
}

/// Adds numbers with their signs, each after one space. The digits of equal neighbours are computed once.
pub fn add_signed_numbers(text: &mut Text, numbers: &[i128]) -> Result<(), AllocError>
    requires { AllInRange numbers.now }
    ensures { OnOk result (text.new ≡ text.old ++ numbers_text numbers.now) }
{
    let mut done = 0;
    while done < numbers.len() {
        done += add_run(text, &numbers[done..])?;
    }
    Ok(())
}

/// Adds the first numbers, as far as they are equal, and says how many these are.
fn add_run(text: &mut Text, numbers: &[i128]) -> Result<usize, AllocError>
    requires range { AllInRange numbers.now }
    requires some { 0 < length numbers.now }
    ensures added { IfOk result (λ n. text.new ≡ text.old ++ numbers_text (take n numbers.now)) }
    ensures count { IfOk result (λ n. (0 < n) × (n ≤ length numbers.now)) }
{
    let first = numbers[0];
    let mut buffer = Buffer::new();
    let digits = buffer.format(first).as_bytes();
    for (i, number) in numbers.iter().enumerate() {
        if *number != first {
            return Ok(i);
        }
        text.push(b' ')?;
        text.add(digits)?;
    }
    Ok(numbers.len())
}
