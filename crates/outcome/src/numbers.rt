// Numbers in a text.
ghost use Rattle.std.specs.Prelude.{◌≡◌, ◌++◌, OnOk};
ghost use Rattle.line_format.specs.Decimals.{decimals_text};
ghost use Rattle.print_grammar.specs.WinText.{net_line};

use line_format::{add_number, add_signed};
use std::alloc::AllocError;
use wide_num::Text;

/// Adds numbers, each after one space. The only error is out of memory.
pub fn add_numbers(text: &mut Text, numbers: &[u16]) -> Result<(), AllocError>
    ensures { OnOk result (text.new ≡ text.old ++ decimals_text numbers.now) }
{
    for number in numbers {
        add_number(text, *number as u64)?;
    }
    Ok(())
}

/// Adds the line of a net value: `net` and the value. The only error is out of memory.
pub fn add_net(text: &mut Text, net: i128) -> Result<(), AllocError>
    ensures { OnOk result (text.new ≡ text.old ++ net_line net) }
{
    text.add(b"net ")?;
    add_signed(text, net)?;
    text.push(b'\n')
}
