// Building a text piece by piece.
ghost use Rattle.std.specs.Prelude.{◌≡◌, ◌++◌, OnOk};
ghost use Rattle.std.specs.Fmt.{decimal};
ghost use Rattle.script_text.specs.Report.{numbers_text};

use std::alloc::{AllocError, Global};

/// Puts a number in plain decimal at the end of a text.
pub fn push_number(alloc: Global, text: &mut Vec<u8>, number: u64) -> Result<(), AllocError>
    ensures { OnOk result (text.new.items ≡ text.old.items ++ decimal number) }
{
    let digits = number.to_string(alloc)?;
    text.extend_from_slice(digits.as_bytes())
}

// Puts numbers at the end, each after a space.
pub(crate) fn push_numbers(
    alloc: Global,
    text: &mut Vec<u8>,
    numbers: &[u64],
) -> Result<(), AllocError>
    ensures { OnOk result (text.new.items ≡ text.old.items ++ numbers_text numbers.now) }
{
    for number in numbers {
        text.push(b' ')?;
        push_number(alloc, text, *number)?;
    }
    Ok(())
}
