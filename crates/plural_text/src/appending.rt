//! What texts are put together from.

ghost use Rattle.std.specs.Prelude.{◌≡◌, ◌++◌, OnOk};
ghost use Rattle.plural_text.specs.Pieces.{comma_before};

use itoa::{Buffer, Integer};
use std::alloc::AllocError;

/// Appends a number in decimal.
pub fn write_number<I: Integer>(text: &mut Vec<u8>, number: I) -> Result<(), AllocError>
    ensures { OnOk result (text.new.items ≡ text.old.items ++ I.text number) }
{
    let mut digits = Buffer::new();
    text.extend_from_slice(digits.format(number).as_bytes())
}

/// Appends what stands in front of the piece of this number, counted from 0: a comma, but for the
/// first.
pub fn write_comma(text: &mut Vec<u8>, index: usize) -> Result<(), AllocError>
    ensures { OnOk result (text.new.items ≡ text.old.items ++ comma_before index) }
{
    if index > 0 {
        text.push(b',')?;
    }
    Ok(())
}
