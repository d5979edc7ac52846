//! Numbers in a text.

ghost use Rattle.std.specs.Prelude.{◌≡◌, ◌+◌, ◌≤◌, ◌++◌, length};
ghost use Rattle.arrayvec.specs.ArrayString.{array_string_len};

use arrayvec::ArrayString;
use itoa::{Buffer, Integer};

/// Puts a label and a number in decimal at the end of a text.
pub fn push_number<I: Integer, const CAP: usize>(
    text: &mut ArrayString<CAP>,
    label: &str,
    number: I,
)
    requires room { array_string_len text.old + length label.now + I.MAX_STR_LEN ≤ CAP }
    ensures bytes { text.new.bytes ≡ text.old.bytes ++ label.now ++ I.text number }
    ensures short { array_string_len text.new
        ≤ array_string_len text.old + length label.now + I.MAX_STR_LEN }
{
    let mut buffer = Buffer::new();
    text.push_str(label);
    text.push_str(buffer.format(number));
}
