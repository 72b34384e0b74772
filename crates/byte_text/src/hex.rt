//! A byte as two hexadecimal digits.
ghost use Rattle.std.specs.Prelude.{◌≡◌, ◌<◌, ◌++◌, OnOk};
ghost use Rattle.std.specs.String.{string_bytes};
ghost use Rattle.byte_text.specs.Hex.{hex_digit_text, hex_text};

use std::alloc::AllocError;

fn hex_char(digit: u8) -> char
    requires { digit < 16 }
    ensures value { result ≡ hex_digit_text digit }
    ensures ascii { result < 128 }
{
    if digit < 10 {
        (b'0' + digit) as char
    } else {
        (b'a' + (digit - 10)) as char
    }
}

/// Appends two hexadecimal digits, letters in lower case.
pub fn put_hex(out: &mut String, value: u8) -> Result<(), AllocError>
    ensures { OnOk result (string_bytes out.new ≡ string_bytes out.old ++ hex_text value) }
{
    out.push(hex_char(value / 16))?;
    out.push(hex_char(value % 16))
}
