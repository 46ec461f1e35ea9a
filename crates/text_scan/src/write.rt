ghost use Rattle.std.specs.Prelude.{◌≡◌, ◌++◌, ◌<◌, ◌≤◌, false, drop, OnErr, OnOk};
ghost use Rattle.std.specs.Fmt.{digit_glyph};
ghost use Rattle.text_model.specs.Numbers.{decimal_text, hex_text, signed_text};

use itoa::Buffer;
use refusal::NoMemory;

/// The longest text of a hexadecimal number: the prefix and sixteen digits.
const HEX_LEN: usize = 18;

/// Appends `n` in decimal digits, without leading zeros.
///
/// # Errors
/// `NoMemory`, and `out` is as it was.
pub fn push_number(out: &mut Vec<u8>, n: u128) -> Result<(), NoMemory>
    ensures appended { OnOk result (out.new.items ≡ out.old.items ++ decimal_text n) }
    ensures unchanged { OnErr result (out.new.items ≡ out.old.items) }
{
    let mut buffer = Buffer::new();
    out.extend_from_slice(buffer.format(n).as_bytes())?;
    Ok(())
}

/// Appends `n` in decimal digits, without leading zeros, behind a `-` where it is below 0.
///
/// # Errors
/// `NoMemory`, and `out` is as it was.
pub fn push_signed(out: &mut Vec<u8>, n: i64) -> Result<(), NoMemory>
    ensures appended { OnOk result (out.new.items ≡ out.old.items ++ signed_text n) }
    ensures unchanged { OnErr result (out.new.items ≡ out.old.items) }
{
    let mut digits = Buffer::new();
    out.extend_from_slice(digits.format(n).as_bytes())?;
    Ok(())
}

/// Appends `0x` and `n` in lower-case hexadecimal digits, without leading zeros.
///
/// # Errors
/// `NoMemory`, and `out` is as it was.
pub fn push_hex(out: &mut Vec<u8>, n: u64) -> Result<(), NoMemory>
    ensures appended { OnOk result (out.new.items ≡ out.old.items ++ hex_text n) }
    ensures unchanged { OnErr result (out.new.items ≡ out.old.items) }
{
    let mut text = [0; HEX_LEN];
    let start = write_hex(n, &mut text);
    out.extend_from_slice(&text[start..])?;
    Ok(())
}

/// Writes the text of `n` at the end of `text`, and answers where it begins.
fn write_hex(n: u64, text: &mut [u8; HEX_LEN]) -> usize
    ensures within { result ≤ 18 }
    ensures written { drop result text.new ≡ hex_text n }
{
    let mut left = n;
    let mut start = HEX_LEN;
    while start > 2 {
        start -= 1;
        text[start] = hex_glyph((left % 16) as u8);
        left /= 16;
        if left == 0 {
            break;
        }
    }
    text[start - 1] = b'x';
    text[start - 2] = b'0';
    start - 2
}

/// The lower-case digit of this worth.
fn hex_glyph(digit: u8) -> u8
    requires { digit < 16 }
    ensures { result ≡ digit_glyph false digit }
{
    if digit < 10 {
        b'0' + digit
    } else {
        b'a' - 10 + digit
    }
}
