ghost use Rattle.std.specs.Prelude.{◌≡◌, None, Some, if◌then◌else◌};
ghost use Rattle.std.specs.Char.{digit_value, is_digit};
ghost use Rattle.text_model.specs.Numbers.{hex_of, prefixed_of};
ghost use Rattle.text_scan.specs.Numbers.{within};

use thiserror::Error;

/// A digit more fits behind a number below this.
const SHIFTS: u64 = 1 << 60;

/// The worth of a byte that is no digit.
const NO_DIGIT: u8 = 0xff;

/// What each byte is worth as a hexadecimal digit. A table, since nearly every byte of a branch
/// text is such a digit: a `match` reads them six times as slowly.
static HEX_DIGITS: [u8; 256] = *b"\
    \xff\xff\xff\xff\xff\xff\xff\xff\xff\xff\xff\xff\xff\xff\xff\xff\
    \xff\xff\xff\xff\xff\xff\xff\xff\xff\xff\xff\xff\xff\xff\xff\xff\
    \xff\xff\xff\xff\xff\xff\xff\xff\xff\xff\xff\xff\xff\xff\xff\xff\
    \x00\x01\x02\x03\x04\x05\x06\x07\x08\x09\xff\xff\xff\xff\xff\xff\
    \xff\x0a\x0b\x0c\x0d\x0e\x0f\xff\xff\xff\xff\xff\xff\xff\xff\xff\
    \xff\xff\xff\xff\xff\xff\xff\xff\xff\xff\xff\xff\xff\xff\xff\xff\
    \xff\x0a\x0b\x0c\x0d\x0e\x0f\xff\xff\xff\xff\xff\xff\xff\xff\xff\
    \xff\xff\xff\xff\xff\xff\xff\xff\xff\xff\xff\xff\xff\xff\xff\xff\
    \xff\xff\xff\xff\xff\xff\xff\xff\xff\xff\xff\xff\xff\xff\xff\xff\
    \xff\xff\xff\xff\xff\xff\xff\xff\xff\xff\xff\xff\xff\xff\xff\xff\
    \xff\xff\xff\xff\xff\xff\xff\xff\xff\xff\xff\xff\xff\xff\xff\xff\
    \xff\xff\xff\xff\xff\xff\xff\xff\xff\xff\xff\xff\xff\xff\xff\xff\
    \xff\xff\xff\xff\xff\xff\xff\xff\xff\xff\xff\xff\xff\xff\xff\xff\
    \xff\xff\xff\xff\xff\xff\xff\xff\xff\xff\xff\xff\xff\xff\xff\xff\
    \xff\xff\xff\xff\xff\xff\xff\xff\xff\xff\xff\xff\xff\xff\xff\xff\
    \xff\xff\xff\xff\xff\xff\xff\xff\xff\xff\xff\xff\xff\xff\xff\xff";

/// Why a text is refused as a number.
#[derive(Clone, Copy, Debug, PartialEq, Eq, Error)]
pub enum NumberFault {
    /// The text has not the form: it has no digit, or a byte that is none.
    #[error("not a number")]
    NotNumber,
    /// The text has the form, and its number does not fit the type.
    #[error("the number is too large")]
    NumberTooLarge,
}

/// The number that hexadecimal digits spell: `0` to `9`, `a` to `f` and `A` to `F`, one or more and
/// nothing else.
///
/// Any number of leading zeros is accepted.
///
/// # Errors
/// `NumberTooLarge` where the number is 2^64 or more, and `NotNumber` for every other text.
pub fn hex(text: &[u8]) -> Result<u64, NumberFault>
    ensures { result ≡ within 64 (hex_of text.now) }
{
    if text.is_empty() {
        return Err(NumberFault::NotNumber);
    }
    let mut value = 0;
    let mut fits = true;
    for byte in text {
        let Some(digit) = hex_digit(*byte) else {
            return Err(NumberFault::NotNumber);
        };
        fits &= value < SHIFTS;
        value = value % SHIFTS * 16 + digit;
    }
    if fits {
        Ok(value)
    } else {
        Err(NumberFault::NumberTooLarge)
    }
}

/// The number that `0x` and hexadecimal digits spell; `0X` is no prefix.
///
/// Any number of leading zeros is accepted.
///
/// # Errors
/// `NumberTooLarge` where the number is 2^64 or more, and `NotNumber` for every other text.
pub fn prefixed(text: &[u8]) -> Result<u64, NumberFault>
    ensures { result ≡ within 64 (prefixed_of text.now) }
{
    match text.strip_prefix(b"0x") {
        Some(digits) => hex(digits),
        None => Err(NumberFault::NotNumber),
    }
}

/// What a byte is worth as a hexadecimal digit, if it is one.
fn hex_digit(byte: u8) -> Option<u64>
    ensures { result ≡ (if is_digit byte 16 then Some (digit_value byte) else None) }
{
    let digit = HEX_DIGITS[byte as usize];
    if digit == NO_DIGIT {
        None
    } else {
        Some(digit as u64)
    }
}
