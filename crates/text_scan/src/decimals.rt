ghost use Rattle.std.specs.Prelude.{◌≡◌, ◌+◌, ◌*◌, ◌<◌, ℕ, Option, pos, None, Some, if◌then◌else◌};
ghost use Rattle.std.specs.Char.{digit_value, is_digit};
ghost use Rattle.std.specs.Option.{option_map};
ghost use Rattle.text_model.specs.Numbers.{below_zero, decimal_of, signed_of};
ghost use Rattle.text_scan.specs.Numbers.{fitting, within, within_signed};

use crate::read::NumberFault;

/// How far numbers of 64 bits with sign go below zero; above it they go one less far.
const MOST_BELOW_ZERO: u64 = 1 << 63;

/// The number that decimal digits spell, one or more and nothing else.
///
/// Any number of leading zeros is accepted.
///
/// # Errors
/// `NumberTooLarge` where the number is 2^64 or more, and `NotNumber` for every other text.
pub fn decimal(text: &[u8]) -> Result<u64, NumberFault>
    ensures { result ≡ within 64 (decimal_of text.now) }
{
    if text.is_empty() {
        return Err(NumberFault::NotNumber);
    }
    let mut value = Some(0);
    for byte in text {
        let Some(digit) = decimal_digit(*byte) else {
            return Err(NumberFault::NotNumber);
        };
        value = with_digit(value, digit);
    }
    match value {
        Some(value) => Ok(value),
        None => Err(NumberFault::NumberTooLarge),
    }
}

/// A number with one digit more; `None` stands for each that does not fit.
fn with_digit(value: Option<u64>, digit: u64) -> Option<u64>
    requires { digit < 10 }
    ensures { (n : ℕ) → value ≡ fitting 64 n → result ≡ fitting 64 (n * 10 + digit) }
{
    value?.checked_mul(10)?.checked_add(digit)
}

/// What a byte is worth as a decimal digit, if it is one.
fn decimal_digit(byte: u8) -> Option<u64>
    ensures { result ≡ (if is_digit byte 10 then Some (digit_value byte) else None) }
{
    match byte {
        b'0'..=b'9' => Some((byte - b'0') as u64),
        _ => None,
    }
}

/// The number of up to 128 bits that decimal digits spell, one or more and nothing else.
///
/// Any number of leading zeros is accepted.
///
/// # Errors
/// `NumberTooLarge` where the number is 2^128 or more, and `NotNumber` for every other text.
pub fn wide(text: &[u8]) -> Result<u128, NumberFault>
    ensures { result ≡ within 128 (decimal_of text.now) }
{
    if text.is_empty() {
        return Err(NumberFault::NotNumber);
    }
    let mut value = Some(0);
    for byte in text {
        let Some(digit) = decimal_digit(*byte) else {
            return Err(NumberFault::NotNumber);
        };
        value = with_wide_digit(value, digit);
    }
    match value {
        Some(value) => Ok(value),
        None => Err(NumberFault::NumberTooLarge),
    }
}

/// A number of up to 128 bits with one digit more; `None` stands for each that does not fit.
fn with_wide_digit(value: Option<u128>, digit: u64) -> Option<u128>
    requires { digit < 10 }
    ensures { (n : ℕ) → value ≡ fitting 128 n → result ≡ fitting 128 (n * 10 + digit) }
{
    value?.checked_mul(10)?.checked_add(u128::from(digit))
}

/// The number of 64 bits with sign that decimal digits spell, one or more, and a `-` may lead.
///
/// Any number of leading zeros is accepted, and `-0` is 0.
///
/// # Errors
/// `NumberTooLarge` where the number is 2^63 or more or below -2^63, and `NotNumber` for every
/// other text.
pub fn signed(text: &[u8]) -> Result<i64, NumberFault>
    ensures { result ≡ within_signed (signed_of text.now) }
{
    match text.strip_prefix(b"-") {
        Some(digits) => negative(decimal(digits)),
        None => positive(decimal(text)),
    }
}

/// The number as one with sign, if it fits.
fn positive(size: Result<u64, NumberFault>) -> Result<i64, NumberFault>
    ensures { (n : Option ℕ) → size ≡ within 64 n → result ≡ within_signed (option_map pos n) }
{
    match size {
        Ok(size) if size < MOST_BELOW_ZERO => Ok(size as i64),
        Ok(_) => Err(NumberFault::NumberTooLarge),
        Err(fault) => Err(fault),
    }
}

/// The number below zero of this size, if it fits.
fn negative(size: Result<u64, NumberFault>) -> Result<i64, NumberFault>
    ensures { (n : Option ℕ) → size ≡ within 64 n
        → result ≡ within_signed (option_map below_zero n) }
{
    match size {
        Ok(size) if size < MOST_BELOW_ZERO => Ok(-(size as i64)),
        Ok(MOST_BELOW_ZERO) => Ok(i64::MIN),
        Ok(_) => Err(NumberFault::NumberTooLarge),
        Err(fault) => Err(fault),
    }
}
