//! The numbers that digits write.
ghost use Rattle.std.specs.Prelude.{◌≡◌, ◌≤◌, ◌<◌, ◌^◌, nat_lt, SomeIff, IfSome, length, true};
ghost use Rattle.wl_scan.specs.Characters.{digit_value};
ghost use Rattle.wl_scan.specs.Literals.{greatest, value_in, base_of, is_base, digits_start, fitting_length, bad_digit, literal_value, HasValue};
ghost use Rattle.wl_scan.specs.Tokens.{is_long};

use crate::lengths::{digits_length, is_based};

/// The greatest number that a token may write.
const GREATEST: u128 = i128::MAX as u128;

/// Whether the digits that the bytes begin with write a number past 2^127 - 1.
pub fn is_long(bytes: &[u8]) -> bool
    ensures { result ≡ is_long bytes.now }
{
    is_past_greatest(10, &bytes[..digits_length(bytes)])
}

/// The base of a literal, where it is from 2 to 36.
pub fn base_of(literal: &[u8]) -> Option<u8>
    ensures { SomeIff result (is_base (base_of literal.now) ≡ true) (base_of literal.now) }
{
    if !is_based(literal) {
        return Some(10);
    }
    match value_in(10, &literal[..digits_length(literal)]) {
        Some(base @ 2..=36) => Some(base as u8),
        _ => None,
    }
}

/// Where the digits of a literal begin that are in its base.
pub fn digits_start(literal: &[u8]) -> usize
    ensures start { result ≡ digits_start literal.now }
    ensures within { result ≤ length literal.now }
{
    if is_based(literal) {
        digits_length(literal) + 2
    } else {
        0
    }
}

/// Where the first digit stands whose value isn't below the base, or would stand where there is none at all.
pub fn bad_digit(base: u8, digits: &[u8]) -> Option<usize>
    ensures place { result ≡ bad_digit base digits.now }
    ensures within { IfSome result (λ n. n ≤ length digits.now) }
{
    let fitting = fitting_length(base, digits);
    if fitting > 0 && fitting == digits.len() {
        None
    } else {
        Some(fitting)
    }
}

/// How many digits come first whose values are below the base.
fn fitting_length(base: u8, digits: &[u8]) -> usize
    ensures length { result ≡ fitting_length base digits.now }
    ensures within { result ≤ length digits.now }
{
    digits
        .iter()
        .take_while(|digit| digit_value(**digit) < base)
        .count()
}

/// Whether digits write a number past 2^127 - 1 in a base.
pub fn is_past_greatest(base: u8, digits: &[u8]) -> bool
    requires { 0 < base }
    ensures { result ≡ nat_lt greatest (value_in base digits.now) }
{
    match value_in(base, digits) {
        Some(value) => value > GREATEST,
        None => true,
    }
}

/// The number that a literal writes, as that of each `Number` token does.
pub fn literal_value(literal: &str) -> u128
    requires { HasValue literal.now }
    ensures { result ≡ literal_value literal.now }
{
    let bytes = literal.as_bytes();
    let Some(base) = base_of(bytes) else {
        unreachable!()
    };
    let Some(value) = value_in(base, &bytes[digits_start(bytes)..]) else {
        unreachable!()
    };
    value
}

/// The number that digits write in a base, where it is below 2^128.
fn value_in(base: u8, digits: &[u8]) -> Option<u128>
    requires { 0 < base }
    ensures { SomeIff result (value_in base digits.now < 2 ^ 128) (value_in base digits.now) }
{
    let mut value: u128 = 0;
    for digit in digits {
        value = value
            .checked_mul(u128::from(base))?
            .checked_add(u128::from(digit_value(*digit)))?;
    }
    Some(value)
}

/// The value of a digit, or of a letter of either case, from 10 on.
fn digit_value(byte: u8) -> u8
    ensures { result ≡ digit_value byte }
{
    match byte {
        b'0'..=b'9' => byte - b'0',
        b'A'..=b'Z' => byte - b'A' + 10,
        b'a'..=b'z' => byte - b'a' + 10,
        _ => 0,
    }
}
