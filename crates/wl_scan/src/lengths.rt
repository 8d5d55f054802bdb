//! How many bytes each form of token takes at the start of a text.
ghost use Rattle.std.specs.Prelude.{◌≡◌, ◌≤◌, ◌<◌, ◌^◌, ◌+◌, false, true, length, IfSome};
ghost use Rattle.std.specs.Str.{IsCharBoundary};
ghost use Rattle.wl_scan.specs.Lengths.{blank_length, digits_length, letters_length, is_based, number_length, fits_name, name_length, marks_length, is_lone_dot, tail_length, blanks_length, percents_length, slot_marks, slot_length, out_length, is_quote, closed_length, is_escape, bad_escape, comment_length, comment_rest};

use crate::characters::{is_blank, is_digit, is_letter_or_digit};
use crate::place::Region;
use wl_ports::{begins_name, continues_name};

/// How many blanks the bytes begin with.
pub fn blank_length(bytes: &[u8]) -> usize
    ensures length { result ≡ blank_length bytes.now }
    ensures within { result ≤ length bytes.now }
{
    bytes.iter().take_while(|byte| is_blank(**byte)).count()
}

/// How many digits the bytes begin with.
pub fn digits_length(bytes: &[u8]) -> usize
    ensures length { result ≡ digits_length bytes.now }
    ensures within { result ≤ length bytes.now }
{
    bytes.iter().take_while(|byte| is_digit(**byte)).count()
}

/// How many letters and digits the bytes begin with.
fn letters_length(bytes: &[u8]) -> usize
    ensures length { result ≡ letters_length bytes.now }
    ensures within { result ≤ length bytes.now }
{
    bytes
        .iter()
        .take_while(|byte| is_letter_or_digit(**byte))
        .count()
}

/// Whether `^^` stands right behind the digits that the bytes begin with.
pub fn is_based(bytes: &[u8]) -> bool
    ensures based { result ≡ is_based bytes.now }
    ensures within { result ≡ true → digits_length bytes.now + 2 ≤ length bytes.now }
{
    matches!(&bytes[digits_length(bytes)..], [b'^', b'^', ..])
}

/// The number that the bytes begin with, whatever its digits.
pub fn number_length(bytes: &[u8]) -> usize
    ensures length { result ≡ number_length bytes.now }
    ensures within { result ≤ length bytes.now }
{
    let digits = digits_length(bytes);
    if digits == 0 || !is_based(bytes) {
        return digits;
    }
    digits + 2 + letters_length(&bytes[digits + 2..])
}

/// How many `_` the bytes begin with, up to three.
fn marks_length(bytes: &[u8]) -> usize
    ensures length { result ≡ marks_length bytes.now }
    ensures within { result ≤ length bytes.now }
{
    match bytes {
        [b'_', b'_', b'_', ..] => 3,
        [b'_', b'_', ..] => 2,
        [b'_', ..] => 1,
        _ => 0,
    }
}

fn percents_length(bytes: &[u8]) -> usize
    ensures length { result ≡ percents_length bytes.now }
    ensures within { result ≤ length bytes.now }
{
    bytes.iter().take_while(|byte| **byte == b'%').count()
}

/// Whether a `.` comes first that no further `.` follows.
pub fn is_lone_dot(bytes: &[u8]) -> bool
    ensures { result ≡ is_lone_dot bytes.now }
{
    match bytes {
        [] => false,
        [first] => *first == b'.',
        [first, second, ..] => *first == b'.' && *second != b'.',
    }
}

/// How many `#` the bytes begin with, up to two.
pub fn slot_marks(bytes: &[u8]) -> usize
    ensures length { result ≡ slot_marks bytes.now }
    ensures within { result ≤ length bytes.now }
{
    match bytes {
        [b'#', b'#', ..] => 2,
        [b'#', ..] => 1,
        _ => 0,
    }
}

/// The slot that the bytes begin with.
pub fn slot_length(bytes: &[u8]) -> usize
    ensures length { result ≡ slot_length bytes.now }
    ensures within { result ≤ length bytes.now }
{
    match slot_marks(bytes) {
        0 => 0,
        marks => marks + digits_length(&bytes[marks..]),
    }
}

/// The earlier output that the bytes begin with.
pub fn out_length(bytes: &[u8]) -> usize
    ensures length { result ≡ out_length bytes.now }
    ensures within { result ≤ length bytes.now }
{
    match percents_length(bytes) {
        1 => 1 + digits_length(&bytes[1..]),
        marks => marks,
    }
}

/// Whether the bytes begin with a `"`.
pub fn is_quote(bytes: &[u8]) -> bool
    ensures { result ≡ is_quote bytes.now }
{
    matches!(bytes, [b'"', ..])
}

/// The name that the text begins with.
pub fn name_length(text: &str) -> usize
    ensures length { result ≡ name_length text.now }
    ensures boundary { IsCharBoundary text.now result }
{
    let mut length = 0;
    let mut is_first = true;
    for ch in text.chars() {
        if !fits_name(is_first, ch) {
            return length;
        }
        length += ch.len_utf8();
        is_first = false;
    }
    length
}

fn fits_name(is_first: bool, ch: char) -> bool
    ensures { result ≡ fits_name is_first ch }
{
    if is_first {
        begins_name(ch)
    } else {
        continues_name(ch)
    }
}

/// What follows so many `_` in the same pattern.
fn tail_length(marks: usize, text: &str) -> usize
    ensures length { result ≡ tail_length marks text.now }
    ensures within { result ≤ length text.now }
{
    match name_length(text) {
        0 => usize::from(marks == 1 && is_lone_dot(text.as_bytes())),
        length => length,
    }
}

/// The `_` that the text begins with, up to three, and what follows them in the same pattern.
pub fn blanks_length(text: &str) -> usize
    ensures length { result ≡ blanks_length text.now }
    ensures within { result ≤ length text.now }
{
    match marks_length(text.as_bytes()) {
        0 => 0,
        marks => marks + tail_length(marks, &text[marks..]),
    }
}

/// How many bytes a string has left, up to and with the `"` that closes it.
pub fn closed_length(bytes: &[u8]) -> Option<usize>
    ensures length { result ≡ closed_length false bytes.now }
    ensures within { IfSome result (λ n. n ≤ length bytes.now) }
{
    let mut taken = false;
    for (place, byte) in bytes.iter().enumerate() {
        if taken {
            taken = false;
            continue;
        }
        if *byte == b'"' {
            return Some(place + 1);
        }
        taken = *byte == b'\\';
    }
    None
}

/// Whether a `\` before the bytes stands for a character.
fn is_escape(bytes: &[u8]) -> bool
    ensures { result ≡ is_escape bytes.now }
{
    matches!(bytes, [b'"' | b'\\' | b'n' | b't' | b'r', ..])
}

/// Where in the rest of a closed string the first `\` stands that stands for no character.
pub fn bad_escape(bytes: &[u8]) -> Option<usize>
    ensures place { result ≡ bad_escape false bytes.now }
    ensures within { IfSome result (λ n. n < length bytes.now) }
{
    let mut taken = false;
    for (place, byte) in bytes.iter().enumerate() {
        if taken {
            taken = false;
            continue;
        }
        if *byte == b'"' {
            return None;
        }
        taken = *byte == b'\\';
        if !taken {
            continue;
        }
        if !is_escape(&bytes[place + 1..]) {
            return Some(place);
        }
    }
    None
}

/// How many bytes a comment has left behind its `(*`, where it is closed.
pub fn comment_rest(bytes: &[u8]) -> Option<usize>
    requires { length bytes.now < 2 ^ 62 }
    ensures length { result ≡ comment_rest (Region.Comment 1) bytes.now }
    ensures within { IfSome result (λ n. n ≤ length bytes.now) }
{
    let mut region = Region::Comment(1);
    for (place, byte) in bytes.iter().enumerate() {
        region = region.in_comment(*byte);
        if region.is_code() {
            return Some(place + 1);
        }
    }
    None
}
