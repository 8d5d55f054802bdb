//! What stands at a place where a token is looked for.
ghost use Rattle.std.specs.Prelude.{◌≡◌, ◌≤◌, ◌<◌, ◌^◌, true, false, ◌≢◌, length, drop, slice_index, Some};
ghost use Rattle.wl_scan.specs.Characters.{is_digit};
ghost use Rattle.wl_scan.specs.Lengths.{blank_length, digits_length, number_length, name_length, slot_length, out_length, text_length, is_quote};
ghost use Rattle.wl_scan.specs.Tokens.{is_comment, is_fraction, is_word, lexed, longest, rows, chosen, token_found, found};
ghost use Rattle.wl_scan.specs.Scanning.{word_or_sign};

use crate::lengths::{
    bad_escape, blank_length, blanks_length, closed_length, comment_rest, digits_length,
    is_lone_dot, is_quote, name_length, number_length, out_length, slot_length, slot_marks,
};
use crate::numbers::{bad_digit, base_of, digits_start, is_long, is_past_greatest};
use crate::signs::sign_length;
use crate::token::{Kind, ScanKind};

/// What stands at a place where a token is looked for.
#[derive(Clone, Copy)]
pub enum Found {
    /// So many bytes of blanks, or of a comment.
    Gap(usize),
    /// A token of so many bytes.
    Lexed(Kind, usize),
    /// A fault so many bytes on.
    Fault(ScanKind, usize),
}

/// What the text begins with.
pub fn scan_start(text: &str) -> Found
    requires some { 0 < length text.now }
    requires size { length text.now < 2 ^ 62 }
    ensures { result ≡ found text.now }
{
    let bytes = text.as_bytes();
    let blanks = blank_length(bytes);
    if blanks > 0 {
        return Found::Gap(blanks);
    }
    if is_comment(bytes) {
        return match comment_rest(&bytes[2..]) {
            Some(rest) => Found::Gap(2 + rest),
            None => Found::Fault(ScanKind::OpenComment, 0),
        };
    }
    token_found(text)
}

/// The token that the text begins with, or the fault.
fn token_found(text: &str) -> Found
    requires { 0 < length text.now }
    ensures { result ≡ token_found text.now }
{
    let bytes = text.as_bytes();
    if is_fraction(bytes) {
        return Found::Fault(ScanKind::Real, 0);
    }
    match bytes[0] {
        b'0'..=b'9' => number(bytes),
        b'#' => slot(text),
        b'%' => out(bytes),
        b'"' => string(bytes),
        _ => word_or_sign(text),
    }
}

fn is_comment(bytes: &[u8]) -> bool
    ensures { result ≡ is_comment bytes.now }
{
    matches!(bytes, [b'(', b'*', ..])
}

fn is_fraction(bytes: &[u8]) -> bool
    ensures { result ≡ is_fraction bytes.now }
{
    match bytes {
        [b'.', rest @ ..] => digits_length(rest) > 0,
        _ => false,
    }
}

fn number(bytes: &[u8]) -> Found
    ensures { result ≡ lexed Kind.Number (number_length bytes.now) bytes.now }
{
    let length = number_length(bytes);
    let literal = &bytes[..length];
    let Some(base) = base_of(literal) else {
        return Found::Fault(ScanKind::Base, 0);
    };
    let start = digits_start(literal);
    let digits = &literal[start..];
    if let Some(place) = bad_digit(base, digits) {
        Found::Fault(ScanKind::Digit, start + place)
    } else if is_lone_dot(&bytes[length..]) {
        Found::Fault(ScanKind::Real, 0)
    } else if is_past_greatest(base, digits) {
        Found::Fault(ScanKind::LongNumber, 0)
    } else {
        Found::Lexed(Kind::Number, length)
    }
}

fn slot(text: &str) -> Found
    requires some { 0 < length text.now }
    requires mark { slice_index text.now 0 ≡ 35 }
    ensures { result ≡ lexed Kind.Slot (slot_length text.now) text.now }
{
    let bytes = text.as_bytes();
    let length = slot_length(bytes);
    if is_long(&bytes[slot_marks(bytes)..]) {
        Found::Fault(ScanKind::LongNumber, 0)
    } else if length == 1 && is_word(&text[1..]) {
        Found::Fault(ScanKind::BadChar, 0)
    } else {
        Found::Lexed(Kind::Slot, length)
    }
}

fn is_word(text: &str) -> bool
    ensures { result ≡ is_word text.now }
{
    name_length(text) > 0 || is_quote(text.as_bytes())
}

fn out(bytes: &[u8]) -> Found
    requires { 0 < length bytes.now }
    ensures { result ≡ lexed Kind.Out (out_length bytes.now) bytes.now }
{
    if is_long(&bytes[1..]) {
        Found::Fault(ScanKind::LongNumber, 0)
    } else {
        Found::Lexed(Kind::Out, out_length(bytes))
    }
}

fn string(bytes: &[u8]) -> Found
    requires some { 0 < length bytes.now }
    requires quote { is_quote bytes.now ≡ true }
    ensures { result ≡ chosen (Kind.Text, text_length bytes.now) bytes.now }
{
    let inside = &bytes[1..];
    match closed_length(inside) {
        None => Found::Fault(ScanKind::OpenString, 0),
        Some(length) => match bad_escape(inside) {
            None => Found::Lexed(Kind::Text, 1 + length),
            Some(place) => Found::Fault(ScanKind::BadEscape, 1 + place),
        },
    }
}

fn word_or_sign(text: &str) -> Found
    requires some { 0 < length text.now }
    requires digit { is_digit (slice_index text.now 0) ≡ false }
    requires slot { slice_index text.now 0 ≢ 35 }
    requires out { slice_index text.now 0 ≢ 37 }
    requires quote { slice_index text.now 0 ≢ 34 }
    ensures { result ≡ chosen (longest (rows text.now)) text.now }
{
    let name = name_length(text);
    let sign = sign_length(text.as_bytes());
    match blanks_length(&text[name..]) {
        0 => longer(Kind::Name, name, sign),
        blanks => longer(Kind::Pattern, name + blanks, sign),
    }
}

/// A word of so many bytes, unless there is a longer sign.
fn longer(kind: Kind, word: usize, sign: usize) -> Found
    ensures { result ≡ word_or_sign kind word sign }
{
    if sign > word {
        Found::Lexed(Kind::Sign, sign)
    } else if word > 0 {
        Found::Lexed(kind, word)
    } else {
        Found::Fault(ScanKind::BadChar, 0)
    }
}
