//! Tokens and the faults of a scan, as callers see them.
use thiserror::Error;

/// The forms of a token.
#[derive(Clone, Copy, PartialEq, Eq, Debug)]
pub enum Kind {
    /// Digits, or the digits of a base, `^^` and digits of that base.
    Number,
    /// The name of a symbol.
    Name,
    /// A name or none, one to three `_`, and a name, a `.` or nothing.
    Pattern,
    /// `#` or `##`, and digits.
    Slot,
    /// An earlier output: some `%`, or one and digits.
    Out,
    /// A string in its quotes.
    Text,
    /// A sign of the operator table, a bracket or a comma.
    Sign,
}

/// A token of a text: a part of it, and the place of its first byte, counted from 1.
#[derive(Clone, Copy, PartialEq, Eq, Debug)]
pub struct Token<'a> {
    pub kind: Kind,
    pub text: &'a str,
    pub at: u32,
}

/// What can be wrong with a text.
#[derive(Clone, Copy, PartialEq, Eq, Debug)]
pub enum ScanKind {
    /// A number with a decimal point.
    Real,
    /// Digits that write a number past 2^127 - 1.
    LongNumber,
    /// A character with which no token begins, or a `#` right before a name or a string.
    BadChar,
    /// A `\` in a string before another character than `"`, `\`, `n`, `t` and `r`.
    BadEscape,
    /// A string that isn't closed.
    OpenString,
    /// A comment that isn't closed.
    OpenComment,
    /// A base before `^^` that isn't from 2 to 36.
    Base,
    /// A letter or digit behind `^^` whose value isn't below the base, or none there.
    Digit,
}

/// The first fault of a text, and its byte, counted from 1.
#[derive(Clone, Copy, PartialEq, Eq, Debug, Error)]
#[error("{kind:?} at byte {at}")]
pub struct ScanFault {
    pub kind: ScanKind,
    pub at: u32,
}
