//! The tokens of a text, one after another.
ghost use Rattle.std.specs.Prelude.{◌≡◌, ◌+◌, ◌≤◌, ◌<◌, ◌∷◌, [], length, take, drop, IfOk, IfErr, IfSome, IfNone, Some, None};
ghost use Rattle.std.specs.Str.{IsCharBoundary};
ghost use Rattle.wl_scan.specs.Tokens.{scanned, nothing, token_before, faulty};
ghost use Rattle.wl_scan.specs.TokenParts.{lexeme_of};
ghost use Rattle.wl_scan.specs.Scanning.{Comes};

use crate::found::{Found, scan_start};
use crate::token::{Kind, ScanFault, ScanKind, Token};
use std::marker::Model;

/// Goes through the tokens of a text. It takes no memory, and each token is a part of the text.
#[derive(Drop)]
pub struct Tokens<'a> {
    text: &'a str,
    place: usize,
}

impl<'a> Model for Tokens<'a> {
    ghost use Rattle.std.specs.Prelude.{◌≡◌, ◌≤◌, ◌+◌, length, drop};
    ghost use Rattle.std.specs.Str.{IsCharBoundary};
    ghost use Rattle.wl_scan.specs.Tokens.{Scanned, scanned_from};

    ghost Value = { Scanned };

    ghost view = { λ t. scanned_from 0 (t.place + 1) (drop t.place t.text.now) };

    ghost invariant = { λ t. (length t.text.now ≤ 131072) × IsCharBoundary t.text.now t.place };
}

impl<'a> Tokens<'a> {
    /// The tokens of a whole text.
    pub fn over(text: &'a str) -> Tokens<'a>
        requires { length text.now ≤ 131072 }
        ensures { result ≡ scanned text.now }
    {
        Tokens { text, place: 0 }
    }

    /// The next token, or none at the end of the text. After a fault it gives the same fault again.
    pub fn next(&mut self) -> Result<Option<Token<'a>>, ScanFault>
        ensures token { IfOk result (λ found. IfSome found (λ t. self.old ≡ token_before (lexeme_of t) self.new)) }
        ensures end { IfOk result (λ found. IfNone found ((self.old ≡ nothing) × (self.new ≡ self.old))) }
        ensures fault { IfErr result (λ f. (self.old ≡ faulty f) × (self.new ≡ self.old)) }
    {
        let text = self.text;
        match next_at(text, self.place) {
            Next::End => Ok(None),
            Next::Token(place, kind, length) => {
                self.place = place + length;
                Ok(Some(Token {
                    kind,
                    text: &text[place..place + length],
                    at: (place + 1) as u32,
                }))
            }
            Next::Fault(kind, place) => Err(ScanFault {
                kind,
                at: (place + 1) as u32,
            }),
        }
    }
}

/// What comes next behind a place of a text.
enum Next {
    End,
    Token(usize, Kind, usize),
    Fault(ScanKind, usize),
}

/// Passes over the blanks and comments at a place of the text: where a token stands there, its place, kind and length, and where a fault does, its place.
fn next_at(text: &str, start: usize) -> Next
    requires size { length text.now ≤ 131072 }
    requires boundary { IsCharBoundary text.now start }
    ensures { Comes text.now start result }
{
    let mut place = start;
    while place < text.len() {
        match scan_start(&text[place..]) {
            Found::Gap(length) => place += length,
            Found::Lexed(kind, length) => return Next::Token(place, kind, length),
            Found::Fault(kind, length) => return Next::Fault(kind, place + length),
        }
    }
    Next::End
}
