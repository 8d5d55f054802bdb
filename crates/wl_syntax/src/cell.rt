//! A cell as an expression.
ghost use Rattle.std.specs.Prelude.{◌≡◌, ◌≤◌, IfOk, IfErr, MatchResult, None, Vec, length, map};
ghost use Rattle.wl_expr.specs.Stamped.{plain, unstamped};
ghost use Rattle.wl_scan.specs.TokenParts.{lexeme_of};
ghost use Rattle.wl_scan.specs.Tokens.{scanned};
ghost use Rattle.wl_syntax.specs.Reads.{IsReadAs, Refused, Reads, Scans};

use crate::build::{BuildFault, build_expr};
use crate::fault::SyntaxFault;
use crate::lexer::grammar_tokens;
use crate::parser::{TreeFault, read_tree};
use std::alloc::Global;
use wl_expr::Expr;
use wl_scan::{Token as Lexeme, Tokens};

/// All tokens of a text.
fn scan<'a>(alloc: Global, text: &'a str) -> Result<Vec<Lexeme<'a>>, SyntaxFault>
    requires { length text.now ≤ 131072 }
    ensures { Scans text.now (λ (v : Vec Lexeme Global). map lexeme_of v.items) result }
{
    let mut tokens = Tokens::over(text);
    let mut lexemes = Vec::new(alloc);
    loop {
        match tokens.next() {
            Ok(found) => match found {
                Some(token) => lexemes.push(token)?,
                None => return Ok(lexemes),
            },
            Err(fault) => return Err(SyntaxFault::Scan(fault)),
        }
    }
}

/// The expression of the one right tree of a cell; else the fault is the first cause that holds, and a byte's place in it
/// counts from 1. `Memory` says that memory ran out, and nothing else.
pub fn parse(alloc: Global, bytes: &[u8]) -> Result<Expr, SyntaxFault>
    requires { length bytes.now ≤ 131072 }
    ensures read { IfOk result (λ e. IsReadAs bytes.now (plain e)) }
    ensures unstamped { IfOk result (λ e. e ≡ unstamped (plain e)) }
    ensures refused { IfErr result (λ fault. Refused bytes.now fault) }
{
    match std::str::from_utf8(bytes) {
        Ok(text) => Ok(parse_text(alloc, text)?),
        Err(_) => Err(SyntaxFault::NotUtf8),
    }
}

/// The same of a text.
fn parse_text(alloc: Global, text: &str) -> Result<Expr, SyntaxFault>
    requires size { length text.now ≤ 131072 }
    ensures { Reads text.now result }
{
    let lexemes = scan(alloc, text)?;
    let tokens = grammar_tokens(alloc, &lexemes)?;
    match read_tree(alloc, &tokens) {
        Ok(nodes) => match build_expr(alloc, &nodes) {
            Ok(expr) => Ok(expr),
            Err(fault) => match fault {
                BuildFault::TooDeep => Err(SyntaxFault::TooDeep),
                BuildFault::Memory => Err(SyntaxFault::Memory),
            },
        },
        Err(fault) => match fault {
            TreeFault::Unclosed => Err(SyntaxFault::Unclosed),
            TreeFault::Unexpected(place) => Err(SyntaxFault::Unexpected(lexemes[place].at)),
            TreeFault::Memory => Err(SyntaxFault::Memory),
        },
    }
}
