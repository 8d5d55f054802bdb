//! The tokens of a scan as the grammar sees them.
ghost use Rattle.std.specs.Prelude.{◌≡◌, IfOk, map};
ghost use Rattle.wl_scan.specs.TokenParts.{lexeme_of};
ghost use Rattle.wl_syntax.specs.Lexer as lexer;
ghost use Rattle.wl_syntax.specs.Polish.{token_of};

use crate::operator::Sign;
use crate::token::{Atom, Token};
use std::alloc::{AllocError, Global};
use wl_scan::{Kind, Token as Lexeme};

/// The token that a sign is.
fn sign_token(text: &str) -> Token<'static>
    ensures { token_of result ≡ lexer.looked_up lexer.signs text.now }
{
    match text {
        "(" => Token::OpenRound,
        ")" => Token::CloseRound,
        "[" => Token::OpenSquare,
        "]" => Token::CloseSquare,
        "{" => Token::OpenBrace,
        "}" => Token::CloseBrace,
        "," => Token::Comma,
        "::" => Token::Sign(Sign::ColonColon),
        "?" => Token::Sign(Sign::Question),
        "@" => Token::Sign(Sign::At),
        "/@" => Token::Sign(Sign::SlashAt),
        "@@" => Token::Sign(Sign::AtAt),
        "@@@" => Token::Sign(Sign::AtAtAt),
        "<>" => Token::Sign(Sign::LessGreater),
        "^" => Token::Sign(Sign::Caret),
        "/" => Token::Sign(Sign::Slash),
        "*" => Token::Sign(Sign::Star),
        "+" => Token::Sign(Sign::Plus),
        "-" => Token::Sign(Sign::Dash),
        "==" => Token::Sign(Sign::EqualsEquals),
        "!=" => Token::Sign(Sign::BangEquals),
        "<" => Token::Sign(Sign::Less),
        "<=" => Token::Sign(Sign::LessEquals),
        ">" => Token::Sign(Sign::Greater),
        ">=" => Token::Sign(Sign::GreaterEquals),
        "===" => Token::Sign(Sign::EqualsEqualsEquals),
        "=!=" => Token::Sign(Sign::EqualsBangEquals),
        "&&" => Token::Sign(Sign::AmpersandAmpersand),
        "||" => Token::Sign(Sign::BarBar),
        "|" => Token::Sign(Sign::Bar),
        ":" => Token::Sign(Sign::Colon),
        "~~" => Token::Sign(Sign::TildeTilde),
        "/;" => Token::Sign(Sign::SlashSemicolon),
        "->" => Token::Sign(Sign::DashGreater),
        ":>" => Token::Sign(Sign::ColonGreater),
        "/." => Token::Sign(Sign::SlashDot),
        "//." => Token::Sign(Sign::SlashSlashDot),
        "+=" => Token::Sign(Sign::PlusEquals),
        "-=" => Token::Sign(Sign::DashEquals),
        "*=" => Token::Sign(Sign::StarEquals),
        "/=" => Token::Sign(Sign::SlashEquals),
        "//" => Token::Sign(Sign::SlashSlash),
        "=" => Token::Sign(Sign::Equals),
        ":=" => Token::Sign(Sign::ColonEquals),
        "^=" => Token::Sign(Sign::CaretEquals),
        "^:=" => Token::Sign(Sign::CaretColonEquals),
        "/:" => Token::Sign(Sign::SlashColon),
        ";" => Token::Sign(Sign::Semicolon),
        "++" => Token::Sign(Sign::PlusPlus),
        "--" => Token::Sign(Sign::MinusMinus),
        "!" => Token::Sign(Sign::Bang),
        ".." => Token::Sign(Sign::DotDot),
        "..." => Token::Sign(Sign::DotDotDot),
        "&" => Token::Sign(Sign::Ampersand),
        "=." => Token::Sign(Sign::EqualsDot),
        _ => Token::Sign(Sign::Unused),
    }
}

/// The grammar's token.
fn grammar_token<'a>(token: Lexeme<'a>) -> Token<'a>
    ensures { token_of result ≡ lexer.grammar_token (lexeme_of token.entry) }
{
    match token.kind {
        Kind::Number => Token::Atom(Atom::Number(token.text)),
        Kind::Name => Token::Atom(Atom::Name(token.text)),
        Kind::Pattern => Token::Atom(Atom::Pattern(token.text)),
        Kind::Slot => Token::Atom(Atom::Slot(token.text)),
        Kind::Out => Token::Atom(Atom::Out(token.text)),
        Kind::Text => Token::Atom(Atom::Text(token.text)),
        Kind::Sign => sign_token(token.text),
    }
}

pub(crate) fn grammar_tokens<'a>(
    alloc: Global,
    lexemes: &[Lexeme<'a>],
) -> Result<Vec<Token<'a>>, AllocError>
    ensures { IfOk result (λ v. map token_of v.items ≡ map lexer.grammar_token (map lexeme_of lexemes.now)) }
{
    let mut tokens = Vec::new(alloc);
    for lexeme in lexemes {
        tokens.push(grammar_token(*lexeme))?;
    }
    Ok(tokens)
}
