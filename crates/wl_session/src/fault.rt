//! Why a cell is refused, and the line that says so.
ghost use Rattle.std.specs.Prelude.{◌≡◌, IfOk, string_bytes};
ghost use Rattle.wl_session.specs.Fault.{fault_line, syntax_line, place_line, scan_text};

use std::alloc::Global;
use thiserror::Error;
use wl_ports::Memory;
use wl_scan::ScanKind;
use wl_syntax::SyntaxFault;

/// Why a cell is refused.
#[derive(Debug, Drop, Error)]
pub enum LineFault {
    /// It has more than 131,072 bytes.
    #[error("TooLong")]
    TooLong,
    /// It has no expression.
    #[error("Syntax")]
    Syntax(SyntaxFault),
}

/// The line that says why.
pub(crate) fn fault_line(alloc: Global, fault: &LineFault) -> Result<String, Memory>
    ensures { IfOk result (λ line. string_bytes line ≡ fault_line fault.now) }
{
    match fault {
        LineFault::TooLong => plain_line(alloc, "Refused: cell longer than 131072 bytes."),
        LineFault::Syntax(fault) => syntax_line(alloc, fault),
    }
}

/// Want of memory has no line.
fn syntax_line(alloc: Global, fault: &SyntaxFault) -> Result<String, Memory>
    ensures { IfOk result (λ line. string_bytes line ≡ syntax_line fault.now) }
{
    match fault {
        SyntaxFault::NotUtf8 => plain_line(alloc, "Refused: not UTF-8."),
        SyntaxFault::Scan(fault) => place_line(alloc, scan_text(fault.kind), fault.at),
        SyntaxFault::Unclosed => plain_line(alloc, "Refused: unfinished input."),
        SyntaxFault::Unexpected(at) => place_line(alloc, "Refused: unexpected input", *at),
        SyntaxFault::TooDeep => plain_line(alloc, "Refused: nested deeper than 400."),
        SyntaxFault::Memory => Err(Memory),
    }
}

fn plain_line(alloc: Global, text: &str) -> Result<String, Memory>
    ensures { IfOk result (λ line. string_bytes line ≡ text.now) }
{
    Ok(String::from_str(alloc, text)?)
}

/// A text, and the place that it speaks of.
fn place_line(alloc: Global, text: &str, at: u32) -> Result<String, Memory>
    ensures { IfOk result (λ line. string_bytes line ≡ place_line text.now at) }
{
    let line = format!(in alloc; "{text} at byte {at}.")?;
    Ok(line)
}

fn scan_text(kind: ScanKind) -> &'static str
    ensures { result.now ≡ scan_text kind }
{
    match kind {
        ScanKind::Real => "Refused: real number",
        ScanKind::LongNumber => "Refused: number past 127 bits",
        ScanKind::BadChar => "Refused: character",
        ScanKind::BadEscape => "Refused: escape",
        ScanKind::OpenString => "Refused: open string",
        ScanKind::OpenComment => "Refused: open comment",
        ScanKind::Base => "Refused: base",
        ScanKind::Digit => "Refused: digit",
    }
}
