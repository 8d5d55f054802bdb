//! Numbers and strings as text.
ghost use Rattle.std.specs.Prelude.{◌≡◌, ◌++◌, ◌==◌, if◌then◌else◌, codes, decimal, encode_utf8_all, OnOk, string_bytes};
ghost use Rattle.std.specs.Fmt.{signed_decimal};
ghost use Rattle.wl_form.specs.Shown.{escaped, number_text, quoted};
ghost use Rattle.wl_form.specs.Table.{opposite};
ghost use Rattle.wl_form.specs.Texts.{full_number};

use std::alloc::Global;
use wl_exact::Num;
use wl_ports::Memory;

/// The digits of a whole number, with its `-`.
fn write_signed(alloc: Global, out: &mut String, n: i128) -> Result<(), Memory>
    ensures { OnOk result (string_bytes out.new ≡ string_bytes out.old ++ signed_decimal n) }
{
    let text = format!(in alloc; "{n}")?;
    Ok(out.push_str(text.as_str())?)
}

/// The digits of a whole number from 0 up.
pub(crate) fn write_digits(alloc: Global, out: &mut String, n: u128) -> Result<(), Memory>
    ensures { OnOk result (string_bytes out.new ≡ string_bytes out.old ++ decimal n) }
{
    let text = format!(in alloc; "{n}")?;
    Ok(out.push_str(text.as_str())?)
}

/// `p` or `p/q`.
pub(crate) fn write_number(alloc: Global, out: &mut String, n: Num) -> Result<(), Memory>
    ensures { OnOk result (string_bytes out.new ≡ string_bytes out.old ++ number_text n) }
{
    write_signed(alloc, out, n.num())?;
    if n.den() != 1 {
        out.push_str("/")?;
        write_signed(alloc, out, n.den())?;
    }
    Ok(())
}

/// The opposite of a number.
pub(crate) fn write_opposite(alloc: Global, out: &mut String, n: Num) -> Result<(), Memory>
    ensures { OnOk result (string_bytes out.new ≡ string_bytes out.old ++ number_text (opposite n)) }
{
    write_signed(alloc, out, -n.num())?;
    if n.den() != 1 {
        out.push_str("/")?;
        write_signed(alloc, out, n.den())?;
    }
    Ok(())
}

/// `p` or `Rational[p, q]`.
pub(crate) fn write_full_number(alloc: Global, out: &mut String, n: Num) -> Result<(), Memory>
    ensures { OnOk result (string_bytes out.new ≡ string_bytes out.old ++ full_number n) }
{
    if n.den() == 1 {
        return Ok(write_signed(alloc, out, n.num())?);
    }
    out.push_str("Rational[")?;
    write_signed(alloc, out, n.num())?;
    out.push_str(", ")?;
    write_signed(alloc, out, n.den())?;
    Ok(out.push_str("]")?)
}

/// One character of a string; five stand behind a `\`.
fn write_escaped(out: &mut String, ch: char) -> Result<(), Memory>
    ensures { OnOk result (string_bytes out.new ≡ string_bytes out.old ++ encode_utf8_all (escaped ch)) }
{
    match ch {
        '"' => Ok(out.push_str("\\\"")?),
        '\\' => Ok(out.push_str("\\\\")?),
        '\n' => Ok(out.push_str("\\n")?),
        '\t' => Ok(out.push_str("\\t")?),
        '\r' => Ok(out.push_str("\\r")?),
        _ => Ok(out.push(ch)?),
    }
}

/// A string in quotes.
pub(crate) fn write_quoted(out: &mut String, text: &str) -> Result<(), Memory>
    ensures { OnOk result (string_bytes out.new ≡ string_bytes out.old ++ quoted text.now) }
{
    out.push_str("\"")?;
    for ch in text.chars() {
        write_escaped(out, ch)?;
    }
    Ok(out.push_str("\"")?)
}
