//! The bytes that cells and tokens both speak of.
ghost use Rattle.std.specs.Prelude.{◌≡◌};
ghost use Rattle.wl_scan.specs.Characters.{is_blank, is_digit, is_letter_or_digit};

/// Whether the byte is a space, tab, line feed, form feed or carriage return.
#[inline(always)]
pub fn is_blank(byte: u8) -> bool
    ensures { result ≡ is_blank byte }
{
    matches!(byte, b' ' | b'\t' | b'\n' | 0x0c | b'\r')
}

/// Whether the byte is one of `0` to `9`.
pub fn is_digit(byte: u8) -> bool
    ensures { result ≡ is_digit byte }
{
    byte.is_ascii_digit()
}

/// Whether the byte is one of `0` to `9`, `A` to `Z` and `a` to `z`.
pub fn is_letter_or_digit(byte: u8) -> bool
    ensures { result ≡ is_letter_or_digit byte }
{
    byte.is_ascii_alphanumeric()
}
