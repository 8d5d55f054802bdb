//! The numbers of a command line.
ghost use Rattle.std.specs.Prelude.{◌≡◌};
ghost use Rattle.std.specs.Char.{is_ascii_digit};
ghost use Rattle.std.specs.List.{list_all};
ghost use Rattle.wl_words.specs.Numbers.{is_numeral, number};

fn are_digits(bytes: &[u8]) -> bool
    ensures { result ≡ list_all is_ascii_digit bytes.now }
{
    bytes.iter().all(|b| b.is_ascii_digit())
}

fn is_numeral(text: &str) -> bool
    ensures { result ≡ is_numeral text.now }
{
    let bytes = text.as_bytes();
    !bytes.is_empty() && are_digits(bytes)
}

/// The number from 1 to `greatest` that a text writes.
pub(crate) fn number(text: &str, greatest: u64) -> Option<u64>
    ensures { result ≡ number greatest text.now }
{
    if !is_numeral(text) {
        return None;
    }
    match text.parse::<u64>() {
        Ok(n) if 1 <= n && n <= greatest => Some(n),
        Ok(_) => None,
        Err(_) => None,
    }
}
