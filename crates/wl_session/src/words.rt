//! The words of the command line.
ghost use Rattle.std.specs.Prelude.{◌≡◌, map, option_map, option_copied, string_bytes};
ghost use Rattle.wl_session.specs.Words.{asked};

/// The name of the file that the words ask for, or None in it for standard input. None where they are not read.
pub(crate) fn asked(words: &[String]) -> Option<Option<&str>>
    ensures { option_map option_copied result ≡ asked (map string_bytes words.now) }
{
    if words.is_empty() {
        return Some(None);
    }
    let word = words[0].as_str();
    if words.len() > 1 || word.as_bytes().first() == Some(&b'-') {
        None
    } else {
        Some(Some(word))
    }
}
