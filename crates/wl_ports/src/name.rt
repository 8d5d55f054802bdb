//! When a text is a name.
ghost use Rattle.std.specs.Prelude.{◌≡◌, ◌&&◌};
ghost use Rattle.wl_ports.specs.Name.{begins_name, continues_name, is_name};

use unicode_ident::{is_xid_continue, is_xid_start};

/// Whether the character may begin a name: one with the Unicode property XID_Start, or `$`.
pub fn begins_name(ch: char) -> bool
    ensures { result ≡ begins_name ch }
{
    is_xid_start(ch) || ch == '$'
}

/// Whether the character may continue a name: one with the Unicode property XID_Continue other than `_`, or `$`.
pub fn continues_name(ch: char) -> bool
    ensures { result ≡ continues_name ch }
{
    (is_xid_continue(ch) && ch != '_') || ch == '$'
}

/// Whether the text is a name, as of a symbol or a pattern variable.
pub fn is_name(text: &str) -> bool
    ensures { result ≡ is_name text.now }
{
    let mut chars = text.chars();
    let Some(first) = chars.next() else {
        return false;
    };
    if !begins_name(first) {
        return false;
    }
    for ch in chars {
        if !continues_name(ch) {
            return false;
        }
    }
    true
}
