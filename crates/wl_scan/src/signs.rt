//! The signs: which of them a text begins with.
ghost use Rattle.std.specs.Prelude.{◌≡◌, ◌≤◌, ◌∷◌, []};
ghost use Rattle.wl_scan.specs.Lengths.{sign_length};

/// The length of the longest sign that the bytes begin with.
pub fn sign_length(bytes: &[u8]) -> usize
    ensures { result ≡ sign_length bytes.now }
{
    match bytes {
        [] => 0,
        [first] => sign_at(*first, 0, 0),
        [first, second] => sign_at(*first, *second, 0),
        [first, second, third, ..] => sign_at(*first, *second, *third),
    }
}

/// The length of the longest sign that these three bytes begin with; 0 stands for a byte past the end.
fn sign_at(first: u8, second: u8, third: u8) -> usize
    ensures { result ≡ sign_length (first ∷ second ∷ third ∷ []) }
{
    match first {
        b'(' | b')' | b'[' | b']' | b'{' | b'}' | b',' | b'?' => 1,
        b'@' => match (second, third) {
            (b'@', b'@') => 3,
            (b'@', _) => 2,
            _ => 1,
        },
        b'=' => match (second, third) {
            (b'=', b'=') | (b'!', b'=') => 3,
            (b'=' | b'.', _) => 2,
            _ => 1,
        },
        b'/' => match (second, third) {
            (b'/', b'.') => 3,
            (b'/' | b'@' | b';' | b'.' | b'=' | b':', _) => 2,
            _ => 1,
        },
        b'^' => match (second, third) {
            (b':', b'=') => 3,
            (b'=', _) => 2,
            _ => 1,
        },
        b'.' => match (second, third) {
            (b'.', b'.') => 3,
            (b'.', _) => 2,
            _ => 0,
        },
        b':' => match second {
            b':' | b'>' | b'=' => 2,
            _ => 1,
        },
        b'+' => match second {
            b'+' | b'=' => 2,
            _ => 1,
        },
        b'-' => match second {
            b'-' | b'>' | b'=' => 2,
            _ => 1,
        },
        b'<' => match second {
            b'>' | b'=' => 2,
            _ => 1,
        },
        b'!' => match second {
            b'!' | b'=' => 2,
            _ => 1,
        },
        b'*' | b'>' => match second {
            b'=' => 2,
            _ => 1,
        },
        b'&' | b'|' | b';' => { if second == first { 2 } else { 1 } }
        b'~' => match second {
            b'~' => 2,
            _ => 0,
        },
        _ => 0,
    }
}
