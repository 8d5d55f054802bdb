//! A buffer of a fixed length that is filled piece by piece.
ghost use Rattle.std.specs.Prelude.{◌≡◌, ◌+◌, ◌≤◌, ◌++◌, length, take};

/// Puts the piece behind the first `at` bytes.
pub fn put(buffer: &mut [u8], at: usize, piece: &[u8])
    requires { at + length piece.now ≤ length buffer.old }
    ensures { take (at + length piece.now) buffer.new ≡ take at buffer.old ++ piece.now }
{
    let end = at + piece.len();
    buffer[at..end].copy_from_slice(piece);
}
