//! Lists of one and of two.
ghost use Rattle.std.specs.Prelude.{◌≡◌, ◌≢◌, [], ◌∷◌, length, MatchOption};

/// The one of a list of one.
pub(crate) fn only<T>(items: &[T]) -> Option<&T>
    ensures { MatchOption result (length items.now ≢ 1) (λ x. items.now ≡ x.now ∷ []) }
{
    if items.len() == 1 {
        Some(&items[0])
    } else {
        None
    }
}

/// The two of a list of two.
pub(crate) fn both<T>(items: &[T]) -> Option<(&T, &T)>
    ensures { MatchOption result (length items.now ≢ 2) (λ xs. items.now ≡ xs.0.now ∷ xs.1.now ∷ []) }
{
    if items.len() == 2 {
        Some((&items[0], &items[1]))
    } else {
        None
    }
}
