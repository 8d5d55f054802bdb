//! The values that the two limits may have.
ghost use Rattle.std.specs.Prelude.{◌≡◌};
ghost use Rattle.wl_assign.specs.Limits.{is_within, limit_allows};
ghost use Rattle.wl_expr.specs.Stamped.{plain};
ghost use Rattle.wl_expr.specs.Words.{count_of};

use wl_expr::{Expr, Look};

/// Whether the value is an integer from 20 to the greatest one.
fn is_within(greatest: u32, value: &Expr) -> bool
    ensures { result ≡ is_within greatest (count_of (plain value.now)) }
{
    match value.view() {
        Look::Num(number) => {
            number.den() == 1 && 20 <= number.num() && number.num() <= i128::from(greatest)
        }
        _ => false,
    }
}

/// Whether the limit of this name may be set to the value; None for another name than `$RecursionLimit` and
/// `$IterationLimit`.
pub fn limit_allows(name: &str, value: &Expr) -> Option<bool>
    ensures { result ≡ limit_allows name.now (plain value.now) }
{
    match name {
        "$RecursionLimit" => Some(is_within(512, value)),
        "$IterationLimit" => Some(is_within(1_000_000, value)),
        _ => None,
    }
}
