//! What `Table`, `FoldList` and `NestList` collect.
ghost use Rattle.std.specs.Prelude.{◌≡◌, [], ◌∷◌, ◌++◌, IfOk, List};
ghost use Rattle.wl_control.specs.Places.{trees, IsCollected};
ghost use Rattle.wl_expr.specs.Stamped.{Stamped, plain};

use std::alloc::Global;
use std::marker::Model;
use wl_expr::{Expr, ExprFault};
use wl_ports::Memory;

/// What the values that a row collects may weigh together.
const MAX_FOUND: u64 = 4_000_000;

/// The values that a row has collected, and what they weigh together.
#[derive(Drop)]
pub struct Found {
    values: Vec<Expr>,
    weight: u64,
}

impl Model for Found {
    ghost use Rattle.std.specs.Prelude.{List};
    ghost use Rattle.std.specs.Coded.{coded_list};
    ghost use Rattle.wl_control.specs.Collected.{IsWeighed};
    ghost use Rattle.wl_expr.specs.Stamped.{Stamped, stamped_code};

    ghost Value = { List Stamped };

    ghost coded = { coded_list stamped_code };

    ghost view = { λ f. f.values.items };

    ghost invariant = { λ f. IsWeighed f.weight f.values.items };
}

impl Found {
    /// No value.
    pub(crate) fn new(alloc: Global) -> Found
        ensures { result ≡ [] }
    {
        Found {
            values: Vec::new(alloc),
            weight: 0,
        }
    }

    /// This value alone, which is shared.
    pub(crate) fn one(alloc: Global, value: &Expr) -> Result<Found, Memory>
        ensures { IfOk result (λ f. f ≡ value.now ∷ []) }
    {
        let weight = value.weight();
        let mut values = Vec::new(alloc);
        values.push(value.copy()?)?;
        Ok(Found { values, weight })
    }

    /// One more value, which is shared.
    pub(crate) fn with(self, value: &Expr) -> Result<Found, ExprFault>
        ensures values { IfOk result (λ f. f ≡ self ++ value.now ∷ []) }
        ensures collected { IsCollected (trees self ++ plain value.now ∷ []) result }
    {
        let Found { mut values, weight } = self;
        let weight = weight + value.weight();
        if weight > MAX_FOUND {
            return Err(ExprFault::Large);
        }
        values.push(value.copy()?)?;
        Ok(Found { values, weight })
    }

    /// The values in order.
    pub(crate) fn values(&self) -> &[Expr]
        ensures { result.now ≡ self.now }
    {
        self.values.as_slice()
    }
}
