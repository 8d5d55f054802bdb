//! Rules.
ghost use Rattle.std.specs.Prelude.{◌≡◌, IfOk};

use wl_expr::Expr;
use wl_ports::Memory;

/// Where a rule stands in its symbol's entry.
#[derive(Clone, Copy)]
pub enum RuleKind {
    /// A rule of the symbol by itself.
    Own,
    /// A rule of nodes with the symbol as head.
    Down,
    /// A rule of nodes with the symbol among the elements.
    Up,
    /// A rule of nodes with the symbol as leftmost part.
    Sub,
}

/// A left side, and the body that takes the place of what it matches.
#[derive(Drop)]
pub struct Rule {
    pub left: Expr,
    pub body: Expr,
}

impl Rule {
    /// The same rule, which shares its trees.
    pub(crate) fn copy(&self) -> Result<Rule, Memory>
        ensures { IfOk result (λ r. r ≡ self.now) }
    {
        Ok(Rule {
            left: self.left.copy()?,
            body: self.body.copy()?,
        })
    }
}
