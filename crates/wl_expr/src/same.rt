//! When two expressions are one tree. Equality and hash are those of the plain trees, so that expressions are keys of maps whatever stamps they carry.
ghost use Rattle.std.specs.Prelude.{◌≡◌, ◌↔◌, IsTrue, map};
ghost use Rattle.std.specs.Cmp.{on_equiv, on_per, partial_equiv_from_equiv};
ghost use Rattle.std.specs.Hash as fed;
ghost use Rattle.std.specs.Hash.{on_Alike, same_Alike};
ghost use Rattle.wl_expr.specs.Hash.{tree_hash};
ghost use Rattle.wl_expr.specs.Same.{same, same_decides, same_equivalence};
ghost use Rattle.wl_expr.specs.Stamped.{plain};

use crate::expr::Expr;
use crate::look::Look;
use std::hash::{Hash, Hasher};

impl PartialEq for Expr {
    ghost eq = { λ a b. same (plain a) (plain b) };

    ghost laws = { on_per plain (partial_equiv_from_equiv same_equivalence) };

    fn eq(&self, other: &Expr) -> bool {
        same_tree(self, other)
    }
}

impl Eq for Expr {
    ghost laws = { on_equiv plain same_equivalence };
}

impl Hash for Expr {
    ghost hash_input = { λ e. fed.u64 (tree_hash (plain e)) };

    ghost respects_eq = { (on_Alike plain (same_Alike (λ t. fed.u64 (tree_hash t)) same_decides)).fed };

    fn hash<H: Hasher>(&self, state: &mut H) {
        state.write_u64(self.tree_hash());
    }
}

/// Whether the two are one tree, stamps apart. It looks at no more parts than the smaller has.
#[cycle(same)]
pub fn same_tree(a: &Expr, b: &Expr) -> bool
    ensures { IsTrue result ↔ (plain a.now ≡ plain b.now) }
{
    if a.weight() != b.weight() || a.depth() != b.depth() || a.tree_hash() != b.tree_hash() {
        return false;
    }
    match a.view() {
        Look::Num(n) => match b.view() {
            Look::Num(m) => n == m,
            _ => false,
        },
        Look::Text(s) => match b.view() {
            Look::Text(t) => s == t,
            _ => false,
        },
        Look::Symbol(s) => match b.view() {
            Look::Symbol(t) => s == t,
            _ => false,
        },
        Look::Node(head, args) => match b.view() {
            Look::Node(other, others) => same_tree(head, other) && same_trees(args, others),
            _ => false,
        },
    }
}

/// Whether the two lists have the same trees.
#[cycle(same)]
#[tactic(auto, using(crate::proofs::Parts::depth_arg))]
fn same_trees(xs: &[Expr], ys: &[Expr]) -> bool
    ensures { IsTrue result ↔ (map plain xs.now ≡ map plain ys.now) }
{
    if xs.len() != ys.len() {
        return false;
    }
    for i in 0..xs.len() {
        if !same_tree(&xs[i], &ys[i]) {
            return false;
        }
    }
    true
}
