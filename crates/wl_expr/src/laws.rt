//! What holds of the definitions that the contracts cite.
ghost use Rattle.wl_expr.specs.Order.{structural_order, canonical_order};
ghost use Rattle.wl_expr.specs.OrderLaws.{IsAntisymmetric, IsTransitive, TellsApart};

/// The canonical order is a total order.
#[tactic(auto, using(crate::proofs::CanonicalOrder::canonical_reverse, crate::proofs::CanonicalOrder::canonical_transitive, crate::proofs::CanonicalOrder::canonical_tells_apart))]
pub fn canonical_order_is_total()
    ensures antisymmetric { IsAntisymmetric canonical_order }
    ensures transitive { IsTransitive canonical_order }
    ensures tells_apart { TellsApart canonical_order }
{}

/// So is the structural order, which decides its ties.
#[tactic(auto, using(crate::proofs::StructuralOrder::structural_reverse, crate::proofs::StructuralOrder::structural_transitive, crate::proofs::StructuralOrder::structural_tells_apart))]
pub fn structural_order_is_total()
    ensures antisymmetric { IsAntisymmetric structural_order }
    ensures transitive { IsTransitive structural_order }
    ensures tells_apart { TellsApart structural_order }
{}
