//! What holds of the definitions that the contracts cite.
ghost use Rattle.wl_rules.specs.RuleLaws.{IsInOrderAtFirst, StaysInOrder, StaysInOrderWithout, IsInOrderAfter, StandAsTheyCame};
ghost use Rattle.wl_rules.specs.WorkedKeys.{WorkedKeys};

/// Rules are always in the order of their keys.
#[tactic(auto, using(crate::proofs::RuleOrder::removed_in_order))]
pub fn rules_stay_in_order()
    ensures none { IsInOrderAtFirst }
    ensures put { StaysInOrder }
    ensures taken { StaysInOrderWithout }
{}

/// However a list came about, its rules are in the order of their keys, and those of equal keys in the order in which they came.
pub fn rules_stand_as_they_came()
    ensures sorted { IsInOrderAfter }
    ensures stable { StandAsTheyCame }
{}

/// The keys of a few left sides.
pub fn worked_keys()
    ensures { WorkedKeys }
{}
