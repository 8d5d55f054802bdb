//! Replacement: Replace, ReplaceAll and ReplaceRepeated.
ghost use Rattle.std.specs.Prelude.{◌≡◌, ◌<◌, ◌++◌, ◌∷◌, [], IfOk, Some, option_map};
ghost use Rattle.wl_expr.specs.Stamped.{plain};
ghost use Rattle.wl_expr.specs.Tree.{Tree};
ghost use Rattle.wl_state.specs.Played.{Makes};
ghost use Rattle.wl_state.specs.Replacing.{IsMade, IsRebuilt, each_of, fitting, part_of, pushed};

use std::alloc::Global;
use wl_expr::{Expr, ExprFault, copy_all};
use wl_ports::Memory;

/// What replacement makes of an expression.
#[derive(Drop)]
pub enum Replaced {
    Same,
    Changed(Expr),
    /// It would be too large. It isn't built, but the parts behind it are still looked at.
    Large,
}

/// What replacement makes of the elements up to a place.
#[derive(Drop)]
pub enum ReplacedEach {
    Same,
    Changed(Vec<Expr>),
    Large,
}

/// What was made, if it isn't too large.
pub fn changed(made: Result<Expr, ExprFault>) -> Result<Replaced, Memory>
    ensures { IfOk result (λ r. IsMade made r) }
{
    match made {
        Ok(e) => {
            // That it fits is a clause of `weight`.
            let _weight = e.weight();
            Ok(Replaced::Changed(e))
        }
        Err(ExprFault::Large) => Ok(Replaced::Large),
        Err(ExprFault::Memory) => Err(Memory),
    }
}

/// The expression that came of this one.
pub fn made(e: &Expr, replaced: Replaced) -> Result<Expr, ExprFault>
    ensures value { (t : Tree) → fitting t ≡ option_map plain (part_of e.now replaced) → Makes t result }
    ensures made { IfOk result (λ u. part_of e.now replaced ≡ Some u) }
{
    match replaced {
        Replaced::Same => Ok(e.copy()?),
        Replaced::Changed(u) => Ok(u),
        Replaced::Large => Err(ExprFault::Large),
    }
}

/// One element more behind those before it.
pub fn with_part(
    alloc: Global,
    others: &[Expr],
    e: &Expr,
    before: ReplacedEach,
    part: Replaced,
) -> Result<ReplacedEach, Memory>
    ensures { IfOk result (λ r. each_of (others.now ++ e.now ∷ []) r
        ≡ pushed (each_of others.now before) (part_of e.now part)) }
{
    match before {
        ReplacedEach::Large => Ok(ReplacedEach::Large),
        ReplacedEach::Same => match part {
            Replaced::Large => Ok(ReplacedEach::Large),
            Replaced::Same => Ok(ReplacedEach::Same),
            Replaced::Changed(u) => {
                let elements = copy_all(alloc, others)?;
                Ok(ReplacedEach::Changed(with_last(elements, u)?))
            }
        },
        ReplacedEach::Changed(elements) => match part {
            Replaced::Large => Ok(ReplacedEach::Large),
            Replaced::Same => Ok(ReplacedEach::Changed(with_last(elements, e.copy()?)?)),
            Replaced::Changed(u) => Ok(ReplacedEach::Changed(with_last(elements, u)?)),
        },
    }
}

fn with_last(elements: Vec<Expr>, e: Expr) -> Result<Vec<Expr>, Memory>
    ensures { IfOk result (λ v. v.items ≡ elements.items ++ e ∷ []) }
{
    let mut elements = elements;
    elements.push(e)?;
    Ok(elements)
}

/// The node of what head and elements have become.
pub fn rebuilt(
    alloc: Global,
    head: &Expr,
    args: &[Expr],
    new_head: Replaced,
    elements: ReplacedEach,
) -> Result<Replaced, Memory>
    ensures { IfOk result (λ r. IsRebuilt head.now args.now (part_of head.now new_head) (each_of args.now elements) r) }
{
    match elements {
        ReplacedEach::Large => Ok(Replaced::Large),
        ReplacedEach::Same => match new_head {
            Replaced::Large => Ok(Replaced::Large),
            Replaced::Same => Ok(Replaced::Same),
            Replaced::Changed(h) => changed(Expr::node(alloc, &h, args)),
        },
        ReplacedEach::Changed(us) => match new_head {
            Replaced::Large => Ok(Replaced::Large),
            Replaced::Same => changed(Expr::node(alloc, head, us.as_slice())),
            Replaced::Changed(h) => changed(Expr::node(alloc, &h, us.as_slice())),
        },
    }
}
