//! Elements in the place of a node with them: of sequences, and of a Flat head in itself.
ghost use Rattle.std.specs.Prelude.{◌≡◌, ◌++◌, IfOk, List, OnOk};
ghost use Rattle.std.specs.List.{list_any};
ghost use Rattle.wl_expr.specs.Passed.{IsFrom};
ghost use Rattle.wl_expr.specs.Stamped.{Stamped, plain};
ghost use Rattle.wl_expr.specs.Words.{is_form};
ghost use Rattle.wl_shape.specs.Answers.{AllFrom, trees};
ghost use Rattle.wl_shape.specs.Elements.{has_head};
ghost use Rattle.wl_shape.specs.Shape.{spliced, spliced_list};

use crate::element::{has_head, inner, is_form};
use std::alloc::Global;
use wl_expr::Expr;
use wl_ports::Memory;

/// Whether an element is a node whose head is the symbol of this name.
pub(crate) fn any_form(args: &[Expr], name: &str) -> bool
    ensures { result ≡ list_any (is_form name.now) (trees args.now) }
{
    for arg in args {
        if is_form(arg, name) {
            return true;
        }
    }
    false
}

/// Whether an element is a node with this head.
pub(crate) fn any_has_head(head: &Expr, args: &[Expr]) -> bool
    ensures { result ≡ list_any (has_head (plain head.now)) (trees args.now) }
{
    for arg in args {
        if has_head(head, arg) {
            return true;
        }
    }
    false
}

/// The elements, where in the place of one with this head its elements stand, and so on.
pub(crate) fn spliced(alloc: Global, head: &Expr, args: &[Expr]) -> Result<Vec<Expr>, Memory>
    ensures value { IfOk result (λ v. trees v.items ≡ spliced_list (plain head.now) (trees args.now)) }
    ensures passed { (ms : List Stamped) → AllFrom ms args.now → IfOk result (λ v. AllFrom ms v.items) }
{
    let mut all = Vec::new(alloc);
    splice_all(head, args, &mut all)?;
    Ok(all)
}

/// Adds an element, or in its place its elements.
#[cycle(splice)]
fn splice(head: &Expr, e: &Expr, all: &mut Vec<Expr>) -> Result<(), Memory>
    ensures value { OnOk result (trees all.new.items
        ≡ trees all.old.items ++ spliced (plain head.now) (plain e.now)) }
    ensures passed { OnOk result ((ms : List Stamped)
        → AllFrom ms all.old.items → IsFrom ms e.now → AllFrom ms all.new.items) }
{
    match inner(head, e) {
        Some(elements) => splice_all(head, elements, all),
        None => {
            all.push(e.copy()?)?;
            Ok(())
        }
    }
}

#[cycle(splice)]
#[tactic(auto, using(wl_expr::proofs::Parts::depth_arg))]
fn splice_all(head: &Expr, args: &[Expr], all: &mut Vec<Expr>) -> Result<(), Memory>
    ensures value { OnOk result (trees all.new.items
        ≡ trees all.old.items ++ spliced_list (plain head.now) (trees args.now)) }
    ensures passed { OnOk result ((ms : List Stamped)
        → AllFrom ms all.old.items → AllFrom ms args.now → AllFrom ms all.new.items) }
{
    for arg in args {
        splice(head, arg, all)?;
    }
    Ok(())
}
