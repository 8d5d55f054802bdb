//! What a turn does to the elements of a node, once its head and its elements stand.
ghost use Rattle.std.specs.Prelude.{◌≡◌, ◌||◌, IfOk, List, Some};
ghost use Rattle.wl_expr.specs.Passed.{IsFrom};
ghost use Rattle.wl_expr.specs.Sorted.{sorted};
ghost use Rattle.wl_expr.specs.Stamped.{Stamped, plain};
ghost use Rattle.wl_expr.specs.Words.{applied};
ghost use Rattle.wl_shape.specs.Answers.{AllFrom, IsMade, IsShaped, ShapedIsFrom, trees};
ghost use Rattle.wl_shape.specs.Shape.{flattened, ordered, shape, thread, thread_by};

use crate::element::{node, symbol};
use crate::splicing::{any_form, any_has_head, spliced};
use crate::threading::{first_length, lists_have, threaded};
use std::alloc::Global;
use wl_expr::{Expr, ExprFault, copy_all, sort};
use wl_ports::Memory;
use wl_rules::{Attribute, Attributes};

/// What became of a node.
#[derive(Drop)]
pub enum Shaped {
    /// The rebuilt form.
    Node(Expr),
    /// The list of the nodes with corresponding elements.
    Threaded(Expr),
    /// The rebuilt form, where the lists among the elements have different lengths.
    Uneven(Expr),
}

/// What a turn makes of this head and these elements, by the attributes of the head: sequences and then a Flat head in
/// itself are spliced, lists are threaded over, and elements are sorted. `Large` where the tree doesn't fit.
pub fn arrange(
    alloc: Global,
    head: &Expr,
    args: &[Expr],
    attributes: Attributes,
) -> Result<Shaped, ExprFault>
    ensures shaped { IsShaped (shape attributes (plain head.now) (trees args.now)) result }
    ensures passed { (ms : List Stamped) → IsFrom ms head.now → AllFrom ms args.now
        → IfOk result (ShapedIsFrom ms) }
{
    if keeps_sequences(attributes) || !any_form(args, "Sequence") {
        return flatten(alloc, head, args, attributes);
    }
    let sequence = symbol(alloc, "Sequence")?;
    let elements = spliced(alloc, &sequence, args)?;
    flatten(alloc, head, elements.as_slice(), attributes)
}

/// Whether sequences stay as they are.
fn keeps_sequences(attributes: Attributes) -> bool
    ensures { result ≡ (attributes.sequence_hold || attributes.hold_all_complete) }
{
    attributes.has(Attribute::SequenceHold) || attributes.has(Attribute::HoldAllComplete)
}

/// The same of elements among which no sequences are left to splice.
fn flatten(
    alloc: Global,
    head: &Expr,
    args: &[Expr],
    attributes: Attributes,
) -> Result<Shaped, ExprFault>
    ensures shaped { IsShaped (thread attributes (plain head.now)
        (flattened attributes (plain head.now) (trees args.now))) result }
    ensures passed { (ms : List Stamped) → IsFrom ms head.now → AllFrom ms args.now
        → IfOk result (ShapedIsFrom ms) }
{
    if !attributes.has(Attribute::Flat) || !any_has_head(head, args) {
        return thread(alloc, head, args, attributes);
    }
    let elements = spliced(alloc, head, args)?;
    thread(alloc, head, elements.as_slice(), attributes)
}

/// The same of elements that are spliced.
fn thread(
    alloc: Global,
    head: &Expr,
    args: &[Expr],
    attributes: Attributes,
) -> Result<Shaped, ExprFault>
    ensures shaped { IsShaped (thread attributes (plain head.now) (trees args.now)) result }
    ensures passed { (ms : List Stamped) → IsFrom ms head.now → AllFrom ms args.now
        → IfOk result (ShapedIsFrom ms) }
{
    if attributes.has(Attribute::Listable) {
        if let Some(length) = first_length(args) {
            return over_lists(alloc, head, args, attributes, length);
        }
    }
    let rebuilt = rebuilt(alloc, head, args, attributes)?;
    let _weight = rebuilt.weight();
    Ok(Shaped::Node(rebuilt))
}

/// The same where the first list has this length.
fn over_lists(
    alloc: Global,
    head: &Expr,
    args: &[Expr],
    attributes: Attributes,
    length: usize,
) -> Result<Shaped, ExprFault>
    ensures shaped { IsShaped (thread_by (Some length) attributes (plain head.now) (trees args.now)) result }
    ensures passed { (ms : List Stamped) → IsFrom ms head.now → AllFrom ms args.now
        → IfOk result (ShapedIsFrom ms) }
{
    if lists_have(length, args) {
        let list = threaded(alloc, head, args, length)?;
        let _weight = list.weight();
        return Ok(Shaped::Threaded(list));
    }
    let rebuilt = rebuilt(alloc, head, args, attributes)?;
    let _weight = rebuilt.weight();
    Ok(Shaped::Uneven(rebuilt))
}

/// The rebuilt form.
#[tactic(auto, using(crate::proofs::Faults::memory_makes))]
fn rebuilt(
    alloc: Global,
    head: &Expr,
    args: &[Expr],
    attributes: Attributes,
) -> Result<Expr, ExprFault>
    ensures made { IsMade (applied (plain head.now) (ordered attributes (trees args.now))) result }
    ensures passed { (ms : List Stamped) → IsFrom ms head.now → AllFrom ms args.now → IfOk result (IsFrom ms) }
{
    if attributes.has(Attribute::Orderless) {
        let elements = sorted(alloc, args)?;
        return node(alloc, head, elements.as_slice());
    }
    node(alloc, head, args)
}

/// Copies in the canonical order.
fn sorted(alloc: Global, args: &[Expr]) -> Result<Vec<Expr>, Memory>
    ensures value { IfOk result (λ v. trees v.items ≡ sorted (trees args.now)) }
    ensures passed { (ms : List Stamped) → AllFrom ms args.now → IfOk result (λ v. AllFrom ms v.items) }
{
    let mut elements = copy_all(alloc, args)?;
    sort(&mut elements)?;
    Ok(elements)
}
