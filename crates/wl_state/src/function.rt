//! What a Function gives of its arguments.
ghost use Rattle.std.specs.Prelude.{◌≡◌, ◌∷◌, ◌++◌, [], IfOk, IfSome, List, Some, OnOk, option_map, unwrap_or, map};
ghost use Rattle.wl_expr.specs.Passed.{IsFrom};
ghost use Rattle.wl_expr.specs.Stamped.{Stamped, plain, from_list};
ghost use Rattle.wl_expr.specs.Tree as tree;
ghost use Rattle.wl_expr.specs.Tree.{Tree, AreSmall};
ghost use Rattle.wl_expr.specs.Words.{applied, count_of};
ghost use Rattle.wl_shape.specs.Answers.{AllFrom};
ghost use Rattle.wl_shape.specs.Renewed.{IsRenewed};
ghost use Rattle.wl_shape.specs.Scopes.{function_names};
ghost use Rattle.wl_state.specs.Played.{AllHonest, Honest, Played, found_tree, trees};
ghost use Rattle.wl_semantics.specs.Prog.{done};
ghost use Rattle.wl_semantics.specs.ScopeRows as rows;
ghost use Rattle.wl_semantics.specs.ScopeRows.{function_applied, is_inner, slot_of, with_slots};
ghost use Rattle.wl_state.specs.Slots.{IsGiven, new_or, slot_value};
ghost use Rattle.wl_state.specs.Parts.{sized_row};
ghost use Rattle.wl_state.specs.Marks.{at_last_mark};

use crate::elements::is_symbol;
use crate::ends::Stop;
use crate::evaluator::Evaluator;
use crate::operands::{are_symbols, listed, symbol};
use std::alloc::Global;
use wl_expr::{Expr, ExprFault, Look, copy_all};
use wl_ports::{Ledger, Memory, Work};
use wl_shape::replace;

/// A slot: `#n`, or `##n`.
#[derive(Clone, Copy)]
enum Slot {
    One(u128),
    From(u128),
}

/// The integer from 0 up that the expression is.
pub fn count(e: &Expr) -> Option<u128>
    ensures { result ≡ count_of (plain e.now) }
{
    match e.view() {
        Look::Num(n) => {
            if n.den() == 1 && n.num() >= 0 {
                Some(n.num().unsigned_abs())
            } else {
                None
            }
        }
        _ => None,
    }
}

/// The slot that a node of this head and these elements is.
fn slot_in(head: &Expr, elements: &[Expr]) -> Option<Slot>
    ensures { (f t : Tree) (args : List Tree) → option_map (slot_value f args t) result ≡ slot_of f args t (plain head.now) (trees elements.now) }
{
    let [e] = elements else {
        return None;
    };
    let n = count(e)?;
    if is_symbol(head, "Slot") {
        return Some(Slot::One(n));
    }
    if is_symbol(head, "SlotSequence") {
        return Some(Slot::From(n));
    }
    None
}

/// Whether a node of this head and these elements is a Function whose slots are its own.
fn is_inner(head: &Expr, elements: &[Expr]) -> bool
    ensures { result ≡ is_inner (plain head.now) (trees elements.now) }
{
    elements.len() == 1 && is_symbol(head, "Function")
}

/// The argument of this number, where there is one; 0 is the function.
fn argument<'a>(f: &'a Expr, args: &'a [Expr], n: u128) -> Option<&'a Expr>
    ensures value { (t : Tree) → unwrap_or (option_map (λ r. plain r.now) result) t ≡ rows.slot (plain f.now) (trees args.now) t n }
    ensures passed { (ms : List Stamped) → IsFrom ms f.now → AllFrom ms args.now → IfSome result (λ r. IsFrom ms r.now) }
{
    if n == 0 {
        return Some(f);
    }
    if n > args.len() as u128 {
        return None;
    }
    Some(&args[n as usize - 1])
}

/// The sequence of the arguments from this number on, where there are so many; none are a sequence too.
fn arguments_from(alloc: Global, args: &[Expr], n: u128) -> Result<Option<Expr>, ExprFault>
    ensures made { (t : Tree) → IsRenewed t (rows.slots_from (trees args.now) t n) result }
    ensures passed { (ms : List Stamped) → AllFrom ms args.now → IfOk result (λ o. IfSome o (IsFrom ms)) }
{
    if n == 0 {
        return Ok(None);
    }
    if n > args.len() as u128 + 1 {
        return Ok(None);
    }
    let head = symbol(alloc, "Sequence")?;
    let sequence = Expr::node(alloc, &head, &args[n as usize - 1..])?;
    Ok(Some(sequence))
}

/// What stands for a slot, where it doesn't stay.
fn standing(alloc: Global, f: &Expr, args: &[Expr], slot: Slot) -> Result<Option<Expr>, ExprFault>
    ensures made { (t : Tree) → IsRenewed t (slot_value (plain f.now) (trees args.now) t slot) result }
    ensures passed { (ms : List Stamped) → IsFrom ms f.now → AllFrom ms args.now → IfOk result (λ o. IfSome o (IsFrom ms)) }
{
    match slot {
        Slot::One(n) => match argument(f, args, n) {
            Some(e) => Ok(Some(e.copy()?)),
            None => Ok(None),
        },
        Slot::From(n) => arguments_from(alloc, args, n),
    }
}

/// Begins with those that stood before, where none is new yet.
#[tactic(auto, using(crate::proofs::SlotParts::new_or_none, crate::proofs::SlotParts::new_or_some))]
fn begin(alloc: Global, all: &mut Vec<Expr>, before: &[Expr]) -> Result<(), Memory>
    ensures { OnOk result (all.new.items ≡ new_or all.old.items before.now) }
{
    if all.is_empty() {
        *all = copy_all(alloc, before)?;
    }
    Ok(())
}

/// Puts an element behind those before it, once one is new.
#[tactic(auto, using(crate::proofs::SlotParts::new_or_none, crate::proofs::SlotParts::new_or_some, crate::proofs::SlotParts::new_or_push))]
pub fn put(
    alloc: Global,
    all: &mut Vec<Expr>,
    before: &[Expr],
    e: &Expr,
    new: Option<Expr>,
) -> Result<(), Memory>
    ensures { OnOk result (new_or all.new.items (before.now ++ e.now ∷ []) ≡ new_or all.old.items before.now ++ unwrap_or new e.now ∷ []) }
{
    match new {
        Some(new) => {
            begin(alloc, all, before)?;
            all.push(new)?;
            Ok(())
        }
        None => {
            if all.is_empty() {
                return Ok(());
            }
            all.push(e.copy()?)?;
            Ok(())
        }
    }
}

/// The new elements, or those that there were where none is new.
#[tactic(auto, using(crate::proofs::SlotParts::new_or_none, crate::proofs::SlotParts::new_or_some))]
fn new_or<'a>(new: &'a [Expr], elements: &'a [Expr]) -> &'a [Expr]
    ensures { result.now ≡ new_or new.now elements.now }
{
    if new.is_empty() { elements } else { new }
}

/// The node of what is new and of what stays; None where all stays.
pub fn rebuilt(
    alloc: Global,
    head: &Expr,
    elements: &[Expr],
    new_head: Option<Expr>,
    new: &[Expr],
) -> Result<Option<Expr>, ExprFault>
    ensures made { IsRenewed (applied (plain head.now) (trees elements.now))
        (applied (plain (unwrap_or new_head head.now)) (trees (new_or new.now elements.now))) result }
    ensures passed { (ms : List Stamped) → IsFrom ms (unwrap_or new_head head.now) → AllFrom ms (new_or new.now elements.now)
        → IfOk result (λ o. IfSome o (IsFrom ms)) }
{
    let all = new_or(new, elements);
    match new_head {
        Some(head) => Ok(Some(Expr::node(alloc, &head, all)?)),
        None => {
            if new.is_empty() {
                return Ok(None);
            }
            Ok(Some(Expr::node(alloc, head, all)?))
        }
    }
}

/// The expression with its slots replaced; None where none is.
#[cycle(slots)]
fn with_slots(alloc: Global, f: &Expr, args: &[Expr], e: &Expr) -> Result<Option<Expr>, ExprFault>
    ensures made { IsRenewed (plain e.now) (with_slots (plain f.now) (trees args.now) (plain e.now)) result }
    ensures passed { (ms : List Stamped) → IsFrom ms f.now → AllFrom ms args.now → IsFrom ms e.now → IfOk result (λ o. IfSome o (IsFrom ms)) }
{
    let Look::Node(head, elements) = e.view() else {
        return Ok(None);
    };
    if is_inner(head, elements) {
        return Ok(None);
    }
    if let Some(slot) = slot_in(head, elements) {
        return standing(alloc, f, args, slot);
    }
    let new_head = with_slots(alloc, f, args, head)?;
    let new = with_slots_in(alloc, f, args, elements)?;
    rebuilt(alloc, head, elements, new_head, new.as_slice())
}

/// The same of elements; empty where none is new.
#[cycle(slots)]
#[tactic(auto, using(wl_expr::proofs::Parts::depth_arg))]
fn with_slots_in(
    alloc: Global,
    f: &Expr,
    args: &[Expr],
    elements: &[Expr],
) -> Result<Vec<Expr>, ExprFault>
    ensures made { IfOk result (λ v. trees (new_or v.items elements.now) ≡ map (with_slots (plain f.now) (trees args.now)) (trees elements.now)) }
    ensures large { result ≡ Err ExprFault.Large → ¬ AreSmall (tree.from_list (map (with_slots (plain f.now) (trees args.now)) (trees elements.now))) }
    ensures passed { (ms : List Stamped) → IsFrom ms f.now → AllFrom ms args.now → AllFrom ms elements.now
        → IfOk result (λ v. AllFrom ms (new_or v.items elements.now)) }
{
    let mut all = Vec::new(alloc);
    for k in 0..elements.len() {
        let e = &elements[k];
        let new = with_slots(alloc, f, args, e)?;
        put(alloc, &mut all, &elements[..k], e, new)?;
    }
    Ok(all)
}

/// The body with the arguments in the place of its slots.
fn with_arguments(
    alloc: Global,
    f: &Expr,
    args: &[Expr],
    body: &Expr,
) -> Result<Option<Expr>, ExprFault>
    ensures made { IsGiven (Some (with_slots (plain f.now) (trees args.now) (plain body.now))) result }
    ensures passed { (ms : List Stamped) → IsFrom ms f.now → AllFrom ms args.now → IsFrom ms body.now → IfOk result (λ o. IfSome o (IsFrom ms)) }
{
    match with_slots(alloc, f, args, body)? {
        Some(e) => Ok(Some(e)),
        None => Ok(Some(body.copy()?)),
    }
}

/// The body with the arguments in the place of the names `x` or `{x, y}`, where there are enough.
fn with_names(
    alloc: Global,
    first: &Expr,
    body: &Expr,
    args: &[Expr],
) -> Result<Option<Expr>, ExprFault>
    ensures made { IsGiven (rows.with_names (plain body.now) (function_names (plain first.now)) (trees args.now)) result }
    ensures passed { (ms : List Stamped) → IsFrom ms body.now → AllFrom ms args.now → IfOk result (λ o. IfSome o (IsFrom ms)) }
{
    let names = listed(first);
    if !are_symbols(names) {
        return Ok(None);
    }
    if names.len() > args.len() {
        return Ok(None);
    }
    let values = &args[..names.len()];
    let filled = replace(alloc, body, names, values)?;
    Ok(Some(filled))
}

/// What a Function gives of these arguments, where it gives something.
fn function_applied(alloc: Global, f: &Expr, args: &[Expr]) -> Result<Option<Expr>, ExprFault>
    ensures made { IsGiven (function_applied (plain f.now) (trees args.now)) result }
    ensures passed { (ms : List Stamped) → IsFrom ms f.now → AllFrom ms args.now → IfOk result (λ o. IfSome o (IsFrom ms)) }
{
    let Look::Node(head, parts) = f.view() else {
        return Ok(None);
    };
    if !is_symbol(head, "Function") {
        return Ok(None);
    }
    if parts.len() == 1 {
        return with_arguments(alloc, f, args, &parts[0]);
    }
    if parts.len() == 2 {
        return with_names(alloc, &parts[0], &parts[1], args);
    }
    Ok(None)
}

impl Evaluator {
    /// The result of a form whose head is no symbol.
    pub fn function_row<L: Ledger>(
        &mut self,
        f: &Expr,
        args: &[Expr],
        work: &mut Work<L>,
    ) -> Result<Option<Expr>, Stop>
        requires function { Honest self.old f.now }
        requires args { AllHonest self.old args.now }
        ensures played { Played found_tree (sized_row (done (function_applied (plain f.now) (trees args.now)))) self.old result self.new }
        ensures kept { self.new.steps ≡ self.old.steps }
        ensures ticks { at_last_mark work.new ≡ at_last_mark work.old }
    {
        match function_applied(self.alloc, f, args) {
            Err(fault) => Err(self.fault(fault, work)),
            Ok(None) => Ok(None),
            Ok(Some(e)) => {
                // That an expression is within the limits is a clause of `weight`.
                let _weight = e.weight();
                Ok(Some(e))
            }
        }
    }
}
