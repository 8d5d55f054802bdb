//! The special forms of patterns: a node that is read by its head and its elements, with the parts that its elements are.
ghost use Rattle.std.specs.Prelude.{◌≡◌, ◌≢◌, ◌<◌, ℕ, List, [], IfOk, codes};
ghost use Rattle.std.specs.List.{All};
ghost use Rattle.wl_expr.specs.Passed.{IsFrom};
ghost use Rattle.wl_expr.specs.Stamped.{Stamped, plain, plains, from_list};
ghost use Rattle.wl_match.specs.Parts.{count_of, inside, inside_some, kept_by, kept_by_some, pat_of, pat_or, pats_of};
ghost use Rattle.wl_match.specs.Pattern.{Pat, Pats, applies, holds, hold, repeated, read_blank, read_named, read_tested, read_one, read_optional, read_verbatim, read_except, read_special, read_node};

use crate::flags::Flags;
use crate::items::{both, only};
use crate::part::{Number, Part};
use std::alloc::Global;
use wl_expr::{Expr, Look};
use wl_ports::Memory;

fn blank(number: Number, args: &[Expr]) -> Result<Option<Part>, Memory>
    ensures is { IfOk result (λ o. (f : ℕ → Pat) (p : Pat) → pat_or f o p
        ≡ read_blank (count_of number) (plains (from_list args.now)) p) }
    ensures passed { IfOk result (λ o. (ms : List Stamped) → All (IsFrom ms) args.now → All (IsFrom ms) (kept_by_some o)) }
    ensures inside { IfOk result (λ o. inside_some o ≡ []) }
{
    if args.is_empty() {
        return Ok(Some(Part::Blank(number, None)));
    }
    match only(args) {
        Some(head) => Ok(Some(Part::Blank(number, Some(head.copy()?)))),
        None => Ok(None),
    }
}

fn named(alloc: Global, args: &[Expr], parts: &[usize]) -> Result<Option<Part>, Memory>
    ensures is { IfOk result (λ o. (f : ℕ → Pat) (p : Pat) → pat_or f o p
        ≡ read_named (plains (from_list args.now)) (pats_of f parts.now) p) }
    ensures passed { IfOk result (λ o. (ms : List Stamped) → All (IsFrom ms) args.now → All (IsFrom ms) (kept_by_some o)) }
    ensures inside { IfOk result (λ o. (n : ℕ) → All (λ i. i < n) parts.now → All (λ i. i < n) (inside_some o)) }
{
    let Some((name, _)) = both(args) else {
        return Ok(None);
    };
    let Some((_, inner)) = both(parts) else {
        return Ok(None);
    };
    match name.view() {
        Look::Symbol(name) => Ok(Some(Part::Named(String::from_str(alloc, name)?, *inner))),
        _ => Ok(None),
    }
}

fn tested_by_function(args: &[Expr], parts: &[usize]) -> Result<Option<Part>, Memory>
    ensures is { IfOk result (λ o. (f : ℕ → Pat) (p : Pat) → pat_or f o p
        ≡ read_tested applies (plains (from_list args.now)) (pats_of f parts.now) p) }
    ensures passed { IfOk result (λ o. (ms : List Stamped) → All (IsFrom ms) args.now → All (IsFrom ms) (kept_by_some o)) }
    ensures inside { IfOk result (λ o. (n : ℕ) → All (λ i. i < n) parts.now → All (λ i. i < n) (inside_some o)) }
{
    let Some((_, test)) = both(args) else {
        return Ok(None);
    };
    let Some((inner, _)) = both(parts) else {
        return Ok(None);
    };
    Ok(Some(Part::Applies(test.copy()?, *inner)))
}

fn tested_by_condition(args: &[Expr], parts: &[usize]) -> Result<Option<Part>, Memory>
    ensures is { IfOk result (λ o. (f : ℕ → Pat) (p : Pat) → pat_or f o p
        ≡ read_tested holds (plains (from_list args.now)) (pats_of f parts.now) p) }
    ensures passed { IfOk result (λ o. (ms : List Stamped) → All (IsFrom ms) args.now → All (IsFrom ms) (kept_by_some o)) }
    ensures inside { IfOk result (λ o. (n : ℕ) → All (λ i. i < n) parts.now → All (λ i. i < n) (inside_some o)) }
{
    let Some((_, condition)) = both(args) else {
        return Ok(None);
    };
    let Some((inner, _)) = both(parts) else {
        return Ok(None);
    };
    Ok(Some(Part::Holds(condition.copy()?, *inner)))
}

fn held(parts: &[usize]) -> Option<Part>
    ensures is { (f : ℕ → Pat) (p : Pat) → pat_or f result p ≡ read_one hold (pats_of f parts.now) p }
    ensures passed { kept_by_some result ≡ [] }
    ensures inside { (n : ℕ) → All (λ i. i < n) parts.now → All (λ i. i < n) (inside_some result) }
{
    match only(parts) {
        Some(inner) => Some(Part::Hold(*inner)),
        None => None,
    }
}

fn repeated(number: Number, parts: &[usize]) -> Option<Part>
    ensures is { (f : ℕ → Pat) (p : Pat) → pat_or f result p
        ≡ read_one (repeated (count_of number)) (pats_of f parts.now) p }
    ensures passed { kept_by_some result ≡ [] }
    ensures inside { (n : ℕ) → All (λ i. i < n) parts.now → All (λ i. i < n) (inside_some result) }
{
    match only(parts) {
        Some(inner) => Some(Part::Repeated(number, *inner)),
        None => None,
    }
}

fn optional(args: &[Expr], parts: &[usize]) -> Result<Option<Part>, Memory>
    ensures is { IfOk result (λ o. (f : ℕ → Pat) (p : Pat) → pat_or f o p
        ≡ read_optional (plains (from_list args.now)) (pats_of f parts.now) p) }
    ensures passed { IfOk result (λ o. (ms : List Stamped) → All (IsFrom ms) args.now → All (IsFrom ms) (kept_by_some o)) }
    ensures inside { IfOk result (λ o. (n : ℕ) → All (λ i. i < n) parts.now → All (λ i. i < n) (inside_some o)) }
{
    if let Some(_) = only(args) {
        if let Some(inner) = only(parts) {
            return Ok(Some(Part::Optional(None, *inner)));
        }
        return Ok(None);
    }
    let Some((_, default)) = both(args) else {
        return Ok(None);
    };
    let Some((inner, _)) = both(parts) else {
        return Ok(None);
    };
    Ok(Some(Part::Optional(Some(default.copy()?), *inner)))
}

fn verbatim(args: &[Expr]) -> Result<Option<Part>, Memory>
    ensures is { IfOk result (λ o. (f : ℕ → Pat) (p : Pat) → pat_or f o p
        ≡ read_verbatim (plains (from_list args.now)) p) }
    ensures passed { IfOk result (λ o. (ms : List Stamped) → All (IsFrom ms) args.now → All (IsFrom ms) (kept_by_some o)) }
    ensures inside { IfOk result (λ o. inside_some o ≡ []) }
{
    match only(args) {
        Some(inner) => Ok(Some(Part::Exactly(inner.copy()?))),
        None => Ok(None),
    }
}

fn except(args: &[Expr], parts: &[usize]) -> Result<Option<Part>, Memory>
    ensures is { IfOk result (λ o. (f : ℕ → Pat) (p : Pat) → pat_or f o p
        ≡ read_except (plains (from_list args.now)) (pats_of f parts.now) p) }
    ensures passed { IfOk result (λ o. (ms : List Stamped) → All (IsFrom ms) args.now → All (IsFrom ms) (kept_by_some o)) }
    ensures inside { IfOk result (λ o. (n : ℕ) → All (λ i. i < n) parts.now → All (λ i. i < n) (inside_some o)) }
{
    if let Some(excepted) = only(args) {
        if let Some(_) = only(parts) {
            return Ok(Some(Part::Except(excepted.copy()?, None)));
        }
        return Ok(None);
    }
    let Some((excepted, _)) = both(args) else {
        return Ok(None);
    };
    let Some((_, inner)) = both(parts) else {
        return Ok(None);
    };
    Ok(Some(Part::Except(excepted.copy()?, Some(*inner))))
}

/// The special form of this head with these elements, Alternatives apart.
fn special(
    alloc: Global,
    name: &str,
    args: &[Expr],
    parts: &[usize],
) -> Result<Option<Part>, Memory>
    requires { name.now ≢ codes "Alternatives" }
    ensures is { IfOk result (λ o. (f : ℕ → Pat) (p : Pat) → pat_or f o p
        ≡ read_special name.now (plains (from_list args.now)) (pats_of f parts.now) p) }
    ensures passed { IfOk result (λ o. (ms : List Stamped) → All (IsFrom ms) args.now → All (IsFrom ms) (kept_by_some o)) }
    ensures inside { IfOk result (λ o. (n : ℕ) → All (λ i. i < n) parts.now → All (λ i. i < n) (inside_some o)) }
{
    match name {
        "Blank" => blank(Number::One, args),
        "BlankSequence" => blank(Number::Some, args),
        "BlankNullSequence" => blank(Number::Any, args),
        "Pattern" => named(alloc, args, parts),
        "PatternTest" => tested_by_function(args, parts),
        "Condition" => tested_by_condition(args, parts),
        "HoldPattern" => Ok(held(parts)),
        "Optional" => optional(args, parts),
        "Repeated" => Ok(repeated(Number::Some, parts)),
        "RepeatedNull" => Ok(repeated(Number::Any, parts)),
        "Verbatim" => verbatim(args),
        "Except" => except(args, parts),
        _ => Ok(None),
    }
}

/// The part that a node is, from the parts that its head and its elements are.
pub(crate) fn part_of(
    alloc: Global,
    flags: Flags,
    head: &Expr,
    args: &[Expr],
    head_part: usize,
    parts: Vec<usize>,
) -> Result<Part, Memory>
    ensures is { IfOk result (λ s. (f : ℕ → Pat) → pat_of f s
        ≡ read_node (λ _. flags) (plain head.now) (plains (from_list args.now)) (f head_part) (pats_of f parts.items)) }
    ensures passed { IfOk result (λ s. (ms : List Stamped) → IsFrom ms head.now → All (IsFrom ms) args.now → All (IsFrom ms) (kept_by s)) }
    ensures inside { IfOk result (λ s. (n : ℕ) → head_part < n → All (λ i. i < n) parts.items → All (λ i. i < n) (inside s)) }
{
    let Look::Symbol(name) = head.view() else {
        return Ok(Part::Nodes(Flags::NONE, head.copy()?, head_part, parts));
    };
    if name == "Alternatives" {
        return Ok(Part::Alternatives(parts));
    }
    match special(alloc, name, args, parts.as_slice())? {
        Some(part) => Ok(part),
        None => Ok(Part::Nodes(flags, head.copy()?, head_part, parts)),
    }
}
