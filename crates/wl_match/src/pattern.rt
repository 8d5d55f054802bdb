//! A pattern that is ready to be matched.
ghost use Rattle.std.specs.Prelude.{◌≡◌, ◌+◌, ◌-◌, ◌≤◌, pos, ◌∷◌, [], false, List, length, map, IfOk, IfSome, MatchOption};
ghost use Rattle.std.specs.List.{All};
ghost use Rattle.wl_expr.specs.Passed.{IsFrom};
ghost use Rattle.wl_expr.specs.Stamped.{Stamped, num, plain, plains, from_list};
ghost use Rattle.wl_expr.specs.Tree.{Tree, node};
ghost use Rattle.wl_expr.specs.Words.{Name, is_node, natural};
ghost use Rattle.wl_match.specs.Runs.{kept_at};
ghost use Rattle.wl_match.specs.Heads.{head_symbol, heads, heads_above, heads_in};
ghost use Rattle.wl_exact.specs.Fraction.{of_int};
ghost use Rattle.wl_match.specs.Means.{Looked};
ghost use Rattle.wl_match.specs.Parts.{Builds, BuildsAll, Puts, kept, pat, whole};
ghost use Rattle.wl_match.specs.Sizes.{size};
ghost use Rattle.wl_match.specs.declared.part.Part.TheVariants.{Exactly};
ghost use Rattle.wl_match.specs.Pattern.{pattern};
ghost use Rattle.wl_match.specs.Placed.{flags_at, placed};
ghost use Rattle.wl_match.specs.declared.flags.Flags.{Flags};

use crate::flags::Flags;
use crate::forms::part_of;
use crate::part::Part;
use crate::size::{Size, all_sizes};
use std::alloc::Global;
use std::marker::Model;
use wl_exact::Num;
use wl_expr::{Expr, Look};
use wl_ports::Memory;

/// A pattern that is ready to be matched. It keeps the expressions that its parts name: texts, literals, heads, tests and
/// defaults, each shared with the expression that it was prepared from.
#[derive(Drop)]
pub struct Pattern {
    parts: Vec<Part>,
    sizes: Vec<Size>,
}

impl Model for Pattern {
    ghost use Rattle.std.specs.Prelude.{◌≡◌, List};
    ghost use Rattle.wl_match.specs.declared.part.Part.{Part};
    ghost use Rattle.wl_match.specs.Parts.{HasDefaults, HaveOwnHeads, IsBehind};
    ghost use Rattle.wl_match.specs.Sizes.{sizes_of};

    ghost Value = { List Part };

    ghost use Rattle.std.specs.Coded.{codes};
    ghost use Rattle.wl_expr.specs.contracts.expr.Expr as expr;

    ghost coded = { Prim.hlevel (codes, expr.the_row.coded) };

    ghost view = { λ q. q.parts.items };

    ghost invariant = { λ q. IsBehind 0 q.parts.items × (HasDefaults q.parts.items × ((q.sizes.items ≡ sizes_of q.parts.items) × HaveOwnHeads q.parts.items)) };
}

impl Pattern {
    const ZERO: usize = 0;

    const ONE: usize = 1;

    /// The pattern that the expression is, with the flags of the symbols that are heads of its nodes, in their order.
    pub fn prepare(alloc: Global, p: &Expr, flags: &[Flags]) -> Result<Pattern, Memory>
        requires { length flags.now ≡ length (heads (plain p.now)) }
        ensures placed { IfOk result (λ q. whole q ≡ placed flags.now 0 (plain p.now)) }
        ensures named { (f : Name → Flags) → flags.now ≡ map f (heads (plain p.now))
            → IfOk result (λ q. whole q ≡ pattern f (plain p.now)) }
        ensures passed { IfOk result (λ q. (ms : List Stamped) → IsFrom ms p.now → All (IsFrom ms) (kept q)) }
    {
        let mut parts = defaults(alloc)?;
        build(alloc, p, flags, 0, &mut parts)?;
        let sizes = all_sizes(alloc, parts.as_slice())?;
        Ok(Pattern { parts, sizes })
    }

    /// Where the default of a sum stands.
    pub(crate) fn zero(&self) -> usize
        ensures { (t : Tree) → kept_at self.now t result ≡ natural 0 }
    {
        let _ = &self.parts;
        Pattern::ZERO
    }

    /// Where the default of a product stands.
    pub(crate) fn one(&self) -> usize
        ensures { (t : Tree) → kept_at self.now t result ≡ natural 1 }
    {
        let _ = &self.parts;
        Pattern::ONE
    }

    /// The place of the whole pattern.
    pub(crate) fn top(&self) -> usize
        ensures { result ≡ length self.now - 1 }
    {
        self.parts.len().saturating_sub(1)
    }

    pub(crate) fn count(&self) -> usize
        ensures { result ≡ length self.now }
    {
        self.parts.len()
    }

    pub(crate) fn part(&self, i: usize) -> Option<&Part>
        ensures { Looked self.now i result }
    {
        let parts = self.parts.as_slice();
        if i < parts.len() {
            Some(&parts[i])
        } else {
            None
        }
    }

    pub(crate) fn size(&self, i: usize) -> Size
        ensures { result ≡ size (pat self.now i) }
    {
        let sizes = self.sizes.as_slice();
        if i < sizes.len() { sizes[i] } else { Size::ONE }
    }
}

fn integer(alloc: Global, n: i128) -> Result<Part, Memory>
    ensures { IfOk result (λ s. s ≡ Exactly (num (of_int n))) }
{
    match Num::int(n) {
        Some(n) => Ok(Part::Exactly(Expr::num(alloc, n)?)),
        None => Err(Memory),
    }
}

/// The parts that stand before all others: what is absent in a sum, and in a product.
fn defaults(alloc: Global) -> Result<Vec<Part>, Memory>
    ensures { IfOk result (λ v. v.items ≡ Exactly (num (of_int (pos 0))) ∷ Exactly (num (of_int (pos 1))) ∷ []) }
{
    let mut parts = Vec::new(alloc);
    parts.push(integer(alloc, 0)?)?;
    parts.push(integer(alloc, 1)?)?;
    Ok(parts)
}

/// The place of a part that was built, and how many heads stand before and in what it was built from.
#[derive(Clone, Copy)]
struct Built {
    part: usize,
    next: usize,
}

/// The same of a list of parts.
#[derive(Drop)]
struct BuiltAll {
    parts: Vec<usize>,
    next: usize,
}

fn put(parts: &mut Vec<Part>, part: Part) -> Result<usize, Memory>
    ensures { IfOk result (λ i. Puts part parts.old.items i parts.new.items) }
{
    let at = parts.len();
    parts.push(part)?;
    Ok(at)
}

/// The flags of the next head, and how many heads stand up to it where the head is a symbol.
fn own_flags(head: &Expr, flags: &[Flags], at: usize) -> (Flags, usize)
    requires { at + length (head_symbol (plain head.now)) ≤ length flags.now }
    ensures flags { result.0 ≡ flags_at flags.now at }
    ensures next { result.1 ≡ at + length (head_symbol (plain head.now)) }
{
    let own = if at < flags.len() {
        flags[at]
    } else {
        Flags::NONE
    };
    match head.view() {
        Look::Symbol(_) => (own, at + 1),
        _ => (own, at),
    }
}

/// The head and the elements of a node.
#[tactic(auto, using(wl_expr::proofs::Passing::head_from, wl_expr::proofs::Passing::args_from))]
fn node_of(p: &Expr) -> Option<(&Expr, &[Expr])>
    ensures is { MatchOption result (is_node (plain p.now) ≡ false)
        (λ n. node (plain n.0.now) (plains (from_list n.1.now)) ≡ plain p.now) }
    ensures passed { IfSome result (λ n. (ms : List Stamped)
        → IsFrom ms p.now → IsFrom ms n.0.now × All (IsFrom ms) n.1.now) }
{
    match p.view() {
        Look::Node(head, args) => Some((head, args)),
        _ => None,
    }
}

/// Adds the parts of the expression, before which `at` heads stand.
#[cycle(build)]
fn build(
    alloc: Global,
    p: &Expr,
    flags: &[Flags],
    at: usize,
    parts: &mut Vec<Part>,
) -> Result<Built, Memory>
    requires { at + length (heads (plain p.now)) ≤ length flags.now }
    ensures { IfOk result (λ b. Builds flags.now at p.now parts.old.items b.part b.next parts.new.items) }
{
    match node_of(p) {
        Some((head, args)) => {
            let (own, next) = own_flags(head, flags, at);
            let top = build(alloc, head, flags, next, parts)?;
            let below = build_all(alloc, args, flags, top.next, parts)?;
            let part = part_of(alloc, own, head, args, top.part, below.parts)?;
            Ok(Built {
                part: put(parts, part)?,
                next: below.next,
            })
        }
        None => Ok(Built {
            part: put(parts, Part::Exactly(p.copy()?))?,
            next: at,
        }),
    }
}

/// Adds the parts of each of the expressions, before which `at` heads stand.
#[cycle(build)]
fn build_all(
    alloc: Global,
    args: &[Expr],
    flags: &[Flags],
    at: usize,
    parts: &mut Vec<Part>,
) -> Result<BuiltAll, Memory>
    requires { at + length (heads_in (plains (from_list args.now))) ≤ length flags.now }
    ensures { IfOk result (λ b. BuildsAll flags.now at args.now parts.old.items b.parts.items b.next parts.new.items) }
{
    let mut all = Vec::new(alloc);
    let mut next = at;
    for arg in args {
        let built = build(alloc, arg, flags, next, parts)?;
        all.push(built.part)?;
        next = built.next;
    }
    Ok(BuiltAll { parts: all, next })
}
