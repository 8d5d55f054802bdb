//! Runs as they are lent from pattern and subject.
ghost use Rattle.std.specs.Prelude.{◌≡◌, ◌∷◌, [], List, take, drop, map, length, slice_get, IfSome};
ghost use Rattle.std.specs.List.{All};
ghost use Rattle.std.specs.Option.{option_map};
ghost use Rattle.wl_expr.specs.Same as trees;
ghost use Rattle.wl_expr.specs.Same.{same_lists};
ghost use Rattle.wl_expr.specs.Passed.{IsFrom};
ghost use Rattle.wl_expr.specs.Stamped.{Stamped, plain};
ghost use Rattle.wl_match.specs.Parts.{kept, kept_by};
ghost use Rattle.wl_expr.specs.Tree as tree;
ghost use Rattle.wl_match.specs.Runs as run;
ghost use Rattle.wl_match.specs.Runs.{both_same, child, elements_of, keeps, run_at, trees_in, trees_of};

use crate::part::Part;
use crate::pattern::Pattern;
use crate::taken::{Place, Taken};
use wl_expr::{Expr, Look};

/// A run that a match binds, lent from pattern and subject.
#[derive(Clone, Copy)]
pub enum Run<'m, 'a> {
    /// One expression.
    One(&'a Expr),
    /// Elements that stand side by side.
    Slice(&'a [Expr]),
    /// The elements of the node at these places, from 0.
    Picked(&'a Expr, &'m [u32]),
    /// These elements as one expression, under the head of the node.
    Wrapped(&'a Expr, &'m [u32]),
}

/// Expressions, side by side or by their places in a node.
#[derive(Clone, Copy)]
pub(crate) enum Items<'m, 'a> {
    Slice(&'a [Expr]),
    Picked(&'a Expr, &'m [u32]),
}

/// The expressions of a run, the last form under a head.
#[derive(Clone, Copy)]
pub(crate) enum Lent<'m, 'a> {
    These(Items<'m, 'a>),
    Wrapped(&'a Expr, Items<'m, 'a>),
}

#[tactic(auto, using(wl_expr::proofs::Passing::head_from, wl_expr::proofs::Passing::args_from))]
pub(crate) fn args_of(t: &Expr) -> &[Expr]
    ensures is { map plain result.now ≡ elements_of (plain t.now) }
    ensures passed { (ms : List Stamped) → IsFrom ms t.now → All (IsFrom ms) result.now }
{
    match t.view() {
        Look::Node(_, args) => args,
        _ => &[],
    }
}

/// The head at 0, or an element; the expression itself where there is none.
#[tactic(auto, using(wl_expr::proofs::Passing::head_from, wl_expr::proofs::Passing::args_from))]
fn child_of(t: &Expr, step: u32) -> &Expr
    ensures is { plain result.now ≡ child step (plain t.now) }
    ensures passed { (ms : List Stamped) → IsFrom ms t.now → IsFrom ms result.now }
{
    match t.view() {
        Look::Node(head, args) => {
            if step == 0 {
                return head;
            }
            match args.get(step as usize - 1) {
                Some(arg) => arg,
                None => t,
            }
        }
        _ => t,
    }
}

/// The expression that a part keeps.
fn kept_in(part: &Part) -> Option<&Expr>
    ensures is { option_map (λ r. plain r.now) result ≡ keeps part.now }
    ensures passed { IfSome result (λ r. (ms : List Stamped) → All (IsFrom ms) (kept_by part.now) → IsFrom ms r.now) }
{
    match part {
        Part::Exactly(t)
        | Part::Applies(t, _)
        | Part::Holds(t, _)
        | Part::Except(t, _)
        | Part::Nodes(_, t, _, _) => Some(t),
        Part::Optional(Some(t), _) => Some(t),
        Part::Blank(_, Some(t)) => Some(t),
        _ => None,
    }
}

pub(crate) fn kept_at<'a>(pattern: &'a Pattern, subject: &'a Expr, part: usize) -> &'a Expr
    ensures is { plain result.now ≡ run.kept_at pattern.now (plain subject.now) part }
    ensures passed { (ms : List Stamped) → IsFrom ms subject.now → All (IsFrom ms) (kept pattern.now) → IsFrom ms result.now }
{
    match pattern.part(part) {
        Some(part) => match kept_in(part) {
            Some(kept) => kept,
            None => subject,
        },
        None => subject,
    }
}

pub(crate) fn tree_at<'a>(pattern: &'a Pattern, subject: &'a Expr, place: &Place) -> &'a Expr
    ensures is { plain result.now ≡ run.tree_at pattern.now (plain subject.now) place.now }
    ensures passed { (ms : List Stamped) → IsFrom ms subject.now → All (IsFrom ms) (kept pattern.now) → IsFrom ms result.now }
{
    let mut t = match place.root {
        None => subject,
        Some(part) => kept_at(pattern, subject, part),
    };
    for step in place.steps.as_slice() {
        t = child_of(t, *step);
    }
    t
}

pub(crate) fn some_of(args: &[Expr], from: usize, count: usize) -> &[Expr]
    ensures { result.now ≡ take count (drop from args.now) }
{
    let left = if from <= args.len() {
        &args[from..]
    } else {
        &args[..0]
    };
    if count <= left.len() {
        &left[..count]
    } else {
        left
    }
}

pub(crate) fn lend<'m, 'a>(pattern: &'a Pattern, subject: &'a Expr, run: &'m Taken) -> Lent<'m, 'a>
    ensures { trees_of result ≡ run_at pattern.now (plain subject.now) run.now }
{
    match run {
        Taken::Nothing => Lent::These(Items::Slice(&[])),
        Taken::Tree(place) => {
            let t = tree_at(pattern, subject, place);
            Lent::These(Items::Slice(std::slice::from_ref(t)))
        }
        Taken::Slice(place, from, count) => {
            let args = args_of(tree_at(pattern, subject, place));
            Lent::These(Items::Slice(some_of(args, *from, *count)))
        }
        Taken::Picked(place, places) => {
            let t = tree_at(pattern, subject, place);
            Lent::These(Items::Picked(t, places.as_slice()))
        }
        Taken::Wrapped(part, place, places) => {
            let head = kept_at(pattern, subject, *part);
            let t = tree_at(pattern, subject, place);
            Lent::Wrapped(head, Items::Picked(t, places.as_slice()))
        }
    }
}

/// The element at a place; the expression itself where there is none.
pub(crate) fn element_at(t: &Expr, place: u32) -> &Expr
    ensures is { plain result.now ≡ run.element_at (plain t.now) place }
    ensures passed { (ms : List Stamped) → IsFrom ms t.now → IsFrom ms result.now }
{
    let args = args_of(t);
    if (place as usize) < args.len() {
        &args[place as usize]
    } else {
        t
    }
}

pub(crate) fn same(a: &Expr, b: &Expr) -> bool
    ensures { result ≡ trees.same (plain a.now) (plain b.now) }
{
    a.same(b)
}

fn both_same(a: Option<&Expr>, b: Option<&Expr>) -> bool
    ensures { result ≡ both_same (option_map (λ r. plain r.now) a.entry) (option_map (λ r. plain r.now) b.entry) }
{
    match (a, b) {
        (Some(a), Some(b)) => same(a, b),
        _ => false,
    }
}

impl<'m, 'a> Items<'m, 'a> {
    pub fn len(&self) -> usize
        ensures { result ≡ length (trees_in self.now) }
    {
        match self {
            Items::Slice(ts) => ts.len(),
            Items::Picked(_, places) => places.len(),
        }
    }

    pub fn at(&self, k: usize) -> Option<&'a Expr>
        ensures { option_map (λ r. plain r.now) result ≡ slice_get (trees_in self.now) k }
    {
        match self {
            Items::Slice(ts) => { if k < ts.len() { Some(&ts[k]) } else { None } }
            Items::Picked(t, places) => {
                if k < places.len() {
                    Some(element_at(*t, places[k]))
                } else {
                    None
                }
            }
        }
    }

    fn same(&self, other: &Items<'_, '_>) -> bool
        ensures { result ≡ same_lists (trees_in self.now) (trees_in other.now) }
    {
        let n = self.len();
        if n != other.len() {
            return false;
        }
        for k in 0..n {
            if !both_same(self.at(k), other.at(k)) {
                return false;
            }
        }
        true
    }
}

/// Whether the expression is that node.
fn is_node(t: &Expr, head: &Expr, args: &Items<'_, '_>) -> bool
    ensures { result ≡ trees.same (plain t.now) (tree.node (plain head.now) (tree.from_list (trees_in args.now))) }
{
    match t.view() {
        Look::Node(own, others) => same(own, head) && Items::Slice(others).same(args),
        _ => false,
    }
}

fn is_one_node(items: &Items<'_, '_>, head: &Expr, args: &Items<'_, '_>) -> bool
    ensures { result ≡ same_lists (trees_in items.now) (tree.node (plain head.now) (tree.from_list (trees_in args.now)) ∷ []) }
{
    if items.len() != 1 {
        return false;
    }
    match items.at(0) {
        Some(t) => is_node(t, head, args),
        None => false,
    }
}

impl<'m, 'a> Lent<'m, 'a> {
    pub fn len(&self) -> usize
        ensures { result ≡ length (trees_of self.now) }
    {
        match self {
            Lent::These(items) => items.len(),
            Lent::Wrapped(_, _) => 1,
        }
    }

    /// Whether the two runs are identical.
    pub fn same(&self, other: &Lent<'_, '_>) -> bool
        ensures { result ≡ same_lists (trees_of self.now) (trees_of other.now) }
    {
        match (self, other) {
            (Lent::These(ts), Lent::These(us)) => ts.same(us),
            (Lent::These(ts), Lent::Wrapped(head, args)) => is_one_node(ts, *head, args),
            (Lent::Wrapped(head, args), Lent::These(ts)) => is_one_node(ts, *head, args),
            (Lent::Wrapped(head, ts), Lent::Wrapped(other, us)) => {
                same(*head, *other) && ts.same(us)
            }
        }
    }
}
