//! The symbols whose attributes a match reads: those that are heads of nodes of a pattern, in preorder.
ghost use Rattle.std.specs.Prelude.{◌≡◌, ◌≤◌, length, slice_get, IfSome};
ghost use Rattle.std.specs.Option.{option_copied};
ghost use Rattle.wl_expr.specs.Stamped.{plain, plains, from_list};
ghost use Rattle.wl_expr.specs.Tree.{weights};
ghost use Rattle.wl_match.specs.Heads.{head_symbol, heads, heads_in, heads_above};
ghost use Rattle.wl_match.specs.Sought.{FindsName, IsSought};
ghost use Rattle.wl_ports.specs.Name.{IsName};

use wl_expr::{Expr, Look};

/// How many nodes of the pattern have a symbol as head.
#[cycle(count)]
#[tactic(auto, using(crate::proofs::HeadsLemmas::length_heads))]
pub fn head_count(p: &Expr) -> u64
    ensures { result ≡ length (heads (plain p.now)) }
{
    match p.view() {
        Look::Node(head, args) => count_above(head) + count_among(args),
        _ => 0,
    }
}

/// How many of these nodes are a node for its own head, or stand in that head.
#[cycle(count)]
fn count_above(head: &Expr) -> u64
    ensures { result ≡ length (heads_above (plain head.now)) }
{
    match head.view() {
        Look::Symbol(_) => 1,
        _ => head_count(head),
    }
}

/// How many of these nodes stand in the elements.
#[cycle(count)]
#[tactic(auto, using(wl_expr::proofs::Parts::depth_arg))]
fn count_among(args: &[Expr]) -> u64
    requires { weights (plains (from_list args.now)) ≤ 4000000 }
    ensures { result ≡ length (heads_in (plains (from_list args.now))) }
{
    let mut count = 0;
    for arg in args {
        count += head_count(arg);
    }
    count
}

/// A name that was found at a place, or how far past the end of the names the place is.
enum Sought<'a> {
    Found(&'a str),
    Past(u64),
}

/// The symbol that is the head of the k-th of these nodes, from 0.
pub fn head_at(p: &Expr, k: u64) -> Option<&str>
    ensures value { option_copied result ≡ slice_get (heads (plain p.now)) k }
    ensures name { IfSome result (λ x. IsName x.now) }
{
    match seek(p, k) {
        Sought::Found(name) => Some(name),
        Sought::Past(_) => None,
    }
}

#[cycle(seek)]
fn seek(p: &Expr, k: u64) -> Sought<'_>
    ensures sought { IsSought (heads (plain p.now)) k result }
    ensures name { FindsName result }
{
    match p.view() {
        Look::Node(head, args) => match seek_above(head, k) {
            Sought::Found(name) => Sought::Found(name),
            Sought::Past(left) => seek_among(args, left),
        },
        _ => Sought::Past(k),
    }
}

#[cycle(seek)]
fn seek_above(head: &Expr, k: u64) -> Sought<'_>
    ensures sought { IsSought (heads_above (plain head.now)) k result }
    ensures name { FindsName result }
{
    match head.view() {
        Look::Symbol(name) => {
            if k == 0 {
                Sought::Found(name)
            } else {
                Sought::Past(k - 1)
            }
        }
        _ => seek(head, k),
    }
}

#[cycle(seek)]
#[tactic(auto, using(wl_expr::proofs::Parts::depth_arg))]
fn seek_among(args: &[Expr], k: u64) -> Sought<'_>
    ensures sought { IsSought (heads_in (plains (from_list args.now))) k result }
    ensures name { FindsName result }
{
    let mut left = k;
    for arg in args {
        match seek(arg, left) {
            Sought::Found(name) => return Sought::Found(name),
            Sought::Past(past) => left = past,
        }
    }
    Sought::Past(left)
}
