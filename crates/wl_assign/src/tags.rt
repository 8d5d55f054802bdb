//! The tags of a core.
ghost use Rattle.std.specs.Prelude.{◌≡◌, ◌≤◌, ◌<◌, ◌↔◌, IsTrue, IfSome, length, slice_get, take, map, filter_map};
ghost use Rattle.std.specs.Option.{option_copied};
ghost use Rattle.wl_assign.specs.Kinds.{named_in};
ghost use Rattle.wl_assign.specs.Tags.{first_name, tag, tags};
ghost use Rattle.wl_expr.specs.Same.{is_name_among};
ghost use Rattle.wl_expr.specs.Stamped.{plain, plains, from_list};
ghost use Rattle.wl_expr.specs.Words.{name_of};
ghost use Rattle.wl_ports.specs.Name.{IsName};

use crate::special::{Special, special_form};
use wl_expr::{Expr, Look};

/// The name that an expression is.
fn name_of(e: &Expr) -> Option<&str>
    ensures value { option_copied result ≡ name_of (plain e.now) }
    ensures name { IfSome result (λ x. IsName x.now) }
{
    match e.view() {
        Look::Symbol(name) => Some(name),
        _ => None,
    }
}

/// The name that the first of these is.
fn first_name(args: &[Expr]) -> Option<&str>
    ensures value { option_copied result ≡ first_name (plains (from_list args.now)) }
    ensures name { IfSome result (λ x. IsName x.now) }
{
    match args.split_first() {
        Some((first, _)) => name_of(first),
        None => None,
    }
}

/// The tag of an element.
#[cycle(tag)]
#[tactic(auto, using(wl_expr::proofs::Parts::depth_arg))]
fn tag(e: &Expr) -> Option<&str>
    ensures value { option_copied result ≡ tag (plain e.now) }
    ensures name { IfSome result (λ x. IsName x.now) }
{
    match e.view() {
        Look::Symbol(name) => Some(name),
        Look::Node(head, args) => match special_form(head, args) {
            Special::HoldPattern | Special::Condition | Special::PatternTest => tag(&args[0]),
            Special::Named => tag(&args[1]),
            Special::Blank | Special::BlankSequence | Special::BlankNullSequence => first_name(
                args,
            ),
            _ => name_of(head),
        },
        _ => None,
    }
}

/// Whether one of the elements has this tag.
fn is_met(name: &str, args: &[Expr]) -> bool
    ensures { result ≡ is_name_among name.now (named_in args.now) }
{
    for arg in args {
        if let Some(other) = tag(arg) {
            if other == name {
                return true;
            }
        }
    }
    false
}

/// Whether the name is one of the tags.
pub fn has_tag(core: &Expr, name: &str) -> bool
    ensures { result ≡ is_name_among name.now (tags (plain core.now)) }
{
    match core.view() {
        Look::Node(_, args) => is_met(name, args),
        _ => false,
    }
}

/// The tag that is the k-th of the distinct ones, from 0, in the order of the elements.
pub fn tag_at(core: &Expr, k: u64) -> Option<&str>
    ensures value { option_copied result ≡ slice_get (tags (plain core.now)) k }
    ensures name { IfSome result (λ x. IsName x.now) }
{
    let Look::Node(_, args) = core.view() else {
        return None;
    };
    let mut left = k;
    for place in 0..args.len() {
        if let Some(name) = tag(&args[place]) {
            if !is_met(name, &args[..place]) {
                if left == 0 {
                    return Some(name);
                }
                left -= 1;
            }
        }
    }
    None
}
