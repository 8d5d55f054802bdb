//! The expression of a tree, node by node.
ghost use Rattle.std.specs.Prelude.{◌≡◌, ◌≢◌, ◌^◌, ◌-◌, IfOk, List, negsuc, None, [], ◌∷◌, ◌++◌, codes};
ghost use Rattle.wl_expr.specs.Stamped.{unstamped, symbol as stamped_symbol};
ghost use Rattle.wl_expr.specs.Tree as full;
ghost use Rattle.wl_syntax.specs.Atoms.{whole_number, named};
ghost use Rattle.wl_syntax.specs.Built.{unstamped_all, IsNear, IsNest, each};
ghost use Rattle.wl_syntax.specs.Fits.{FitsOf, FitsOfTwo, FitsOfAll, FitsNested, FitChained, FitJoined};
ghost use Rattle.wl_syntax.specs.Lower as lower;
ghost use Rattle.wl_syntax.specs.Table as table;

use crate::chain::{Form, Link, Tagged};
use crate::operator::{Infix, Prefix, infix_name, prefix_name};
use crate::terms::{named, node, symbol, text};
use std::alloc::Global;
use wl_exact::Num;
use wl_expr::{Expr, Look};
use wl_ports::Memory;

/// The number n.
pub(crate) fn whole_number(alloc: Global, n: i128) -> Result<Expr, Memory>
    requires { n ≢ negsuc (2 ^ 127 - 1) }
    ensures { IfOk result (λ e. e ≡ unstamped (whole_number n)) }
{
    match Num::int(n) {
        Some(number) => Expr::num(alloc, number),
        None => unreachable!(),
    }
}

/// The expression of a tree of this form.
pub(crate) fn whole(alloc: Global, form: Form, items: &[Expr]) -> Result<Expr, Memory>
    requires { FitsOfAll items.now (lower.whole form) }
    ensures { IfOk result (λ e. (es : List full.Tree) → items.now ≡ unstamped_all es → e ≡ unstamped (lower.whole form es)) }
{
    match form {
        Form::Chain(operator) => named(alloc, infix_name(operator), items),
        Form::Inequality => named(alloc, "Inequality", items),
        _ => match items.first() {
            Some(item) => item.copy(),
            None => text(alloc, ""),
        },
    }
}

/// An expression before others.
pub(crate) fn led(alloc: Global, first: Expr, rest: &[Expr]) -> Result<Vec<Expr>, Memory>
    ensures { IfOk result (λ v. v.items ≡ first ∷ rest.now) }
{
    let mut all = Vec::new(alloc);
    all.push(first)?;
    for item in rest {
        all.push(item.copy()?)?;
    }
    Ok(all)
}

fn further(reach: Option<u16>) -> Option<u16>
    ensures { IsNear reach → result ≡ lower.further reach }
{
    match reach {
        Some(steps) => {
            if steps < u16::MAX {
                Some(steps + 1)
            } else {
                None
            }
        }
        None => None,
    }
}

/// The reach of a pair, from that of its left side.
pub(crate) fn joined_reach(operator: Infix, link: Link, reach: Option<u16>) -> Option<u16>
    ensures { IsNear reach → result ≡ lower.joined_reach operator link reach }
{
    match operator {
        Infix::Divide => further(reach),
        Infix::Times => product_reach(link, reach),
        Infix::Beside => product_reach(link, reach),
        _ => None,
    }
}

fn product_reach(link: Link, reach: Option<u16>) -> Option<u16>
    ensures { IsNear reach → result ≡ lower.reach_in link reach }
{
    match link {
        Link::GoesOn => reach,
        _ => further(reach),
    }
}

/// The expression with the number that lies this many first elements deep negated.
fn negated_at(alloc: Global, e: &Expr, steps: u16) -> Result<Expr, Memory>
    requires { FitsOf e.now (λ t. t) }
    ensures { IfOk result (λ r. (t : full.Tree) → e.now ≡ unstamped t → r ≡ unstamped (lower.negated_at steps t)) }
{
    match e.view() {
        Look::Num(number) => {
            if steps == 0 {
                Ok(whole_number(alloc, -number.num())?)
            } else {
                Ok(e.copy()?)
            }
        }
        Look::Node(head, args) => {
            if steps == 0 {
                return Ok(e.copy()?);
            }
            let Some((first, rest)) = args.split_first() else {
                return Ok(e.copy()?);
            };
            let turned = negated_at(alloc, first, steps - 1)?;
            let all = led(alloc, turned, rest)?;
            Ok(node(alloc, head, &all)?)
        }
        _ => Ok(e.copy()?),
    }
}

fn is_product(form: Form) -> bool
    ensures { result ≡ lower.is_product form }
{
    match form {
        Form::Chain(operator) => match operator {
            Infix::Times => true,
            Infix::Beside => true,
            _ => false,
        },
        _ => false,
    }
}

/// The negative of a tree.
fn negative(alloc: Global, form: Form, reach: Option<u16>, items: &[Expr]) -> Result<Expr, Memory>
    requires { FitsOfAll items.now (lower.negative form reach) }
    ensures { IfOk result (λ e. (es : List full.Tree) → items.now ≡ unstamped_all es → e ≡ unstamped (lower.negative form reach es)) }
{
    match reach {
        Some(steps) => {
            let positive = whole(alloc, form, items)?;
            Ok(negated_at(alloc, &positive, steps)?)
        }
        None => {
            let minus_one = whole_number(alloc, -1)?;
            if is_product(form) {
                let all = led(alloc, minus_one, items)?;
                return Ok(named(alloc, "Times", &all)?);
            }
            let positive = whole(alloc, form, items)?;
            Ok(named(alloc, "Times", &[minus_one, positive])?)
        }
    }
}

/// A prefix operator before a tree.
pub(crate) fn prefixed(
    alloc: Global,
    operator: Prefix,
    form: Form,
    reach: Option<u16>,
    items: &[Expr],
) -> Result<Expr, Memory>
    requires { FitsOfAll items.now (lower.prefixed operator form reach) }
    ensures { IfOk result (λ e. (es : List full.Tree) → items.now ≡ unstamped_all es → e ≡ unstamped (lower.prefixed operator form reach es)) }
{
    match operator {
        Prefix::Negate => Ok(negative(alloc, form, reach, items)?),
        _ => {
            let operand = whole(alloc, form, items)?;
            Ok(named(alloc, prefix_name(operator), &[operand])?)
        }
    }
}

/// The right operand of an operator.
fn operand_of(
    alloc: Global,
    operator: Infix,
    form: Form,
    reach: Option<u16>,
    items: &[Expr],
) -> Result<Expr, Memory>
    requires { FitsOfAll items.now (lower.operand_of operator form reach) }
    ensures { IfOk result (λ e. (es : List full.Tree) → items.now ≡ unstamped_all es → e ≡ unstamped (lower.operand_of operator form reach es)) }
{
    match operator {
        Infix::Minus => negative(alloc, form, reach, items),
        _ => whole(alloc, form, items),
    }
}

fn as_text(alloc: Global, e: &Expr) -> Result<Expr, Memory>
    ensures { IfOk result (λ r. (t : full.Tree) → e.now ≡ unstamped t → r ≡ unstamped (lower.as_text t)) }
{
    match e.view() {
        Look::Symbol(name) => text(alloc, name),
        _ => e.copy(),
    }
}

fn tagged_name(tagged: Tagged) -> &'static str
    ensures { result.now ≡ lower.tagged_name tagged }
{
    match tagged {
        Tagged::TagSet => "TagSet",
        Tagged::TagSetDelayed => "TagSetDelayed",
        Tagged::TagUnset => "TagUnset",
    }
}

/// A definition for a tag.
fn tag(alloc: Global, tagged: Tagged, left: Expr, right: &Expr) -> Result<Expr, Memory>
    requires { FitsOfTwo left right.now (lower.tag_of tagged) }
    ensures { IfOk result (λ e. (l r : full.Tree) → left ≡ unstamped l → right.now ≡ unstamped r
        → e ≡ unstamped (lower.tag_of tagged l r)) }
{
    match right.view() {
        Look::Node(_, args) => {
            let all = led(alloc, left, args)?;
            Ok(named(alloc, tagged_name(tagged), &all)?)
        }
        _ => Ok(named(alloc, tagged_name(tagged), &[left])?),
    }
}

/// An operator that is no chain, between these sides.
fn pair_of(
    alloc: Global,
    operator: Infix,
    left_form: Form,
    right_form: Form,
    left: Expr,
    right: Expr,
) -> Result<Expr, Memory>
    requires { FitsOfTwo left right (lower.pair_of operator left_form right_form) }
    ensures { IfOk result (λ e. (l r : full.Tree) → left ≡ unstamped l → right ≡ unstamped r
        → e ≡ unstamped (lower.pair_of operator left_form right_form l r)) }
{
    match operator {
        Infix::Message => {
            let tag = as_text(alloc, &right)?;
            Ok(named(alloc, "MessageName", &[left, tag])?)
        }
        Infix::Of => Ok(node(alloc, &left, &[right])?),
        Infix::Into => Ok(node(alloc, &right, &[left])?),
        Infix::Divide => {
            let minus_one = whole_number(alloc, -1)?;
            let inverse = named(alloc, "Power", &[right, minus_one])?;
            Ok(named(alloc, "Times", &[left, inverse])?)
        }
        Infix::Colon => Ok(colon(alloc, left_form, left, right)?),
        Infix::Tag => match right_form {
            Form::Defines(tagged) => Ok(tag(alloc, tagged, left, &right)?),
            _ => Ok(named(alloc, infix_name(operator), &[left, right])?),
        },
        _ => Ok(named(alloc, infix_name(operator), &[left, right])?),
    }
}

fn colon(alloc: Global, left_form: Form, left: Expr, right: Expr) -> Result<Expr, Memory>
    requires { FitsOfTwo left right (lower.colon_of left_form) }
    ensures { IfOk result (λ e. (l r : full.Tree) → left ≡ unstamped l → right ≡ unstamped r
        → e ≡ unstamped (lower.colon_of left_form l r)) }
{
    match left_form {
        Form::Name => Ok(named(alloc, "Pattern", &[left, right])?),
        _ => Ok(named(alloc, "Optional", &[left, right])?),
    }
}

/// Operands with the comparison between each two.
fn separated_after(
    alloc: Global,
    comparison: Infix,
    first: Expr,
    rest: &[Expr],
) -> Result<Vec<Expr>, Memory>
    ensures { IfOk result (λ v. v.items ≡ first ∷ each (stamped_symbol None (table.infix_name comparison)) rest.now) }
{
    let mut all = Vec::new(alloc);
    all.push(first)?;
    for operand in rest {
        all.push(symbol(alloc, infix_name(comparison))?)?;
        all.push(operand.copy()?)?;
    }
    Ok(all)
}

/// The operands of a chain of comparisons with the comparison between each two.
fn separated(alloc: Global, comparison: Infix, operands: &[Expr]) -> Result<Vec<Expr>, Memory>
    ensures { IfOk result (λ v. (es : List full.Tree) → operands.now ≡ unstamped_all es
        → v.items ≡ unstamped_all (lower.separated (full.symbol (table.infix_name comparison)) es)) }
{
    match operands.split_first() {
        Some((first, rest)) => Ok(separated_after(alloc, comparison, first.copy()?, rest)?),
        None => Ok(Vec::new(alloc)),
    }
}

/// Pairs of the operands, nested to the left.
fn nested_after(alloc: Global, sameness: Infix, first: Expr, rest: &[Expr]) -> Result<Expr, Memory>
    requires { FitsNested sameness first rest.now }
    ensures { IfOk result (λ e. IsNest sameness first rest.now e) }
{
    let mut pair = first;
    for operand in rest {
        pair = named(alloc, infix_name(sameness), &[pair, operand.copy()?])?;
    }
    Ok(pair)
}

fn nested(alloc: Global, sameness: Infix, operands: &[Expr]) -> Result<Expr, Memory>
    requires { FitsOfAll operands.now (lower.nested sameness) }
    ensures { IfOk result (λ e. (es : List full.Tree) → operands.now ≡ unstamped_all es → e ≡ unstamped (lower.nested sameness es)) }
{
    match operands.split_first() {
        Some((first, rest)) => nested_after(alloc, sameness, first.copy()?, rest),
        None => text(alloc, ""),
    }
}

/// A comparison and its right side behind a chain of them.
fn compared(
    alloc: Global,
    operator: Infix,
    items: Vec<Expr>,
    operand: Expr,
) -> Result<Vec<Expr>, Memory>
    ensures { IfOk result (λ v. (es : List full.Tree) (r : full.Tree) → items.items ≡ unstamped_all es → operand ≡ unstamped r
        → v.items ≡ unstamped_all (es ++ full.symbol (table.infix_name operator) ∷ r ∷ [])) }
{
    let mut all = items;
    all.push(symbol(alloc, infix_name(operator))?)?;
    all.push(operand)?;
    Ok(all)
}

fn pushed(items: Vec<Expr>, operand: Expr) -> Result<Vec<Expr>, Memory>
    ensures { IfOk result (λ v. (es : List full.Tree) (r : full.Tree) → items.items ≡ unstamped_all es → operand ≡ unstamped r
        → v.items ≡ unstamped_all (es ++ r ∷ [])) }
{
    let mut all = items;
    all.push(operand)?;
    Ok(all)
}

fn one(alloc: Global, e: Expr) -> Result<Vec<Expr>, Memory>
    ensures { IfOk result (λ v. v.items ≡ e ∷ []) }
{
    let mut items = Vec::new(alloc);
    items.push(e)?;
    Ok(items)
}

fn two(alloc: Global, left: Expr, right: Expr) -> Result<Vec<Expr>, Memory>
    ensures { IfOk result (λ v. v.items ≡ left ∷ right ∷ []) }
{
    let mut items = Vec::new(alloc);
    items.push(left)?;
    items.push(right)?;
    Ok(items)
}

/// The items of a chain with one more operand.
fn chained(
    alloc: Global,
    operator: Infix,
    link: Link,
    left_form: Form,
    left: Vec<Expr>,
    operand: Expr,
) -> Result<Vec<Expr>, Memory>
    requires { FitChained operator link left_form left.items operand }
    ensures { IfOk result (λ v. (es : List full.Tree) (r : full.Tree) → left.items ≡ unstamped_all es → operand ≡ unstamped r
        → v.items ≡ unstamped_all (lower.chained operator link es (lower.whole left_form es) r)) }
{
    match link {
        Link::GoesOn => Ok(pushed(left, operand)?),
        Link::Mixes(comparison) => {
            let all = separated(alloc, comparison, &left)?;
            Ok(compared(alloc, operator, all, operand)?)
        }
        Link::MixesOn => Ok(compared(alloc, operator, left, operand)?),
        Link::Nests(sameness) => {
            let nest = nested(alloc, sameness, &left)?;
            let pair = named(alloc, infix_name(operator), &[nest, operand])?;
            Ok(one(alloc, pair)?)
        }
        Link::NestsOn => {
            let nest = whole(alloc, left_form, &left)?;
            let pair = named(alloc, infix_name(operator), &[nest, operand])?;
            Ok(one(alloc, pair)?)
        }
        _ => {
            let first = whole(alloc, left_form, &left)?;
            Ok(two(alloc, first, operand)?)
        }
    }
}

/// The items of an operator between two trees.
pub(crate) fn joined(
    alloc: Global,
    operator: Infix,
    link: Link,
    left_form: Form,
    left: Vec<Expr>,
    right_form: Form,
    right_reach: Option<u16>,
    right: &[Expr],
) -> Result<Vec<Expr>, Memory>
    requires { FitJoined operator link left_form left.items right_form right_reach right.now }
    ensures { IfOk result (λ v. (es fs : List full.Tree) → left.items ≡ unstamped_all es → right.now ≡ unstamped_all fs
        → v.items ≡ unstamped_all (lower.joined operator link left_form right_form es (lower.whole left_form es) (lower.whole right_form fs) (lower.operand_of operator right_form right_reach fs))) }
{
    match link {
        Link::Alone => {
            let first = whole(alloc, left_form, &left)?;
            let second = whole(alloc, right_form, right)?;
            let pair = pair_of(alloc, operator, left_form, right_form, first, second)?;
            Ok(one(alloc, pair)?)
        }
        _ => {
            let operand = operand_of(alloc, operator, right_form, right_reach, right)?;
            Ok(chained(alloc, operator, link, left_form, left, operand)?)
        }
    }
}

/// The expression of a tree and a last `;`.
pub(crate) fn last(alloc: Global, link: Link, form: Form, items: Vec<Expr>) -> Result<Expr, Memory>
    requires { FitsOfAll items.items (λ es. named (codes "CompoundExpression") (lower.statements link es (lower.whole form es) ++ full.symbol (codes "Null") ∷ [])) }
    ensures { IfOk result (λ e. (es : List full.Tree) → items.items ≡ unstamped_all es
        → e ≡ unstamped (named (codes "CompoundExpression") (lower.statements link es (lower.whole form es) ++ full.symbol (codes "Null") ∷ []))) }
{
    let null = symbol(alloc, "Null")?;
    match link {
        Link::GoesOn => {
            let all = pushed(items, null)?;
            named(alloc, "CompoundExpression", &all)
        }
        _ => {
            let first = whole(alloc, form, &items)?;
            named(alloc, "CompoundExpression", &[first, null])
        }
    }
}
