//! The expression of a list of nodes, built from the leaves up. What is deeper than the limit is not built.
ghost use Rattle.std.specs.Prelude.{◌≡◌, ◌+◌, ◌<◌, ◌≤◌, IfOk, MatchOption, [], ◌∷◌, map, max};
ghost use Rattle.wl_syntax.specs.Built.{Are, Is, IsGroup, Piece, Pieces, build, tree, calling, listing};
ghost use Rattle.wl_syntax.specs.Chain as chains;
ghost use Rattle.wl_syntax.specs.Depth as depths;
ghost use Rattle.wl_syntax.specs.Depth.{max_depth};
ghost use Rattle.wl_syntax.specs.Lowered.{IsOne, Wraps, Joins, JoinsGroups, AddsElement, AddsTo, Begins, EndsCall, EndsPart, Takes, Lowers, joined_pairs, with_element, whole_call};
ghost use Rattle.wl_syntax.specs.Polish.{atom_of, node_of, polish};
ghost use Rattle.wl_syntax.specs.Small.{IsSmall, IsSmallPiece, AreSmall, FitsItem, FitItems, FitGroups};
ghost use Rattle.wl_syntax.specs.Table.{infix_level};
ghost use Rattle.wl_syntax.specs.Tree.{Tree, Elems, none, more};
ghost use Rattle.wl_syntax.specs.Tree as trees;

use crate::atoms::{atom_expr, atom_form, number_reach};
use crate::chain::{Form, Link, Tagged, continues, is_sameness, joining, linked, nests};
use crate::lower::{self, joined, joined_reach, prefixed, whole};
use crate::operator::{Infix, Postfix, Prefix, postfix_name};
use crate::terms::{named, node, symbol};
use crate::token::{Atom, Node};
use std::alloc::{AllocError, AllocFailed, Global};
use wl_expr::{Expr, copy_all};
use wl_ports::Memory;

/// The greatest depth of a tree.
pub const MAX_DEPTH: u16 = 400;

/// A tree that isn't too deep: what stands at its top, how many first elements lead to the number that it begins with, its
/// operands if it is a chain, and else its expression, its depth, and its depth as nested pairs, which is capped right
/// above the limit.
#[derive(Drop)]
pub(crate) struct Group {
    pub(crate) form: Form,
    pub(crate) reach: Option<u16>,
    pub(crate) items: Vec<Expr>,
    pub(crate) depth: u16,
    pub(crate) pairs: u16,
}

/// The head and the elements so far of a call or a list.
#[derive(Drop)]
pub(crate) struct Args {
    pub(crate) head: Expr,
    pub(crate) elements: Vec<Expr>,
    pub(crate) depth: u16,
}

/// `Deep` stands for what is too deep, and has no expression.
#[derive(Drop)]
pub(crate) enum Item {
    Whole(Group),
    Args(Args),
    Deep,
}

/// One level more, within the limit.
fn deeper(depth: u16) -> Option<u16>
    ensures { MatchOption result (max_depth ≤ depth) (λ d. (d ≡ depth + 1) × (depth < max_depth)) }
{
    if depth >= MAX_DEPTH {
        None
    } else {
        Some(depth + 1)
    }
}

/// An expression that is no chain.
fn one(alloc: Global, form: Form, expr: Expr, depth: u16) -> Result<Item, Memory>
    ensures { IfOk result (λ item. IsOne item form expr depth) }
{
    let mut items = Vec::new(alloc);
    items.push(expr)?;
    Ok(Item::Whole(Group {
        form,
        reach: None,
        items,
        depth,
        pairs: depth,
    }))
}

fn leaf(alloc: Global, atom: Atom<'_>) -> Result<Item, Memory>
    requires { IsSmall (trees.leaf (atom_of atom)) }
    ensures { IfOk result (λ item. Is item (tree (trees.leaf (atom_of atom.entry)))) }
{
    let mut items = Vec::new(alloc);
    items.push(atom_expr(alloc, atom)?)?;
    Ok(Item::Whole(Group {
        form: atom_form(atom),
        reach: number_reach(atom),
        items,
        depth: 1,
        pairs: 1,
    }))
}

fn paren(alloc: Global, item: Item) -> Result<Item, Memory>
    requires { FitsItem item (λ t. trees.paren t) }
    ensures { IfOk result (λ made. Wraps item made (λ t. trees.paren t)) }
{
    let Item::Whole(group) = item else {
        return Ok(Item::Deep);
    };
    let Some(depth) = deeper(group.depth) else {
        return Ok(Item::Deep);
    };
    let expr = whole(alloc, group.form, &group.items)?;
    one(alloc, Form::Other, expr, depth)
}

fn before(alloc: Global, operator: Prefix, item: Item) -> Result<Item, Memory>
    requires { FitsItem item (λ t. trees.before operator t) }
    ensures { IfOk result (λ made. Wraps item made (λ t. trees.before operator t)) }
{
    let Item::Whole(group) = item else {
        return Ok(Item::Deep);
    };
    let Some(depth) = deeper(group.depth) else {
        return Ok(Item::Deep);
    };
    let expr = prefixed(alloc, operator, group.form, group.reach, &group.items)?;
    one(alloc, Form::Other, expr, depth)
}

fn after_form(operator: Postfix) -> Form
    ensures { (t : Tree) → result ≡ chains.form (trees.after t operator) }
{
    match operator {
        Postfix::Unset => Form::Defines(Tagged::TagUnset),
        _ => Form::Other,
    }
}

fn after(alloc: Global, operator: Postfix, item: Item) -> Result<Item, Memory>
    requires { FitsItem item (λ t. trees.after t operator) }
    ensures { IfOk result (λ made. Wraps item made (λ t. trees.after t operator)) }
{
    let Item::Whole(group) = item else {
        return Ok(Item::Deep);
    };
    let Some(depth) = deeper(group.depth) else {
        return Ok(Item::Deep);
    };
    let operand = whole(alloc, group.form, &group.items)?;
    let expr = named(alloc, postfix_name(operator), &[operand])?;
    Ok(one(alloc, after_form(operator), expr, depth)?)
}

/// The depth of a tree and a last `;`.
fn last_depth(link: Link, depth: u16) -> Option<u16>
    ensures { MatchOption result (max_depth < depths.last_depth link depth) (λ d. (d ≡ depths.last_depth link depth) × (depth ≤ max_depth → d ≤ max_depth)) }
{
    if continues(link) {
        Some(depth)
    } else {
        deeper(depth)
    }
}

fn last(alloc: Global, item: Item) -> Result<Item, Memory>
    requires { FitsItem item (λ t. trees.last t) }
    ensures { IfOk result (λ made. Wraps item made (λ t. trees.last t)) }
{
    let Item::Whole(group) = item else {
        return Ok(Item::Deep);
    };
    let link = joining(Infix::Semi, group.form);
    let Some(depth) = last_depth(link, group.depth) else {
        return Ok(Item::Deep);
    };
    let Group { form, items, .. } = group;
    let expr = lower::last(alloc, link, form, items)?;
    Ok(one(alloc, Form::Other, expr, depth)?)
}

/// The depth of a pair, from those of its left side, of the pairs of its left side, and of its right side.
fn joined_depth(link: Link, left: u16, pairs: u16, right: u16) -> Option<u16>
    ensures { MatchOption result (max_depth < depths.joined_depth link left pairs right) (λ d. (d ≡ depths.joined_depth link left pairs right) × (left ≤ max_depth → d ≤ max_depth)) }
{
    if continues(link) {
        let below = deeper(right)?;
        return Some(left.max(below));
    }
    if nests(link) {
        return deeper(pairs.max(right));
    }
    deeper(left.max(right))
}

fn joined_pairs(operator: Infix, pairs: u16, right: u16, depth: u16) -> u16
    ensures { result ≡ joined_pairs (chains.is_sameness (infix_level operator)) pairs right depth }
{
    if !is_sameness(operator) {
        return depth;
    }
    match deeper(pairs.max(right)) {
        Some(pairs) => pairs,
        None => MAX_DEPTH + 1,
    }
}

fn between(alloc: Global, operator: Infix, left: Item, right: Item) -> Result<Item, Memory>
    requires { FitItems left right (λ l r. trees.between l operator r) }
    ensures { IfOk result (λ made. Joins left right made (λ l r. trees.between l operator r)) }
{
    let Item::Whole(left) = left else {
        return Ok(Item::Deep);
    };
    let Item::Whole(right) = right else {
        return Ok(Item::Deep);
    };
    join(alloc, operator, left, right)
}

fn join(alloc: Global, operator: Infix, left: Group, right: Group) -> Result<Item, Memory>
    requires { FitGroups left right operator }
    ensures { IfOk result (λ made. JoinsGroups left right made operator) }
{
    let link = joining(operator, left.form);
    let Some(depth) = joined_depth(link, left.depth, left.pairs, right.depth) else {
        return Ok(Item::Deep);
    };
    let form = linked(operator, link);
    let reach = joined_reach(operator, link, left.reach);
    let pairs = joined_pairs(operator, left.pairs, right.depth, depth);
    let items = joined(
        alloc,
        operator,
        link,
        left.form,
        left.items,
        right.form,
        right.reach,
        &right.items,
    )?;
    Ok(Item::Whole(Group {
        form,
        reach,
        items,
        depth,
        pairs,
    }))
}

fn list(alloc: Global) -> Result<Item, Memory>
    ensures { IfOk result (λ item. Is item (listing none)) }
{
    Ok(Item::Args(Args {
        head: symbol(alloc, "List")?,
        elements: Vec::new(alloc),
        depth: 0,
    }))
}

fn begin_call(alloc: Global, head: Group, element: Group) -> Result<Item, Memory>
    requires { (f : Tree) × (x : Tree) × IsGroup head f × IsGroup element x × IsSmall f × IsSmall x }
    ensures { IfOk result (λ made. Begins head element made) }
{
    let mut elements = Vec::new(alloc);
    elements.push(whole(alloc, element.form, &element.items)?)?;
    Ok(Item::Args(Args {
        head: whole(alloc, head.form, &head.items)?,
        elements,
        depth: head.depth.max(element.depth),
    }))
}

fn add_element(alloc: Global, args: Args, element: Group) -> Result<Item, Memory>
    requires { (x : Tree) × IsGroup element x × IsSmall x }
    ensures { IfOk result (λ made. AddsTo args element made) }
{
    let Args {
        head,
        mut elements,
        depth,
    } = args;
    elements.push(whole(alloc, element.form, &element.items)?)?;
    Ok(Item::Args(Args {
        head,
        elements,
        depth: depth.max(element.depth),
    }))
}

fn element(alloc: Global, below: Item, top: Item) -> Result<Item, Memory>
    requires { (p : Piece) × (x : Tree) × Is below p × Is top (tree x) × IsSmallPiece (with_element p x) }
    ensures { IfOk result (λ made. AddsElement below top made) }
{
    let Item::Whole(top) = top else {
        return Ok(Item::Deep);
    };
    match below {
        Item::Whole(head) => begin_call(alloc, head, top),
        Item::Args(args) => add_element(alloc, args, top),
        Item::Deep => Ok(Item::Deep),
    }
}

fn call(alloc: Global, item: Item) -> Result<Item, Memory>
    requires { (p : Piece) × Is item p × IsSmall (whole_call p) }
    ensures { IfOk result (λ made. EndsCall item made) }
{
    match item {
        Item::Whole(group) => {
            let Some(depth) = deeper(group.depth) else {
                return Ok(Item::Deep);
            };
            let head = whole(alloc, group.form, &group.items)?;
            let expr = node(alloc, &head, &[])?;
            Ok(one(alloc, Form::Other, expr, depth)?)
        }
        Item::Args(args) => {
            let Some(depth) = deeper(args.depth) else {
                return Ok(Item::Deep);
            };
            let expr = node(alloc, &args.head, &args.elements)?;
            Ok(one(alloc, Form::Other, expr, depth)?)
        }
        Item::Deep => Ok(Item::Deep),
    }
}

fn part(alloc: Global, item: Item) -> Result<Item, Memory>
    requires { (f : Tree) × (xs : Elems) × (t : Tree) × Is item (calling f (more xs t)) × IsSmall (trees.part f xs t) }
    ensures { IfOk result (λ made. EndsPart item made) }
{
    let Item::Args(args) = item else {
        return Ok(Item::Deep);
    };
    let Some(depth) = deeper(args.depth) else {
        return Ok(Item::Deep);
    };
    let Args { head, elements, .. } = args;
    let all = lower::led(alloc, head, &elements)?;
    let expr = named(alloc, "Part", &all)?;
    Ok(one(alloc, Form::Other, expr, depth)?)
}

/// The last item, which there is where the nodes are those of a tree.
fn take(stack: &mut Vec<Item>) -> Item
    ensures { Takes stack.old.items stack.new.items result }
{
    match stack.pop() {
        Some(item) => item,
        None => Item::Deep,
    }
}

/// Reads one node.
fn step(alloc: Global, stack: &mut Vec<Item>, node: Node<'_>) -> Result<(), Memory>
    requires { (ps : Pieces) × Are stack.old.items ps × AreSmall (build ps (node_of node)) }
    ensures { IfOk result (λ _. (ps : Pieces) → Are stack.old.items ps → Are stack.new.items (build ps (node_of node.entry))) }
{
    match node {
        Node::Leaf(atom) => {
            let item = leaf(alloc, atom)?;
            stack.push(item)?;
        }
        Node::List => {
            let item = list(alloc)?;
            stack.push(item)?;
        }
        Node::Paren => {
            let operand = take(stack);
            let item = paren(alloc, operand)?;
            stack.push(item)?;
        }
        Node::Element => {
            let top = take(stack);
            let below = take(stack);
            let item = element(alloc, below, top)?;
            stack.push(item)?;
        }
        Node::Call => {
            let args = take(stack);
            let item = call(alloc, args)?;
            stack.push(item)?;
        }
        Node::Part => {
            let args = take(stack);
            let item = part(alloc, args)?;
            stack.push(item)?;
        }
        Node::Before(operator) => {
            let operand = take(stack);
            let item = before(alloc, operator, operand)?;
            stack.push(item)?;
        }
        Node::After(operator) => {
            let operand = take(stack);
            let item = after(alloc, operator, operand)?;
            stack.push(item)?;
        }
        Node::Last => {
            let operand = take(stack);
            let item = last(alloc, operand)?;
            stack.push(item)?;
        }
        Node::Between(operator) => {
            let right = take(stack);
            let left = take(stack);
            let item = between(alloc, operator, left, right)?;
            stack.push(item)?;
        }
    }
    Ok(())
}

/// Why a tree has no expression.
#[derive(Drop)]
pub(crate) enum BuildFault {
    Memory,
    TooDeep,
}

impl From<Memory> for BuildFault {
    ghost use Rattle.std.specs.Prelude.{◌≡◌};
    ghost use Rattle.wl_syntax.specs.declared.build.BuildFault.TheVariants as fault;

    ghost from_gives = { λ _ e. e ≡ fault.Memory };

    fn from(_: Memory) -> BuildFault {
        BuildFault::Memory
    }
}

/// The expression of the tree with these nodes.
pub(crate) fn build_expr(alloc: Global, nodes: &[Node<'_>]) -> Result<Expr, BuildFault>
    requires { (t : Tree) × (map node_of nodes.now ≡ polish t) × IsSmall t }
    ensures { (t : Tree) → map node_of nodes.now ≡ polish t → Lowers t result }
{
    let mut stack = Vec::new(alloc);
    for node in nodes {
        step(alloc, &mut stack, *node)?;
    }
    match take(&mut stack) {
        Item::Whole(group) => Ok(whole(alloc, group.form, &group.items)?),
        Item::Args(_) => Err(BuildFault::TooDeep),
        Item::Deep => Err(BuildFault::TooDeep),
    }
}
