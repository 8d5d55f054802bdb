//! The expression: a handle of a shared tree.
ghost use Rattle.std.specs.Prelude.{◌≡◌, ◌≤◌, ◌↔◌, IsTrue, None, IfOk, option_map, List, ◌+◌, min};
ghost use Rattle.std.specs.List.{All};
ghost use Rattle.wl_expr.specs.Hash.{tree_hash};
ghost use Rattle.wl_expr.specs.Look.{looked, plain_look, LookIsProper, LookIsFrom};
ghost use Rattle.wl_expr.specs.Order.{canonical_order};
ghost use Rattle.wl_expr.specs.Passed.{IsFrom};
ghost use Rattle.wl_expr.specs.Proper.{IsProper};
ghost use Rattle.wl_expr.specs.Stamped.{Stamped, num, text, symbol, node, from_list, plain, plains, stamp_of, MayCarryStamp, with_stamp, without_stamp};
ghost use Rattle.wl_expr.specs.Tree as tree;
ghost use Rattle.wl_expr.specs.Tree.{IsWithinLimits};
ghost use Rattle.wl_ports.specs.Name.{IsName};

use crate::fault::ExprFault;
use crate::hash::{node_hash, number_hash, symbol_hash, text_hash};
use crate::look::Look;
use crate::order::canonical_order;
use crate::same::same_tree;
use crate::stamp::Stamp;
use std::alloc::Global;
use std::cmp::Ordering;
use std::marker::Model;
use std::rc::Rc;
use wl_exact::Num;
use wl_ports::Memory;

/// The greatest weight of an expression.
pub const MAX_WEIGHT: u64 = 4_000_000;

/// The greatest depth of an expression.
pub const MAX_DEPTH: u32 = 1_000;

/// A number, a text, a symbol or a node of a head and elements. It shares its tree with its copies, and its top may have a stamp.
#[cycle(expr)]
pub struct Expr {
    stamp: Option<Rc<Stamp>>,
    body: Rc<Body>,
}

#[cycle(expr)]
#[derive(Drop)]
struct Body {
    weight: u64,
    depth: u32,
    hash: u64,
    shape: Shape,
}

#[cycle(expr)]
#[derive(Drop)]
enum Shape {
    Number(Num),
    Text(String),
    Symbol(String),
    Node(Expr, Vec<Expr>),
}

impl Model for Expr {
    ghost use Rattle.wl_expr.specs.Stamped.{Stamped, stamped_code, depth};

    ghost Value = { Stamped };

    ghost coded = { stamped_code };

    ghost use Rattle.wl_expr.specs.View.{tree_of, IsCached};

    ghost view = { tree_of };

    ghost invariant = { IsCached };

    ghost size = { depth };

    ghost use Rattle.wl_expr.specs.Falls.{shape_falls};

    ghost size_decreases = { λ a h. shape_falls _ a.body.value.shape };
}

// By hand, so that a drop is one call wherever a caller drops an expression.
impl Drop for Expr {
    #[cycle(expr)]
    fn drop(self) {
        let Expr { stamp, body } = self;
        drop(stamp);
        drop(body);
    }
}

impl Expr {
    /// The number, without a stamp.
    pub fn num(alloc: Global, n: Num) -> Result<Expr, Memory>
        ensures { IfOk result (λ e. e ≡ num n) }
    {
        // That a number is in lowest terms and in range is a clause of `num`.
        let _num = n.num();
        let leaf = Body {
            weight: 1,
            depth: 1,
            hash: number_hash(n),
            shape: Shape::Number(n),
        };
        let body = Rc::new(alloc, leaf)?;
        Ok(Expr { stamp: None, body })
    }

    /// The text, without a stamp: `Large` exactly where it has more than 3,999,999 bytes.
    pub fn text(alloc: Global, s: &str) -> Result<Expr, ExprFault>
        ensures ok { IfOk result (λ e. e ≡ text s.now) }
        ensures large { (result ≡ Err ExprFault.Large) ↔ ¬ IsWithinLimits (tree.text s.now) }
    {
        let len = s.as_bytes().len() as u64;
        if len >= MAX_WEIGHT {
            return Err(ExprFault::Large);
        }
        let leaf = Body {
            weight: 1 + len,
            depth: 1,
            hash: text_hash(s),
            shape: Shape::Text(String::from_str(alloc, s)?),
        };
        let body = Rc::new(alloc, leaf)?;
        Ok(Expr { stamp: None, body })
    }

    /// The symbol of this name, without a stamp: `Large` exactly where the name has more than 3,999,999 bytes.
    pub fn symbol(alloc: Global, name: &str) -> Result<Expr, ExprFault>
        requires { IsName name.now }
        ensures ok { IfOk result (λ e. e ≡ symbol None name.now) }
        ensures large { (result ≡ Err ExprFault.Large) ↔ ¬ IsWithinLimits (tree.symbol name.now) }
    {
        let len = name.as_bytes().len() as u64;
        if len >= MAX_WEIGHT {
            return Err(ExprFault::Large);
        }
        let leaf = Body {
            weight: 1 + len,
            depth: 1,
            hash: symbol_hash(name),
            shape: Shape::Symbol(String::from_str(alloc, name)?),
        };
        let body = Rc::new(alloc, leaf)?;
        Ok(Expr { stamp: None, body })
    }

    /// The node of this head and these elements, which it shares, without a stamp on top: `Large` exactly where it would weigh more
    /// than 4,000,000 or be deeper than 1,000.
    #[tactic(auto, using(crate::proofs::Passing::are_from))]
    pub fn node(alloc: Global, head: &Expr, args: &[Expr]) -> Result<Expr, ExprFault>
        ensures ok { IfOk result (λ e. e ≡ node None head.now (from_list args.now)) }
        ensures passed { IfOk result (λ e. (ms : List Stamped)
            → IsFrom ms head.now → All (IsFrom ms) args.now → IsFrom ms e) }
        ensures large { (result ≡ Err ExprFault.Large)
            ↔ ¬ IsWithinLimits (tree.node (plain head.now) (plains (from_list args.now))) }
    {
        let (weight, below) = measured(head, args);
        if weight > MAX_WEIGHT || below >= MAX_DEPTH {
            return Err(ExprFault::Large);
        }
        let hash = node_hash(head, args);
        let head = head.copy()?;
        let args = copy_all(alloc, args)?;
        let node = Body {
            weight,
            depth: 1 + below,
            hash,
            shape: Shape::Node(head, args),
        };
        let body = Rc::new(alloc, node)?;
        Ok(Expr { stamp: None, body })
    }

    /// One level of the expression.
    #[tactic(auto, using(crate::proofs::Passing::head_from, crate::proofs::Passing::args_from, crate::proofs::Properness::all_proper))]
    pub fn view(&self) -> Look<'_>
        ensures all { looked (stamp_of self.now) result ≡ self.now }
        ensures plain { plain_look result ≡ plain self.now }
        ensures fits { IsWithinLimits (plain self.now) }
        ensures proper { LookIsProper result }
        ensures passed { (ms : List Stamped) → IsFrom ms self.now → LookIsFrom ms result }
    {
        match &self.body.shape {
            Shape::Number(n) => Look::Num(*n),
            Shape::Text(s) => Look::Text(s.as_str()),
            Shape::Symbol(s) => Look::Symbol(s.as_str()),
            Shape::Node(head, args) => Look::Node(head, args.as_slice()),
        }
    }

    /// 1 for a number, 1 and the bytes for a text or a symbol, the sum over head and elements for a node.
    pub fn weight(&self) -> u64
        ensures value { result ≡ tree.weight (plain self.now) }
        ensures fits { IsWithinLimits (plain self.now) }
        ensures proper { IsProper (plain self.now) }
    {
        self.body.weight
    }

    /// 1 for a leaf, and for a node 1 more than the deepest of its head and elements.
    pub fn depth(&self) -> u32
        ensures value { result ≡ tree.depth (plain self.now) }
        ensures fits { IsWithinLimits (plain self.now) }
    {
        self.body.depth
    }

    /// The hash of the tree, stamps apart.
    pub(crate) fn tree_hash(&self) -> u64
        ensures { result ≡ tree_hash (plain self.now) }
    {
        self.body.hash
    }

    /// Whether the two are one tree, stamps apart. It looks at no more parts than the smaller has.
    pub fn same(&self, b: &Expr) -> bool
        ensures { IsTrue result ↔ (plain self.now ≡ plain b.now) }
    {
        same_tree(self, b)
    }

    /// The canonical order, stamps apart: numbers by value, then texts, then the rest by their factors, from the last one
    /// backwards, and then by structure.
    pub fn order(&self, b: &Expr) -> Ordering
        ensures value { result ≡ canonical_order (plain self.now) (plain b.now) }
        ensures proper { IsProper (plain self.now) }
        ensures other_proper { IsProper (plain b.now) }
    {
        // That expressions are proper is a clause of `weight`.
        let _weights = (self.weight(), b.weight());
        canonical_order(self, b)
    }

    /// The same tree with the same stamps, which it shares.
    pub fn copy(&self) -> Result<Expr, Memory>
        ensures { IfOk result (λ e. e ≡ self.now) }
    {
        let stamp = match &self.stamp {
            None => None,
            Some(stamp) => Some(stamp.clone()?),
        };
        Ok(Expr {
            stamp,
            body: self.body.clone()?,
        })
    }

    /// The stamp of the top.
    pub fn stamp(&self) -> Option<&Stamp>
        ensures { option_map (λ r. r.now) result ≡ stamp_of self.now }
    {
        match &self.stamp {
            None => None,
            Some(stamp) => Some(&**stamp),
        }
    }

    /// The same tree, which it shares, with this stamp on top and the parts' stamps as they are.
    pub fn with_stamp(&self, alloc: Global, stamp: Stamp) -> Result<Expr, Memory>
        requires { MayCarryStamp self.now }
        ensures { IfOk result (λ e. e ≡ with_stamp self.now stamp) }
    {
        let stamp = Rc::new(alloc, stamp)?;
        Ok(Expr {
            stamp: Some(stamp),
            body: self.body.clone()?,
        })
    }

    /// The same tree, which it shares, with no stamp on top and the parts' stamps as they are.
    #[tactic(auto, using(crate::proofs::Passing::without_stamp_from, crate::proofs::Parts::plain_without_stamp))]
    pub fn without_stamp(&self) -> Result<Expr, Memory>
        ensures ok { IfOk result (λ e. e ≡ without_stamp self.now) }
        ensures plain { IfOk result (λ e. plain e ≡ plain self.now) }
        ensures passed { IfOk result (λ e. (ms : List Stamped) → IsFrom ms self.now → IsFrom ms e) }
    {
        let shared = self.body.clone()?;
        Ok(Expr {
            stamp: None,
            body: shared,
        })
    }
}

/// Copies of the expressions, which share their trees and their stamps.
pub fn copy_all(alloc: Global, args: &[Expr]) -> Result<Vec<Expr>, Memory>
    ensures { IfOk result (λ v. v.items ≡ args.now) }
{
    let mut copied = Vec::with_capacity(alloc, args.len())?;
    for arg in args {
        copied.push(arg.copy()?)?;
    }
    Ok(copied)
}

/// The weight of head and elements, capped one above the limit, and the greatest depth among them.
#[tactic(auto, using(crate::proofs::Properness::are_proper_more))]
fn measured(head: &Expr, args: &[Expr]) -> (u64, u32)
    ensures weight { result.0
        ≡ min (tree.weight (tree.node (plain head.now) (plains (from_list args.now)))) (MAX_WEIGHT + 1) }
    ensures depth { result.1 + 1 ≡ tree.depth (tree.node (plain head.now) (plains (from_list args.now))) }
    ensures small { result.1 ≤ 1000 }
    ensures proper { IsProper (tree.node (plain head.now) (plains (from_list args.now))) }
{
    let mut weight = head.weight();
    let mut depth = head.depth();
    for arg in args {
        weight = (weight + arg.weight()).min(MAX_WEIGHT + 1);
        depth = depth.max(arg.depth());
    }
    (weight, depth)
}
