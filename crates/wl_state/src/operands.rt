//! What rows that evaluate nothing read in their elements, and what they give.
ghost use Rattle.std.specs.Prelude.{◌≡◌, ◌<◌, IfOk, IfSome, codes, is_some, option_map};
ghost use Rattle.std.specs.List.{All};
ghost use Rattle.wl_expr.specs.Stamped.{from_list, node, plain, plains, symbol};
ghost use Rattle.wl_expr.specs.Tree.{Tree, depth, depths};
ghost use Rattle.wl_expr.specs.Words.{form, list_of, names_of};
ghost use Rattle.wl_ports.specs.Name.{IsName};
ghost use Rattle.wl_rules.specs.Stored.{Stored};
ghost use Rattle.wl_shape.specs.Elements.{list_elements};
ghost use Rattle.wl_semantics.specs.BuiltIn.{sized_result};
ghost use Rattle.wl_state.specs.Honest.{HonestIn};
ghost use Rattle.wl_state.specs.Operands.{listed, only_name, two_trees};
ghost use Rattle.wl_state.specs.Played.{Honest, Makes, Played, found_tree, trees};
ghost use Rattle.wl_state.specs.Prepared.{name_and_one, name_and_two, only_tree};
ghost use Rattle.wl_state.specs.Replacing.{pair};
ghost use Rattle.std.specs.Prelude.{Some, None};
ghost use Rattle.wl_state.specs.Marks.{at_last_mark};

use crate::elements::is_symbol;
use crate::ends::Stop;
use crate::evaluator::Evaluator;
use std::alloc::Global;
use std::slice;
use wl_expr::{Expr, ExprFault, Look};
use wl_ports::{Ledger, Memory, Work};

/// The name of a single symbol.
pub(crate) fn only_symbol(args: &[Expr]) -> Option<&str>
    ensures { option_map (λ x. x.now) result ≡ only_name (trees args.now) }
{
    let [e] = args else {
        return None;
    };
    match e.view() {
        Look::Symbol(name) => Some(name),
        _ => None,
    }
}

/// The two elements of a row.
pub fn two(args: &[Expr]) -> Option<(&Expr, &Expr)>
    ensures value { option_map (λ p. (plain p.0.now, plain p.1.now)) result ≡ two_trees (trees args.now) }
    ensures honest { (a : Stored) → All (HonestIn a) args.now → IfSome result (λ p. HonestIn a p.0.now × HonestIn a p.1.now) }
{
    match args {
        [a, b] => Some((a, b)),
        _ => None,
    }
}

/// The one element of a row.
pub fn only(args: &[Expr]) -> Option<&Expr>
    ensures value { option_map (λ e. plain e.now) result ≡ only_tree (trees args.now) }
    ensures honest { (a : Stored) → All (HonestIn a) args.now → IfSome result (λ e. HonestIn a e.now) }
{
    match args {
        [e] => Some(e),
        _ => None,
    }
}

/// The two elements of a row, as they are.
pub fn pair(args: &[Expr]) -> Option<(&Expr, &Expr)>
    ensures { option_map (λ p. (p.0.now, p.1.now)) result ≡ pair args.now }
{
    match args {
        [a, b] => Some((a, b)),
        _ => None,
    }
}

/// The elements of a list, or the expression alone.
pub(crate) fn listed(e: &Expr) -> &[Expr]
    ensures { trees result.now ≡ listed (plain e.now) }
{
    let Look::Node(head, args) = e.view() else {
        return slice::from_ref(e);
    };
    match head.view() {
        Look::Symbol("List") => args,
        _ => slice::from_ref(e),
    }
}

/// Whether all are symbols.
pub(crate) fn are_symbols(args: &[Expr]) -> bool
    ensures { result ≡ is_some (names_of (trees args.now)) }
{
    for arg in args {
        let Look::Symbol(_) = arg.view() else {
            return false;
        };
    }
    true
}

/// The symbol of a short name.
pub fn symbol(alloc: Global, name: &str) -> Result<Expr, Memory>
    requires { IsName name.now }
    ensures { IfOk result (λ e. e ≡ symbol None name.now) }
{
    match Expr::symbol(alloc, name) {
        Ok(symbol) => Ok(symbol),
        Err(_) => Err(Memory),
    }
}

pub(crate) fn null(alloc: Global) -> Result<Expr, Memory>
    ensures { IfOk result (λ e. e ≡ symbol None (codes "Null")) }
{
    symbol(alloc, "Null")
}

/// The list of these elements.
pub fn list(alloc: Global, elements: &[Expr]) -> Result<Expr, ExprFault>
    ensures made { Makes (list_of (trees elements.now)) result }
    ensures node { IfOk result (λ e. e ≡ node None (symbol None (codes "List")) (from_list elements.now)) }
{
    let head = symbol(alloc, "List")?;
    Expr::node(alloc, &head, elements)
}

/// The node of these elements whose head is the symbol of this short name.
pub fn form(alloc: Global, name: &str, elements: &[Expr]) -> Result<Expr, ExprFault>
    requires { IsName name.now }
    ensures made { Makes (form name.now (trees elements.now)) result }
    ensures honest { (a : Stored) → All (HonestIn a) elements.now → IfOk result (HonestIn a) }
{
    let head = symbol(alloc, name)?;
    Expr::node(alloc, &head, elements)
}

/// The elements of a list.
pub fn list_elements(e: &Expr) -> Option<&[Expr]>
    ensures value { option_map (λ ts. trees ts.now) result ≡ list_elements (plain e.now) }
    ensures falls { IfSome result (λ ts. depths (plains (from_list ts.now)) < depth (plain e.now)) }
    ensures honest { (a : Stored) → HonestIn a e.now → IfSome result (λ ts. All (HonestIn a) ts.now) }
{
    match e.view() {
        Look::Node(head, args) if is_symbol(head, "List") => Some(args),
        _ => None,
    }
}

/// The two elements of a row whose first is a symbol.
pub fn name_and_one(args: &[Expr]) -> Option<(&str, &Expr)>
    ensures value { option_map (λ p. (p.0.now, plain p.1.now)) result ≡ name_and_one (trees args.now) }
    ensures name { IfSome result (λ p. IsName p.0.now) }
    ensures honest { (a : Stored) → All (HonestIn a) args.now → IfSome result (λ p. HonestIn a p.1.now) }
{
    let [e, a] = args else {
        return None;
    };
    match e.view() {
        Look::Symbol(name) => Some((name, a)),
        _ => None,
    }
}

/// The three elements of a row whose first is a symbol.
pub fn name_and_two(args: &[Expr]) -> Option<(&str, &Expr, &Expr)>
    ensures value { option_map (λ p. (p.0.now, plain p.1.now, plain p.2.now)) result ≡ name_and_two (trees args.now) }
    ensures name { IfSome result (λ p. IsName p.0.now) }
    ensures honest { (a : Stored) → All (HonestIn a) args.now → IfSome result (λ p. HonestIn a p.1.now × HonestIn a p.2.now) }
{
    let [e, a, b] = args else {
        return None;
    };
    match e.view() {
        Look::Symbol(name) => Some((name, a, b)),
        _ => None,
    }
}

impl Evaluator {
    /// What a row gives that has made it, with its size tested.
    pub fn given<L: Ledger>(
        &mut self,
        made: Result<Expr, ExprFault>,
        work: &mut Work<L>,
    ) -> Result<Option<Expr>, Stop>
        requires honest { IfOk made (Honest self.old) }
        ensures played { (t : Tree) → Makes t made → Played found_tree (sized_result (Some t)) self.old result self.new }
        ensures kept { self.new.steps ≡ self.old.steps }
        ensures ticks { at_last_mark work.new ≡ at_last_mark work.old }
    {
        let e = self.fitted(made, work)?;
        Ok(Some(e))
    }
}
