//! What is evaluated of a cell.
ghost use Rattle.std.specs.Prelude.{◌≡◌, ◌<◌, true, false, IfOk, codes, length, map};
ghost use Rattle.std.specs.List.{All};
ghost use Rattle.wl_expr.specs.Stamped.{from_list, plain, plains};
ghost use Rattle.wl_expr.specs.Tree.{IsWithinLimits, node, symbol};
ghost use Rattle.wl_expr.specs.Words.{is_the};
ghost use Rattle.wl_session.specs.CellReading.{IsBare};
ghost use Rattle.wl_session.specs.Line.{ends_in_null, is_silent, task, without_last};

use std::alloc::Global;
use wl_expr::{Expr, ExprFault, Look};
use wl_ports::Memory;

/// What is evaluated, and whether nothing is shown of its value.
#[derive(Drop)]
pub(crate) struct Task {
    pub(crate) expr: Expr,
    pub(crate) silent: bool,
}

impl Task {
    /// The task of a cell that was read.
    pub(crate) fn of(alloc: Global, input: &Expr) -> Result<Task, Memory>
        requires { IsBare input.now }
        ensures tree { IfOk result (λ t. plain t.expr ≡ (task (plain input.now)).tree) }
        ensures silent { IfOk result (λ t. t.silent ≡ (task (plain input.now)).silent) }
        ensures bare { IfOk result (λ t. IsBare t.expr) }
    {
        match input.view() {
            Look::Num(_) => Task::whole(input),
            Look::Text(_) => Task::whole(input),
            Look::Symbol(_) => Task::whole(input),
            Look::Node(head, args) => {
                if is_silent(head, args) {
                    let expr = without_last(alloc, head, args)?;
                    return Ok(Task { expr, silent: true });
                }
                Task::whole(input)
            }
        }
    }

    fn whole(input: &Expr) -> Result<Task, Memory>
        ensures expr { IfOk result (λ t. t.expr ≡ input.now) }
        ensures silent { IfOk result (λ t. t.silent ≡ false) }
    {
        let expr = input.copy()?;
        Ok(Task {
            expr,
            silent: false,
        })
    }
}

/// Whether an expression is the symbol of this name.
pub(crate) fn is_the(name: &str, e: &Expr) -> bool
    ensures { result ≡ is_the name.now (plain e.now) }
{
    match e.view() {
        Look::Num(_) => false,
        Look::Text(_) => false,
        Look::Symbol(symbol) => name == symbol,
        Look::Node(_, _) => false,
    }
}

/// Whether a node is a CompoundExpression of two or more elements whose last is `Null`.
fn is_silent(head: &Expr, args: &[Expr]) -> bool
    ensures { result ≡ is_silent (plain head.now) (map plain args.now) }
{
    is_the("CompoundExpression", head) && ends_in_null(args)
}

fn ends_in_null(args: &[Expr]) -> bool
    ensures { result ≡ ends_in_null (map plain args.now) }
{
    args.len() > 1 && is_the("Null", &args[args.len() - 1])
}

/// The single element before the last, or the node of those before it.
fn without_last(alloc: Global, head: &Expr, args: &[Expr]) -> Result<Expr, Memory>
    requires many { 1 < length args.now }
    requires name { plain head.now ≡ symbol (codes "CompoundExpression") }
    requires fits { IsWithinLimits (node (plain head.now) (plains (from_list args.now))) }
    requires bare_head { IsBare head.now }
    requires bare_args { All IsBare args.now }
    ensures tree { IfOk result (λ e. plain e ≡ without_last (map plain args.now)) }
    ensures bare { IfOk result (λ e. IsBare e) }
{
    if args.len() == 2 {
        return args[0].copy();
    }
    match Expr::node(alloc, head, &args[..args.len() - 1]) {
        Ok(e) => Ok(e),
        Err(ExprFault::Memory) => Err(Memory),
        Err(ExprFault::Large) => unreachable!(),
    }
}
