//! The rows of Module, With and Block.
ghost use Rattle.std.specs.Prelude.{◌≡◌, ◌≤◌, [], IfOk};
ghost use Rattle.wl_state.specs.LocalNames.{AreLocals, AreShallow, IsLocal, IsShallow, local, local_in, local_list, locals_in, scope_parts};
ghost use Rattle.wl_state.specs.Parts.{sized_row};
ghost use Rattle.wl_state.specs.Played.{AllHonest, Played, Sound, found_tree, trees};
ghost use Rattle.wl_semantics.specs.ScopeRows as rows;
ghost use Rattle.wl_semantics.specs.Scoping as scoping;
ghost use Rattle.wl_state.specs.Marks.{at_last_mark};

use crate::evaluation::value_of;
use wl_expr::Expr;
use wl_ports::{Ledger, Memory, Work};
use wl_state::ends::Stop;
use wl_state::evaluator::Evaluator;
use wl_state::locals::{Local, locals, renamed, replaced};
use wl_state::replies::stops_by_memory;
use wl_state::scope_rows::scope_parts;

/// A local name with its value evaluated, where it has one.
#[cycle(eval)]
fn initial<L: Ledger>(
    evaluator: &mut Evaluator,
    name: &Local,
    work: &mut Work<L>,
) -> Result<Local, Stop>
    requires sound { Sound evaluator.old }
    requires local { IsLocal evaluator.old.store name.now }
    ensures played { Played local (scoping.initial (local_in name.now)) evaluator.old result evaluator.new }
    ensures falls { evaluator.new.steps ≤ evaluator.old.steps }
    ensures shallow { IfOk result (λ l. evaluator.new.steps ≡ evaluator.old.steps → IsShallow l) }
    ensures ticks { at_last_mark work.new ≡ at_last_mark work.old }
{
    let Some(value) = &name.value else {
        return Ok(name.copy()?);
    };
    let value = value_of(evaluator, value, work)?;
    Ok(Local {
        name: name.name.copy()?,
        value: Some(value),
    })
}

/// The local names with their values evaluated, from left to right.
#[cycle(eval)]
pub(crate) fn initials<L: Ledger>(
    evaluator: &mut Evaluator,
    names: &[Local],
    work: &mut Work<L>,
) -> Result<Vec<Local>, Stop>
    requires sound { Sound evaluator.old }
    requires locals { AreLocals evaluator.old.store names.now }
    ensures played { Played local_list (scoping.initials [] (locals_in names.now)) evaluator.old result evaluator.new }
    ensures falls { evaluator.new.steps ≤ evaluator.old.steps }
    ensures shallow { IfOk result (λ v. evaluator.new.steps ≡ evaluator.old.steps → AreShallow v.items) }
    ensures ticks { at_last_mark work.new ≡ at_last_mark work.old }
{
    let mut values = Vec::with_capacity(evaluator.alloc, names.len())?;
    for i in 0..names.len() {
        let local = initial(evaluator, &names[i], work)?;
        values.push(local)?;
    }
    Ok(values)
}

#[cycle(eval)]
pub(crate) fn module_row<L: Ledger>(
    evaluator: &mut Evaluator,
    args: &[Expr],
    work: &mut Work<L>,
) -> Result<Option<Expr>, Stop>
    requires sound { Sound evaluator.old }
    requires args { AllHonest evaluator.old args.now }
    ensures played { Played found_tree (sized_row (rows.module_row (trees args.now))) evaluator.old result evaluator.new }
    ensures falls { evaluator.new.steps ≤ evaluator.old.steps }
    ensures ticks { at_last_mark work.new ≡ at_last_mark work.old }
{
    let Some((names, body)) = scope_parts(evaluator.alloc, args, false)? else {
        return Ok(None);
    };
    let locals = initials(evaluator, names.as_slice(), work)?;
    let number = evaluator.draw_number();
    evaluator.set_locals(number, locals.as_slice(), work)?;
    let made = renamed(evaluator.alloc, body, locals.as_slice(), number);
    evaluator.given(made, work)
}

#[cycle(eval)]
pub(crate) fn with_row<L: Ledger>(
    evaluator: &mut Evaluator,
    args: &[Expr],
    work: &mut Work<L>,
) -> Result<Option<Expr>, Stop>
    requires sound { Sound evaluator.old }
    requires args { AllHonest evaluator.old args.now }
    ensures played { Played found_tree (sized_row (rows.with_row (trees args.now))) evaluator.old result evaluator.new }
    ensures falls { evaluator.new.steps ≤ evaluator.old.steps }
    ensures ticks { at_last_mark work.new ≡ at_last_mark work.old }
{
    let Some((names, body)) = scope_parts(evaluator.alloc, args, true)? else {
        return Ok(None);
    };
    let locals = initials(evaluator, names.as_slice(), work)?;
    let made = replaced(evaluator.alloc, body, locals.as_slice());
    evaluator.given(made, work)
}

#[cycle(eval)]
pub(crate) fn block_row<L: Ledger>(
    evaluator: &mut Evaluator,
    args: &[Expr],
    work: &mut Work<L>,
) -> Result<Option<Expr>, Stop>
    requires sound { Sound evaluator.old }
    requires args { AllHonest evaluator.old args.now }
    ensures played { Played found_tree (sized_row (rows.block_row (trees args.now))) evaluator.old result evaluator.new }
    ensures falls { evaluator.new.steps ≤ evaluator.old.steps }
    ensures ticks { at_last_mark work.new ≡ at_last_mark work.old }
{
    let Some((names, body)) = scope_parts(evaluator.alloc, args, false)? else {
        return Ok(None);
    };
    let locals = initials(evaluator, names.as_slice(), work)?;
    let held = evaluator.set_aside(locals.as_slice(), work)?;
    let value = value_of(evaluator, body, work);
    if stops_by_memory(&value) {
        return Err(Stop::Memory);
    }
    evaluator.give_all(held);
    match value {
        Err(stop) => Err(stop),
        Ok(value) => {
            // That an expression is within the limits is a clause of `weight`.
            let _weight = value.weight();
            Ok(Some(value))
        }
    }
}
