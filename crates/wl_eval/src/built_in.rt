//! The built-in rule of a form.
ghost use Rattle.std.specs.Prelude.{◌≡◌, ◌≤◌, Ok, false};
ghost use Rattle.wl_expr.specs.Stamped.{plain};
ghost use Rattle.wl_semantics.specs.BuiltIn as table;
ghost use Rattle.wl_state.specs.Kinds.{begins_capital, row_by};
ghost use Rattle.wl_state.specs.Parts.{sized_row};
ghost use Rattle.wl_state.specs.Played.{AllHonest, Honest, Played, Sound, found_tree, trees};
ghost use Rattle.wl_state.specs.Marks.{at_last_mark};

use crate::control_rows::control_row;
use crate::end_rows::{catch_row, check_abort_row};
use crate::match_rows::{cases_row, count_row, delete_cases_row, free_row, match_row, member_row};
use crate::quiet_rows::{check_row, quiet_row};
use crate::replace_rows::{replace_all_row, replace_repeated_row, replace_row};
use crate::scope_rows::{block_row, module_row, with_row};
use crate::set_rows::{set_delayed_row, set_row, unset_row};
use crate::tag_rows::{
    tag_set_delayed_row, tag_set_row, tag_unset_row, up_set_delayed_row, up_set_row,
};
use crate::update_rows::{step_row, update_row};
use wl_control::Cursor;
use wl_expr::{Expr, Look};
use wl_ports::{Ledger, Work};
use wl_state::built_in::begins_capital;
use wl_state::end_rows::{abort_row, break_row, continue_row, throw_row};
use wl_state::ends::Stop;
use wl_state::evaluator::Evaluator;
use wl_state::kind::Kind;
use wl_state::update_rows::Update;

/// The result of the built-in rule of a form, where there is one.
#[cycle(eval)]
pub(crate) fn built_in<L: Ledger>(
    evaluator: &mut Evaluator,
    form: &Expr,
    work: &mut Work<L>,
) -> Result<Option<Expr>, Stop>
    requires sound { Sound evaluator.old }
    requires honest { Honest evaluator.old form.now }
    ensures played { Played found_tree (table.built_in (plain form.now)) evaluator.old result evaluator.new }
    ensures falls { evaluator.new.steps ≤ evaluator.old.steps }
    ensures ticks { at_last_mark work.new ≡ at_last_mark work.old }
{
    let Look::Node(head, args) = form.view() else {
        return Ok(None);
    };
    if let Look::Symbol(name) = head.view() {
        return row(evaluator, name, args, work);
    }
    evaluator.function_row(head, args, work)
}

/// The result of the row of a name, where it has one.
#[cycle(eval)]
fn row<L: Ledger>(
    evaluator: &mut Evaluator,
    name: &str,
    args: &[Expr],
    work: &mut Work<L>,
) -> Result<Option<Expr>, Stop>
    requires sound { Sound evaluator.old }
    requires args { AllHonest evaluator.old args.now }
    ensures played { Played found_tree (sized_row (table.row name.now (trees args.now))) evaluator.old result evaluator.new }
    ensures falls { evaluator.new.steps ≤ evaluator.old.steps }
    ensures ticks { at_last_mark work.new ≡ at_last_mark work.old }
{
    if !begins_capital(name) {
        return Ok(None);
    }
    if let Some(kind) = wl_algebra::Kind::named(name) {
        let answer = kind.apply(evaluator.alloc, args);
        return evaluator.answered(answer, work);
    }
    if let Some(kind) = wl_lists::Kind::named(name) {
        let answer = kind.apply(evaluator.alloc, args);
        return evaluator.answered(answer, work);
    }
    if let Some(kind) = Kind::named(name) {
        return other_row(evaluator, kind, args, work);
    }
    let _count = args.len();
    let started = Cursor::start(evaluator.alloc, name, args)?;
    if let Some(cursor) = started {
        return control_row(evaluator, cursor, name, args, work);
    }
    Ok(None)
}

/// The result of a row that evaluates or that changes something.
#[cycle(eval)]
fn other_row<L: Ledger>(
    evaluator: &mut Evaluator,
    kind: Kind,
    args: &[Expr],
    work: &mut Work<L>,
) -> Result<Option<Expr>, Stop>
    requires sound { Sound evaluator.old }
    requires args { AllHonest evaluator.old args.now }
    ensures played { Played found_tree (sized_row (row_by kind (trees args.now))) evaluator.old result evaluator.new }
    ensures falls { evaluator.new.steps ≤ evaluator.old.steps }
    ensures ticks { at_last_mark work.new ≡ at_last_mark work.old }
{
    match kind {
        Kind::Set => set_row(evaluator, args, work),
        Kind::SetDelayed => set_delayed_row(evaluator, args, work),
        Kind::UpSet => up_set_row(evaluator, args, work),
        Kind::UpSetDelayed => up_set_delayed_row(evaluator, args, work),
        Kind::TagSet => tag_set_row(evaluator, args, work),
        Kind::TagSetDelayed => tag_set_delayed_row(evaluator, args, work),
        Kind::Unset => unset_row(evaluator, args, work),
        Kind::TagUnset => tag_unset_row(evaluator, args, work),
        Kind::AddTo => update_row(evaluator, Update::Plus, args, work),
        Kind::SubtractFrom => update_row(evaluator, Update::Minus, args, work),
        Kind::TimesBy => update_row(evaluator, Update::Times, args, work),
        Kind::DivideBy => update_row(evaluator, Update::Divide, args, work),
        Kind::AppendTo => update_row(evaluator, Update::Append, args, work),
        Kind::PrependTo => update_row(evaluator, Update::Prepend, args, work),
        Kind::PreIncrement => step_row(evaluator, false, false, args, work),
        Kind::PreDecrement => step_row(evaluator, false, true, args, work),
        Kind::Increment => step_row(evaluator, true, false, args, work),
        Kind::Decrement => step_row(evaluator, true, true, args, work),
        Kind::Clear => evaluator.clear_row(args, work),
        Kind::ClearAll => evaluator.clear_all_row(args, work),
        Kind::Attributes => evaluator.attributes_row(args, work),
        Kind::SetAttributes => evaluator.set_attributes_row(args, work),
        Kind::ClearAttributes => evaluator.clear_attributes_row(args, work),
        Kind::Protect => evaluator.protect_row(args, work),
        Kind::Unprotect => evaluator.unprotect_row(args, work),
        Kind::MatchQ => match_row(evaluator, args, work),
        Kind::MemberQ => member_row(evaluator, args, work),
        Kind::Count => count_row(evaluator, args, work),
        Kind::Cases => cases_row(evaluator, args, work),
        Kind::DeleteCases => delete_cases_row(evaluator, args, work),
        Kind::FreeQ => free_row(evaluator, args, work),
        Kind::Replace => replace_row(evaluator, args, work),
        Kind::ReplaceAll => replace_all_row(evaluator, args, work),
        Kind::ReplaceRepeated => replace_repeated_row(evaluator, args, work),
        Kind::Module => module_row(evaluator, args, work),
        Kind::With => with_row(evaluator, args, work),
        Kind::Block => block_row(evaluator, args, work),
        Kind::Throw => throw_row(args),
        Kind::Catch => catch_row(evaluator, args, work),
        Kind::Abort => abort_row(args),
        Kind::CheckAbort => check_abort_row(evaluator, args, work),
        Kind::Break => break_row(args),
        Kind::Continue => continue_row(args),
        Kind::Print => evaluator.print_row(args),
        Kind::Message => evaluator.message_row(args, work),
        Kind::Off => evaluator.off_row(args),
        Kind::On => evaluator.on_row(args),
        Kind::MessageName => evaluator.message_name_row(args, work),
        Kind::Quiet => quiet_row(evaluator, args, work),
        Kind::Check => check_row(evaluator, args, work),
        Kind::Out => evaluator.out_row(args),
        Kind::In => evaluator.in_row(args),
    }
}
