//! Rows of loops and branches, played from question to question.
ghost use Rattle.std.specs.Prelude.{◌≡◌, ◌≤◌, ◌+◌, ◌↔◌, List, Option, Some, None, IsTrue, IfOk, IfSome, Err, false, option_copied};
ghost use Rattle.wl_control.specs.Asks.{Asks};
ghost use Rattle.wl_control.specs.Cursors.{stand, IsHeldFrom};
ghost use Rattle.wl_control.specs.Places.{AllFrom, plain_ask};
ghost use Rattle.wl_control.specs.Stand.{Catches, IsAwaited, Stand, after, begin_pass, start, starts};
ghost use Rattle.wl_control.specs.Table as table;
ghost use Rattle.wl_expr.specs.Stamped.{Stamped, plain};
ghost use Rattle.wl_ports.specs.Name.{IsName};
ghost use Rattle.wl_semantics.specs.Control as control;
ghost use Rattle.wl_state.specs.Parts.{sized_row};
ghost use Rattle.wl_state.specs.Played.{AllHonest, Honest, Leads, Played, Sound, found_tree, trees};
ghost use Rattle.wl_state.specs.Replies.{AreTaken, Comes, Finishes, Holds, HonestAsk, IsBounded, IsPosed, Ready, caught_reply, set_aside, stops_by_memory};
ghost use Rattle.wl_state.specs.declared.ends.Stop.{Stop};
ghost use Rattle.wl_state.specs.declared.evaluator.Evaluator.{Evaluator};
ghost use Rattle.wl_state.specs.declared.replies.Reply.TheVariants as replies;
ghost use Rattle.wl_state.specs.Marks.{at_last_mark};

use crate::evaluation::{evaluate, value_of_built};
use crate::matching::matches;
use wl_control::{Ask, Cursor};
use wl_expr::Expr;
use wl_ports::{Ledger, Work};
use wl_state::ends::Stop;
use wl_state::evaluator::{Evaluator, Taken};
use wl_state::iterator::iterator_name;
use wl_state::replies::{Outcome, Reply, caught, stops_by_memory};

/// The result of a row of loops and branches, where nothing is evaluated if its iterator's name is Protected.
#[cycle(eval)]
pub(crate) fn control_row<L: Ledger>(
    evaluator: &mut Evaluator,
    cursor: Cursor,
    name: &str,
    args: &[Expr],
    work: &mut Work<L>,
) -> Result<Option<Expr>, Stop>
    requires sound { Sound evaluator.old }
    requires args { AllHonest evaluator.old args.now }
    requires awaits { IsAwaited (stand cursor) start }
    requires held { (ms : List Stamped) → AllFrom ms args.now → IsHeldFrom ms cursor }
    requires bounded { IsBounded (after (stand cursor) start) }
    ensures played { (row : table.Row) → stand cursor ≡ starts (row (trees args.now))
        → Played found_tree (sized_row (control.iterated (control.iterator_name name.now (trees args.now)) (row (trees args.now)))) evaluator.old result evaluator.new }
    ensures falls { evaluator.new.steps ≤ evaluator.old.steps }
    ensures ticks { at_last_mark work.new ≡ at_last_mark work.old }
{
    let Some(iterator) = iterator_name(name, args) else {
        return drive(evaluator, cursor, None, work);
    };
    let is_protected = evaluator.is_protected(iterator, work)?;
    if is_protected {
        return Ok(None);
    }
    drive(evaluator, cursor, Some(iterator), work)
}

/// The result of a row. What its iterator has set aside comes back, whatever the end.
#[cycle(eval)]
fn drive<L: Ledger>(
    evaluator: &mut Evaluator,
    cursor: Cursor,
    name: Option<&str>,
    work: &mut Work<L>,
) -> Result<Option<Expr>, Stop>
    requires sound { Sound evaluator.old }
    requires name { IfSome name (λ x. IsName x.now) }
    requires awaits { IsAwaited (stand cursor) start }
    requires held { Holds evaluator.old cursor replies.Start }
    requires bounded { IsBounded (after (stand cursor) start) }
    ensures played { (row : Asks) → stand cursor ≡ starts row
        → Played found_tree (sized_row (control.finished (option_copied name.entry) row)) evaluator.old result evaluator.new }
    ensures falls { evaluator.new.steps ≤ evaluator.old.steps }
    ensures ticks { at_last_mark work.new ≡ at_last_mark work.old }
{
    let mut taken = None;
    let answer = answer(evaluator, cursor, name, &mut taken, work);
    if stops_by_memory(&answer) {
        return Err(Stop::Memory);
    }
    evaluator.give_back_iterator(name, taken);
    answer
}

/// The result of a row, once its questions are answered.
#[cycle(eval)]
fn answer<L: Ledger>(
    evaluator: &mut Evaluator,
    first: Cursor,
    name: Option<&str>,
    taken: &mut Option<Taken>,
    work: &mut Work<L>,
) -> Result<Option<Expr>, Stop>
    requires sound { Sound evaluator.old }
    requires name { IfSome name (λ x. IsName x.now) }
    requires taken { taken.old ≡ None }
    requires awaits { IsAwaited (stand first) start }
    requires held { Holds evaluator.old first replies.Start }
    requires bounded { IsBounded (after (stand first) start) }
    ensures played { (row : Asks) → stand first ≡ starts row
        → Finishes (option_copied name.entry) row evaluator.old result evaluator.new taken.new }
    ensures ready { stops_by_memory result ≡ false → Ready (option_copied name.entry) evaluator.old evaluator.new taken.new }
    ensures falls { evaluator.new.steps ≤ evaluator.old.steps }
    ensures ticks { at_last_mark work.new ≡ at_last_mark work.old }
{
    let _steps = evaluator.steps;
    let mut cursor = first;
    let mut reply = Reply::Start;
    // Between two passes a row doesn't ask more often than it has elements and three times, and each pass takes a step.
    'questions: for _answered in 0..u128::MAX {
        let ask = evaluator.asked(&mut cursor, &reply, work)?;
        let catches = cursor.catches();
        let outcome = respond(evaluator, ask, catches, name, taken, work)?;
        match outcome {
            Outcome::Goes(next) => reply = next,
            Outcome::Ends(found) => return Ok(found),
        }
    }
    unreachable!()
}

/// The answer to a question, or the end of its row.
#[cycle(eval)]
fn respond<L: Ledger>(
    evaluator: &mut Evaluator,
    ask: Ask,
    catches: bool,
    name: Option<&str>,
    taken: &mut Option<Taken>,
    work: &mut Work<L>,
) -> Result<Outcome, Stop>
    requires sound { Sound evaluator.old }
    requires name { IfSome name (λ x. IsName x.now) }
    requires taken { AreTaken evaluator.old (option_copied name) taken.old }
    requires honest { HonestAsk evaluator.old ask }
    ensures played { (row : Asks) (k : Evaluator) (a : Asks) (s : Stand)
        → Leads (control.played (option_copied name.entry) None row) k (control.played (option_copied name.entry) (set_aside (option_copied name.entry) taken.old) a) evaluator.old
        → IsPosed a (plain_ask ask) s → (IsTrue catches ↔ Catches s) → Comes (option_copied name.entry) row k s result evaluator.new taken.new }
    ensures ready { stops_by_memory result ≡ false → Ready (option_copied name.entry) evaluator.old evaluator.new taken.new }
    ensures falls { evaluator.new.steps ≤ evaluator.old.steps }
    ensures less { plain_ask ask ≡ begin_pass → IfOk result (λ _. evaluator.new.steps + 1 ≤ evaluator.old.steps) }
    ensures ticks { at_last_mark work.new ≡ at_last_mark work.old }
{
    match ask {
        Ask::Eval(e) => {
            if catches {
                let reply = caught_end(evaluator, e, work)?;
                return Ok(Outcome::Goes(reply));
            }
            let value = value_of_built(evaluator, Ok(e), work)?;
            Ok(Outcome::Goes(Reply::Value(value)))
        }
        Ask::Matches(e, pattern) => {
            let _steps = evaluator.steps;
            let matched = matches(evaluator, &pattern, &e, work)?;
            Ok(Outcome::Goes(Reply::Matched(matched)))
        }
        Ask::Let(value) => {
            let Some(name) = name else {
                return Ok(Outcome::Goes(Reply::Went));
            };
            evaluator.set_iterator(name, value, taken, work)?;
            Ok(Outcome::Goes(Reply::Went))
        }
        Ask::Pass => {
            evaluator.take_step()?;
            Ok(Outcome::Goes(Reply::Went))
        }
        Ask::Overflow => {
            let form = evaluator.overflow(work)?;
            Ok(Outcome::Ends(Some(form)))
        }
        Ask::Done(e) => Ok(Outcome::Ends(Some(e))),
        Ask::Unchanged => Ok(Outcome::Ends(None)),
    }
}

/// How an evaluation ends, where Break and Continue are caught.
#[cycle(eval)]
fn caught_end<L: Ledger>(
    evaluator: &mut Evaluator,
    e: Expr,
    work: &mut Work<L>,
) -> Result<Reply, Stop>
    requires sound { Sound evaluator.old }
    requires honest { Honest evaluator.old e }
    ensures played { Played caught_reply (control.end_of_built (plain e)) evaluator.old result evaluator.new }
    ensures falls { evaluator.new.steps ≤ evaluator.old.steps }
    ensures ticks { at_last_mark work.new ≡ at_last_mark work.old }
{
    // That it is within the limits is a clause of `weight`.
    let _weight = e.weight();
    let end = evaluate(evaluator, e, work)?;
    caught(end)
}
