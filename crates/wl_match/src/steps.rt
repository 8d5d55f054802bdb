//! The steps of a search at a part of the pattern.
ghost use Rattle.std.specs.Prelude.{◌≡◌, ◌∷◌, [], ◌&&◌, cond, false, true, IfOk, IfSome, IsTrue, List};
ghost use Rattle.wl_expr.specs.Tree.{Tree};
ghost use Rattle.wl_match.specs.declared.part.Part.{Part};
ghost use Rattle.std.specs.Option.{option_map};
ghost use Rattle.wl_expr.specs.Stamped.{plain};
ghost use Rattle.wl_match.specs.Means.{allows_length};
ghost use Rattle.wl_match.specs.Parts.{count_of, has_own_head, pat, pats_of};
ghost use Rattle.wl_match.specs.Pattern as patterns;
ghost use Rattle.wl_match.specs.Pattern.{nodes};
ghost use Rattle.wl_match.specs.Means as mean;
ghost use Rattle.wl_match.specs.Means.{site_at};
ghost use Rattle.wl_match.specs.Plays.{Expands, Plays, Puts, excepting, noding, opening, repeating, step_of};
ghost use Rattle.wl_match.specs.Serves.{Fits, GoalFits, NodeServes, Steady, is_bare, is_like};
ghost use Rattle.wl_match.specs.Runs as runs;
ghost use Rattle.wl_match.specs.Runs.{child, run_at, trees_of};
ghost use Rattle.wl_match.specs.Trials.{allows};
ghost use Rattle.wl_match.specs.Trials as trials;

use crate::cuts::{alone, cut, length, short};
use crate::flags::Flags;
use crate::leaf::Step;
use crate::lent::{Items, Lent, args_of, lend, tree_at};
use crate::looks::sum;
use crate::part::{Number, Part};
use crate::pattern::Pattern;
use crate::sorts::{all_have, have};
use crate::taken::{Goal, Mark, Place, Taken};
use crate::walk::Walk;
use wl_expr::{Expr, Look};
use wl_ports::Memory;

pub(crate) fn tested(b: bool) -> Step
    ensures { result ≡ step_of b }
{
    if b { Step::Went } else { Step::Failed }
}

fn is_allowed(number: Number, n: usize) -> bool
    ensures { result ≡ allows_length (count_of number) n }
{
    match number {
        Number::One => n == 1,
        Number::Some => 0 < n,
        Number::Any => true,
    }
}

/// Whether a blank takes the run.
fn is_taken(number: Number, head: &Option<Expr>, run: &Lent<'_, '_>) -> bool
    ensures { result ≡ (allows (count_of number) (trees_of run.now) && trials.all_have (option_map plain head.now) (trees_of run.now)) }
{
    is_allowed(number, run.len()) && all_have(run, head)
}

/// Whether an expression may stand for a node with a single element.
fn stands_alone(pattern: &Pattern, flags: Flags, parts: &[usize], is_headed: bool) -> bool
    ensures { result ≡ (flags.one_identity && patterns.any_optional (pats_of (pat pattern.now) parts.now) && cond is_headed false true) }
{
    flags.one_identity && pattern.any_optional(parts) && !is_headed
}

impl Walk {
    /// Adds a part on the run, and what follows.
    fn then(&mut self, q: usize, run: &Taken, goal: Goal) -> Result<(), Memory>
        ensures { IfOk result (λ _. Puts self.old self.new (Goal.Match q run.now ∷ goal ∷ [])) }
    {
        self.put(goal)?;
        self.put(Goal::Match(q, run.copy()?))?;
        Ok(())
    }

    pub(crate) fn try_part(
        &mut self,
        pattern: &Pattern,
        subject: &Expr,
        i: usize,
        run: &Taken,
    ) -> Result<Step, Memory>
        ensures plays { IfOk result (λ s. Expands pattern.now (plain subject.now) self.old (Goal.Match i run.now) s self.new) }
        ensures fits { IfOk result (λ _. Steady pattern.now (plain subject.now) (Goal.Match i run.now) self.old self.new) }
    {
        let part = match pattern.part(i) {
            Some(part) => part,
            None => return Ok(Step::Failed),
        };
        match part {
            Part::Exactly(t) => {
                let one = Lent::These(Items::Slice(std::slice::from_ref(t)));
                let is_same = lend(pattern, subject, run).same(&one);
                Ok(tested(is_same))
            }
            Part::Blank(number, head) => {
                let lent = lend(pattern, subject, run);
                let is_taken = is_taken(*number, head, &lent);
                Ok(tested(is_taken))
            }
            Part::Named(_, q) => {
                self.then(*q, run, Goal::Bind(i, run.copy()?))?;
                Ok(Step::Went)
            }
            Part::Applies(_, q) => {
                self.then(*q, run, Goal::Note(i, run.copy()?))?;
                Ok(Step::Went)
            }
            Part::Holds(_, q) => {
                self.then(*q, run, Goal::Note(i, run.copy()?))?;
                Ok(Step::Went)
            }
            Part::Hold(q) => {
                self.put(Goal::Match(*q, run.copy()?))?;
                Ok(Step::Went)
            }
            Part::Optional(_, q) => {
                self.put(Goal::Match(*q, run.copy()?))?;
                Ok(Step::Went)
            }
            Part::Alternatives(_) => {
                self.put(Goal::Members(i, 0, run.copy()?))?;
                Ok(Step::Went)
            }
            Part::Repeated(number, q) => {
                let step = self.repeat(pattern, subject, *number, *q, run)?;
                Ok(step)
            }
            Part::Except(_, q) => {
                let step = self.try_except(pattern, subject, i, *q, run)?;
                Ok(step)
            }
            Part::Nodes(flags, head, hp, parts) => {
                let step = self.try_node(
                    pattern,
                    subject,
                    i,
                    *flags,
                    head,
                    *hp,
                    parts.as_slice(),
                    run,
                )?;
                Ok(step)
            }
        }
    }

    fn repeat(
        &mut self,
        pattern: &Pattern,
        subject: &Expr,
        number: Number,
        q: usize,
        run: &Taken,
    ) -> Result<Step, Memory>
        ensures plays { IfOk result (λ s. Plays pattern.now (plain subject.now)
            (repeating pattern.now (plain subject.now) self.old (count_of number) q run.now) self.old s self.new) }
        ensures fits { IfOk result (λ _. Steady pattern.now (plain subject.now) (Goal.Turn q run.now) self.old self.new) }
    {
        if is_allowed(number, length(pattern, subject, run)) {
            self.put(Goal::Turn(q, run.copy()?))?;
            Ok(Step::Went)
        } else {
            Ok(Step::Failed)
        }
    }

    fn try_except(
        &mut self,
        pattern: &Pattern,
        subject: &Expr,
        i: usize,
        q: Option<usize>,
        run: &Taken,
    ) -> Result<Step, Memory>
        ensures plays { IfOk result (λ s. Plays pattern.now (plain subject.now)
            (excepting pattern.now (plain subject.now) self.old i q run.now) self.old s self.new) }
        ensures fits { IfOk result (λ _. IfSome q (λ q. GoalFits pattern.now (plain subject.now) (Goal.Match q run.now))
            → Steady pattern.now (plain subject.now) (Goal.Note i run.now) self.old self.new) }
    {
        if length(pattern, subject, run) != 1 {
            return Ok(Step::Failed);
        }
        match q {
            Some(q) => {
                self.then(q, run, Goal::Note(i, run.copy()?))?;
                Ok(Step::Went)
            }
            None => {
                self.put(Goal::Note(i, run.copy()?))?;
                Ok(Step::Went)
            }
        }
    }

    fn try_node(
        &mut self,
        pattern: &Pattern,
        subject: &Expr,
        i: usize,
        flags: Flags,
        head: &Expr,
        hp: usize,
        parts: &[usize],
        run: &Taken,
    ) -> Result<Step, Memory>
        requires site { site_at pattern.now i ≡ record { head = plain head.now; flags = flags } }
        requires parts { mean.inside pattern.now i ≡ parts.now }
        requires is { pat pattern.now i ≡ nodes flags (plain head.now) (pat pattern.now hp) (pats_of (pat pattern.now) parts.now) }
        requires own { IsTrue (has_own_head (pat pattern.now i)) }
        ensures plays { IfOk result (λ s. Plays pattern.now (plain subject.now)
            (noding pattern.now (plain subject.now) self.old i hp run.now) self.old s self.new) }
        ensures fits { IfOk result (λ _. Steady pattern.now (plain subject.now) (Goal.Match i run.now) self.old self.new) }
    {
        if length(pattern, subject, run) != 1 {
            return Ok(Step::Failed);
        }
        let is_headed = have(&lend(pattern, subject, run), head);
        if stands_alone(pattern, flags, parts, is_headed) {
            self.put(Goal::Elements(i, 0, alone(run)?))?;
            return Ok(Step::Went);
        }
        if flags.flat && !is_headed {
            return Ok(Step::Failed);
        }
        let step = self.open(pattern, subject, i, hp, run)?;
        Ok(step)
    }

    /// The head and the elements of the one expression of a run.
    fn open(
        &mut self,
        pattern: &Pattern,
        subject: &Expr,
        i: usize,
        hp: usize,
        run: &Taken,
    ) -> Result<Step, Memory>
        ensures plays { IfOk result (λ s. (u : Tree) → run_at pattern.now (plain subject.now) run.now ≡ u ∷ []
            → Plays pattern.now (plain subject.now) (opening pattern.now (plain subject.now) self.old i hp u) self.old s self.new) }
        ensures fits { IfOk result (λ _. (u : Tree) → run_at pattern.now (plain subject.now) run.now ≡ u ∷ []
            → IsTrue (is_bare run.now) → IsTrue (is_like pattern.now i u) → NodeServes pattern.now i hp
            → Fits pattern.now (plain subject.now) self.old → Fits pattern.now (plain subject.now) self.new) }
    {
        match run {
            Taken::Nothing => Ok(Step::Failed),
            Taken::Tree(place) => {
                let step = self.open_at(pattern, subject, i, hp, place)?;
                Ok(step)
            }
            Taken::Slice(place, from, _) => {
                let below = short(sum(*from, 1)?)?;
                let step = self.open_below(pattern, subject, i, hp, place, below)?;
                Ok(step)
            }
            Taken::Picked(place, places) => {
                let places = places.as_slice();
                if places.len() == 0 {
                    return Ok(Step::Failed);
                }
                let below = short(sum(places[0] as usize, 1)?)?;
                let step = self.open_below(pattern, subject, i, hp, place, below)?;
                Ok(step)
            }
            Taken::Wrapped(part, place, places) => {
                let elements = Taken::Picked(place.copy()?, places.copy()?);
                let head = Taken::Tree(Place::kept(self.alloc, *part));
                self.put(Goal::Elements(i, 0, elements))?;
                self.put(Goal::Match(hp, head))?;
                Ok(Step::Went)
            }
        }
    }

    fn open_below(
        &mut self,
        pattern: &Pattern,
        subject: &Expr,
        i: usize,
        hp: usize,
        place: &Place,
        step: u32,
    ) -> Result<Step, Memory>
        ensures plays { IfOk result (λ s. Plays pattern.now (plain subject.now)
            (opening pattern.now (plain subject.now) self.old i hp (child step (runs.tree_at pattern.now (plain subject.now) place.now))) self.old s self.new) }
        ensures fits { IfOk result (λ _. IsTrue (is_like pattern.now i (child step (runs.tree_at pattern.now (plain subject.now) place.now)))
            → NodeServes pattern.now i hp → Fits pattern.now (plain subject.now) self.old → Fits pattern.now (plain subject.now) self.new) }
    {
        let below = place.below(step)?;
        let step = self.open_at(pattern, subject, i, hp, &below)?;
        Ok(step)
    }

    /// The same of the expression at a place.
    fn open_at(
        &mut self,
        pattern: &Pattern,
        subject: &Expr,
        i: usize,
        hp: usize,
        place: &Place,
    ) -> Result<Step, Memory>
        ensures plays { IfOk result (λ s. Plays pattern.now (plain subject.now)
            (opening pattern.now (plain subject.now) self.old i hp (runs.tree_at pattern.now (plain subject.now) place.now)) self.old s self.new) }
        ensures fits { IfOk result (λ _. IsTrue (is_like pattern.now i (runs.tree_at pattern.now (plain subject.now) place.now))
            → NodeServes pattern.now i hp → Fits pattern.now (plain subject.now) self.old → Fits pattern.now (plain subject.now) self.new) }
    {
        match tree_at(pattern, subject, place).view() {
            Look::Node(_, args) => {
                let below = place.below(0)?;
                self.put(Goal::Elements(i, 0, Taken::Slice(place.copy()?, 0, args.len())))?;
                self.put(Goal::Match(hp, Taken::Tree(below)))?;
                Ok(Step::Went)
            }
            Look::Num(_) => Ok(Step::Failed),
            Look::Text(_) => Ok(Step::Failed),
            Look::Symbol(_) => Ok(Step::Failed),
        }
    }

    /// The alternatives of a part from one on.
    pub(crate) fn try_members(
        &mut self,
        pattern: &Pattern,
        subject: &Expr,
        i: usize,
        from: usize,
        run: &Taken,
    ) -> Result<Step, Memory>
        ensures plays { IfOk result (λ s. Expands pattern.now (plain subject.now) self.old (Goal.Members i from run.now) s self.new) }
        ensures fits { IfOk result (λ _. Steady pattern.now (plain subject.now) (Goal.Members i from run.now) self.old self.new) }
    {
        let members = pattern.inside(i);
        if from >= members.len() {
            return Ok(Step::Failed);
        }
        if from + 1 < members.len() {
            self.keep(Goal::Members(i, from + 1, run.copy()?))?;
            self.put(Goal::Match(members[from], run.copy()?))?;
            return Ok(Step::Went);
        }
        self.put(Goal::Match(members[from], run.copy()?))?;
        Ok(Step::Went)
    }

    /// A part on each expression of a run.
    pub(crate) fn take_turns(
        &mut self,
        pattern: &Pattern,
        subject: &Expr,
        i: usize,
        run: &Taken,
    ) -> Result<Step, Memory>
        ensures plays { IfOk result (λ s. Expands pattern.now (plain subject.now) self.old (Goal.Turn i run.now) s self.new) }
        ensures fits { IfOk result (λ _. Steady pattern.now (plain subject.now) (Goal.Turn i run.now) self.old self.new) }
    {
        let n = length(pattern, subject, run);
        if n == 0 {
            return Ok(Step::Went);
        }
        let first = cut(self.alloc, run, 0, 1)?;
        let others = cut(self.alloc, run, 1, n - 1)?;
        self.put(Goal::Turn(i, others))?;
        self.put(Goal::Match(i, first))?;
        Ok(Step::Went)
    }

    pub(crate) fn note(&mut self, i: usize, run: &Taken) -> Result<Step, Memory>
        ensures plays { IfOk result (λ s. (ss : List Part) (t : Tree) → Expands ss t self.old (Goal.Note i run.now) s self.new) }
        ensures fits { IfOk result (λ _. (ss : List Part) (t : Tree) → Steady ss t (Goal.Note i run.now) self.old self.new) }
    {
        self.mark(Mark::Noted(i, run.copy()?))?;
        Ok(Step::Went)
    }

    pub(crate) fn bind(
        &mut self,
        pattern: &Pattern,
        subject: &Expr,
        i: usize,
        run: &Taken,
    ) -> Result<Step, Memory>
        ensures plays { IfOk result (λ s. Expands pattern.now (plain subject.now) self.old (Goal.Bind i run.now) s self.new) }
        ensures fits { IfOk result (λ _. Steady pattern.now (plain subject.now) (Goal.Bind i run.now) self.old self.new) }
    {
        match pattern.find_bound(self.trail.as_slice(), i) {
            Some(other) => {
                let two = lend(pattern, subject, run);
                let is_same = lend(pattern, subject, other).same(&two);
                Ok(tested(is_same))
            }
            None => {
                self.mark(Mark::Bound(i, run.copy()?))?;
                Ok(Step::Went)
            }
        }
    }
}
