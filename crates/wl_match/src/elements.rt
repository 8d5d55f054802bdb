//! The steps of a search at the elements of a node.
ghost use Rattle.std.specs.Prelude.{◌≡◌, IfOk, IsTrue, Some};
ghost use Rattle.wl_expr.specs.Stamped.{plain};
ghost use Rattle.wl_match.specs.Means.{IsChild, flags_at, from_child, has_later, head_at, site_at};
ghost use Rattle.wl_match.specs.Parts.{pat};
ghost use Rattle.wl_match.specs.Pattern.{also};
ghost use Rattle.wl_match.specs.Plays.{Expands, Plays, Turns, skipping, taken_before, taken_by};
ghost use Rattle.wl_match.specs.Runs.{part_at, run_at};
ghost use Rattle.wl_match.specs.Serves.{ElementServes, ElementsFit, ElementsServe, Fits, Steady, element_fits, left_fits};
ghost use Rattle.wl_match.specs.Trials.{shaped, stretches, takes};

use crate::cuts::{cut, length, others, pick, short, wrapped};
use crate::leaf::Step;
use crate::looks::sum;
use crate::pattern::Pattern;
use crate::places::Places;
use crate::steps::tested;
use crate::taken::{Goal, Place, Taken};
use crate::walk::Walk;
use std::alloc::Global;
use wl_expr::Expr;
use wl_ports::Memory;

fn has_later(count: usize, default: Option<usize>) -> bool
    ensures { result ≡ has_later count default }
{
    match default {
        None => 1 < count,
        Some(_) => true,
    }
}

/// The run for an element of a node, as one expression where the element may take it so.
fn stretch(
    alloc: Global,
    pattern: &Pattern,
    subject: &Expr,
    i: usize,
    q: usize,
    run: Taken,
) -> Result<Taken, Memory>
    ensures is { IfOk result (λ r. run_at pattern.now (plain subject.now) r
        ≡ shaped (stretches (site_at pattern.now i) (pat pattern.now q)) (head_at (part_at pattern.now i)) (run_at pattern.now (plain subject.now) run)) }
    ensures serves { IfOk result (λ r. IsTrue (element_fits pattern.now (plain subject.now) i run) → ElementServes pattern.now (plain subject.now) i q r) }
{
    if pattern.stretches(i, q) {
        let whole = wrapped(alloc, pattern, subject, i, &run);
        drop(run);
        whole
    } else {
        Ok(run)
    }
}

impl Walk {
    /// The elements of a part from one on: how long a run the first of them may take.
    pub(crate) fn try_elements(
        &mut self,
        pattern: &Pattern,
        subject: &Expr,
        i: usize,
        j: usize,
        left: &Taken,
    ) -> Result<Step, Memory>
        ensures plays { IfOk result (λ s. Expands pattern.now (plain subject.now) self.old (Goal.Elements i j left.now) s self.new) }
        ensures fits { IfOk result (λ _. Steady pattern.now (plain subject.now) (Goal.Elements i j left.now) self.old self.new) }
    {
        let n = length(pattern, subject, left);
        if j >= pattern.inside(i).len() {
            return Ok(tested(n == 0));
        }
        let span = pattern.span(i, j, n)?;
        self.put(Goal::Lengths(i, j, left.copy()?, span.low, span.count))?;
        Ok(Step::Went)
    }

    /// One length, the longer ones later, and what is absent last.
    pub(crate) fn try_lengths(
        &mut self,
        pattern: &Pattern,
        subject: &Expr,
        i: usize,
        j: usize,
        left: &Taken,
        low: usize,
        count: usize,
    ) -> Result<Step, Memory>
        ensures plays { IfOk result (λ s. Expands pattern.now (plain subject.now) self.old (Goal.Lengths i j left.now low count) s self.new) }
        ensures fits { IfOk result (λ _. Steady pattern.now (plain subject.now) (Goal.Lengths i j left.now low count) self.old self.new) }
    {
        let q = match pattern.child(i, j) {
            Some(q) => q,
            None => return Ok(Step::Failed),
        };
        if count == 0 {
            let step = self.try_absent(pattern, subject, i, j, q, left)?;
            return Ok(step);
        }
        if has_later(count, pattern.default_at(i, j, q)) {
            let longer = sum(low, 1)?;
            self.keep(Goal::Lengths(i, j, left.copy()?, longer, count - 1))?;
            self.take_length(pattern, subject, i, j, q, left, low)?;
            return Ok(Step::Went);
        }
        self.take_length(pattern, subject, i, j, q, left, low)?;
        Ok(Step::Went)
    }

    /// A run of this length for an element.
    fn take_length(
        &mut self,
        pattern: &Pattern,
        subject: &Expr,
        i: usize,
        j: usize,
        q: usize,
        left: &Taken,
        low: usize,
    ) -> Result<(), Memory>
        requires { IsChild pattern.now i j (Some q) }
        ensures turns { IfOk result (λ _. Turns pattern.now (plain subject.now)
            (takes (flags_at (part_at pattern.now i)).orderless (taken_by pattern.now (plain subject.now) self.old i j q)
            (run_at pattern.now (plain subject.now) left.now) low) self.old self.new) }
        ensures fits { IfOk result (λ _. ElementsFit pattern.now (plain subject.now) i j left.now
            → Fits pattern.now (plain subject.now) self.old → Fits pattern.now (plain subject.now) self.new) }
    {
        if pattern.flags(i).orderless {
            let chosen = Places::new(self.alloc);
            let skipped = Places::new(self.alloc);
            self.put(Goal::Pick(i, j, left.copy()?, low, 0, chosen, skipped))?;
            return Ok(());
        }
        let n = length(pattern, subject, left);
        let run = cut(self.alloc, left, 0, low)?;
        let rest = cut(self.alloc, left, low, n)?;
        let next = sum(j, 1)?;
        self.take(pattern, subject, i, next, q, run, rest)?;
        Ok(())
    }

    /// A run for an element, and the next elements on what is left.
    fn take(
        &mut self,
        pattern: &Pattern,
        subject: &Expr,
        i: usize,
        next: usize,
        q: usize,
        run: Taken,
        left: Taken,
    ) -> Result<(), Memory>
        ensures turns { IfOk result (λ _. Turns pattern.now (plain subject.now)
            (taken_before pattern.now (plain subject.now) self.old i next q
            (run_at pattern.now (plain subject.now) run) (run_at pattern.now (plain subject.now) left)) self.old self.new) }
        ensures fits { IfOk result (λ _. IsTrue (element_fits pattern.now (plain subject.now) i run) → IsTrue (left_fits pattern.now (plain subject.now) i left)
            → ElementsServe pattern.now i (also (pat pattern.now q) (from_child pattern.now i next))
            → Fits pattern.now (plain subject.now) self.old → Fits pattern.now (plain subject.now) self.new) }
    {
        self.put(Goal::Elements(i, next, left))?;
        let stretched = stretch(self.alloc, pattern, subject, i, q, run)?;
        self.put(Goal::Match(q, stretched))?;
        Ok(())
    }

    /// An element with a default is absent.
    fn try_absent(
        &mut self,
        pattern: &Pattern,
        subject: &Expr,
        i: usize,
        j: usize,
        q: usize,
        left: &Taken,
    ) -> Result<Step, Memory>
        requires { IsChild pattern.now i j (Some q) }
        ensures plays { IfOk result (λ s. Plays pattern.now (plain subject.now)
            (skipping pattern.now (plain subject.now) self.old i j q left.now) self.old s self.new) }
        ensures fits { IfOk result (λ _. ElementsFit pattern.now (plain subject.now) i j left.now
            → Fits pattern.now (plain subject.now) self.old → Fits pattern.now (plain subject.now) self.new) }
    {
        let default = match pattern.default_at(i, j, q) {
            Some(default) => default,
            None => return Ok(Step::Failed),
        };
        let next = sum(j, 1)?;
        self.put(Goal::Elements(i, next, left.copy()?))?;
        match pattern.name_at(q) {
            None => Ok(Step::Went),
            Some(named) => {
                let place = Place::kept(self.alloc, default);
                let step = self.bind_own(pattern, subject, named, Taken::Tree(place))?;
                Ok(step)
            }
        }
    }

    /// A binding of a run that nothing else needs.
    fn bind_own(
        &mut self,
        pattern: &Pattern,
        subject: &Expr,
        i: usize,
        run: Taken,
    ) -> Result<Step, Memory>
        ensures plays { IfOk result (λ s. Expands pattern.now (plain subject.now) self.old (Goal.Bind i run) s self.new) }
        ensures fits { IfOk result (λ _. Steady pattern.now (plain subject.now) (Goal.Bind i run) self.old self.new) }
    {
        let step = self.bind(pattern, subject, i, &run);
        drop(run);
        step
    }

    /// The picks that take the next place, and later those that don't.
    pub(crate) fn pick(
        &mut self,
        pattern: &Pattern,
        subject: &Expr,
        i: usize,
        j: usize,
        left: &Taken,
        more: usize,
        at: usize,
        chosen: &Places,
        skipped: &Places,
    ) -> Result<Step, Memory>
        ensures plays { IfOk result (λ s. Expands pattern.now (plain subject.now) self.old (Goal.Pick i j left.now more at chosen.now skipped.now) s self.new) }
        ensures fits { IfOk result (λ _. Steady pattern.now (plain subject.now) (Goal.Pick i j left.now more at chosen.now skipped.now) self.old self.new) }
    {
        let q = match pattern.child(i, j) {
            Some(q) => q,
            None => return Ok(Step::Failed),
        };
        if more == 0 {
            let run = pick(self.alloc, pattern, subject, left, chosen.as_slice())?;
            let rest = others(self.alloc, pattern, subject, left, skipped, at)?;
            let next = sum(j, 1)?;
            self.take(pattern, subject, i, next, q, run, rest)?;
            return Ok(Step::Went);
        }
        let n = length(pattern, subject, left);
        if at >= n {
            return Ok(Step::Failed);
        }
        let place = short(at)?;
        let taking = Goal::Pick(
            i,
            j,
            left.copy()?,
            more - 1,
            at + 1,
            chosen.with(place)?,
            skipped.copy()?,
        );
        if more < n - at {
            self.keep(Goal::Pick(
                i,
                j,
                left.copy()?,
                more,
                at + 1,
                chosen.copy()?,
                skipped.with(place)?,
            ))?;
            self.put(taking)?;
            return Ok(Step::Went);
        }
        self.put(taking)?;
        Ok(Step::Went)
    }
}
