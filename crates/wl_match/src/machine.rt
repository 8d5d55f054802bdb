//! The search of the leaves of a pattern on a subject.
ghost use Rattle.std.specs.Prelude.{◌≡◌, ◌++◌, List, IfOk, IfErr, IsErr};
ghost use Rattle.wl_expr.specs.Tree.{Tree};
ghost use Rattle.wl_match.specs.declared.part.Part.{Part};
ghost use Rattle.wl_expr.specs.Stamped.{plain};
ghost use Rattle.wl_match.specs.Parts.{whole};
ghost use Rattle.wl_match.specs.Plays.{Expands, Reaches, now, rest};
ghost use Rattle.wl_match.specs.Left.{Answers, IsDead, Searches, left};
ghost use Rattle.wl_match.specs.Serves.{Fits, Steady};
ghost use Rattle.wl_ports.specs.Counted.{add_to_last};
ghost use Rattle.wl_match.specs.Search.{leaves};
ghost use Rattle.wl_match.specs.Trials.{Trials};

use crate::leaf::{Leaf, Step};
use crate::pattern::Pattern;
use crate::taken::{Goal, Place, Taken};
use crate::walk::Walk;
use std::alloc::Global;
use wl_expr::Expr;
use wl_ports::{Ledger, Memory, Work};

/// Where a search stands.
#[derive(Drop)]
pub(crate) enum State {
    Fresh(Global),
    Begun(Walk),
    Dead,
}

/// A search of the leaves of a pattern on a subject.
#[derive(Drop)]
pub struct Machine {
    pub(crate) state: State,
}

/// The whole search as a choice.
fn begin(alloc: Global, pattern: &Pattern) -> Result<Walk, Memory>
    ensures leaves { IfOk result (λ w. (t : Tree) → rest pattern.now t w ≡ Trials (whole pattern.now) t) }
    ensures fits { IfOk result (λ w. (t : Tree) → Fits pattern.now t w) }
{
    let mut walk = Walk::new(alloc);
    let place = Place::top(alloc);
    walk.keep(Goal::Match(pattern.top(), Taken::Tree(place)))?;
    Ok(walk)
}

impl Walk {
    fn expand(&mut self, pattern: &Pattern, subject: &Expr, goal: &Goal) -> Result<Step, Memory>
        ensures plays { IfOk result (λ s. Expands pattern.now (plain subject.now) self.old goal.now s self.new) }
        ensures fits { IfOk result (λ _. Steady pattern.now (plain subject.now) goal.now self.old self.new) }
    {
        match goal {
            Goal::Match(i, run) => self.try_part(pattern, subject, *i, run),
            Goal::Members(i, from, run) => self.try_members(pattern, subject, *i, *from, run),
            Goal::Turn(i, run) => self.take_turns(pattern, subject, *i, run),
            Goal::Elements(i, j, run) => self.try_elements(pattern, subject, *i, *j, run),
            Goal::Lengths(i, j, run, low, count) => {
                self.try_lengths(pattern, subject, *i, *j, run, *low, *count)
            }
            Goal::Pick(i, j, run, more, at, chosen, skipped) => {
                self.pick(pattern, subject, *i, *j, run, *more, *at, chosen, skipped)
            }
            Goal::Bind(i, run) => self.bind(pattern, subject, *i, run),
            Goal::Note(i, run) => self.note(*i, run),
        }
    }

    /// The same of a goal that nothing else needs.
    fn play(&mut self, pattern: &Pattern, subject: &Expr, goal: Goal) -> Result<Step, Memory>
        ensures plays { IfOk result (λ s. Expands pattern.now (plain subject.now) self.old goal s self.new) }
        ensures fits { IfOk result (λ _. Steady pattern.now (plain subject.now) goal self.old self.new) }
    {
        let step = self.expand(pattern, subject, &goal);
        drop(goal);
        step
    }

    fn run(&mut self, pattern: &Pattern, subject: &Expr) -> Result<Leaf, Memory>
        ensures leaf { IfOk result (λ a. Reaches pattern.now (plain subject.now)
            (leaves (now pattern.now (plain subject.now) self.old) ++ rest pattern.now (plain subject.now) self.old) a self.new) }
        ensures fits { IfOk result (λ _. Fits pattern.now (plain subject.now) self.old → Fits pattern.now (plain subject.now) self.new) }
    {
        while let Some(goal) = self.first()? {
            match self.play(pattern, subject, goal)? {
                Step::Failed => return Ok(Leaf::Fail),
                Step::Went => {}
            }
        }
        Ok(Leaf::Candidate)
    }

    fn next(&mut self, pattern: &Pattern, subject: &Expr) -> Result<Leaf, Memory>
        ensures leaf { IfOk result (λ a. Reaches pattern.now (plain subject.now) (rest pattern.now (plain subject.now) self.old) a self.new) }
        ensures fits { IfOk result (λ _. Fits pattern.now (plain subject.now) self.old → Fits pattern.now (plain subject.now) self.new) }
    {
        if !self.back() {
            return Ok(Leaf::End);
        }
        let leaf = self.run(pattern, subject)?;
        Ok(leaf)
    }
}

impl Machine {
    /// A search that begins.
    pub fn start(alloc: Global) -> Machine
        ensures leaves { (ss : List Part) (t : Tree) → left ss t result ≡ Trials (whole ss) t }
        ensures searches { (ss : List Part) (t : Tree) → Searches ss t result }
    {
        Machine {
            state: State::Fresh(alloc),
        }
    }

    fn begun(&mut self, pattern: &Pattern) -> Result<(), Memory>
        ensures same { IfOk result (λ _. (t : Tree) → left pattern.now t self.new ≡ left pattern.now t self.old) }
        ensures still { IsDead self.old → IfOk result (λ _. IsDead self.new) }
        ensures searches { IfOk result (λ _. (t : Tree) → Searches pattern.now t self.old → Searches pattern.now t self.new) }
    {
        if let State::Fresh(alloc) = self.state {
            self.state = State::Begun(begin(alloc, pattern)?);
        }
        Ok(())
    }

    fn step(&mut self, pattern: &Pattern, subject: &Expr) -> Result<Leaf, Memory>
        ensures leaf { IfOk result (λ a. Answers pattern.now (plain subject.now) self.old a self.new) }
        ensures searches { IfOk result (λ _. Searches pattern.now (plain subject.now) self.old → Searches pattern.now (plain subject.now) self.new) }
        ensures still { IsDead self.old → IsErr result }
    {
        self.begun(pattern)?;
        match &mut self.state {
            State::Begun(walk) => {
                let leaf = walk.next(pattern, subject)?;
                Ok(leaf)
            }
            _ => Err(Memory),
        }
    }

    /// The next leaf. After an error it gives the error again, and after the end the end.
    pub fn next<L: Ledger>(
        &mut self,
        pattern: &Pattern,
        subject: &Expr,
        work: &mut Work<L>,
    ) -> Result<Leaf, Memory>
        ensures leaf { IfOk result (λ a. Answers pattern.now (plain subject.now) self.old a self.new) }
        ensures searches { Searches pattern.now (plain subject.now) self.old → Searches pattern.now (plain subject.now) self.new }
        ensures ticks { work.new ≡ add_to_last 1 work.old }
        ensures dead { IfErr result (λ _. IsDead self.new) }
        ensures still { IsDead self.old → IsErr result }
    {
        work.tick();
        match self.step(pattern, subject) {
            Ok(leaf) => Ok(leaf),
            Err(e) => {
                self.state = State::Dead;
                Err(e)
            }
        }
    }
}
