//! What a candidate binds, and its tests.
ghost use Rattle.std.specs.Prelude.{◌≡◌, false, IfSome, IsTrue, List, MatchOption, slice_get};
ghost use Rattle.std.specs.List.{All};
ghost use Rattle.std.specs.Option.{option_map};
ghost use Rattle.wl_expr.specs.Passed.{IsFrom};
ghost use Rattle.wl_expr.specs.Stamped.{Stamped, plain};
ghost use Rattle.wl_match.specs.Fits.{fits, has_test, kind_at};
ghost use Rattle.wl_match.specs.Kinds.{IsOfKind, IsProper, kind_of, of_name, of_test};
ghost use Rattle.wl_match.specs.Left.{Searches, binding, marks_in};
ghost use Rattle.wl_match.specs.Means.{ask_at};
ghost use Rattle.wl_match.specs.Parts.{kept, kept_by, whole};
ghost use Rattle.wl_match.specs.Pattern.{Pat};
ghost use Rattle.wl_match.specs.Runs as runs;
ghost use Rattle.wl_match.specs.Runs.{run_at};
ghost use Rattle.wl_match.specs.Search.{run_of};
ghost use Rattle.wl_match.specs.Shown.{AreFrom, Asks, IsRunFrom, IsTest, IsTestFrom, IsTestOfKind, pattern_in, subject_in, tests_in, trail_in};

use crate::lent::{Run, args_of, element_at, some_of, tree_at};
use crate::machine::{Machine, State};
use crate::part::Part;
use crate::pattern::Pattern;
use crate::taken::Taken;
use crate::trace::LentTrace;
use crate::view::{Test, View};
use wl_expr::Expr;

/// The run, lent.
fn shown<'m, 'a>(pattern: &'a Pattern, subject: &'a Expr, run: &'m Taken) -> Run<'m, 'a>
    ensures trees { IsTrue (fits pattern.now (plain subject.now) run.now)
        → runs.shown result ≡ run_at pattern.now (plain subject.now) run.now }
    ensures kind { kind_of result ≡ kind_at pattern.now (plain subject.now) run.now }
    ensures proper { IsTrue (fits pattern.now (plain subject.now) run.now) → IsProper result }
    ensures passed { (ms : List Stamped) → IsFrom ms subject.now → All (IsFrom ms) (kept pattern.now) → IsRunFrom ms result }
{
    match run {
        Taken::Nothing => Run::Slice(&[]),
        Taken::Tree(place) => Run::One(tree_at(pattern, subject, place)),
        Taken::Slice(place, from, count) => {
            let args = some_of(args_of(tree_at(pattern, subject, place)), *from, *count);
            if args.len() == 1 {
                return Run::One(&args[0]);
            }
            Run::Slice(args)
        }
        Taken::Picked(place, places) => {
            let t = tree_at(pattern, subject, place);
            let places = places.as_slice();
            if places.len() == 1 {
                return Run::One(element_at(t, places[0]));
            }
            Run::Picked(t, places)
        }
        Taken::Wrapped(_, place, places) => {
            let t = tree_at(pattern, subject, place);
            Run::Wrapped(t, places.as_slice())
        }
    }
}

fn marks(machine: &Machine) -> LentTrace<'_>
    ensures { result.all.now ≡ marks_in machine.now.state }
{
    match &machine.state {
        State::Begun(walk) => walk.trail.as_lent(),
        State::Fresh(_) => LentTrace::none(),
        State::Dead => LentTrace::none(),
    }
}

/// The test of a part on a run.
fn test_of<'m, 'a>(part: &'a Part, run: Run<'m, 'a>) -> Option<Test<'m, 'a>>
    ensures asks { MatchOption result (has_test part.now ≡ false) (λ x. Asks x (ask_at part.now) (runs.shown run.entry)) }
    ensures kind { (p : Pat) → IsOfKind p (of_test (ask_at part.now)) run.entry → IfSome result (λ x. IsTestOfKind p x) }
    ensures passed { (ms : List Stamped) → All (IsFrom ms) (kept_by part.now) → IsRunFrom ms run.entry → IfSome result (λ x. IsTestFrom ms x) }
{
    match part {
        Part::Applies(t, _) => Some(Test::Applies(t, run)),
        Part::Holds(t, _) => Some(Test::Holds(t)),
        Part::Except(t, _) => Some(Test::Refuses(t, run)),
        _ => None,
    }
}

impl Machine {
    /// The candidate that the last leaf was, of the pattern and the subject that `next` was given.
    pub fn view<'m, 'a>(&'m self, pattern: &'a Pattern, subject: &'a Expr) -> View<'m, 'a>
        requires { Searches pattern.now (plain subject.now) self.now }
        ensures trail { trail_in result ≡ binding pattern.now (plain subject.now) self.now }
        ensures pattern { pattern_in result ≡ pattern.now }
        ensures subject { subject_in result ≡ subject.now }
    {
        let trail = marks(self);
        View {
            pattern,
            subject,
            trail,
        }
    }
}

impl<'m, 'a> View<'m, 'a> {
    /// What is bound to the name.
    pub fn run(&self, name: &str) -> Option<Run<'m, 'a>>
        ensures trees { option_map runs.shown result ≡ run_of name.now (trail_in self.now) }
        ensures kind { IfSome result (λ r. IsOfKind (whole (pattern_in self.now)) (of_name name.now) r) }
        ensures passed { (ms : List Stamped) → AreFrom ms self.now → IfSome result (λ r. IsRunFrom ms r) }
    {
        match self.pattern.find_name(&self.trail, name) {
            Some(run) => Some(shown(self.pattern, self.subject, run)),
            None => None,
        }
    }

    /// The test with this number, from 0.
    pub fn test(&self, k: u32) -> Option<Test<'m, 'a>>
        ensures test { IsTest result (slice_get (tests_in (trail_in self.now)) k) }
        ensures kind { IfSome result (λ x. IsTestOfKind (whole (pattern_in self.now)) x) }
        ensures passed { (ms : List Stamped) → AreFrom ms self.now → IfSome result (λ x. IsTestFrom ms x) }
    {
        let (i, run) = match self.trail.test(k) {
            Some(noted) => noted,
            None => return None,
        };
        match self.pattern.part(i) {
            Some(part) => test_of(part, shown(self.pattern, self.subject, run)),
            None => None,
        }
    }
}
