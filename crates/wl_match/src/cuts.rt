//! Parts of runs.
ghost use Rattle.std.specs.Prelude.{ℕ, ◌≡◌, ◌++◌, ◌∷◌, [], true, take, drop, map, List, IfOk, IsTrue};
ghost use Rattle.wl_expr.specs.Tree.{Tree};
ghost use Rattle.wl_match.specs.declared.part.Part.{Part};
ghost use Rattle.std.specs.Prelude as list;
ghost use Rattle.wl_expr.specs.Stamped.{plain};
ghost use Rattle.wl_match.specs.declared.taken.Taken.TheVariants.{Slice};
ghost use Rattle.wl_match.specs.Fits.{are_places};
ghost use Rattle.wl_match.specs.Means.{site_at, tree_among};
ghost use Rattle.wl_match.specs.Parts.{pat};
ghost use Rattle.wl_match.specs.Runs.{elements_of, kept_at, picked, run_at, tree_at};
ghost use Rattle.wl_match.specs.Serves.{ElementServes, IsPicked, Narrows, element_fits, is_bare, is_single, left_fits, stands_alone};
ghost use Rattle.wl_match.specs.Trials.{shaped, stretches};

use crate::lent::lend;
use crate::looks::sum;
use crate::pattern::Pattern;
use crate::places::Places;
use crate::taken::{Place, Taken};
use std::alloc::Global;
use wl_expr::Expr;
use wl_ports::Memory;

/// A place as a short number.
pub(crate) fn short(n: usize) -> Result<u32, Memory>
    ensures { IfOk result (λ m. m ≡ n) }
{
    match u32::try_from(n) {
        Ok(n) => Ok(n),
        Err(_) => Err(Memory),
    }
}

/// How many expressions a run has.
pub(crate) fn length(pattern: &Pattern, subject: &Expr, run: &Taken) -> usize
    ensures { result ≡ list.length (run_at pattern.now (plain subject.now) run.now) }
{
    lend(pattern, subject, run).len()
}

fn cut_slice(
    place: &Place,
    start: usize,
    n: usize,
    from: usize,
    count: usize,
) -> Result<Taken, Memory>
    ensures is { IfOk result (λ r. (ss : List Part) (t : Tree)
        → run_at ss t r ≡ take count (drop from (take n (drop start (elements_of (tree_at ss t place.now)))))) }
    ensures narrows { IfOk result (λ r. (m k : ℕ) → Narrows (Slice place.now m k) r) }
{
    let from = from.min(n);
    let at = match start.checked_add(from) {
        Some(at) => at,
        None => return Err(Memory),
    };
    Ok(Taken::Slice(place.copy()?, at, count.min(n - from)))
}

fn cut_places(alloc: Global, places: &Places, from: usize, count: usize) -> Result<Places, Memory>
    ensures { IfOk result (λ p. p ≡ take count (drop from places.now)) }
{
    let all = places.as_slice();
    let from = from.min(all.len());
    let left = &all[from..];
    let count = count.min(left.len());
    Places::of(alloc, &left[..count])
}

/// So many expressions of a run of one, from one on.
fn cut_one(run: &Taken, from: usize, count: usize) -> Result<Taken, Memory>
    ensures is { IfOk result (λ r. (ss : List Part) (t u : Tree) → run_at ss t run.now ≡ u ∷ []
        → run_at ss t r ≡ take count (drop from (u ∷ []))) }
    ensures narrows { IfOk result (λ r. IsTrue (is_single run.now) → Narrows run.now r) }
{
    if from == 0 && count != 0 {
        return run.copy();
    }
    Ok(Taken::Nothing)
}

/// So many expressions of a run, from one on.
pub(crate) fn cut(alloc: Global, run: &Taken, from: usize, count: usize) -> Result<Taken, Memory>
    ensures is { IfOk result (λ r. (ss : List Part) (t : Tree) → run_at ss t r ≡ take count (drop from (run_at ss t run.now))) }
    ensures narrows { IfOk result (λ r. Narrows run.now r) }
{
    match run {
        Taken::Nothing => Ok(Taken::Nothing),
        Taken::Tree(_) => cut_one(run, from, count),
        Taken::Wrapped(_, _, _) => cut_one(run, from, count),
        Taken::Slice(place, start, n) => cut_slice(place, *start, *n, from, count),
        Taken::Picked(place, places) => {
            let left = cut_places(alloc, places, from, count)?;
            Ok(Taken::Picked(place.copy()?, left))
        }
    }
}

/// These places of a run that begins at a place of its node, as places there.
fn shifted(alloc: Global, chosen: &[u32], start: usize, n: usize) -> Result<Places, Memory>
    ensures is { IfOk result (λ p. (u : Tree) (m : ℕ) → n ≡ list.length (take m (drop start (elements_of u)))
        → picked u p ≡ map (tree_among (take m (drop start (elements_of u)))) chosen.now) }
    ensures places { IfOk result (λ p. (u : Tree) (m : ℕ) → n ≡ list.length (take m (drop start (elements_of u)))
        → IsTrue (are_places u p)) }
{
    let mut all = Places::new(alloc);
    for place in chosen {
        if *place as usize >= n {
            return Err(Memory);
        }
        let at = match start.checked_add(*place as usize) {
            Some(at) => at,
            None => return Err(Memory),
        };
        all.push(short(at)?)?;
    }
    Ok(all)
}

/// The places that stand at these places.
fn selected(alloc: Global, chosen: &[u32], places: &[u32]) -> Result<Places, Memory>
    ensures is { IfOk result (λ p. (u : Tree) → picked u p ≡ map (tree_among (picked u places.now)) chosen.now) }
    ensures places { IfOk result (λ p. (u : Tree) → IsTrue (are_places u places.now) → IsTrue (are_places u p)) }
{
    let mut all = Places::new(alloc);
    for at in chosen {
        if *at as usize >= places.len() {
            return Err(Memory);
        }
        all.push(places[*at as usize])?;
    }
    Ok(all)
}

/// The same of a run of one expression.
fn pick_one(run: &Taken, chosen: &[u32]) -> Result<Taken, Memory>
    ensures is { IfOk result (λ r. (ss : List Part) (t u : Tree) → run_at ss t run.now ≡ u ∷ []
        → run_at ss t r ≡ map (tree_among (u ∷ [])) chosen.now) }
    ensures picked { IfOk result (λ r. (ss : List Part) (t : Tree) → IsTrue (is_single run.now) → IsPicked ss t run.now r) }
{
    if chosen.is_empty() {
        return Ok(Taken::Nothing);
    }
    if chosen.len() == 1 && chosen[0] == 0 {
        return run.copy();
    }
    Err(Memory)
}

/// The expressions at these places of a run.
pub(crate) fn pick(
    alloc: Global,
    pattern: &Pattern,
    subject: &Expr,
    run: &Taken,
    chosen: &[u32],
) -> Result<Taken, Memory>
    ensures is { IfOk result (λ r. run_at pattern.now (plain subject.now) r
        ≡ map (tree_among (run_at pattern.now (plain subject.now) run.now)) chosen.now) }
    ensures picked { IfOk result (λ r. IsPicked pattern.now (plain subject.now) run.now r) }
{
    match run {
        Taken::Nothing => {
            if chosen.is_empty() {
                return Ok(Taken::Nothing);
            }
            Err(Memory)
        }
        Taken::Tree(_) => pick_one(run, chosen),
        Taken::Wrapped(_, _, _) => pick_one(run, chosen),
        Taken::Slice(place, start, _) => {
            let all = shifted(alloc, chosen, *start, length(pattern, subject, run))?;
            Ok(Taken::Picked(place.copy()?, all))
        }
        Taken::Picked(place, places) => {
            let all = selected(alloc, chosen, places.as_slice())?;
            Ok(Taken::Picked(place.copy()?, all))
        }
    }
}

/// The places, and behind them all others from one on, below a number.
fn with_others(places: &Places, from: usize, count: usize) -> Result<Places, Memory>
    ensures { IfOk result (λ p. (ts : List Tree) → count ≡ list.length ts
        → map (tree_among ts) p ≡ map (tree_among ts) places.now ++ drop from ts) }
{
    let mut all = places.copy()?;
    let mut at = from;
    while at < count {
        all.push(short(at)?)?;
        at += 1;
    }
    Ok(all)
}

/// The expressions at these places of a run, and behind them all others from one on.
pub(crate) fn others(
    alloc: Global,
    pattern: &Pattern,
    subject: &Expr,
    run: &Taken,
    places: &Places,
    from: usize,
) -> Result<Taken, Memory>
    ensures is { IfOk result (λ r. run_at pattern.now (plain subject.now) r
        ≡ map (tree_among (run_at pattern.now (plain subject.now) run.now)) places.now ++ drop from (run_at pattern.now (plain subject.now) run.now)) }
    ensures picked { IfOk result (λ r. IsPicked pattern.now (plain subject.now) run.now r) }
{
    let all = with_others(places, from, length(pattern, subject, run))?;
    let taken = pick(alloc, pattern, subject, run, all.as_slice())?;
    Ok(taken)
}

/// The places of the elements of a run in its node.
fn places_of(alloc: Global, start: usize, n: usize) -> Result<Places, Memory>
    ensures is { IfOk result (λ p. (u : Tree) (m : ℕ) → n ≡ list.length (take m (drop start (elements_of u)))
        → picked u p ≡ take m (drop start (elements_of u))) }
    ensures places { IfOk result (λ p. (u : Tree) (m : ℕ) → n ≡ list.length (take m (drop start (elements_of u)))
        → IsTrue (are_places u p)) }
{
    let mut all = Places::new(alloc);
    for at in 0..n {
        all.push(short(sum(start, at)?)?)?;
    }
    Ok(all)
}

/// A run of two and more as one expression under the head of the part.
pub(crate) fn wrapped(
    alloc: Global,
    pattern: &Pattern,
    subject: &Expr,
    part: usize,
    run: &Taken,
) -> Result<Taken, Memory>
    ensures is { IfOk result (λ r. run_at pattern.now (plain subject.now) r
        ≡ shaped true (kept_at pattern.now (plain subject.now) part) (run_at pattern.now (plain subject.now) run.now)) }
    ensures serves { IfOk result (λ r. (q : ℕ) → IsTrue (stretches (site_at pattern.now part) (pat pattern.now q))
        → IsTrue (element_fits pattern.now (plain subject.now) part run.now) → ElementServes pattern.now (plain subject.now) part q r) }
{
    let n = length(pattern, subject, run);
    if n < 2 {
        return run.copy();
    }
    match run {
        Taken::Nothing => run.copy(),
        Taken::Tree(_) => run.copy(),
        Taken::Wrapped(_, _, _) => run.copy(),
        Taken::Slice(place, start, _) => {
            let places = places_of(alloc, *start, n)?;
            Ok(Taken::Wrapped(part, place.copy()?, places))
        }
        Taken::Picked(place, places) => { Ok(Taken::Wrapped(part, place.copy()?, places.copy()?)) }
    }
}

/// A run of one as the expression at a place, where it stands at one.
pub(crate) fn alone(run: &Taken) -> Result<Taken, Memory>
    ensures is { IfOk result (λ r. (ss : List Part) (t u : Tree) → run_at ss t run.now ≡ u ∷ [] → run_at ss t r ≡ u ∷ []) }
    ensures fits { IfOk result (λ r. (ss : List Part) (t : Tree) (i : ℕ) → IsTrue (is_bare run.now) → IsTrue (stands_alone ss i)
        → IsTrue (left_fits ss t i r)) }
{
    match run {
        Taken::Nothing => Ok(Taken::Nothing),
        Taken::Tree(_) => run.copy(),
        Taken::Wrapped(_, _, _) => run.copy(),
        Taken::Slice(place, from, _) => {
            let step = short(sum(*from, 1)?)?;
            Ok(Taken::Tree(place.below(step)?))
        }
        Taken::Picked(place, places) => {
            let places = places.as_slice();
            if places.len() == 0 {
                return Ok(Taken::Nothing);
            }
            let step = short(sum(places[0] as usize, 1)?)?;
            Ok(Taken::Tree(place.below(step)?))
        }
    }
}
