//! What an evaluation under way has read and taken so far.
ghost use Rattle.std.specs.Prelude.{◌≡◌, ◌↔◌, ◌≤◌, ◌++◌, ℕ, take, length, IfOk, IsTrue, OnErr};
ghost use Rattle.std.specs.Bool.{OnTrue, OnFalse};
ghost use Rattle.wl_stamps.specs.Reads.{all_noted};
ghost use Rattle.wl_stamps.specs.Composition.{Composes, IsOneVersionEach, composed, with_some};

use crate::reads::Reads;
use std::alloc::Global;
use wl_expr::{ReadList, Stamp};
use wl_ports::Memory;

/// The names read, the steps, the depth counted from the evaluation's own, and the most turns of one evaluation.
#[derive(Drop)]
pub struct Trial {
    pub reads: Reads,
    pub steps: u64,
    pub depth: u32,
    pub turns: u32,
}

/// Notes the reads of a part behind those that are there, and answers whether no name has two versions. If one has, the reads
/// are as they were.
fn add_reads(reads: &mut Reads, part: &ReadList) -> Result<bool, Memory>
    ensures when { IfOk result (λ b. IsTrue b ↔ IsOneVersionEach (reads.old ++ part.now)) }
    ensures added { IfOk result (λ b. OnTrue b (reads.new ≡ all_noted reads.old part.now)) }
    ensures refused { IfOk result (λ b. OnFalse b (reads.new ≡ reads.old)) }
    ensures err { OnErr result ((n : ℕ) × (n ≤ length part.now) × (reads.new ≡ all_noted reads.old (take n part.now))) }
{
    let before = reads.len();
    for k in 0..part.len() {
        let Some((index, version)) = part.at(k) else {
            unreachable!()
        };
        match reads.version_of(index) {
            None => reads.note(index, version)?,
            Some(first) => {
                if first != version {
                    reads.cut(before);
                    return Ok(false);
                }
            }
        }
    }
    Ok(true)
}

/// Adds what a part, one deeper, read and took. The answer is false, and the trial as before, exactly where a sum leaves its type
/// or one name has two versions.
pub fn compose(trial: &mut Trial, part: &Stamp) -> Result<bool, Memory>
    ensures when { IfOk result (λ b. IsTrue b ↔ Composes trial.old part.now) }
    ensures composed { IfOk result (λ b. OnTrue b (trial.new ≡ composed trial.old part.now)) }
    ensures refused { IfOk result (λ b. OnFalse b (trial.new ≡ trial.old)) }
    ensures err { OnErr result ((n : ℕ) × (n ≤ length part.now.reads) × (trial.new ≡ with_some n trial.old part.now)) }
{
    let Some(steps) = trial.steps.checked_add(part.steps) else {
        return Ok(false);
    };
    let Some(depth) = part.depth.checked_add(1) else {
        return Ok(false);
    };
    if !add_reads(&mut trial.reads, &part.reads)? {
        return Ok(false);
    }
    trial.steps = steps;
    trial.depth = trial.depth.max(depth);
    trial.turns = trial.turns.max(part.turns);
    Ok(true)
}

/// The stamp of an evaluation that read and took this.
pub fn seal(alloc: Global, trial: &Trial) -> Result<Stamp, Memory>
    ensures { IfOk result (λ p. p ≡ record { reads = trial.now.reads; steps = trial.now.steps; depth = trial.now.depth; turns = trial.now.turns }) }
{
    let mut reads = ReadList::new(alloc);
    for k in 0..trial.reads.len() {
        let Some((index, version)) = trial.reads.at(k) else {
            unreachable!()
        };
        reads.push(index, version)?;
    }
    Ok(Stamp {
        reads,
        steps: trial.steps,
        depth: trial.depth,
        turns: trial.turns,
    })
}
