//! Tests of the line loop and of runs.
#![tactic(auto)]

#[cfg(test)]
mod defining;
#[cfg(test)]
mod ends;
#[cfg(test)]
mod evaluating;
#[cfg(test)]
mod limits;
#[cfg(test)]
mod lines;
#[cfg(test)]
mod matching;
#[cfg(test)]
mod messages;
#[cfg(test)]
mod notebooks;
#[cfg(test)]
mod refusals;
#[cfg(test)]
mod rows;
#[cfg(test)]
mod running;
#[cfg(test)]
mod scoping;
