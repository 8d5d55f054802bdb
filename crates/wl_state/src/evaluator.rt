//! What a kernel has.
use std::alloc::Global;
use wl_desk::Desk;
use wl_expr::Expr;
use wl_rules::{Saved, Store};
use wl_stamps::Reads;

/// A line of the history: what was evaluated, and its value.
#[derive(Drop)]
pub struct Line {
    pub input: Expr,
    pub value: Expr,
}

/// What the present turn has read, the steps that were left when it began, the deepest depth that was open, and the most turns
/// of one evaluation.
#[derive(Drop)]
pub struct Log {
    pub reads: Reads,
    pub start: u64,
    pub deepest: u32,
    pub turns: u32,
}

/// The rules that were taken out of an entry for a time, the entry's index, and for one of the two limits its number.
#[derive(Drop)]
pub struct Taken {
    pub index: u64,
    pub rules: Saved,
    pub number: u32,
}

/// Definitions, history and desk, the last module number, the steps left, the open depth, and the two limits as numbers. Without a log
/// an effect was made, or nobody asks.
#[derive(Drop)]
pub struct Evaluator {
    pub alloc: Global,
    pub store: Store,
    pub desk: Desk,
    pub history: Vec<Line>,
    pub modules: u64,
    pub steps: u64,
    pub depth: u32,
    pub recursion: u32,
    pub iteration: u32,
    pub log: Option<Log>,
}
