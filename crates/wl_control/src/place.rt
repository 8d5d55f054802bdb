//! Where a row stands: what it holds between a question and its answer.
use crate::found::Found;
use std::collections::VecDeque;
use wl_exact::Num;
use wl_expr::Expr;

/// The answer to what was asked last, or the first call.
#[derive(Clone, Copy)]
pub enum Last<'a> {
    Start,
    Value(&'a Expr),
    Matched(bool),
    Went,
    Broke,
    Continued,
}

/// How an evaluation ended whose row catches Break and Continue.
#[derive(Clone, Copy)]
pub enum Caught<'a> {
    Value(&'a Expr),
    Broke,
    Continued,
}

/// What a row asks next, or how it ends.
#[derive(Drop)]
pub enum Ask {
    /// What is the value of this expression?
    Eval(Expr),
    /// Does the first expression match the second as a pattern?
    Matches(Expr, Expr),
    /// The iterator's name gets this value.
    Let(Expr),
    /// A pass begins.
    Pass,
    /// The result is `Overflow[]`, with its message.
    Overflow,
    /// The result.
    Done(Expr),
    /// The expression is left as it is.
    Unchanged,
}

/// A question, and where the row stands behind it.
#[derive(Drop)]
pub struct Step {
    pub ask: Ask,
    pub place: Place,
}

/// What a row waits for, and what it does with it.
#[derive(Drop)]
pub enum Place {
    Start(Row),
    Value(Valued),
    End(Ended),
    Match(Switch),
    Leave(Left),
    Over,
}

/// A row before its first question.
#[derive(Drop)]
pub enum Row {
    Stays,
    Gives(Expr),
    Which(VecDeque<Expr>),
    Switch(Expr, VecDeque<Expr>),
    Junction(Junction),
    Compound(Expr, VecDeque<Expr>),
    While(Loop),
    For(Expr, Loop),
    Iterate(Bounds),
    Select(Select),
    Scan(Fold),
    Fold(Fold, Expr),
    FoldList(Fold, Found, Expr),
    Nest(Nest, Expr),
    NestList(Nest, Found, Expr),
    FixedPoint(Nest, Expr),
}

/// What a value decides.
#[derive(Drop)]
pub enum Valued {
    Which(Expr, VecDeque<Expr>),
    Switch(Switch),
    Junction(Junction),
    Compound(Expr, VecDeque<Expr>),
    For(Loop),
    Bound(Bounds),
    Table(Passes, Found, Num),
    Select(Select, Expr),
    Scan(Fold),
    Fold(Fold),
    FoldList(Fold, Found),
    Nest(Nest),
    NestList(Nest, Found),
    FixedPoint(Nest, Expr),
}

/// What the end of an evaluation decides, where Break and Continue are caught.
#[derive(Drop)]
pub enum Ended {
    Condition(Loop),
    Body(Loop),
    Step(Loop),
    Do(Passes, Num),
}

/// What comes once a pass has begun.
#[derive(Drop)]
pub enum Left {
    Condition(Loop),
    Call(Call, Valued),
    Iterate(Passes, Option<Found>, Num),
    Set(Passes, Option<Found>, Num),
}

/// An iterator: whether it gives its values to a name, and its bounds.
#[derive(Drop)]
pub struct Iteration {
    pub named: bool,
    pub bounds: VecDeque<Expr>,
}

/// The bounds of an iterator: those that have a value, and those that aren't evaluated yet. What each pass evaluates is the first of
/// `body`, or where further iterators are behind it, `Do` or `Table` of all. `Do` collects nothing.
#[derive(Drop)]
pub struct Bounds {
    pub named: bool,
    pub body: Vec<Expr>,
    pub found: Option<Found>,
    pub known: Vec<Expr>,
    pub rest: VecDeque<Expr>,
}

/// The first value of an iterator, its bound and its step.
#[derive(Clone, Copy)]
pub struct Span {
    pub from: Num,
    pub to: Num,
    pub by: Num,
}

/// What comes next in an iterator: a value, the end, or an overflow.
#[derive(Clone, Copy)]
pub enum Following {
    Next(Num),
    Ended,
    Overflowed,
}

/// The passes over an iterator, and how many it may still begin: more than there are steps.
#[derive(Drop)]
pub struct Passes {
    pub named: bool,
    pub body: Vec<Expr>,
    pub span: Span,
    pub passes: u128,
}

/// A function, and what it is applied to.
#[derive(Drop)]
pub struct Call {
    pub function: Expr,
    pub args: Vec<Expr>,
}

/// A function over the elements that are left.
#[derive(Drop)]
pub struct Fold {
    pub function: Expr,
    pub rest: VecDeque<Expr>,
}

/// A test over the elements that are left, the elements that it has selected, and the head that they get.
#[derive(Drop)]
pub struct Select {
    pub head: Expr,
    pub test: Expr,
    pub selected: Vec<Expr>,
    pub rest: VecDeque<Expr>,
}

/// A function, and how often it may still be applied.
#[derive(Drop)]
pub struct Nest {
    pub function: Expr,
    pub passes: u128,
}

/// The choice of `Switch` at one of its patterns: what it chooses there, and what it goes on with.
#[derive(Drop)]
pub struct Switch {
    pub subject: Expr,
    pub chosen: Expr,
    pub rest: VecDeque<Expr>,
}

/// `And`, or `Or`.
#[derive(Clone, Copy)]
pub enum Connective {
    And,
    Or,
}

/// The values that are left so far, and the elements that aren't evaluated yet.
#[derive(Drop)]
pub struct Junction {
    pub connective: Connective,
    pub left: Vec<Expr>,
    pub rest: VecDeque<Expr>,
}

/// A loop, and how many passes it may still begin: more than there are steps.
#[derive(Drop)]
pub struct Loop {
    pub condition: Expr,
    pub body: Option<Expr>,
    pub step: Option<Expr>,
    pub passes: u128,
}
