//! What is said of a left side.
use wl_expr::Expr;

/// What a left side defines, and whether its elements stand as they are, without being evaluated.
#[derive(Clone, Copy)]
pub struct Core<'a> {
    pub core: &'a Expr,
    pub held: bool,
}

/// The kind of a rule and its symbol; `Raw` where the core begins with a number or a text, which gets none.
#[derive(Clone, Copy, Debug, PartialEq, Eq)]
pub enum Target<'a> {
    Own(&'a str),
    Down(&'a str),
    Sub(&'a str),
    Raw,
}
