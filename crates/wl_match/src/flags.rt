//! The attributes of a head that a match reads.

/// Which of the attributes that matter to a match the symbol at a node's head has.
#[derive(Debug, Clone, Copy, PartialEq, Eq)]
pub struct Flags {
    /// A run may stand as one expression of the head.
    pub flat: bool,
    /// Elements may be taken in any order.
    pub orderless: bool,
    /// An expression that is no node of the head may stand for one with a single element.
    pub one_identity: bool,
}

impl Flags {
    /// None of them.
    pub const NONE: Flags = Flags {
        flat: false,
        orderless: false,
        one_identity: false,
    };
}
