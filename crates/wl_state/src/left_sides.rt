//! Left sides of definitions: their cores are evaluated and put back.
ghost use Rattle.std.specs.Prelude.{◌≡◌, ◌<◌, ◌||◌, ◌∷◌, List, IfOk, IfSome, Ok, false, is_some, length, option_map, true};
ghost use Rattle.std.specs.List.{All};
ghost use Rattle.wl_assign.specs.Core.{is_around};
ghost use Rattle.wl_expr.specs.Special.{special_node};
ghost use Rattle.wl_expr.specs.Stamped.{Stamped, plain};
ghost use Rattle.wl_expr.specs.Tree.{Tree};
ghost use Rattle.wl_expr.specs.Words.{applied};
ghost use Rattle.wl_rules.specs.Stored.{Stored};
ghost use Rattle.wl_shape.specs.Shape.{without_sequences};
ghost use Rattle.wl_state.specs.Honest.{HonestIn, HonestOption};
ghost use Rattle.wl_semantics.specs.LeftSides.{moved_condition, with_core};
ghost use Rattle.wl_state.specs.Played.{Makes, Plays, Sound, trees};
ghost use Rattle.wl_state.specs.Prepared.{Stands, kept_sequences, sides_by, under};
ghost use Rattle.wl_semantics.specs.Prog as prog;
ghost use Rattle.wl_state.specs.Marks.{at_last_mark};

use crate::elements::is_symbol;
use crate::evaluator::Evaluator;
use crate::operands::form;
use std::alloc::Global;
use wl_assign::{Special, core, special_form};
use wl_expr::{Expr, ExprFault, Look, copy_all};
use wl_ports::{Ledger, Memory, Work};
use wl_rules::{Attribute, Attributes};
use wl_shape::{Shaped, arrange};

/// A left side as its rule keeps it, and its core.
#[derive(Drop)]
pub struct Prepared {
    pub left: Expr,
    pub core: Expr,
}

/// The body that a right side stands for, and the condition that it brings to the left side.
pub fn moved(value: &Expr) -> (&Expr, Option<&Expr>)
    ensures moved { (l : Tree) → moved_condition l (plain value.now) ≡ sides_by l (plain result.0.now) (option_map (λ c. plain c.now) result.1) }
    ensures stays { is_some result.1 ≡ false → plain result.0.now ≡ plain value.now }
    ensures body { (a : Stored) → HonestIn a value.now → HonestIn a result.0.now }
    ensures condition { (a : Stored) → HonestIn a value.now → IfSome result.1 (λ c. HonestIn a c.now) }
{
    let Look::Node(head, args) = value.view() else {
        return (value, None);
    };
    if args.len() != 2 {
        return (value, None);
    }
    if !is_symbol(head, "Condition") {
        return (value, None);
    }
    (&args[0], Some(&args[1]))
}

/// Of these attributes what says whether sequences stay.
fn kept_sequences(attributes: Attributes) -> Attributes
    ensures { result ≡ kept_sequences (attributes.sequence_hold || attributes.hold_all_complete) }
{
    let none = Attributes::none();
    if attributes.has(Attribute::SequenceHold) || attributes.has(Attribute::HoldAllComplete) {
        none.with(Attribute::SequenceHold)
    } else {
        none
    }
}

/// The node of this head and these elements, with sequences among them opened.
pub fn opened(
    alloc: Global,
    head: &Expr,
    elements: &[Expr],
    attributes: Attributes,
) -> Result<Expr, ExprFault>
    ensures made { Makes (applied (plain head.now) (without_sequences attributes (trees elements.now))) result }
    ensures honest { (a : Stored) → HonestIn a head.now → All (HonestIn a) elements.now → IfOk result (HonestIn a) }
{
    match arrange(alloc, head, elements, kept_sequences(attributes)) {
        Err(fault) => Err(fault),
        Ok(Shaped::Node(e)) => Ok(e),
        Ok(Shaped::Threaded(e)) => Ok(e),
        Ok(Shaped::Uneven(e)) => Ok(e),
    }
}

/// The core of this head and these elements, or none where it doesn't fit.
pub fn core_made(
    alloc: Global,
    head: Option<Expr>,
    elements: &[Expr],
    attributes: Attributes,
) -> Result<Option<Expr>, Memory>
    ensures made { (h : Tree) → Stands h head
        → IfOk result (Stands (applied h (without_sequences attributes (trees elements.now)))) }
    ensures honest { (a : Stored) → HonestOption a head → All (HonestIn a) elements.now → IfOk result (HonestOption a) }
{
    let Some(head) = head else {
        return Ok(None);
    };
    match opened(alloc, &head, elements, attributes) {
        Ok(e) => Ok(Some(e)),
        Err(ExprFault::Large) => Ok(None),
        Err(ExprFault::Memory) => Err(Memory),
    }
}

/// The node of this head and these elements, with another first one.
fn with_first(alloc: Global, head: &Expr, first: Expr, elements: &[Expr]) -> Result<Expr, ExprFault>
    requires { 0 < length elements.now }
    ensures made { (l : Stamped) (ts : List Stamped) → elements.now ≡ l ∷ ts → Makes (applied (plain head.now) (plain first ∷ trees ts)) result }
    ensures honest { (a : Stored) → HonestIn a head.now → HonestIn a first → All (HonestIn a) elements.now → IfOk result (HonestIn a) }
{
    let mut changed = copy_all(alloc, elements)?;
    changed[0] = first;
    Expr::node(alloc, head, changed.as_slice())
}

/// Whether this is a Condition or a HoldPattern, which stand around a left side.
fn is_around(head: &Expr, args: &[Expr]) -> bool
    ensures { result ≡ is_around (special_node (plain head.now) (trees args.now)) }
{
    match special_form(head, args) {
        Special::Condition => true,
        Special::HoldPattern => true,
        _ => false,
    }
}

/// The left side with another core within its conditions and its HoldPattern.
#[cycle(within)]
#[tactic(auto, using(wl_expr::proofs::Parts::depth_arg))]
pub fn with_core(alloc: Global, left: &Expr, core: &Expr) -> Result<Expr, ExprFault>
    ensures made { Makes (with_core (plain left.now) (plain core.now)) result }
    ensures honest { (a : Stored) → HonestIn a left.now → HonestIn a core.now → IfOk result (HonestIn a) }
{
    let Look::Node(head, args) = left.view() else {
        return Ok(core.copy()?);
    };
    let Some((inner, _)) = args.split_first() else {
        return Ok(core.copy()?);
    };
    if !is_around(head, args) {
        return Ok(core.copy()?);
    }
    let within = with_core(alloc, inner, core)?;
    with_first(alloc, head, within, args)
}

/// The left side with this core and within this condition. One that is too large makes the whole too large.
pub fn put_back(
    alloc: Global,
    left: &Expr,
    condition: Option<&Expr>,
    core: &Option<Expr>,
) -> Result<Expr, ExprFault>
    ensures made { (c : Tree) → Stands c core.now
        → Makes (with_core (under (option_map (λ e. plain e.now) condition.entry) (plain left.now)) c) result }
    ensures some { IfOk result (λ _. is_some core.now ≡ true) }
    ensures honest { (a : Stored) → HonestIn a left.now → IfSome condition.entry (λ e. HonestIn a e.now) → HonestOption a core.now
        → IfOk result (HonestIn a) }
{
    let Some(core) = core else {
        return Err(ExprFault::Large);
    };
    let within = with_core(alloc, left, core)?;
    match condition {
        None => Ok(within),
        Some(condition) => form(alloc, "Condition", &[within, condition.copy()?]),
    }
}

impl Evaluator {
    /// The attributes of the head of a core, which is a node where it doesn't fit.
    pub fn attributes_of_made<L: Ledger>(
        &mut self,
        head: &Option<Expr>,
        work: &mut Work<L>,
    ) -> Result<Attributes, Memory>
        requires sound { Sound self.old }
        ensures played { (h : Tree) → Stands h head.now
            → IfOk result (λ a. Plays (prog.attributes_of h) self.old (Ok a) self.new false) }
        ensures kept { self.new.steps ≡ self.old.steps }
        ensures ticks { at_last_mark work.new ≡ at_last_mark work.old }
    {
        match head {
            None => Ok(Attributes::none()),
            Some(head) => self.attributes_of_head(head, work),
        }
    }
}
