//! Chains of operators, and what stands at the top of a tree.
ghost use Rattle.std.specs.Prelude.{◌≡◌};
ghost use Rattle.wl_syntax.specs.Chain as chain;
ghost use Rattle.wl_syntax.specs.Table.{infix_level as level_of};

use crate::operator::{Infix, SEMI_LEVEL, infix_level, infix_name};

/// The definition that a `/:` turns into one for its tag.
#[derive(Clone, Copy)]
pub enum Tagged {
    TagSet,
    TagSetDelayed,
    TagUnset,
}

/// What stands at the top of a tree, without parentheses: a chain with its last operator, comparisons of several kinds,
/// nested pairs of `===` and `=!=`, a definition, a name, or anything else.
#[derive(Clone, Copy)]
pub enum Form {
    Other,
    Name,
    Chain(Infix),
    Inequality,
    Nested,
    Defines(Tagged),
}

/// How an operator joins its left side: it is no chain; it starts one; it goes on with one of the same head; it mixes
/// comparisons with a chain of one kind or with one that is mixed already; it nests a chain of samenesses, or goes on with
/// one that is nested.
#[derive(Clone, Copy)]
pub enum Link {
    Alone,
    Starts,
    GoesOn,
    Mixes(Infix),
    MixesOn,
    Nests(Infix),
    NestsOn,
}

fn is_chain(level: u8) -> bool
    ensures { result ≡ chain.is_chain level }
{
    matches!(
        level,
        8 | 12 | 13 | 14 | 15 | 17 | 18 | 20 | 22 | SEMI_LEVEL
    )
}

fn is_comparison(operator: Infix) -> bool
    ensures { result ≡ chain.is_comparison (level_of operator) }
{
    infix_level(operator) == 14
}

pub(crate) fn is_sameness(operator: Infix) -> bool
    ensures { result ≡ chain.is_sameness (level_of operator) }
{
    infix_level(operator) == 15
}

/// How an operator joins a chain of another.
fn link_to_chain(operator: Infix, chained: Infix) -> Link
    ensures { result ≡ chain.link_to_chain operator chained }
{
    if infix_name(chained) == infix_name(operator) {
        return Link::GoesOn;
    }
    if is_comparison(operator) && is_comparison(chained) {
        return Link::Mixes(chained);
    }
    if is_sameness(operator) && is_sameness(chained) {
        return Link::Nests(chained);
    }
    Link::Starts
}

fn link_of_chain(operator: Infix, form: Form) -> Link
    ensures { result ≡ chain.link_of_chain operator form }
{
    match form {
        Form::Chain(chained) => link_to_chain(operator, chained),
        Form::Inequality => {
            if is_comparison(operator) {
                Link::MixesOn
            } else {
                Link::Starts
            }
        }
        Form::Nested => {
            if is_sameness(operator) {
                Link::NestsOn
            } else {
                Link::Starts
            }
        }
        _ => Link::Starts,
    }
}

/// How an operator joins a left side of this form.
pub(crate) fn joining(operator: Infix, form: Form) -> Link
    ensures { result ≡ chain.link operator form }
{
    if is_chain(infix_level(operator)) {
        link_of_chain(operator, form)
    } else {
        Link::Alone
    }
}

fn alone(operator: Infix) -> Form
    ensures { result ≡ chain.alone operator }
{
    match operator {
        Infix::Set => Form::Defines(Tagged::TagSet),
        Infix::SetDelayed => Form::Defines(Tagged::TagSetDelayed),
        _ => Form::Other,
    }
}

/// The form of the whole.
pub(crate) fn linked(operator: Infix, link: Link) -> Form
    ensures { result ≡ chain.linked operator link }
{
    match link {
        Link::Alone => alone(operator),
        Link::Starts => Form::Chain(operator),
        Link::GoesOn => Form::Chain(operator),
        Link::Mixes(_) => Form::Inequality,
        Link::MixesOn => Form::Inequality,
        Link::Nests(_) => Form::Nested,
        Link::NestsOn => Form::Nested,
    }
}

pub(crate) fn continues(link: Link) -> bool
    ensures { result ≡ chain.continues link }
{
    matches!(link, Link::GoesOn | Link::Mixes(_) | Link::MixesOn)
}

pub(crate) fn nests(link: Link) -> bool
    ensures { result ≡ chain.nests link }
{
    matches!(link, Link::Nests(_))
}
