//! The one right tree of a list of tokens, or why there is none.
ghost use Rattle.std.specs.Prelude.{◌≡◌, map, Vec};
ghost use Rattle.wl_syntax.specs.Parsed as parsed;
ghost use Rattle.wl_syntax.specs.Parsed.{IsParsed};
ghost use Rattle.wl_syntax.specs.Flat.{nodes};
ghost use Rattle.wl_syntax.specs.Polish.{token_of};
ghost use Rattle.wl_syntax.specs.declared.parser.TreeFault.TheVariants as fault;

use crate::machine::{Machine, Standing};
use crate::tags::Tags;
use crate::token::{Node, Token};
use std::alloc::{AllocError, Global};

/// Why a list of tokens has no tree. The number is a token's place in the list, from 0.
#[derive(Drop)]
pub(crate) enum TreeFault {
    Memory,
    Unclosed,
    Unexpected(usize),
}

impl From<AllocError> for TreeFault {
    ghost from_gives = { λ _ e. e ≡ fault.Memory };

    fn from(_error: AllocError) -> TreeFault {
        TreeFault::Memory
    }
}

fn first_unmet(unmet: Option<usize>, are_met: bool, place: usize) -> Option<usize>
    ensures { result ≡ parsed.first_unmet unmet are_met place }
{
    match unmet {
        Some(first) => Some(first),
        None => { if are_met { None } else { Some(place) } }
    }
}

/// The nodes of the tree, each behind its operands.
pub(crate) fn read_tree<'a>(alloc: Global, tokens: &[Token<'a>]) -> Result<Vec<Node<'a>>, TreeFault>
    ensures { IsParsed (λ (v : Vec Node Global). nodes v.items) (map token_of tokens.now) result }
{
    let mut machine = Machine::new(alloc);
    let mut tags = Tags::new(alloc);
    let mut unmet = None;
    for (place, token) in tokens.iter().enumerate() {
        machine.step(*token)?;
        if let Standing::Dead = machine.standing {
            return Err(TreeFault::Unexpected(unmet.unwrap_or(place)));
        }
        tags.read(*token)?;
        unmet = first_unmet(unmet, tags.are_met(), place);
    }
    if machine.finish()? {
        return Ok(machine.out);
    }
    match unmet {
        Some(first) => {
            if tags.are_met() {
                return Err(TreeFault::Unclosed);
            }
            Err(TreeFault::Unexpected(first))
        }
        None => Err(TreeFault::Unclosed),
    }
}
