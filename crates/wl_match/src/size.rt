//! How many expressions the parts of a pattern take.
ghost use Rattle.std.specs.Prelude.{◌≡◌, ◌<◌, length, IfOk};
ghost use Rattle.std.specs.List.{All};
ghost use Rattle.wl_match.specs.Parts.{count_of, inside, IsBehind};
ghost use Rattle.wl_match.specs.Sizes.{after, either_size, or_one, size_among, size_at, size_by, size_of_count, sizes_of};

use crate::part::{Number, Part};
use std::alloc::Global;
use wl_ports::Memory;

/// How many expressions a part takes: at least, and at most where that is bounded.
#[derive(Clone, Copy)]
pub(crate) struct Size {
    pub need: usize,
    pub most: Option<usize>,
}

impl Size {
    pub const ONE: Size = Size {
        need: 1,
        most: Some(1),
    };

    fn of(number: Number) -> Size
        ensures { result ≡ size_of_count (count_of number) }
    {
        match number {
            Number::One => Size::ONE,
            Number::Some => Size {
                need: 1,
                most: None,
            },
            Number::Any => Size {
                need: 0,
                most: None,
            },
        }
    }

    fn either(self, other: Size) -> Size
        ensures { result ≡ either_size self other }
    {
        let most = match (self.most, other.most) {
            (Some(one), Some(two)) => Some(one.max(two)),
            _ => None,
        };
        Size {
            need: self.need.min(other.need),
            most,
        }
    }
}

/// The size at a place.
fn size_there(sizes: &[Size], place: usize) -> Size
    requires { place < length sizes.now }
    ensures { result ≡ size_at sizes.now place }
{
    sizes[place]
}

fn joined(before: Option<Size>, size: Size) -> Size
    ensures { result ≡ after before size }
{
    match before {
        None => size,
        Some(before) => before.either(size),
    }
}

/// What any one of the parts at these places takes; one expression where there is none.
fn among(places: &[usize], sizes: &[Size]) -> Size
    requires { All (λ i. i < length sizes.now) places.now }
    ensures { result ≡ or_one (size_among (size_at sizes.now) places.now) }
{
    let mut all = None;
    for place in places {
        all = Some(joined(all, size_there(sizes, *place)));
    }
    match all {
        None => Size::ONE,
        Some(size) => size,
    }
}

fn size_of(part: &Part, sizes: &[Size]) -> Size
    requires { All (λ i. i < length sizes.now) (inside part.now) }
    ensures { result ≡ size_by (size_at sizes.now) part.now }
{
    match part {
        Part::Exactly(_) | Part::Except(_, _) | Part::Nodes(_, _, _, _) => Size::ONE,
        Part::Blank(number, _) | Part::Repeated(number, _) => Size::of(*number),
        Part::Named(_, inner)
        | Part::Applies(_, inner)
        | Part::Holds(_, inner)
        | Part::Hold(inner) => size_there(sizes, *inner),
        Part::Optional(_, inner) => Size {
            need: 0,
            most: size_there(sizes, *inner).most,
        },
        Part::Alternatives(places) => among(places.as_slice(), sizes),
    }
}

/// The size of each part.
pub(crate) fn all_sizes(alloc: Global, parts: &[Part]) -> Result<Vec<Size>, Memory>
    requires { IsBehind 0 parts.now }
    ensures { IfOk result (λ s. s.items ≡ sizes_of parts.now) }
{
    let mut sizes = Vec::new(alloc);
    for part in parts {
        let size = size_of(part, sizes.as_slice());
        sizes.push(size)?;
    }
    Ok(sizes)
}
