//! The table of the rows.
ghost use Rattle.std.specs.Prelude.{◌≡◌, IfOk, List, option_map};
ghost use Rattle.wl_expr.specs.Applied.{plain_applied};
ghost use Rattle.wl_expr.specs.Stamped.{Stamped};
ghost use Rattle.wl_lists.specs.Answers.{AllFrom, AppliedIsFrom, IsAnswer, IsPassed, IsTooLarge, trees};
ghost use Rattle.wl_lists.specs.Kinds.{row_by};
ghost use Rattle.wl_lists.specs.Table.{apply, row_of};

use crate::answer::stay;
use crate::applying::{apply_row, map_apply_row, map_row};
use crate::arrays::array_row;
use crate::elements::{
    append_row, depth_row, first_row, head_row, last_row, length_row, most_row, order_row,
    ordered_row, prepend_row, rest_row, reverse_row,
};
use crate::flattening::flatten_row;
use crate::functions::{evaluate_row, identity_row, release_hold_row, total_row};
use crate::joining::{delete_duplicates_row, join_row, sort_row, union_row};
use crate::partitions::partition_row;
use crate::parts::part_row;
use crate::ranges::range_row;
use crate::segments::{drop_row, take_row};
use crate::strings::{
    characters_row, make_boxes_row, string_join_row, string_length_row, to_string_row,
};
use crate::transposing::transpose_row;
use std::alloc::Global;
use wl_expr::{Applied, Expr, ExprFault};

/// A row of the table.
#[derive(Clone, Copy)]
pub enum Kind {
    Head,
    Length,
    Depth,
    Order,
    OrderedQ,
    First,
    Last,
    Rest,
    Most,
    Append,
    Prepend,
    Join,
    Reverse,
    Sort,
    Union,
    DeleteDuplicates,
    Part,
    Take,
    Drop,
    Flatten,
    Range,
    Total,
    Transpose,
    Partition,
    Apply,
    MapApply,
    Map,
    Array,
    StringJoin,
    StringLength,
    Characters,
    ToString,
    MakeBoxes,
    Evaluate,
    ReleaseHold,
    Identity,
}

impl Kind {
    /// The row of this name.
    pub fn named(name: &str) -> Option<Kind>
        ensures { option_map row_by result ≡ row_of name.now }
    {
        match name {
            "Head" => Some(Kind::Head),
            "Length" => Some(Kind::Length),
            "Depth" => Some(Kind::Depth),
            "Order" => Some(Kind::Order),
            "OrderedQ" => Some(Kind::OrderedQ),
            "First" => Some(Kind::First),
            "Last" => Some(Kind::Last),
            "Rest" => Some(Kind::Rest),
            "Most" => Some(Kind::Most),
            "Append" => Some(Kind::Append),
            "Prepend" => Some(Kind::Prepend),
            "Join" => Some(Kind::Join),
            "Reverse" => Some(Kind::Reverse),
            "Sort" => Some(Kind::Sort),
            "Union" => Some(Kind::Union),
            "DeleteDuplicates" => Some(Kind::DeleteDuplicates),
            "Part" => Some(Kind::Part),
            "Take" => Some(Kind::Take),
            "Drop" => Some(Kind::Drop),
            "Flatten" => Some(Kind::Flatten),
            "Range" => Some(Kind::Range),
            "Total" => Some(Kind::Total),
            "Transpose" => Some(Kind::Transpose),
            "Partition" => Some(Kind::Partition),
            "Apply" => Some(Kind::Apply),
            "MapApply" => Some(Kind::MapApply),
            "Map" => Some(Kind::Map),
            "Array" => Some(Kind::Array),
            "StringJoin" => Some(Kind::StringJoin),
            "StringLength" => Some(Kind::StringLength),
            "Characters" => Some(Kind::Characters),
            "ToString" => Some(Kind::ToString),
            "MakeBoxes" => Some(Kind::MakeBoxes),
            "Evaluate" => Some(Kind::Evaluate),
            "ReleaseHold" => Some(Kind::ReleaseHold),
            "Identity" => Some(Kind::Identity),
            _ => None,
        }
    }

    /// What the row answers to these elements.
    pub fn apply(self, alloc: Global, args: &[Expr]) -> Result<Applied, ExprFault>
        ensures answer { IfOk result (λ a. plain_applied a ≡ row_by self (trees args.now)) }
        ensures fits { IfOk result (λ _. ¬ IsTooLarge (row_by self (trees args.now))) }
        ensures large { result ≡ Err ExprFault.Large → IsTooLarge (row_by self (trees args.now)) }
        ensures passed { (ms : List Stamped) → AllFrom ms args.now → IfOk result (AppliedIsFrom ms) }
    {
        row(self, alloc, args)
    }
}

/// What a row answers.
fn row(kind: Kind, alloc: Global, args: &[Expr]) -> Result<Applied, ExprFault>
    ensures answer { IsAnswer (row_by kind (trees args.now)) result }
    ensures passed { (ms : List Stamped) → AllFrom ms args.now → IsPassed ms result }
{
    match kind {
        Kind::Head => head_row(alloc, args),
        Kind::Length => length_row(alloc, args),
        Kind::Depth => depth_row(alloc, args),
        Kind::Order => order_row(alloc, args),
        Kind::OrderedQ => ordered_row(alloc, args),
        Kind::First => first_row(args),
        Kind::Last => last_row(args),
        Kind::Rest => rest_row(alloc, args),
        Kind::Most => most_row(alloc, args),
        Kind::Append => append_row(alloc, args),
        Kind::Prepend => prepend_row(alloc, args),
        Kind::Join => join_row(alloc, args),
        Kind::Reverse => reverse_row(alloc, args),
        Kind::Sort => sort_row(alloc, args),
        Kind::Union => union_row(alloc, args),
        Kind::DeleteDuplicates => delete_duplicates_row(alloc, args),
        Kind::Part => part_row(alloc, args),
        Kind::Take => take_row(alloc, args),
        Kind::Drop => drop_row(alloc, args),
        Kind::Flatten => flatten_row(alloc, args),
        Kind::Range => range_row(alloc, args),
        Kind::Total => total_row(alloc, args),
        Kind::Transpose => transpose_row(alloc, args),
        Kind::Partition => partition_row(alloc, args),
        Kind::Apply => apply_row(alloc, args),
        Kind::MapApply => map_apply_row(alloc, args),
        Kind::Map => map_row(alloc, args),
        Kind::Array => array_row(alloc, args),
        Kind::StringJoin => string_join_row(alloc, args),
        Kind::StringLength => string_length_row(alloc, args),
        Kind::Characters => characters_row(alloc, args),
        Kind::ToString => to_string_row(alloc, args),
        Kind::MakeBoxes => make_boxes_row(alloc, args),
        Kind::Evaluate => evaluate_row(alloc, args),
        Kind::ReleaseHold => release_hold_row(args),
        Kind::Identity => identity_row(args),
    }
}

/// What the built-in function of this name gives for these elements. For a name without a row the expression stays.
pub fn apply(alloc: Global, name: &str, args: &[Expr]) -> Result<Applied, ExprFault>
    ensures answer { IfOk result (λ a. plain_applied a ≡ apply name.now (trees args.now)) }
    ensures fits { IfOk result (λ _. ¬ IsTooLarge (apply name.now (trees args.now))) }
    ensures large { result ≡ Err ExprFault.Large → IsTooLarge (apply name.now (trees args.now)) }
    ensures passed { (ms : List Stamped) → AllFrom ms args.now → IfOk result (AppliedIsFrom ms) }
{
    match Kind::named(name) {
        Some(kind) => kind.apply(alloc, args),
        None => stay(),
    }
}
