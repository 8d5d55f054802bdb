//! What a store starts with.
ghost use Rattle.std.specs.Prelude.{◌≡◌, [], IfOk, OnOk, map};
ghost use Rattle.wl_expr.specs.Tree.{IsWithinLimits, symbol};
ghost use Rattle.wl_ports.specs.Name.{IsName};
ghost use Rattle.wl_rules.specs.Start.{MessageText, start_store, slot_of_symbol, protected_with, with_texts, message_rows, symbol_rows, limit_rule, slot_of_limit};
ghost use Rattle.wl_rules.specs.Starting.{with_row, with_symbols, with_symbol_rows};

use crate::attribute::{Attribute, Attributes};
use crate::entry::Entry;
use crate::rule::{Rule, RuleKind};
use crate::table::Table;
use std::alloc::Global;
use wl_exact::Num;
use wl_expr::{Expr, ExprFault};
use wl_ports::Memory;

/// Symbols that are Protected, and the attributes that they have besides.
const SYMBOLS: [(&[Attribute], &[&str]); 23] = [
    (
        &[
            Attribute::Flat,
            Attribute::Listable,
            Attribute::NumericFunction,
            Attribute::OneIdentity,
            Attribute::Orderless,
        ],
        &["Plus", "Times"],
    ),
    (
        &[
            Attribute::Listable,
            Attribute::NumericFunction,
            Attribute::OneIdentity,
        ],
        &["Power"],
    ),
    (
        &[Attribute::Listable, Attribute::NumericFunction],
        &[
            "Abs",
            "Sign",
            "Floor",
            "Ceiling",
            "Mod",
            "Quotient",
            "Factorial",
        ],
    ),
    (
        &[Attribute::Listable],
        &[
            "Numerator",
            "Denominator",
            "EvenQ",
            "OddQ",
            "StringLength",
            "Characters",
            "Out",
            "In",
        ],
    ),
    (
        &[
            Attribute::Flat,
            Attribute::Listable,
            Attribute::OneIdentity,
            Attribute::Orderless,
        ],
        &["GCD"],
    ),
    (
        &[
            Attribute::Flat,
            Attribute::NumericFunction,
            Attribute::OneIdentity,
            Attribute::Orderless,
        ],
        &["Max", "Min"],
    ),
    (
        &[Attribute::Flat, Attribute::OneIdentity],
        &["StringJoin", "Join"],
    ),
    (
        &[Attribute::Flat, Attribute::HoldAll, Attribute::OneIdentity],
        &["And", "Or"],
    ),
    (
        &[Attribute::HoldAll],
        &[
            "Hold",
            "HoldPattern",
            "CompoundExpression",
            "Condition",
            "Function",
            "Module",
            "Block",
            "With",
            "Table",
            "Do",
            "While",
            "For",
            "Which",
            "Clear",
            "ClearAll",
            "Attributes",
            "Protect",
            "Unprotect",
            "Check",
            "CheckAbort",
            "Quiet",
            "On",
            "Off",
            "TagUnset",
        ],
    ),
    (
        &[Attribute::HoldAll, Attribute::SequenceHold],
        &["SetDelayed", "UpSetDelayed", "TagSet", "TagSetDelayed"],
    ),
    (
        &[Attribute::HoldFirst],
        &[
            "Pattern",
            "Unset",
            "AddTo",
            "SubtractFrom",
            "TimesBy",
            "DivideBy",
            "Increment",
            "Decrement",
            "PreIncrement",
            "PreDecrement",
            "AppendTo",
            "PrependTo",
            "Catch",
            "SetAttributes",
            "ClearAttributes",
            "Message",
            "MessageName",
        ],
    ),
    (
        &[Attribute::HoldFirst, Attribute::SequenceHold],
        &["Set", "UpSet"],
    ),
    (&[Attribute::HoldRest], &["If", "PatternTest", "Switch"]),
    (
        &[Attribute::HoldRest, Attribute::SequenceHold],
        &["RuleDelayed"],
    ),
    (&[Attribute::SequenceHold], &["Rule"]),
    (
        &[Attribute::HoldAllComplete],
        &["HoldComplete", "Unevaluated", "MakeBoxes", "RestoreEntry"],
    ),
    (
        &[],
        &[
            "Rational",
            "IntegerQ",
            "NumberQ",
            "AtomQ",
            "StringQ",
            "ListQ",
            "TrueQ",
            "Equal",
            "Unequal",
            "Less",
            "LessEqual",
            "Greater",
            "GreaterEqual",
            "Inequality",
            "SameQ",
            "UnsameQ",
            "Not",
            "True",
            "False",
        ],
    ),
    (
        &[],
        &[
            "Head",
            "Length",
            "Depth",
            "Order",
            "OrderedQ",
            "First",
            "Last",
            "Rest",
            "Most",
            "Append",
            "Prepend",
            "Reverse",
            "Sort",
            "Union",
            "DeleteDuplicates",
            "Part",
            "Take",
            "Drop",
            "Flatten",
            "Range",
            "Total",
            "Transpose",
            "Partition",
            "Apply",
            "MapApply",
            "Map",
            "Array",
            "ToString",
            "Evaluate",
            "ReleaseHold",
            "Identity",
        ],
    ),
    (
        &[],
        &[
            "Select",
            "Scan",
            "Fold",
            "FoldList",
            "Nest",
            "NestList",
            "FixedPoint",
            "MatchQ",
            "MemberQ",
            "Count",
            "Cases",
            "DeleteCases",
            "FreeQ",
            "Replace",
            "ReplaceAll",
            "ReplaceRepeated",
            "Throw",
            "Abort",
            "Break",
            "Continue",
            "Print",
        ],
    ),
    (
        &[],
        &[
            "List",
            "Slot",
            "SlotSequence",
            "Blank",
            "BlankSequence",
            "BlankNullSequence",
            "Optional",
            "Alternatives",
            "Repeated",
            "RepeatedNull",
            "StringExpression",
            "Sequence",
        ],
    ),
    (
        &[],
        &[
            "Null",
            "$Aborted",
            "$Failed",
            "Indeterminate",
            "ComplexInfinity",
            "Overflow",
            "Integer",
            "String",
            "Symbol",
            "General",
            "Thread",
        ],
    ),
    (
        &[],
        &[
            "Flat",
            "HoldAll",
            "HoldAllComplete",
            "HoldFirst",
            "HoldRest",
            "Listable",
            "NumericFunction",
            "OneIdentity",
            "Orderless",
            "Protected",
            "SequenceHold",
        ],
    ),
    (
        &[],
        &[
            "StringMatchQ",
            "StringCases",
            "StringReplace",
            "DigitCharacter",
            "LetterCharacter",
            "Expand",
            "Collect",
            "Coefficient",
            "PolynomialQ",
        ],
    ),
];

/// Message texts: symbol, tag and text.
const TEXTS: [(&str, &str, &str); 16] = [
    (
        "$RecursionLimit",
        "reclim",
        "Recursion depth of `1` exceeded.",
    ),
    (
        "$IterationLimit",
        "itlim",
        "Iteration limit of `1` exceeded.",
    ),
    ("$RecursionLimit", "limset", "Cannot set `1` to `2`."),
    ("$IterationLimit", "limset", "Cannot set `1` to `2`."),
    ("General", "large", "Expression too large."),
    ("General", "ovfl", "Overflow occurred in computation."),
    ("Power", "infy", "Infinite expression `1` encountered."),
    (
        "Power",
        "indet",
        "Indeterminate expression `1` encountered.",
    ),
    ("Set", "wrsym", "Symbol `1` is Protected."),
    ("Set", "write", "Tag `1` in `2` is Protected."),
    ("Set", "setraw", "Cannot assign to raw object `1`."),
    ("Set", "shape", "Lists `1` and `2` are not the same shape."),
    ("TagSet", "tagnf", "Tag `1` not found in `2`."),
    (
        "Thread",
        "tdlen",
        "Objects of unequal length in `1` cannot be combined.",
    ),
    ("Part", "partw", "Part `1` of `2` does not exist."),
    ("Throw", "nocatch", "Uncaught `1` returned to top level."),
];

/// The entries at the start.
pub(crate) fn start(alloc: Global) -> Result<Table, Memory>
    ensures { IfOk result (λ t. t ≡ start_store.rows) }
{
    let mut table = Table::new(alloc);
    put_all_symbols(alloc, &mut table)?;
    put_limit(alloc, &mut table, "$RecursionLimit", 200)?;
    put_limit(alloc, &mut table, "$IterationLimit", 1_000)?;
    Ok(table)
}

fn put_all_symbols(alloc: Global, table: &mut Table) -> Result<(), Memory>
    ensures { OnOk result (table.new ≡ with_symbol_rows symbol_rows table.old) }
{
    let rows = SYMBOLS;
    put_symbol_rows(alloc, table, rows.as_slice())
}

fn put_symbol_rows(
    alloc: Global,
    table: &mut Table,
    rows: &[(&[Attribute], &[&str])],
) -> Result<(), Memory>
    ensures { OnOk result (table.new ≡ with_symbol_rows (map (λ r. (r.0.now, map (λ x. x.now) r.1.now)) rows.now) table.old) }
{
    for (attributes, names) in rows {
        put_symbols(alloc, table, protected_with(attributes), names)?;
    }
    Ok(())
}

fn protected_with(attributes: &[Attribute]) -> Attributes
    ensures { result ≡ protected_with attributes.now }
{
    let mut set = Attributes::none().with(Attribute::Protected);
    for attribute in attributes {
        set = set.with(*attribute);
    }
    set
}

fn put_symbols(
    alloc: Global,
    table: &mut Table,
    attributes: Attributes,
    names: &[&str],
) -> Result<(), Memory>
    ensures { OnOk result (table.new ≡ with_symbols attributes (map (λ x. x.now) names.now) table.old) }
{
    for name in names {
        let entry = symbol_entry(alloc, name, attributes)?;
        table.put(alloc, name, entry)?;
    }
    Ok(())
}

fn symbol_entry(alloc: Global, name: &str, attributes: Attributes) -> Result<Entry, Memory>
    ensures { IfOk result (λ e. e ≡ slot_of_symbol attributes name.now) }
{
    let mut entry = Entry::empty(alloc);
    entry.set_attributes(attributes, 0);
    put_own_texts(alloc, &mut entry, name)?;
    Ok(entry)
}

fn put_limit(alloc: Global, table: &mut Table, name: &str, limit: u16) -> Result<(), Memory>
    requires name { IsName name.now }
    requires small { IsWithinLimits (symbol name.now) }
    ensures { OnOk result (table.new ≡ with_row name.now (slot_of_limit name.now limit) table.old) }
{
    let mut entry = Entry::empty(alloc);
    let rule = limit_rule(alloc, name, limit)?;
    entry.put_rule(alloc, RuleKind::Own, rule, 0)?;
    put_own_texts(alloc, &mut entry, name)?;
    table.put(alloc, name, entry)
}

fn limit_rule(alloc: Global, name: &str, limit: u16) -> Result<Rule, Memory>
    requires name { IsName name.now }
    requires small { IsWithinLimits (symbol name.now) }
    ensures { IfOk result (λ r. r ≡ limit_rule name.now limit) }
{
    let left = match Expr::symbol(alloc, name) {
        Ok(left) => left,
        Err(ExprFault::Memory) => return Err(Memory),
        Err(ExprFault::Large) => unreachable!(),
    };
    let body = match Num::int(i128::from(limit)) {
        Some(number) => Expr::num(alloc, number)?,
        None => unreachable!(),
    };
    Ok(Rule { left, body })
}

/// Puts the texts of this symbol.
fn put_own_texts(alloc: Global, entry: &mut Entry, name: &str) -> Result<(), Memory>
    requires { entry.old.version ≡ 0 }
    ensures { OnOk result (entry.new ≡ record { version = 0; entry = with_texts name.now message_rows entry.old.entry }) }
{
    let texts = TEXTS;
    put_texts(alloc, entry, name, texts.as_slice())
}

/// Puts those of these texts that are this symbol's.
fn put_texts(
    alloc: Global,
    entry: &mut Entry,
    name: &str,
    texts: &[(&str, &str, &str)],
) -> Result<(), Memory>
    requires { entry.old.version ≡ 0 }
    ensures { OnOk result (entry.new ≡ record {
      version = 0;
      entry = with_texts name.now
          (map (λ m. record { symbol = m.0.now; tag = m.1.now; text = m.2.now }) texts.now) entry.old.entry;
    }) }
{
    for (symbol, tag, text) in texts {
        if name == *symbol {
            entry.put_message(alloc, tag, text, 0)?;
        }
    }
    Ok(())
}
