//! The rows that clear entries and change attributes.
ghost use Rattle.std.specs.Prelude.{◌≡◌, ◌≤◌, ◌++◌, ◌∷◌, [], IfOk, OnOk, Ok, Some, None, false, if◌then◌else◌, map, option_map};
ghost use Rattle.wl_expr.specs.Stamped.{plain, symbol};
ghost use Rattle.wl_expr.specs.Tree as tree;
ghost use Rattle.wl_expr.specs.Words.{list_of, names_of, null_symbol};
ghost use Rattle.wl_ports.proofs.AsciiNames.{is_ascii_name};
ghost use Rattle.wl_rules.specs.Attributes.{attribute_named, names_of_attributes, put, with_all, without_all};
ghost use Rattle.wl_rules.specs.Stored.{Stored};
ghost use Rattle.wl_rules.specs.declared.attribute.Attribute.TheVariants as attribute;
ghost use Rattle.wl_semantics.specs.EntryRows as rows;
ghost use Rattle.wl_state.specs.Honest.{HonestIn};
ghost use Rattle.wl_state.specs.Operands.{attributes_changed, names_among, protection, protection_names, put_all};
ghost use Rattle.wl_state.specs.Parts.{sized_row};
ghost use Rattle.wl_state.specs.Played.{Makes, Played, Plays, Sound, found_tree, trees};
ghost use Rattle.std.specs.Prelude.{true};
ghost use Rattle.wl_state.specs.Marks.{at_last_mark};

use crate::ends::Stop;
use crate::evaluator::Evaluator;
use crate::operands::{are_symbols, list, listed, null, only_symbol, symbol, two};
use crate::refusals::is_limit;
use std::alloc::Global;
use std::slice;
use wl_expr::{Expr, ExprFault, Look};
use wl_ports::{Ledger, Memory, Work};
use wl_rules::{Attribute, Attributes};

/// The attribute of this name.
fn attribute_named(name: &str) -> Option<Attribute>
    ensures { result ≡ attribute_named name.now }
{
    match name {
        "Flat" => Some(Attribute::Flat),
        "HoldAll" => Some(Attribute::HoldAll),
        "HoldAllComplete" => Some(Attribute::HoldAllComplete),
        "HoldFirst" => Some(Attribute::HoldFirst),
        "HoldRest" => Some(Attribute::HoldRest),
        "Listable" => Some(Attribute::Listable),
        "NumericFunction" => Some(Attribute::NumericFunction),
        "OneIdentity" => Some(Attribute::OneIdentity),
        "Orderless" => Some(Attribute::Orderless),
        "Protected" => Some(Attribute::Protected),
        "SequenceHold" => Some(Attribute::SequenceHold),
        _ => None,
    }
}

/// The attributes that these are the names of, where all are.
fn attributes_named(alloc: Global, names: &[Expr]) -> Result<Option<Vec<Attribute>>, Memory>
    ensures { IfOk result (λ o. option_map (λ v. v.items) o ≡ rows.attributes_in (names_of (trees names.now))) }
{
    let mut attributes = Vec::with_capacity(alloc, names.len())?;
    for e in names {
        let Look::Symbol(name) = e.view() else {
            return Ok(None);
        };
        let Some(attribute) = attribute_named(name) else {
            return Ok(None);
        };
        attributes.push(attribute)?;
    }
    Ok(Some(attributes))
}

fn with_all(set: Attributes, attributes: &[Attribute]) -> Attributes
    ensures { result ≡ with_all set attributes.now }
{
    let mut changed = set;
    for attribute in attributes {
        changed = changed.with(*attribute);
    }
    changed
}

fn without_all(set: Attributes, attributes: &[Attribute]) -> Attributes
    ensures { result ≡ without_all set attributes.now }
{
    let mut changed = set;
    for attribute in attributes {
        changed = changed.without(*attribute);
    }
    changed
}

/// The set in which these attributes are, or aren't, as said.
fn put_all(set: Attributes, attributes: &[Attribute], are_in: bool) -> Attributes
    ensures { result ≡ put_all are_in set attributes.now }
{
    if are_in {
        with_all(set, attributes)
    } else {
        without_all(set, attributes)
    }
}

/// The set in which this attribute is, or isn't, as said.
pub fn put(set: Attributes, attribute: Attribute, is_in: bool) -> Attributes
    ensures { result ≡ put is_in set attribute }
{
    if is_in {
        set.with(attribute)
    } else {
        set.without(attribute)
    }
}

/// Puts the symbol of this name behind the others, where the attribute is in the set.
fn push_where(alloc: Global, symbols: &mut Vec<Expr>, is_in: bool, name: &str) -> Result<(), Memory>
    requires { is_ascii_name name.now ≡ true }
    ensures { OnOk result (symbols.new.items ≡ symbols.old.items ++ (if is_in then symbol None name.now ∷ [] else [])) }
{
    if !is_in {
        return Ok(());
    }
    let e = symbol(alloc, name)?;
    symbols.push(e)?;
    Ok(())
}

/// The symbols of the attributes in the set, by name.
fn attribute_symbols(alloc: Global, set: Attributes) -> Result<Vec<Expr>, Memory>
    ensures { IfOk result (λ v. v.items ≡ map (symbol None) (names_of_attributes set)) }
{
    let mut all = Vec::new(alloc);
    push_where(alloc, &mut all, set.has(Attribute::Flat), "Flat")?;
    push_where(alloc, &mut all, set.has(Attribute::HoldAll), "HoldAll")?;
    push_where(
        alloc,
        &mut all,
        set.has(Attribute::HoldAllComplete),
        "HoldAllComplete",
    )?;
    push_where(alloc, &mut all, set.has(Attribute::HoldFirst), "HoldFirst")?;
    push_where(alloc, &mut all, set.has(Attribute::HoldRest), "HoldRest")?;
    push_where(alloc, &mut all, set.has(Attribute::Listable), "Listable")?;
    push_where(
        alloc,
        &mut all,
        set.has(Attribute::NumericFunction),
        "NumericFunction",
    )?;
    push_where(
        alloc,
        &mut all,
        set.has(Attribute::OneIdentity),
        "OneIdentity",
    )?;
    push_where(alloc, &mut all, set.has(Attribute::Orderless), "Orderless")?;
    push_where(alloc, &mut all, set.has(Attribute::Protected), "Protected")?;
    push_where(
        alloc,
        &mut all,
        set.has(Attribute::SequenceHold),
        "SequenceHold",
    )?;
    Ok(all)
}

/// The name as a text in a list.
fn name_list(alloc: Global, name: &str) -> Result<Expr, ExprFault>
    ensures made { Makes (list_of (tree.text name.now ∷ [])) result }
    ensures honest { (a : Stored) → IfOk result (HonestIn a) }
{
    match Expr::text(alloc, name) {
        Ok(text) => list(alloc, slice::from_ref(&text)),
        Err(fault) => Err(fault),
    }
}

fn empty_list(alloc: Global) -> Result<Expr, ExprFault>
    ensures made { Makes (list_of []) result }
    ensures honest { (a : Stored) → IfOk result (HonestIn a) }
{
    list(alloc, &[])
}

/// What Protect or Unprotect gives: the name, where that changes something.
fn protection_names(
    alloc: Global,
    protects: bool,
    was_protected: bool,
    name: &str,
) -> Result<Expr, ExprFault>
    ensures made { Makes (protection_names protects was_protected name.now) result }
    ensures honest { (a : Stored) → IfOk result (HonestIn a) }
{
    if protects {
        if was_protected {
            empty_list(alloc)
        } else {
            name_list(alloc, name)
        }
    } else {
        if was_protected {
            name_list(alloc, name)
        } else {
            empty_list(alloc)
        }
    }
}

impl Evaluator {
    /// Takes the rules of a symbol away, with `all` the rest too, or tells that this is refused.
    fn clear_one<L: Ledger>(
        &mut self,
        all: bool,
        name: &str,
        symbol: &Expr,
        work: &mut Work<L>,
    ) -> Result<(), Memory>
        requires sound { Sound self.old }
        requires named { plain symbol.now ≡ tree.symbol name.now }
        ensures played { IfOk result (λ _. Plays (rows.clear_one all name.now) self.old (Ok tt) self.new false) }
        ensures kept { self.new.steps ≡ self.old.steps }
        ensures ticks { at_last_mark work.new ≡ at_last_mark work.old }
    {
        let is_protected = self.is_protected(name, work)?;
        if is_protected {
            return self.issue("Set", "wrsym", slice::from_ref(symbol), work);
        }
        if is_limit(name) {
            let null = null(self.alloc)?;
            return self.refuse_limit(name, symbol, &null, work);
        }
        self.clear_entry(name, all)
    }

    fn clear_named<L: Ledger>(
        &mut self,
        all: bool,
        args: &[Expr],
        work: &mut Work<L>,
    ) -> Result<Option<Expr>, Stop>
        requires sound { Sound self.old }
        ensures played { Played found_tree (sized_row (rows.clear_named all (names_of (trees args.now)))) self.old result self.new }
        ensures kept { self.new.steps ≡ self.old.steps }
        ensures ticks { at_last_mark work.new ≡ at_last_mark work.old }
    {
        if args.is_empty() {
            return Ok(None);
        }
        if !are_symbols(args) {
            return Ok(None);
        }
        for i in 0..args.len() {
            let Look::Symbol(name) = args[i].view() else {
                continue;
            };
            self.clear_one(all, name, &args[i], work)?;
        }
        Ok(Some(null(self.alloc)?))
    }

    /// Forgets the rules of each name, its attributes and messages apart.
    pub fn clear_row<L: Ledger>(
        &mut self,
        args: &[Expr],
        work: &mut Work<L>,
    ) -> Result<Option<Expr>, Stop>
        requires sound { Sound self.old }
        ensures played { Played found_tree (sized_row (rows.clear_row (trees args.now))) self.old result self.new }
        ensures falls { self.new.steps ≤ self.old.steps }
        ensures ticks { at_last_mark work.new ≡ at_last_mark work.old }
    {
        self.clear_named(false, args, work)
    }

    /// Forgets all that each name has.
    pub fn clear_all_row<L: Ledger>(
        &mut self,
        args: &[Expr],
        work: &mut Work<L>,
    ) -> Result<Option<Expr>, Stop>
        requires sound { Sound self.old }
        ensures played { Played found_tree (sized_row (rows.clear_all_row (trees args.now))) self.old result self.new }
        ensures falls { self.new.steps ≤ self.old.steps }
        ensures ticks { at_last_mark work.new ≡ at_last_mark work.old }
    {
        self.clear_named(true, args, work)
    }

    /// The list of the attributes of a name.
    pub fn attributes_row<L: Ledger>(
        &mut self,
        args: &[Expr],
        work: &mut Work<L>,
    ) -> Result<Option<Expr>, Stop>
        requires sound { Sound self.old }
        ensures played { Played found_tree (sized_row (rows.attributes_row (trees args.now))) self.old result self.new }
        ensures falls { self.new.steps ≤ self.old.steps }
        ensures ticks { at_last_mark work.new ≡ at_last_mark work.old }
    {
        let Some(name) = only_symbol(args) else {
            return Ok(None);
        };
        let attributes = self.attributes_of(name, work)?;
        let symbols = attribute_symbols(self.alloc, attributes)?;
        let made = list(self.alloc, symbols.as_slice());
        self.given(made, work)
    }

    fn change_attributes<L: Ledger>(
        &mut self,
        name: &str,
        attributes: &[Attribute],
        are_in: bool,
        work: &mut Work<L>,
    ) -> Result<(), Memory>
        requires sound { Sound self.old }
        ensures played { IfOk result (λ _. Plays (rows.change_attributes (λ s. put_all are_in s attributes.now) name.now)
            self.old (Ok tt) self.new false) }
        ensures kept { self.new.steps ≡ self.old.steps }
        ensures ticks { at_last_mark work.new ≡ at_last_mark work.old }
    {
        let set = self.attributes_of(name, work)?;
        self.set_attributes(name, put_all(set, attributes, are_in))
    }

    fn change_each<L: Ledger>(
        &mut self,
        symbols: &[Expr],
        attributes: &[Attribute],
        are_in: bool,
        work: &mut Work<L>,
    ) -> Result<(), Memory>
        requires sound { Sound self.old }
        ensures played { IfOk result (λ _. Plays (rows.change_each (λ s. put_all are_in s attributes.now) (names_among (trees symbols.now)))
            self.old (Ok (Some null_symbol)) self.new false) }
        ensures kept { self.new.steps ≡ self.old.steps }
        ensures ticks { at_last_mark work.new ≡ at_last_mark work.old }
    {
        for i in 0..symbols.len() {
            let Look::Symbol(name) = symbols[i].view() else {
                continue;
            };
            self.change_attributes(name, attributes, are_in, work)?;
        }
        Ok(())
    }

    /// Sets attributes of symbols, or takes them away.
    fn attributes_changed<L: Ledger>(
        &mut self,
        are_in: bool,
        args: &[Expr],
        work: &mut Work<L>,
    ) -> Result<Option<Expr>, Stop>
        requires sound { Sound self.old }
        ensures played { Played found_tree (sized_row (attributes_changed are_in (trees args.now))) self.old result self.new }
        ensures kept { self.new.steps ≡ self.old.steps }
        ensures ticks { at_last_mark work.new ≡ at_last_mark work.old }
    {
        let Some((symbols, attributes)) = two(args) else {
            return Ok(None);
        };
        let symbols = listed(symbols);
        if !are_symbols(symbols) {
            return Ok(None);
        }
        let named = attributes_named(self.alloc, listed(attributes))?;
        let Some(attributes) = named else {
            return Ok(None);
        };
        self.change_each(symbols, attributes.as_slice(), are_in, work)?;
        Ok(Some(null(self.alloc)?))
    }

    /// Gives each name the attributes as well.
    pub fn set_attributes_row<L: Ledger>(
        &mut self,
        args: &[Expr],
        work: &mut Work<L>,
    ) -> Result<Option<Expr>, Stop>
        requires sound { Sound self.old }
        ensures played { Played found_tree (sized_row (rows.set_attributes_row (trees args.now))) self.old result self.new }
        ensures falls { self.new.steps ≤ self.old.steps }
        ensures ticks { at_last_mark work.new ≡ at_last_mark work.old }
    {
        self.attributes_changed(true, args, work)
    }

    /// Takes the attributes from each name.
    pub fn clear_attributes_row<L: Ledger>(
        &mut self,
        args: &[Expr],
        work: &mut Work<L>,
    ) -> Result<Option<Expr>, Stop>
        requires sound { Sound self.old }
        ensures played { Played found_tree (sized_row (rows.clear_attributes_row (trees args.now))) self.old result self.new }
        ensures falls { self.new.steps ≤ self.old.steps }
        ensures ticks { at_last_mark work.new ≡ at_last_mark work.old }
    {
        self.attributes_changed(false, args, work)
    }

    /// Makes a symbol Protected, or no longer so.
    fn protection<L: Ledger>(
        &mut self,
        protects: bool,
        name: &str,
        work: &mut Work<L>,
    ) -> Result<Option<Expr>, Stop>
        requires sound { Sound self.old }
        ensures played { Played found_tree (sized_row (protection protects name.now)) self.old result self.new }
        ensures kept { self.new.steps ≡ self.old.steps }
        ensures ticks { at_last_mark work.new ≡ at_last_mark work.old }
    {
        let set = self.attributes_of(name, work)?;
        self.set_attributes(name, put(set, Attribute::Protected, protects))?;
        let was_protected = set.has(Attribute::Protected);
        let made = protection_names(self.alloc, protects, was_protected, name);
        self.given(made, work)
    }

    /// Protects each name, and lists those that were not.
    pub fn protect_row<L: Ledger>(
        &mut self,
        args: &[Expr],
        work: &mut Work<L>,
    ) -> Result<Option<Expr>, Stop>
        requires sound { Sound self.old }
        ensures played { Played found_tree (sized_row (rows.protect_row (trees args.now))) self.old result self.new }
        ensures falls { self.new.steps ≤ self.old.steps }
        ensures ticks { at_last_mark work.new ≡ at_last_mark work.old }
    {
        match only_symbol(args) {
            None => Ok(None),
            Some(name) => self.protection(true, name, work),
        }
    }

    /// Takes the protection from each name, and lists those that had it.
    pub fn unprotect_row<L: Ledger>(
        &mut self,
        args: &[Expr],
        work: &mut Work<L>,
    ) -> Result<Option<Expr>, Stop>
        requires sound { Sound self.old }
        ensures played { Played found_tree (sized_row (rows.unprotect_row (trees args.now))) self.old result self.new }
        ensures falls { self.new.steps ≤ self.old.steps }
        ensures ticks { at_last_mark work.new ≡ at_last_mark work.old }
    {
        match only_symbol(args) {
            None => Ok(None),
            Some(name) => self.protection(false, name, work),
        }
    }
}
