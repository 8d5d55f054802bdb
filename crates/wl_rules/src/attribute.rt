//! Attributes, and sets of them.
ghost use Rattle.std.specs.Prelude.{◌≡◌};
ghost use Rattle.wl_rules.specs.Attributes.{no_attributes, has, put, with, without};

use std::marker::Model;

/// An attribute of a symbol.
#[derive(Clone, Copy)]
pub enum Attribute {
    Flat,
    HoldAll,
    HoldAllComplete,
    HoldFirst,
    HoldRest,
    Listable,
    NumericFunction,
    OneIdentity,
    Orderless,
    Protected,
    SequenceHold,
}

/// The attributes of a symbol, as a set.
#[derive(Clone, Copy)]
pub struct Attributes {
    flat: bool,
    hold_all: bool,
    hold_all_complete: bool,
    hold_first: bool,
    hold_rest: bool,
    listable: bool,
    numeric_function: bool,
    one_identity: bool,
    orderless: bool,
    protected: bool,
    sequence_hold: bool,
}

impl Model for Attributes {
    ghost use Rattle.wl_rules.specs.Attributes.{AttributeSet};

    ghost Value = { AttributeSet };

    ghost use Rattle.wl_rules.specs.AttributesView.{set_of, fields_of};

    ghost view = { set_of };

    ghost inverse = { fields_of };
}

impl Attributes {
    /// No attribute.
    pub fn none() -> Attributes
        ensures { result ≡ no_attributes }
    {
        Attributes {
            flat: false,
            hold_all: false,
            hold_all_complete: false,
            hold_first: false,
            hold_rest: false,
            listable: false,
            numeric_function: false,
            one_identity: false,
            orderless: false,
            protected: false,
            sequence_hold: false,
        }
    }

    /// Whether the attribute is in the set.
    pub fn has(&self, a: Attribute) -> bool
        ensures { result ≡ has self.now a }
    {
        match a {
            Attribute::Flat => self.flat,
            Attribute::HoldAll => self.hold_all,
            Attribute::HoldAllComplete => self.hold_all_complete,
            Attribute::HoldFirst => self.hold_first,
            Attribute::HoldRest => self.hold_rest,
            Attribute::Listable => self.listable,
            Attribute::NumericFunction => self.numeric_function,
            Attribute::OneIdentity => self.one_identity,
            Attribute::Orderless => self.orderless,
            Attribute::Protected => self.protected,
            Attribute::SequenceHold => self.sequence_hold,
        }
    }

    /// The set with this attribute in it.
    pub fn with(self, a: Attribute) -> Attributes
        ensures { result ≡ with self a }
    {
        self.put(a, true)
    }

    /// The set with this attribute not in it.
    pub fn without(self, a: Attribute) -> Attributes
        ensures { result ≡ without self a }
    {
        self.put(a, false)
    }

    fn put(self, a: Attribute, is_in: bool) -> Attributes
        ensures { result ≡ put is_in self a }
    {
        let mut set = self;
        match a {
            Attribute::Flat => set.flat = is_in,
            Attribute::HoldAll => set.hold_all = is_in,
            Attribute::HoldAllComplete => set.hold_all_complete = is_in,
            Attribute::HoldFirst => set.hold_first = is_in,
            Attribute::HoldRest => set.hold_rest = is_in,
            Attribute::Listable => set.listable = is_in,
            Attribute::NumericFunction => set.numeric_function = is_in,
            Attribute::OneIdentity => set.one_identity = is_in,
            Attribute::Orderless => set.orderless = is_in,
            Attribute::Protected => set.protected = is_in,
            Attribute::SequenceHold => set.sequence_hold = is_in,
        }
        set
    }
}
