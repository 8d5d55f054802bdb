//! How specific a left side is.
ghost use Rattle.std.specs.Prelude.{◌≡◌, ◌+◌, ◌≤◌, ◌<◌, ◌^◌, Bool, true, OnOk, IfOk, length, map, take};
ghost use Rattle.wl_expr.specs.Special.{special_node, ordinary};
ghost use Rattle.wl_expr.specs.Stamped.{plain, plains, from_list};
ghost use Rattle.wl_expr.specs.Tree.{weight, weights};
ghost use Rattle.wl_rules.specs.Forms.{special_of};
ghost use Rattle.wl_rules.specs.Key.{Part, is_special, digit, joined, joined_all, tested, first_key, second_key, with_head, any_has, key_by, part, parts, node_part, key_of, key_order};

use crate::form::Form;
use std::alloc::Global;
use std::cmp::Ordering;
use std::marker::Model;
use wl_expr::{Expr, Look};
use wl_ports::Memory;

/// How specific a left side is: digits in preorder, and how many tests stand beside them.
#[derive(Drop)]
pub(crate) struct Key {
    digits: Vec<u8>,
    tests: u64,
}

impl Model for Key {
    ghost use Rattle.wl_rules.specs.Key.{Key};

    ghost Value = { Key };

    ghost view = { λ k. record { digits = k.digits.items; tests = k.tests } };
}

impl Key {
    pub(crate) fn of(alloc: Global, left: &Expr) -> Result<Key, Memory>
        ensures { IfOk result (λ k. k ≡ key_of (plain left.now)) }
    {
        let _weight = left.weight();
        let mut key = Key {
            digits: Vec::new(alloc),
            tests: 0,
        };
        put_part(&mut key, left)?;
        Ok(key)
    }

    /// The order of rules: by digits, and of equal digits the one with more tests is smaller.
    pub(crate) fn order(&self, b: &Key) -> Ordering
        ensures { result ≡ key_order self.now b.now }
    {
        self.digits
            .as_slice()
            .cmp(b.digits.as_slice())
            .then(b.tests.cmp(&self.tests))
    }

    pub(crate) fn copy(&self) -> Result<Key, Memory>
        ensures { IfOk result (λ k. k ≡ self.now) }
    {
        Ok(Key {
            digits: self.digits.clone()?,
            tests: self.tests,
        })
    }

    fn put(&mut self, d: u8) -> Result<(), Memory>
        ensures { OnOk result (self.new ≡ joined self.old (digit d)) }
    {
        self.digits.push(d)?;
        Ok(())
    }

    fn count_test(&mut self)
        requires { self.old.tests + 1 < 2 ^ 64 }
        ensures { self.new ≡ tested self.old }
    {
        self.tests += 1;
    }

    /// Takes away the digits from this place on.
    fn cut(&mut self, len: usize, tests: u64)
        requires { len ≤ length self.old.digits }
        ensures { self.new ≡ record { digits = take len self.old.digits; tests = tests } }
    {
        self.digits.truncate(len);
        self.tests = tests;
    }
}

/// Puts the key of a part behind, and answers whether the part is or has a special form.
#[cycle(key)]
fn put_part(key: &mut Key, e: &Expr) -> Result<bool, Memory>
    requires { key.old.tests + weight (plain e.now) < 2 ^ 64 }
    ensures key { OnOk result (key.new ≡ joined key.old (part (plain e.now)).key) }
    ensures has { IfOk result (λ b. b ≡ (part (plain e.now)).has_patterns) }
{
    match e.view() {
        Look::Node(head, args) => put_node(key, head, args),
        _ => {
            key.put(0)?;
            Ok(false)
        }
    }
}

#[cycle(key)]
fn put_node(key: &mut Key, head: &Expr, args: &[Expr]) -> Result<bool, Memory>
    requires { key.old.tests + weight (plain head.now) + weights (plains (from_list args.now)) < 2 ^ 64 }
    ensures key { OnOk result (key.new ≡ joined key.old
        (node_part (special_node (plain head.now) (map plain args.now)) (part (plain head.now)) (parts (plains (from_list args.now)))).key) }
    ensures has { IfOk result (λ b. b ≡
        (node_part (special_node (plain head.now) (map plain args.now)) (part (plain head.now)) (parts (plains (from_list args.now)))).has_patterns) }
{
    let form = Form::of(head, args);
    if let Form::Ordinary = form {
        return put_ordinary(key, head, args);
    }
    let _weight = head.weight();
    put_special(key, form, args)?;
    Ok(true)
}

/// A node that is no special form: 0 without patterns in it, else 1 and what its head and its elements put.
#[cycle(key)]
fn put_ordinary(key: &mut Key, head: &Expr, args: &[Expr]) -> Result<bool, Memory>
    requires { key.old.tests + weight (plain head.now) + weights (plains (from_list args.now)) < 2 ^ 64 }
    ensures key { OnOk result (key.new ≡ joined key.old
        (node_part ordinary (part (plain head.now)) (parts (plains (from_list args.now)))).key) }
    ensures has { IfOk result (λ b. b ≡
        (node_part ordinary (part (plain head.now)) (parts (plains (from_list args.now)))).has_patterns) }
{
    let len = key.digits.len();
    let tests = key.tests;
    key.put(1)?;
    let head_has = put_part(key, head)?;
    let some_has = put_all(key, args)?;
    if head_has || some_has {
        return Ok(true);
    }
    key.cut(len, tests);
    key.put(0)?;
    Ok(false)
}

/// A special form puts its own digit, or what the pattern in it puts.
#[cycle(key)]
fn put_special(key: &mut Key, form: Form, args: &[Expr]) -> Result<(), Memory>
    requires special { is_special (special_of form) ≡ true }
    requires room { key.old.tests + weights (plains (from_list args.now)) + 1 < 2 ^ 64 }
    ensures { OnOk result ((b : Bool) (h : Part) →
        key.new ≡ joined key.old (key_by (special_of form) b h (parts (plains (from_list args.now))))) }
{
    match form {
        Form::Ordinary => unreachable!(),
        Form::Blank => put_blank(key, args, 4, 2),
        Form::BlankSequence => put_blank(key, args, 6, 5),
        Form::BlankNullSequence => put_blank(key, args, 8, 7),
        Form::Named => put_second(key, args),
        Form::PatternTest | Form::Condition => put_tested(key, args),
        Form::HoldPattern => put_first(key, args),
        Form::Optional => put_optional(key, args),
        Form::Alternatives => put_alternatives(key, args),
        Form::Repeated => key.put(5),
        Form::RepeatedNull => key.put(7),
        Form::Verbatim => key.put(0),
        Form::Except => key.put(4),
    }
}

#[tactic(auto, using(crate::proofs::Keys::with_head_some))]
fn put_blank(key: &mut Key, args: &[Expr], bare: u8, headed: u8) -> Result<(), Memory>
    ensures { OnOk result (key.new ≡ joined key.old (with_head (parts (plains (from_list args.now))) bare headed)) }
{
    match args {
        [] => key.put(bare),
        _ => key.put(headed),
    }
}

#[cycle(key)]
#[tactic(auto, using(wl_expr::proofs::Parts::depth_arg))]
fn put_first(key: &mut Key, args: &[Expr]) -> Result<(), Memory>
    requires { key.old.tests + weights (plains (from_list args.now)) < 2 ^ 64 }
    ensures { OnOk result (key.new ≡ joined key.old (first_key (parts (plains (from_list args.now))))) }
{
    if let [first, ..] = args {
        put_part(key, first)?;
    }
    Ok(())
}

#[cycle(key)]
#[tactic(auto, using(wl_expr::proofs::Parts::depth_arg))]
fn put_second(key: &mut Key, args: &[Expr]) -> Result<(), Memory>
    requires { key.old.tests + weights (plains (from_list args.now)) < 2 ^ 64 }
    ensures { OnOk result (key.new ≡ joined key.old (second_key (parts (plains (from_list args.now))))) }
{
    if let [_, second, ..] = args {
        put_part(key, second)?;
    }
    Ok(())
}

#[cycle(key)]
fn put_tested(key: &mut Key, args: &[Expr]) -> Result<(), Memory>
    requires { key.old.tests + weights (plains (from_list args.now)) + 1 < 2 ^ 64 }
    ensures { OnOk result (key.new ≡ joined key.old (tested (first_key (parts (plains (from_list args.now)))))) }
{
    put_first(key, args)?;
    key.count_test();
    Ok(())
}

#[cycle(key)]
fn put_optional(key: &mut Key, args: &[Expr]) -> Result<(), Memory>
    requires { key.old.tests + weights (plains (from_list args.now)) < 2 ^ 64 }
    ensures { OnOk result (key.new ≡ joined key.old (joined (digit 9) (first_key (parts (plains (from_list args.now)))))) }
{
    key.put(9)?;
    put_first(key, args)
}

#[cycle(key)]
fn put_alternatives(key: &mut Key, args: &[Expr]) -> Result<(), Memory>
    requires { key.old.tests + weights (plains (from_list args.now)) < 2 ^ 64 }
    ensures { OnOk result (key.new ≡ joined key.old (joined (digit 3) (joined_all (parts (plains (from_list args.now)))))) }
{
    key.put(3)?;
    put_all(key, args)?;
    Ok(())
}

/// Puts the keys of all parts behind, and answers whether one of them is or has a special form.
#[cycle(key)]
#[tactic(auto, using(wl_expr::proofs::Parts::depth_arg))]
fn put_all(key: &mut Key, args: &[Expr]) -> Result<bool, Memory>
    requires { key.old.tests + weights (plains (from_list args.now)) < 2 ^ 64 }
    ensures key { OnOk result (key.new ≡ joined key.old (joined_all (parts (plains (from_list args.now))))) }
    ensures has { IfOk result (λ b. b ≡ any_has (parts (plains (from_list args.now)))) }
{
    let mut has = false;
    for arg in args {
        if put_part(key, arg)? {
            has = true;
        }
    }
    Ok(has)
}
