//! Rows of the public calls.
ghost use Rattle.std.specs.Prelude.{◌≡◌, Bool, IfOk, None, OnOk, Some};
ghost use Rattle.indexmap.specs.IndexMap.{get};
ghost use Rattle.wl_expr.specs.Same.{same};
ghost use Rattle.wl_expr.specs.Stamped.{plain, symbol};

use indexmap::IndexMap;
use std::alloc::Global;
use std::cmp::Ordering;
use std::process::Abort;
use std::test::Fail;
use wl_exact::Num;
use wl_expr::{Expr, ExprFault, Look, ReadList, Stamp, copy_all, sort};
use wl_ports::{Memory, is_name};

/// The greatest weight of an expression.
const MAX_WEIGHT: u64 = 4_000_000;

/// The greatest depth of an expression.
const MAX_DEPTH: u32 = 1_000;

fn number(alloc: Global, p: i128, q: i128) -> Result<Expr, Fail> {
    Ok(Expr::num(alloc, Num::ratio(p, q)?)?)
}

fn symbol(rt: &impl Abort, alloc: Global, name: &str) -> Result<Expr, Fail>
    ensures { IfOk result (λ e. e ≡ symbol None name.now) }
{
    assert!(rt; is_name(name));
    Ok(Expr::symbol(alloc, name)?)
}

/// A node of a symbol and symbols.
fn call(rt: &impl Abort, alloc: Global, head: &str, names: &[&str]) -> Result<Expr, Fail> {
    let mut args = Vec::new(alloc);
    for name in names {
        args.push(symbol(rt, alloc, name)?)?;
    }
    Ok(Expr::node(alloc, &symbol(rt, alloc, head)?, args.as_slice())?)
}

fn square(rt: &impl Abort, alloc: Global, base: &str) -> Result<Expr, Fail> {
    let args = [symbol(rt, alloc, base)?, number(alloc, 2, 1)?];
    Ok(Expr::node(alloc, &symbol(rt, alloc, "Power")?, &args)?)
}

/// The k-th of some expressions in ascending order.
fn ascending(rt: &impl Abort, alloc: Global, k: u32) -> Result<Expr, Fail> {
    match k {
        0 => number(alloc, -3, 1),
        1 => number(alloc, 1, 2),
        2 => number(alloc, 2, 1),
        3 => Ok(Expr::text(alloc, "A")?),
        4 => Ok(Expr::text(alloc, "a")?),
        5 => call(rt, alloc, "Times", &[]),
        6 => symbol(rt, alloc, "a"),
        7 => square(rt, alloc, "a"),
        8 => symbol(rt, alloc, "A"),
        9 => symbol(rt, alloc, "b"),
        10 => call(rt, alloc, "Times", &["a", "b"]),
        11 => square(rt, alloc, "b"),
        12 => call(rt, alloc, "f", &["a"]),
        _ => call(rt, alloc, "f", &["a", "b"]),
    }
}

#[test]
fn orders_all_pairs(rt: HostRuntime) -> Result<(), Fail> {
    for i in 0..14u32 {
        for j in 0..14u32 {
            let a = ascending(&rt, rt.alloc(), i)?;
            let b = ascending(&rt, rt.alloc(), j)?;
            assert_eq!(rt; a.order(&b), i.cmp(&j), "{i} and {j}");
            assert_eq!(rt; a.same(&b), i == j, "{i} and {j}");
        }
    }
    Ok(())
}

#[test]
fn sorts_what_stands_backwards(rt: HostRuntime) -> Result<(), Fail> {
    let mut all = Vec::new(rt.alloc());
    for k in 0..14u32 {
        all.push(ascending(&rt, rt.alloc(), 13 - k)?)?;
    }
    sort(&mut all)?;
    let mut k = 0u32;
    for e in &all {
        assert!(rt; e.same(&ascending(&rt, rt.alloc(), k)?), "{k}");
        k = k.saturating_add(1);
    }
    Ok(())
}

#[test]
fn orders_a_tie_by_structure(rt: HostRuntime) -> Result<(), Fail> {
    let x = symbol(&rt, rt.alloc(), "x")?;
    let args = [number(rt.alloc(), 2, 1)?, x.copy()?];
    let double = Expr::node(rt.alloc(), &symbol(&rt, rt.alloc(), "Times")?, &args)?;
    assert_eq!(rt; x.order(&double), Ordering::Less);
    assert_eq!(rt; double.order(&x), Ordering::Greater);
    Ok(())
}

#[test]
fn weighs_up_to_the_limit(rt: HostRuntime) -> Result<(), Fail> {
    let mut bytes = String::new(rt.alloc());
    for _ in 0..MAX_WEIGHT - 2 {
        bytes.push('a')?;
    }
    // The text weighs one less than the limit, so one symbol of one letter is too much, and a number isn't.
    let text = Expr::text(rt.alloc(), bytes.as_str())?;
    assert_eq!(rt; text.weight(), MAX_WEIGHT - 1);
    let number = number(rt.alloc(), 1, 3)?;
    assert_eq!(rt;
        Expr::node(rt.alloc(), &number, &[text.copy()?])?.weight(),
        MAX_WEIGHT
    );
    let name = symbol(&rt, rt.alloc(), "f")?;
    assert!(rt; is_large(Expr::node(rt.alloc(), &name, &[text])));
    bytes.push('a')?;
    assert_eq!(rt;
        Expr::text(rt.alloc(), bytes.as_str())?.weight(),
        MAX_WEIGHT
    );
    bytes.push('a')?;
    assert!(rt; is_large(Expr::text(rt.alloc(), bytes.as_str())));
    Ok(())
}

fn is_large(made: Result<Expr, ExprFault>) -> bool {
    match made {
        Err(ExprFault::Large) => true,
        _ => false,
    }
}

#[test]
fn nests_up_to_the_limit(rt: HostRuntime) -> Result<(), Fail> {
    let f = symbol(&rt, rt.alloc(), "f")?;
    let mut nested = f.copy()?;
    for depth in 2..=MAX_DEPTH {
        nested = Expr::node(rt.alloc(), &f, &[nested])?;
        assert_eq!(rt; nested.depth(), depth);
    }
    let twin = nested.copy()?;
    assert!(rt; nested.same(&twin));
    assert_eq!(rt; nested.order(&twin), Ordering::Equal);
    assert!(rt; is_large(Expr::node(rt.alloc(), &f, &[nested])));
    Ok(())
}

#[test]
fn keeps_a_stamp_in_copies_alone(rt: HostRuntime) -> Result<(), Fail> {
    let mut reads = ReadList::new(rt.alloc());
    reads.push(7, 2)?;
    let stamp = Stamp {
        reads,
        steps: 5,
        depth: 1,
        turns: 3,
    };
    let stamped = symbol(&rt, rt.alloc(), "f")?.with_stamp(rt.alloc(), stamp)?;
    let copies = copy_all(rt.alloc(), &[stamped.copy()?])?;
    assert_eq!(rt; steps(copies.as_slice().first()), Some(5));
    let node = Expr::node(rt.alloc(), &stamped, copies.as_slice())?;
    assert_eq!(rt; steps(Some(&node)), None);
    if let Look::Node(head, args) = node.view() {
        assert_eq!(rt; steps(Some(head)), Some(5));
        assert_eq!(rt; steps(args.first()), Some(5));
        assert_eq!(rt; first_read(head), Some((7, 2)));
    }
    Ok(())
}

/// A symbol with a stamp of so many steps.
fn stamped(rt: &impl Abort, alloc: Global, name: &str, steps: u64) -> Result<Expr, Fail> {
    let stamp = Stamp {
        reads: ReadList::new(alloc),
        steps,
        depth: 1,
        turns: 1,
    };
    Ok(symbol(rt, alloc, name)?.with_stamp(alloc, stamp)?)
}

#[test]
fn drops_the_stamp_of_the_top_alone(rt: HostRuntime) -> Result<(), Fail> {
    let head = stamped(&rt, rt.alloc(), "f", 5)?;
    assert_eq!(rt; steps(Some(&head.without_stamp()?)), None);
    let node = Expr::node(rt.alloc(), &head, &[])?;
    if let Look::Node(head, _) = node.without_stamp()?.view() {
        assert_eq!(rt; steps(Some(head)), Some(5));
    }
    assert!(rt; head.without_stamp()? == head);
    Ok(())
}

/// Notes the number of an expression.
fn note(numbers: &mut IndexMap<Expr, u64>, e: Expr, number: u64) -> Result<(), Memory>
    ensures { OnOk result (get (λ a b. same (plain a) (plain b)) numbers.new e ≡ Some number) }
{
    numbers.insert(e, number)?;
    Ok(())
}

#[test]
fn finds_a_key_by_its_plain_tree(rt: HostRuntime) -> Result<(), Fail> {
    let mut numbers = IndexMap::new(rt.alloc());
    for k in 0..14u32 {
        note(&mut numbers, ascending(&rt, rt.alloc(), k)?, k as u64)?;
    }
    for k in 0..14u32 {
        let key = ascending(&rt, rt.alloc(), k)?;
        assert_eq!(rt; numbers.get(&key).copied(), Some(k as u64));
    }
    // The keys `a` and `f[a]` were put in without stamps.
    let a = stamped(&rt, rt.alloc(), "a", 5)?;
    assert_eq!(rt; numbers.get(&a).copied(), Some(6));
    let node = Expr::node(rt.alloc(), &stamped(&rt, rt.alloc(), "f", 7)?, &[a])?;
    assert_eq!(rt; numbers.get(&node).copied(), Some(12));
    note(&mut numbers, stamped(&rt, rt.alloc(), "b", 9)?, 20)?;
    assert_eq!(rt; numbers.len(), 14);
    Ok(())
}

fn steps(e: Option<&Expr>) -> Option<u64> {
    match e?.stamp() {
        None => None,
        Some(stamp) => Some(stamp.steps),
    }
}

fn first_read(e: &Expr) -> Option<(u64, u64)> {
    e.stamp()?.reads.at(0)
}
