//! Rows of the public calls.
ghost use Rattle.std.specs.Prelude.{◌≡◌, IfOk, None};
ghost use Rattle.wl_expr.specs.Stamped.{symbol};

use std::alloc::Global;
use std::process::Abort;
use std::test::Fail;
use wl_expr::Expr;
use wl_match::{Flags, Leaf, Machine, Pattern, head_at, head_count};
use wl_ports::{NoLedger, Work, is_name};

fn symbol(rt: &impl Abort, alloc: Global, name: &str) -> Result<Expr, Fail>
    ensures { IfOk result (λ e. e ≡ symbol None name.now) }
{
    assert!(rt; is_name(name));
    Ok(Expr::symbol(alloc, name)?)
}

fn node(rt: &impl Abort, alloc: Global, head: &str, args: &[Expr]) -> Result<Expr, Fail> {
    Ok(Expr::node(alloc, &symbol(rt, alloc, head)?, args)?)
}

/// `Pattern[name, blank[]]`.
fn named(rt: &impl Abort, alloc: Global, name: &str, blank: &str) -> Result<Expr, Fail> {
    let inner = node(rt, alloc, blank, &[])?;
    node(rt, alloc, "Pattern", &[symbol(rt, alloc, name)?, inner])
}

/// A search gives these leaves and then the end, twice. Heads of this name have these flags.
fn gives(
    rt: &impl Abort,
    alloc: Global,
    p: &Expr,
    t: &Expr,
    name: &str,
    own: Flags,
    leaves: &[Leaf],
) -> Result<(), Fail> {
    let mut flags = Vec::new(alloc);
    for k in 0..head_count(p) {
        flags.push(if head_at(p, k) == Some(name) {
            own
        } else {
            Flags::NONE
        })?;
    }
    assert!(rt; head_count(p) == flags.len() as u64);
    let pattern = Pattern::prepare(alloc, p, flags.as_slice())?;
    let mut work = Work::new(NoLedger);
    let mut machine = Machine::start(alloc);
    for leaf in leaves {
        assert_eq!(rt; machine.next(&pattern, t, &mut work)?, *leaf);
    }
    assert_eq!(rt; machine.next(&pattern, t, &mut work)?, Leaf::End);
    assert_eq!(rt; machine.next(&pattern, t, &mut work)?, Leaf::End);
    Ok(())
}

/// `Pattern[x, Blank[]]` under `g[a]` as head, and under `f`: `g[a][f[Pattern[x, Blank[]]], "t"]`.
fn row(rt: &impl Abort, alloc: Global) -> Result<Expr, Fail> {
    let blank = Expr::node(alloc, &symbol(rt, alloc, "Blank")?, &[])?;
    let named = Expr::node(
        alloc,
        &symbol(rt, alloc, "Pattern")?,
        &[symbol(rt, alloc, "x")?, blank],
    )?;
    let inner = Expr::node(alloc, &symbol(rt, alloc, "f")?, &[named])?;
    let head = Expr::node(alloc, &symbol(rt, alloc, "g")?, &[symbol(rt, alloc, "a")?])?;
    Ok(Expr::node(alloc, &head, &[inner, Expr::text(alloc, "t")?])?)
}

#[test]
fn heads_in_preorder(rt: HostRuntime) -> Result<(), Fail> {
    let p = row(&rt, rt.alloc())?;
    assert_eq!(rt; head_count(&p), 4);
    let heads = ["g", "f", "Pattern", "Blank"];
    for k in 0..4u64 {
        assert_eq!(rt; head_at(&p, k), Some(heads[k as usize]));
    }
    assert_eq!(rt; head_at(&p, 4), None);
    assert_eq!(rt; head_count(&symbol(&rt, rt.alloc(), "f")?), 0);
    Ok(())
}

#[test]
fn prepares(rt: HostRuntime) -> Result<(), Fail> {
    let p = row(&rt, rt.alloc())?;
    assert!(rt; head_count(&p) == 4);
    let flags = [Flags::NONE, Flags::NONE, Flags::NONE, Flags::NONE];
    let prepared = Pattern::prepare(rt.alloc(), &p, &flags)?;
    drop(prepared);
    Ok(())
}

const F: Leaf = Leaf::Fail;

const C: Leaf = Leaf::Candidate;

const FLAT: Flags = Flags {
    flat: true,
    orderless: false,
    one_identity: false,
};

const ORDERLESS: Flags = Flags {
    flat: false,
    orderless: true,
    one_identity: false,
};

const SUM: Flags = Flags {
    flat: true,
    orderless: true,
    one_identity: true,
};

#[test]
fn fails_at_each_split(rt: HostRuntime) -> Result<(), Fail> {
    let alloc = rt.alloc();
    let many = "BlankNullSequence";
    let p = node(
        &rt,
        alloc,
        "q",
        &[
            named(&rt, alloc, "x", many)?,
            named(&rt, alloc, "y", many)?,
            named(&rt, alloc, "z", many)?,
            symbol(&rt, alloc, "b")?,
        ],
    )?;
    let mut args = Vec::new(alloc);
    for _ in 0..10 {
        args.push(symbol(&rt, alloc, "a")?)?;
    }
    let t = node(&rt, alloc, "q", args.as_slice())?;
    gives(&rt, alloc, &p, &t, "", Flags::NONE, &[F; 55])
}

/// The pattern of two blanks and the subject under this head.
fn two_blanks(
    rt: &impl Abort,
    alloc: Global,
    head: &str,
    first: &str,
    own: Flags,
    subject: &[&str],
    leaves: &[Leaf],
) -> Result<(), Fail> {
    let p = node(
        rt,
        alloc,
        head,
        &[
            named(rt, alloc, "x", first)?,
            named(rt, alloc, "y", "Blank")?,
        ],
    )?;
    let mut args = Vec::new(alloc);
    for name in subject {
        args.push(symbol(rt, alloc, *name)?)?;
    }
    let t = node(rt, alloc, head, args.as_slice())?;
    gives(rt, alloc, &p, &t, head, own, leaves)
}

#[test]
fn splits_and_picks(rt: HostRuntime) -> Result<(), Fail> {
    let alloc = rt.alloc();
    let some = "BlankSequence";
    two_blanks(&rt, alloc, "q", some, Flags::NONE, &["a", "b", "c"], &[C])?;
    two_blanks(
        &rt,
        alloc,
        "q",
        "Blank",
        Flags::NONE,
        &["a", "b", "c"],
        &[F],
    )?;
    two_blanks(
        &rt,
        alloc,
        "p",
        some,
        ORDERLESS,
        &["a", "b", "c"],
        &[C, C, C],
    )?;
    two_blanks(&rt, alloc, "h", "Blank", FLAT, &["a", "b", "c"], &[C, C])?;
    Ok(())
}

/// `x_. + y_` on `a`, and on `a + b`.
#[test]
fn an_absent_term(rt: HostRuntime) -> Result<(), Fail> {
    let alloc = rt.alloc();
    let first = node(&rt, alloc, "Optional", &[named(&rt, alloc, "x", "Blank")?])?;
    let p = node(
        &rt,
        alloc,
        "Plus",
        &[first, named(&rt, alloc, "y", "Blank")?],
    )?;
    let a = symbol(&rt, alloc, "a")?;
    gives(&rt, alloc, &p, &a, "Plus", SUM, &[C])?;
    let t = node(&rt, alloc, "Plus", &[a, symbol(&rt, alloc, "b")?])?;
    gives(&rt, alloc, &p, &t, "Plus", SUM, &[C, C, C])
}

/// `q[Except[a]]` on `q[b]`: what is excepted is a test.
#[test]
fn excepts(rt: HostRuntime) -> Result<(), Fail> {
    let alloc = rt.alloc();
    let other = node(&rt, alloc, "Except", &[symbol(&rt, alloc, "a")?])?;
    let p = node(&rt, alloc, "q", &[other])?;
    let t = node(&rt, alloc, "q", &[symbol(&rt, alloc, "b")?])?;
    gives(&rt, alloc, &p, &t, "", Flags::NONE, &[C])
}

/// `q[x_, x_]` on `q[a, b]` and on `q[a, a]`.
#[test]
fn a_repeated_name(rt: HostRuntime) -> Result<(), Fail> {
    let alloc = rt.alloc();
    let x = named(&rt, alloc, "x", "Blank")?;
    let p = node(&rt, alloc, "q", &[x.copy()?, x])?;
    let a = symbol(&rt, alloc, "a")?;
    let t = node(&rt, alloc, "q", &[a.copy()?, symbol(&rt, alloc, "b")?])?;
    gives(&rt, alloc, &p, &t, "", Flags::NONE, &[F])?;
    let same = node(&rt, alloc, "q", &[a.copy()?, a])?;
    gives(&rt, alloc, &p, &same, "", Flags::NONE, &[C])
}
