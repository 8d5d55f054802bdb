//! Rows of the public calls.
ghost use Rattle.std.specs.Prelude.{◌≡◌, IfOk, None};
ghost use Rattle.wl_expr.specs.Stamped.{symbol};

use std::alloc::Global;
use std::process::Abort;
use std::test::Fail;
use wl_exact::Num;
use wl_expr::Expr;
use wl_match::{Flags, Leaf, Machine, Pattern, head_count};
use wl_ports::{NoLedger, Work, is_name};
use wl_rules::{Attribute, Attributes};
use wl_shape::{Shaped, arrange, fill, rename, replace};

fn symbol(rt: &impl Abort, alloc: Global, name: &str) -> Result<Expr, Fail>
    ensures { IfOk result (λ e. e ≡ symbol None name.now) }
{
    assert!(rt; is_name(name));
    Ok(Expr::symbol(alloc, name)?)
}

/// `head[args]` of a name.
fn form(rt: &impl Abort, alloc: Global, head: &str, args: &[Expr]) -> Result<Expr, Fail> {
    let head = symbol(rt, alloc, head)?;
    Ok(Expr::node(alloc, &head, args)?)
}

fn number(alloc: Global, n: i128) -> Result<Expr, Fail> {
    Ok(Expr::num(alloc, Num::int(n).ok_or("in range")?)?)
}

#[test]
fn sequences_and_sums(rt: HostRuntime) -> Result<(), Fail> {
    let alloc = rt.alloc();
    let a = symbol(&rt, alloc, "a")?;
    let b = symbol(&rt, alloc, "b")?;
    let inner = form(&rt, alloc, "Plus", &[a.copy()?, number(alloc, 2)?])?;
    let sequence = form(&rt, alloc, "Sequence", &[number(alloc, 1)?])?;
    let plus = symbol(&rt, alloc, "Plus")?;
    let attributes = Attributes::none()
        .with(Attribute::Flat)
        .with(Attribute::Orderless);
    let args = [b.copy()?, inner, sequence];
    let wanted = form(
        &rt,
        alloc,
        "Plus",
        &[number(alloc, 1)?, number(alloc, 2)?, a, b],
    )?;
    match arrange(alloc, &plus, &args, attributes)? {
        Shaped::Node(e) => assert!(rt; e.same(&wanted)),
        _ => return Err("a node".into()),
    }
    Ok(())
}

#[test]
fn lists(rt: HostRuntime) -> Result<(), Fail> {
    let alloc = rt.alloc();
    let f = symbol(&rt, alloc, "f")?;
    let x = symbol(&rt, alloc, "x")?;
    let one = form(&rt, alloc, "List", &[number(alloc, 1)?])?;
    let two = form(&rt, alloc, "List", &[number(alloc, 1)?, number(alloc, 2)?])?;
    let listable = Attributes::none().with(Attribute::Listable);
    let first = form(&rt, alloc, "f", &[number(alloc, 1)?, x.copy()?])?;
    let second = form(&rt, alloc, "f", &[number(alloc, 2)?, x.copy()?])?;
    let threaded = form(&rt, alloc, "List", &[first, second])?;
    match arrange(alloc, &f, &[two.copy()?, x], listable)? {
        Shaped::Threaded(e) => assert!(rt; e.same(&threaded)),
        _ => return Err("a list".into()),
    }
    let uneven = form(&rt, alloc, "f", &[one.copy()?, two.copy()?])?;
    match arrange(alloc, &f, &[one, two], listable)? {
        Shaped::Uneven(e) => assert!(rt; e.same(&uneven)),
        _ => return Err("uneven".into()),
    }
    Ok(())
}

/// `head[p, q]` of a name.
fn two(rt: &impl Abort, alloc: Global, head: &str, p: &Expr, q: &Expr) -> Result<Expr, Fail> {
    form(rt, alloc, head, &[p.copy()?, q.copy()?])
}

/// With this value for x, each body gives the tree beside it.
fn replaces(
    rt: &impl Abort,
    alloc: Global,
    value: &Expr,
    rows: &[(Expr, Expr)],
) -> Result<(), Fail> {
    let names = [symbol(rt, alloc, "x")?];
    let values = [value.copy()?];
    for (body, wanted) in rows {
        assert!(rt; replace(alloc, body, &names, &values)?.same(wanted));
    }
    Ok(())
}

#[test]
fn captured_parameters(rt: HostRuntime) -> Result<(), Fail> {
    let alloc = rt.alloc();
    let x = symbol(&rt, alloc, "x")?;
    let y = symbol(&rt, alloc, "y")?;
    let marked = symbol(&rt, alloc, "y$")?;
    let sum = two(&rt, alloc, "Plus", &x, &y)?;
    let filled = two(&rt, alloc, "Plus", &y, &marked)?;
    let both = two(&rt, alloc, "List", &marked, &y)?;
    let equal = two(&rt, alloc, "List", &marked, &marked)?;
    let shadowed = two(&rt, alloc, "Function", &x, &sum)?;
    let rows = [
        (
            two(&rt, alloc, "Function", &y, &sum)?,
            two(&rt, alloc, "Function", &marked, &filled)?,
        ),
        (
            two(&rt, alloc, "Function", &both, &sum)?,
            two(&rt, alloc, "Function", &equal, &filled)?,
        ),
        (shadowed.copy()?, shadowed),
    ];
    replaces(&rt, alloc, &y, &rows)
}

#[test]
fn initial_values(rt: HostRuntime) -> Result<(), Fail> {
    let alloc = rt.alloc();
    let a = symbol(&rt, alloc, "a")?;
    let x = symbol(&rt, alloc, "x")?;
    let own = form(&rt, alloc, "List", &[two(&rt, alloc, "Set", &x, &x)?])?;
    let set = form(&rt, alloc, "List", &[two(&rt, alloc, "Set", &x, &a)?])?;
    let all = form(&rt, alloc, "List", &[two(&rt, alloc, "Set", &a, &a)?])?;
    let rows = [
        (
            two(&rt, alloc, "Module", &own, &x)?,
            two(&rt, alloc, "Module", &set, &x)?,
        ),
        (
            two(&rt, alloc, "With", &own, &x)?,
            two(&rt, alloc, "With", &set, &x)?,
        ),
        (
            two(&rt, alloc, "Block", &own, &x)?,
            two(&rt, alloc, "Block", &all, &a)?,
        ),
    ];
    replaces(&rt, alloc, &a, &rows)
}

#[test]
fn equal_names_and_renamed(rt: HostRuntime) -> Result<(), Fail> {
    let alloc = rt.alloc();
    let x = symbol(&rt, alloc, "x")?;
    let y = symbol(&rt, alloc, "y")?;
    let names = [x.copy()?, x.copy()?];
    let body = two(&rt, alloc, "Function", &y, &x)?;
    let wanted = two(&rt, alloc, "Function", &y, &number(alloc, 1)?)?;
    let values = [number(alloc, 1)?, y.copy()?];
    assert!(rt; replace(alloc, &body, &names, &values)?.same(&wanted));
    let local = symbol(&rt, alloc, "x$18446744073709551615")?;
    let wanted = two(&rt, alloc, "Function", &y, &local)?;
    assert!(rt; rename(alloc, &body, &names, u64::MAX)?.same(&wanted));
    Ok(())
}

/// `Function[y, Function[y, .. x + y]]` of this many functions, with y for x.
#[test]
fn a_nest_of_functions(rt: HostRuntime) -> Result<(), Fail> {
    let alloc = rt.alloc();
    let x = symbol(&rt, alloc, "x")?;
    let y = symbol(&rt, alloc, "y")?;
    let marked = symbol(&rt, alloc, "y$")?;
    let mut body = two(&rt, alloc, "Plus", &x, &y)?;
    let mut wanted = two(&rt, alloc, "Plus", &y, &marked)?;
    for _ in 0..300 {
        body = two(&rt, alloc, "Function", &y, &body)?;
        wanted = two(&rt, alloc, "Function", &marked, &wanted)?;
    }
    replaces(&rt, alloc, &y, &[(body, wanted)])
}

/// `f[x_, y__]` on `f[a, b, 3]` fills `g[x, y, Function[b, {b, y}]]`.
#[test]
fn bound_runs(rt: HostRuntime) -> Result<(), Fail> {
    let alloc = rt.alloc();
    let b = symbol(&rt, alloc, "b")?;
    let x = symbol(&rt, alloc, "x")?;
    let y = symbol(&rt, alloc, "y")?;
    let one = two(&rt, alloc, "Pattern", &x, &form(&rt, alloc, "Blank", &[])?)?;
    let many = form(&rt, alloc, "BlankSequence", &[])?;
    let left = two(
        &rt,
        alloc,
        "f",
        &one,
        &two(&rt, alloc, "Pattern", &y, &many)?,
    )?;
    assert!(rt; head_count(&left) == 5);
    let pattern = Pattern::prepare(alloc, &left, &[Flags::NONE; 5])?;
    let a = symbol(&rt, alloc, "a")?;
    let subject = form(&rt, alloc, "f", &[a.copy()?, b.copy()?, number(alloc, 3)?])?;
    let scope = two(
        &rt,
        alloc,
        "Function",
        &b,
        &two(&rt, alloc, "List", &b, &y)?,
    )?;
    let body = form(&rt, alloc, "g", &[x, y, scope])?;
    let run = two(&rt, alloc, "Sequence", &b, &number(alloc, 3)?)?;
    let marked = symbol(&rt, alloc, "b$")?;
    let list = two(&rt, alloc, "List", &marked, &run)?;
    let scope = two(&rt, alloc, "Function", &marked, &list)?;
    let wanted = form(&rt, alloc, "g", &[a, run, scope])?;
    let mut machine = Machine::start(alloc);
    let mut work = Work::new(NoLedger);
    assert!(rt; machine.next(&pattern, &subject, &mut work)? == Leaf::Candidate);
    let view = machine.view(&pattern, &subject);
    assert!(rt; fill(alloc, &body, &view)?.same(&wanted));
    Ok(())
}
