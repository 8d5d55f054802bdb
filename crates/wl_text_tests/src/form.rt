//! Texts of a few expressions.
use std::alloc::Global;
use std::process::Abort;
use std::test::Fail;
use wl_exact::Num;
use wl_expr::Expr;
use wl_form::{boxes, full_form, input_form};
use wl_ports::is_name;

fn number(alloc: Global, p: i128, q: i128) -> Result<Expr, Fail> {
    Ok(Expr::num(alloc, Num::ratio(p, q)?)?)
}

fn symbol(rt: &impl Abort, alloc: Global, name: &str) -> Result<Expr, Fail> {
    assert!(rt; is_name(name));
    Ok(Expr::symbol(alloc, name)?)
}

fn node(rt: &impl Abort, alloc: Global, head: &str, args: &[Expr]) -> Result<Expr, Fail> {
    Ok(Expr::node(alloc, &symbol(rt, alloc, head)?, args)?)
}

#[test]
fn prints(rt: HostRuntime) -> Result<(), Fail> {
    let alloc = rt.alloc();
    let power = node(
        &rt,
        alloc,
        "Power",
        &[number(alloc, -1, 1)?, symbol(&rt, alloc, "x")?],
    )?;
    assert_eq!(&rt; input_form(alloc, &power)?.as_str(), "(-1)^x");
    let half = number(alloc, -1, 2)?;
    let product = node(
        &rt,
        alloc,
        "Times",
        &[half, symbol(&rt, alloc, "a")?, power],
    )?;
    assert_eq!(&rt; input_form(alloc, &product)?.as_str(), "-1/2*a*(-1)^x");
    let sum = node(
        &rt,
        alloc,
        "Plus",
        &[symbol(&rt, alloc, "a")?, number(alloc, -3, 4)?],
    )?;
    let call = node(&rt, alloc, "f", &[sum, product])?;
    let rule = node(&rt, alloc, "Rule", &[call, Expr::text(alloc, "q\"\n")?])?;
    assert_eq!(&rt;
        input_form(alloc, &rule)?.as_str(),
        "f[a - 3/4, -1/2*a*(-1)^x] -> \"q\\\"\\n\""
    );
    assert_eq!(&rt;
        full_form(alloc, &rule)?.as_str(),
        "Rule[f[Plus[a, Rational[-3, 4]], Times[Rational[-1, 2], a, Power[-1, x]]], \"q\\\"\\n\"]"
    );
    let half = number(alloc, -1, 2)?;
    let Ok(made) = boxes(alloc, &half) else {
        return Err(Fail::new("large"));
    };
    assert_eq!(&rt; full_form(alloc, &made)?.as_str(), "\"-1/2\"");
    Ok(())
}

#[test]
fn prints_the_deepest(rt: HostRuntime) -> Result<(), Fail> {
    let alloc = rt.alloc();
    let mut e = symbol(&rt, alloc, "x")?;
    for _ in 0..999 {
        e = node(&rt, alloc, "Not", &[e])?;
    }
    assert_eq!(&rt; input_form(alloc, &e)?.len(), 1 + 999 + 2 * 998);
    assert_eq!(&rt; boxes(alloc, &e).is_err(), true);
    Ok(())
}
