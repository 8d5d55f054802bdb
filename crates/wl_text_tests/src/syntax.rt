//! Cells and their expressions, written in full, or their refusals.
use std::alloc::Global;
use std::process::Abort;
use std::test::Fail;
use wl_expr::{Expr, Look};
use wl_syntax::{SyntaxFault, parse};

fn number_text(alloc: Global, n: i128) -> Result<String, Fail> {
    Ok(format!(in alloc; "{n}")?)
}

#[cycle(full)]
fn full(alloc: Global, e: &Expr) -> Result<String, Fail> {
    let mut out = String::new(alloc);
    match e.view() {
        Look::Num(n) => out.push_str(number_text(alloc, n.num())?.as_str())?,
        Look::Text(s) => {
            out.push('"')?;
            out.push_str(s)?;
            out.push('"')?;
        }
        Look::Symbol(s) => out.push_str(s)?,
        Look::Node(head, args) => {
            out.push_str(full(alloc, head)?.as_str())?;
            out.push('[')?;
            out.push_str(full_args(alloc, args)?.as_str())?;
            out.push(']')?;
        }
    }
    Ok(out)
}

#[cycle(full)]
#[tactic(auto, using(wl_expr::proofs::Parts::depth_arg))]
fn full_args(alloc: Global, args: &[Expr]) -> Result<String, Fail> {
    let mut out = String::new(alloc);
    for i in 0..args.len() {
        if i > 0 {
            out.push_str(", ")?;
        }
        out.push_str(full(alloc, &args[i])?.as_str())?;
    }
    Ok(out)
}

fn answer(alloc: Global, cell: &[u8]) -> Result<String, Fail> {
    if cell.len() > 131_072 {
        return Ok(String::from_str(alloc, "TooLong")?);
    }
    match parse(alloc, cell) {
        Ok(e) => Ok(full(alloc, &e)?),
        Err(SyntaxFault::NotUtf8) => Ok(String::from_str(alloc, "NotUtf8")?),
        Err(SyntaxFault::Scan(fault)) => Ok(format!(in alloc; "Scan {}", fault.at)?),
        Err(SyntaxFault::Unclosed) => Ok(String::from_str(alloc, "Unclosed")?),
        Err(SyntaxFault::Unexpected(at)) => Ok(format!(in alloc; "Unexpected {at}")?),
        Err(SyntaxFault::TooDeep) => Ok(String::from_str(alloc, "TooDeep")?),
        Err(SyntaxFault::Memory) => Ok(String::from_str(alloc, "Memory")?),
    }
}

fn all_answered(rt: &impl Abort, alloc: Global, rows: &[(&str, &str)]) -> Result<(), Fail> {
    for (cell, wanted) in rows {
        let got = answer(alloc, cell.as_bytes())?;
        assert_eq!(rt; got.as_str(), *wanted, "{cell}");
    }
    Ok(())
}

#[test]
fn cells_and_answers(rt: HostRuntime) -> Result<(), Fail> {
    let rows = [
        ("a /: f[a] = 7", "TagSet[a, f[a], 7]"),
        ("a < b <= c", "Inequality[a, Less, b, LessEqual, c]"),
        ("a < b < c", "Less[a, b, c]"),
        (
            "a < b < c <= d",
            "Inequality[a, Less, b, Less, c, LessEqual, d]",
        ),
        ("x ^ ^ 2", "Unexpected 5"),
        ("f[a,,b]", "Unexpected 5"),
        ("g /: l", "Unclosed"),
        ("g /: l ;", "Unexpected 8"),
        (
            "Hold[a + b*-c^2]",
            "Hold[Plus[a, Times[b, Times[-1, Power[c, 2]]]]]",
        ),
        ("x -> y & /@ {1}", "Map[Function[Rule[x, y]], List[1]]"),
        ("-a*b", "Times[Times[-1, a], b]"),
        ("-(2)", "Times[-1, 2]"),
        ("a - (2)", "Plus[a, Times[-1, 2]]"),
        ("a - 2 b", "Plus[a, Times[-2, b]]"),
        ("a - b/2 c", "Plus[a, Times[-1, Times[b, Power[2, -1]], c]]"),
        ("a - 2/3 b", "Plus[a, Times[Times[-2, Power[3, -1]], b]]"),
        (
            "a - (2/3) b",
            "Plus[a, Times[-1, Times[2, Power[3, -1]], b]]",
        ),
        ("a b/c", "Times[a, Times[b, Power[c, -1]]]"),
        ("a === b === c =!= d", "UnsameQ[SameQ[SameQ[a, b], c], d]"),
        ("a === b === c", "SameQ[a, b, c]"),
        ("f[g /: h[k /: l", "Unclosed"),
        ("p?-a?q", "PatternTest[p, Times[-1, PatternTest[a, q]]]"),
        ("!!a", "Unexpected 1"),
        ("a; !b", "CompoundExpression[a, Not[b]]"),
        ("a; b;", "CompoundExpression[a, b, Null]"),
        ("++x++", "PreIncrement[Increment[x]]"),
        ("a = b & [1]", "Set[a, Function[b][1]]"),
        ("g/:a=. x", "Unexpected 8"),
        ("g/:a=. x=5", "TagSet[g, Times[Unset[a], x], 5]"),
        ("g/:a=. x=", "Unclosed"),
        ("g/:a=. x=5)", "Unexpected 8"),
        ("g /: l =.", "TagUnset[g, l]"),
        ("(x):1", "Optional[x, 1]"),
        ("x:1", "Pattern[x, 1]"),
        ("(s)::t", "Unexpected 4"),
        ("f::\"a\\n\"", "MessageName[f, \"a\n\"]"),
        ("f[ [1] ]", "Part[f, 1]"),
        ("f[[1, 2]][]", "Part[f, 1, 2][]"),
        ("f @ x // g", "g[f[x]]"),
        ("a + b - c", "Plus[a, b, Times[-1, c]]"),
        ("x_h", "Pattern[x, Blank[h]]"),
        ("x_.", "Optional[Pattern[x, Blank[]]]"),
        ("___", "BlankNullSequence[]"),
        ("x__", "Pattern[x, BlankSequence[]]"),
        (
            "{#, ##, #2, %, %%, %7}",
            "List[Slot[1], SlotSequence[1], Slot[2], Out[], Out[-2], Out[7]]",
        ),
        ("16^^ff + 2^^101", "Plus[255, 5]"),
        ("0016^^0F", "15"),
        ("36^^Zz", "1295"),
        ("16 ^^ ff", "Unexpected 5"),
        ("37^^1", "Scan 1"),
        ("8^^78", "Scan 5"),
        ("1.5", "Scan 1"),
        ("", "Unclosed"),
    ];
    all_answered(&rt, rt.alloc(), &rows)
}

/// A row for each operator that the others don't have, twice where it shows how it leans.
#[test]
fn operators(rt: HostRuntime) -> Result<(), Fail> {
    let rows = [
        ("s::t", "MessageName[s, \"t\"]"),
        ("p?t", "PatternTest[p, t]"),
        ("--x", "PreDecrement[x]"),
        ("x--", "Decrement[x]"),
        ("f @ g @ x", "f[g[x]]"),
        ("f /@ g /@ x", "Map[f, Map[g, x]]"),
        ("f @@ x", "Apply[f, x]"),
        ("f @@@ x", "MapApply[f, x]"),
        ("x! !", "Factorial[Factorial[x]]"),
        ("a <> b <> c", "StringJoin[a, b, c]"),
        ("a^b^c", "Power[a, Power[b, c]]"),
        ("a/b/c", "Times[Times[a, Power[b, -1]], Power[c, -1]]"),
        ("a*b c", "Times[a, b, c]"),
        ("a == b", "Equal[a, b]"),
        ("a != b", "Unequal[a, b]"),
        ("a > b > c", "Greater[a, b, c]"),
        ("a >= b", "GreaterEqual[a, b]"),
        ("a =!= b", "UnsameQ[a, b]"),
        ("a && b && c", "And[a, b, c]"),
        ("a || b", "Or[a, b]"),
        ("p..", "Repeated[p]"),
        ("p...", "RepeatedNull[p]"),
        ("a | b | c", "Alternatives[a, b, c]"),
        ("a:b:c", "Optional[Pattern[a, b], c]"),
        ("a ~~ b", "StringExpression[a, b]"),
        ("a /; b /; c", "Condition[Condition[a, b], c]"),
        ("a -> b -> c", "Rule[a, Rule[b, c]]"),
        ("a :> b", "RuleDelayed[a, b]"),
        ("a /. b /. c", "ReplaceAll[ReplaceAll[a, b], c]"),
        ("a //. b", "ReplaceRepeated[a, b]"),
        ("a += b", "AddTo[a, b]"),
        ("a -= b", "SubtractFrom[a, b]"),
        ("a *= b", "TimesBy[a, b]"),
        ("a /= b", "DivideBy[a, b]"),
        ("b &", "Function[b]"),
        ("a // f // g", "g[f[a]]"),
        ("a = b = c", "Set[a, Set[b, c]]"),
        ("a := b", "SetDelayed[a, b]"),
        ("a ^= b", "UpSet[a, b]"),
        ("a ^:= b", "UpSetDelayed[a, b]"),
        ("g /: l := r", "TagSetDelayed[g, l, r]"),
        ("x =.", "Unset[x]"),
        ("f[]", "f[]"),
        ("{}", "List[]"),
    ];
    all_answered(&rt, rt.alloc(), &rows)
}

fn brackets(alloc: Global, open: usize, close: usize) -> Result<String, Fail> {
    let mut cell = String::new(alloc);
    for _ in 0..open {
        cell.push('(')?;
    }
    if close > 0 {
        cell.push('1')?;
    }
    for _ in 0..close {
        cell.push(')')?;
    }
    Ok(cell)
}

#[test]
fn deep_cells(rt: HostRuntime) -> Result<(), Fail> {
    let rows = [
        (131_072, 0, "Unclosed"),
        (65_535, 65_536, "Unexpected 131072"),
        (399, 399, "1"),
        (400, 400, "TooDeep"),
    ];
    for (open, close, wanted) in rows {
        let cell = brackets(rt.alloc(), open, close)?;
        let got = answer(rt.alloc(), cell.as_bytes())?;
        assert_eq!(rt; got.as_str(), wanted);
    }
    Ok(())
}
