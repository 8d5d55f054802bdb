//! Expressions in full, their texts, and what the texts are read as.
use std::alloc::Global;
use std::process::Abort;
use std::test::Fail;
use wl_expr::Expr;
use wl_form::{boxes, full_form, input_form};
use wl_syntax::parse;

fn read(alloc: Global, cell: &str) -> Result<Expr, Fail> {
    if cell.len() > 131_072 {
        return Err(Fail::new("long"));
    }
    match parse(alloc, cell.as_bytes()) {
        Ok(e) => Ok(e),
        Err(_) => Err(Fail::new("refused")),
    }
}

/// Each expression has the text, and the text is read as the expression.
fn all_printed(rt: &impl Abort, alloc: Global, rows: &[(&str, &str)]) -> Result<(), Fail> {
    for (full, wanted) in rows {
        let e = read(alloc, full)?;
        let text = input_form(alloc, &e)?;
        assert_eq!(rt; text.as_str(), *wanted, "{full}");
        let again = read(alloc, text.as_str())?;
        assert_eq!(rt; full_form(alloc, &again)?.as_str(), *full);
    }
    Ok(())
}

#[test]
fn words(rt: HostRuntime) -> Result<(), Fail> {
    let rows = [
        ("Optional[Pattern[x, Blank[]]]", "x_."),
        ("Optional[Blank[]]", "_."),
        ("Pattern[x, Blank[h]]", "x_h"),
        ("Pattern[x, BlankSequence[h]]", "x__h"),
        ("BlankNullSequence[]", "___"),
        ("Pattern[x, f[y]]", "x:f[y]"),
        ("Pattern[f, Pattern[x, y]]", "f:(x:y)"),
        ("Pattern[f[x], y]", "Pattern[f[x], y]"),
        ("Optional[f[x], d]", "f[x]:d"),
        ("Optional[x, d]", "Optional[x, d]"),
        ("Optional[f[x], Pattern[y, z]]", "f[x]:(y:z)"),
        ("Optional[Pattern[x, Blank[]], d]", "x_:d"),
        ("MessageName[s, \"t\"]", "s::t"),
        ("MessageName[s, \"1\"]", "MessageName[s, \"1\"]"),
        ("MessageName[f[x], \"t\"]", "MessageName[f[x], \"t\"]"),
        ("Slot[1]", "#1"),
        ("Slot[0]", "#0"),
        ("SlotSequence[2]", "##2"),
        ("Slot[-1]", "Slot[-1]"),
        ("Slot[x]", "Slot[x]"),
        ("Slot[1, 2]", "Slot[1, 2]"),
    ];
    Ok(all_printed(&rt, rt.alloc(), &rows)?)
}

#[test]
fn sums(rt: HostRuntime) -> Result<(), Fail> {
    let rows = [
        ("Plus[a, Times[-1, b, c]]", "a - b*c"),
        ("Plus[Times[-1, a], b]", "-a + b"),
        ("Plus[]", "Plus[]"),
        ("Plus[a]", "Plus[a]"),
        ("Plus[a, b, c]", "a + b + c"),
        ("Plus[a, -3]", "a - 3"),
        ("Plus[a, Times[-2, x]]", "a - 2*x"),
        ("Plus[a, Times[-1, x]]", "a - x"),
        ("Plus[a, Times[-1, Plus[b, c]]]", "a - (b + c)"),
        ("Plus[a, Times[-1, Times[b, c]]]", "a - (b*c)"),
        ("Plus[a, Times[-1, Power[b, c]]]", "a - b^c"),
        ("Plus[a, Times[-1, 2, b]]", "a + -1*2*b"),
        ("Plus[Times[-1, 2, b], a]", "-1*2*b + a"),
        ("Plus[a, Plus[b, c]]", "a + (b + c)"),
        ("Plus[Plus[a, b], c]", "(a + b) + c"),
        ("Plus[a, Times[-1]]", "a + Times[-1]"),
        ("Plus[a, Equal[b, c]]", "a + (b == c)"),
        ("Plus[a, \"t\", List[]]", "a + \"t\" + {}"),
        ("Plus[-1, -2]", "-1 - 2"),
        ("Plus[-1, Times[-1, b]]", "-1 - b"),
    ];
    Ok(all_printed(&rt, rt.alloc(), &rows)?)
}

#[test]
fn products(rt: HostRuntime) -> Result<(), Fail> {
    let rows = [
        ("Times[-1, b, c]", "-1*b*c"),
        ("Times[5, Power[x, 2]]", "5*x^2"),
        ("Times[-1, x]", "-x"),
        ("Times[-1, -1]", "-1*-1"),
        ("Times[-1, Plus[a, b]]", "-(a + b)"),
        ("Times[-1, Power[x, 2]]", "-x^2"),
        ("Times[-1, Times[-1, x]]", "-(-x)"),
        ("Times[a, Plus[b, c]]", "a*(b + c)"),
        ("Times[a, Times[b, c]]", "a*(b*c)"),
        ("Times[Power[a, b], c]", "a^b*c"),
        ("Times[2, -3]", "2*-3"),
        ("Times[a]", "Times[a]"),
        ("Times[a, Times[-1, x]]", "a*-x"),
    ];
    Ok(all_printed(&rt, rt.alloc(), &rows)?)
}

#[test]
fn powers_and_signs(rt: HostRuntime) -> Result<(), Fail> {
    let rows = [
        ("Power[-1, x]", "(-1)^x"),
        ("Map[f, Map[g, x]]", "f /@ (g /@ x)"),
        ("Map[Map[f, g], x]", "(f /@ g) /@ x"),
        ("Power[a, Power[b, c]]", "a^b^c"),
        ("Power[Power[a, b], c]", "(a^b)^c"),
        ("Power[Plus[a, b], Plus[c, d]]", "(a + b)^(c + d)"),
        ("Power[a, -1]", "a^(-1)"),
        ("Power[StringJoin[a, b], c]", "a <> b^c"),
        ("Power[a, b, c]", "Power[a, b, c]"),
        ("Factorial[x]", "x!"),
        ("Factorial[Factorial[x]]", "(x!)!"),
        ("Factorial[Map[f, x]]", "f /@ x!"),
        ("Factorial[StringJoin[a, b]]", "(a <> b)!"),
        ("Factorial[3]", "3!"),
        ("Factorial[-3]", "(-3)!"),
        ("Not[x]", "!x"),
        ("Not[Not[x]]", "!(!x)"),
        ("Not[SameQ[a, b]]", "!a === b"),
        ("Not[And[a, b]]", "!(a && b)"),
        ("Apply[f, x]", "f @@ x"),
        ("Apply[Map[f, g], x]", "(f /@ g) @@ x"),
        ("Apply[f[x], Factorial[x]]", "f[x] @@ (x!)"),
        ("StringJoin[a, b]", "a <> b"),
        ("StringJoin[Factorial[a], b]", "a! <> b"),
        ("StringJoin[StringJoin[a, b], c]", "(a <> b) <> c"),
        ("StringJoin[Power[a, b], c]", "(a^b) <> c"),
        ("StringJoin[a]", "StringJoin[a]"),
    ];
    Ok(all_printed(&rt, rt.alloc(), &rows)?)
}

#[test]
fn tests_and_logic(rt: HostRuntime) -> Result<(), Fail> {
    let rows = [
        ("Repeated[x]", "x.."),
        ("RepeatedNull[x]", "x..."),
        ("Repeated[Pattern[x, Blank[]]]", "x_.."),
        ("Repeated[Or[a, b]]", "a || b.."),
        ("Repeated[Alternatives[a, b]]", "(a | b).."),
        ("PatternTest[p, t]", "p?t"),
        ("PatternTest[f[x], t]", "(f[x])?t"),
        ("PatternTest[MessageName[s, \"t\"], u]", "s::t?u"),
        ("PatternTest[p, PatternTest[q, t]]", "p?(q?t)"),
        ("SameQ[a, b]", "a === b"),
        ("SameQ[Equal[a, b], SameQ[c, d]]", "a == b === (c === d)"),
        ("SameQ[a, Not[b]]", "a === (!b)"),
        ("UnsameQ[a, b, c]", "a =!= b =!= c"),
        ("And[a, b]", "a && b"),
        (
            "And[Not[a], And[b, c], Or[d, e]]",
            "!a && (b && c) && (d || e)",
        ),
        ("Or[a, b]", "a || b"),
        (
            "Or[And[a, b], Or[c, d], Repeated[e]]",
            "a && b || (c || d) || (e..)",
        ),
        ("Alternatives[a, b]", "a | b"),
        (
            "Alternatives[Repeated[a], Alternatives[b, c], Pattern[x, y]]",
            "a.. | (b | c) | (x:y)",
        ),
        ("StringExpression[a, b]", "a ~~ b"),
        (
            "StringExpression[Pattern[x, y], StringExpression[a, b], Condition[a, b]]",
            "x:y ~~ (a ~~ b) ~~ (a /; b)",
        ),
        ("Equal[a, b]", "a == b"),
        (
            "Equal[Plus[a, b], Equal[c, d], SameQ[e, f]]",
            "a + b == (c == d) == (e === f)",
        ),
        ("Unequal[a, b]", "a != b"),
        ("Less[a, b]", "a < b"),
        ("LessEqual[a, b]", "a <= b"),
        ("Greater[a, b]", "a > b"),
        ("GreaterEqual[a, b]", "a >= b"),
        ("Less[a, LessEqual[b, c]]", "a < (b <= c)"),
        ("Less[a]", "Less[a]"),
    ];
    Ok(all_printed(&rt, rt.alloc(), &rows)?)
}

#[test]
fn rules_and_assignments(rt: HostRuntime) -> Result<(), Fail> {
    let rows = [
        ("Condition[a, b]", "a /; b"),
        (
            "Condition[StringExpression[a, b], Condition[c, d]]",
            "a ~~ b /; (c /; d)",
        ),
        (
            "Condition[Condition[a, b], Rule[c, d]]",
            "(a /; b) /; (c -> d)",
        ),
        ("Rule[a, b]", "a -> b"),
        ("Rule[a, Rule[b, c]]", "a -> b -> c"),
        ("Rule[Rule[a, b], Condition[c, d]]", "(a -> b) -> c /; d"),
        ("Rule[a, ReplaceAll[b, c]]", "a -> (b /. c)"),
        ("RuleDelayed[a, Rule[b, c]]", "a :> b -> c"),
        ("Rule[a, b, c]", "Rule[a, b, c]"),
        ("ReplaceAll[a, b]", "a /. b"),
        ("ReplaceAll[a, ReplaceAll[b, c]]", "a /. (b /. c)"),
        (
            "ReplaceAll[ReplaceAll[a, b], Rule[c, d]]",
            "(a /. b) /. c -> d",
        ),
        ("ReplaceRepeated[a, b]", "a //. b"),
        ("AddTo[a, b]", "a += b"),
        ("AddTo[a, AddTo[b, c]]", "a += b += c"),
        ("AddTo[AddTo[a, b], c]", "(a += b) += c"),
        ("SubtractFrom[a, ReplaceAll[b, c]]", "a -= b /. c"),
        ("TimesBy[a, b]", "a *= b"),
        ("DivideBy[a, b]", "a /= b"),
        ("Set[a, b]", "a = b"),
        ("Set[a, Set[b, c]]", "a = b = c"),
        ("Set[Set[a, b], c]", "(a = b) = c"),
        ("Set[a, Function[b]]", "a = b &"),
        ("Set[a, CompoundExpression[b, c]]", "a = (b; c)"),
        ("SetDelayed[f[x], Set[y, 1]]", "f[x] := y = 1"),
        ("UpSet[a, b]", "a ^= b"),
        ("UpSetDelayed[a, b]", "a ^:= b"),
        ("Function[b]", "b &"),
        ("Function[Function[b]]", "(b &) &"),
        ("Function[AddTo[a, b]]", "a += b &"),
        ("Function[Set[a, b]]", "(a = b) &"),
        ("Function[x, b]", "Function[x, b]"),
        ("CompoundExpression[a, b]", "a; b"),
        ("CompoundExpression[a, Null]", "a;"),
        ("CompoundExpression[a, b, Null]", "a; b;"),
        ("CompoundExpression[Null, a]", "Null; a"),
        (
            "CompoundExpression[a, CompoundExpression[b, c]]",
            "a; (b; c)",
        ),
        ("CompoundExpression[Set[a, b], Null]", "a = b;"),
        ("CompoundExpression[a]", "CompoundExpression[a]"),
    ];
    Ok(all_printed(&rt, rt.alloc(), &rows)?)
}

#[test]
fn brackets(rt: HostRuntime) -> Result<(), Fail> {
    let rows = [
        ("Part[f[x], 1]", "(f[x])[[1]]"),
        ("List[]", "{}"),
        ("List[a, List[b]]", "{a, {b}}"),
        (
            "List[Plus[a, b], CompoundExpression[a, b]]",
            "{a + b, a; b}",
        ),
        ("Part[e, i, j]", "e[[i, j]]"),
        ("Part[e]", "Part[e]"),
        ("Part[e, Plus[i, j]]", "e[[i + j]]"),
        ("Part[PatternTest[p, t], i]", "p?t[[i]]"),
        ("Part[Part[e, i], j]", "(e[[i]])[[j]]"),
        ("f[x][y]", "f[x][y]"),
        ("Part[e, i][x]", "e[[i]][x]"),
        ("PatternTest[p, t][x]", "p?t[x]"),
        ("Map[f, g][x]", "(f /@ g)[x]"),
        ("f[]", "f[]"),
        ("f[a, CompoundExpression[b, c]]", "f[a, b; c]"),
        ("f[\"q\\\"\\\\\\n\\t\\r\"]", "f[\"q\\\"\\\\\\n\\t\\r\"]"),
        ("Times[-1, b, c][x]", "(-1*b*c)[x]"),
        ("3[x]", "3[x]"),
        ("\"t\"[x]", "\"t\"[x]"),
        ("Unset[x]", "Unset[x]"),
        ("MapApply[f, x]", "MapApply[f, x]"),
    ];
    Ok(all_printed(&rt, rt.alloc(), &rows)?)
}

#[test]
fn boxes_in_full(rt: HostRuntime) -> Result<(), Fail> {
    let alloc = rt.alloc();
    let rows = [
        ("a + b", "RowBox[List[\"a\", \" + \", \"b\"]]"),
        ("f[]", "RowBox[List[\"f\", \"[]\"]]"),
        ("{}", "\"{}\""),
        (
            "(a + b)^(c + d)",
            "RowBox[List[\"(\", RowBox[List[\"a\", \" + \", \"b\"]], \")^(\", RowBox[List[\"c\", \" + \", \"d\"]], \")\"]]",
        ),
        ("s::t", "RowBox[List[\"s\", \"::\", \"t\"]]"),
        ("x_h", "\"x_h\""),
        ("-3", "\"-3\""),
        (
            "1/2",
            "RowBox[List[\"1\", \"*\", RowBox[List[\"2\", \"^(\", \"-1\", \")\"]]]]",
        ),
        (
            "-(a + b)",
            "RowBox[List[\"-(\", RowBox[List[\"a\", \" + \", \"b\"]], \")\"]]",
        ),
        (
            "a - 2*b",
            "RowBox[List[\"a\", \" - \", RowBox[List[\"2\", \"*\", \"b\"]]]]",
        ),
        (
            "a - b*c",
            "RowBox[List[\"a\", \" - \", RowBox[List[\"b\", \"*\", \"c\"]]]]",
        ),
        ("a;", "RowBox[List[\"a\", \";\"]]"),
        (
            "a; b; c",
            "RowBox[List[\"a\", \"; \", \"b\", \"; \", \"c\"]]",
        ),
        (
            "f[x, {y}]",
            "RowBox[List[\"f\", \"[\", \"x\", \", \", RowBox[List[\"{\", \"y\", \"}\"]], \"]\"]]",
        ),
        (
            "e[[i, j]]",
            "RowBox[List[\"e\", \"[[\", \"i\", \", \", \"j\", \"]]\"]]",
        ),
        (
            "(f[x])[[1]]",
            "RowBox[List[\"(\", RowBox[List[\"f\", \"[\", \"x\", \"]\"]], \")[[\", \"1\", \"]]\"]]",
        ),
        ("x_ + y_.", "RowBox[List[\"x_\", \" + \", \"y_.\"]]"),
        ("\"a b\"", "\"\\\"a b\\\"\""),
        ("b &", "RowBox[List[\"b\", \" &\"]]"),
        (
            "!(!x)",
            "RowBox[List[\"!(\", RowBox[List[\"!\", \"x\"]], \")\"]]",
        ),
        ("p..", "RowBox[List[\"p\", \"..\"]]"),
    ];
    for (cell, wanted) in rows {
        let e = read(alloc, cell)?;
        let Ok(made) = boxes(alloc, &e) else {
            return Err(Fail::new("large"));
        };
        assert_eq!(&rt; full_form(alloc, &made)?.as_str(), wanted, "{cell}");
    }
    Ok(())
}
