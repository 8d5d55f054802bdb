//! Rows of functions that look at their elements alone: ordinary cases, edges, and what stays as it is.
use crate::running::answers;
use std::test::Fail;

#[test]
fn of_numbers(rt: HostRuntime) -> Result<(), Fail> {
    let rows: [(&[u8], &str); 16] = [
        (
            b"{Plus[], Plus[a], 1/6 + 1/10, 1/2 - 1/2, x + 2 + x, a + b - a, 2*x + 3*x*y + x*y, 1 + \"t\"}\n",
            "Out[1]= {0, a, 4/15, 0, 2 + 2*x, b, 2*x + 4*x*y, 1 + \"t\"}\n",
        ),
        (
            b"{a + Indeterminate + 1, 1 + ComplexInfinity, ComplexInfinity + ComplexInfinity, a + ComplexInfinity + 2}\n",
            "Out[1]= {Indeterminate, ComplexInfinity, Indeterminate, 2 + a + ComplexInfinity}\n",
        ),
        (
            b"{Times[], Times[a], 1/2*2/3, x*2*x, 2*1/2*x, x^2*x*y, x^(1/2)*x^y, x^2*y*x^3*y, \"t\"*\"t\"}\n",
            "Out[1]= {1, a, 1/3, 2*x^2, x, x^3*y, x^(1/2 + y), x^5*y^2, \"t\"^2}\n",
        ),
        (
            b"{0*a, 0*ComplexInfinity, 2*ComplexInfinity, ComplexInfinity*ComplexInfinity, ComplexInfinity*a}\n",
            "Out[1]= {0, Indeterminate, ComplexInfinity, ComplexInfinity, a*ComplexInfinity}\n",
        ),
        (
            b"{2^127, 2^126*2, 2^126 + 2^126 - 1}\n",
            "General::ovfl: Overflow occurred in computation.\nGeneral::ovfl: Overflow occurred in computation.\nOut[1]= {Overflow[], Overflow[], 170141183460469231731687303715884105727}\n",
        ),
        (
            b"{0^0, 0^-1}\n",
            "Power::indet: Indeterminate expression 0^0 encountered.\nPower::infy: Infinite expression 0^(-1) encountered.\nOut[1]= {Indeterminate, ComplexInfinity}\n",
        ),
        (
            b"{a^0, a^1, 1^a, (2/3)^-2, 2^126, (a^b)^2, (a*b)^3, 2^(1/2), 0^(1/2), Power[a]}\n",
            "Out[1]= {1, a, 1, 9/4, 85070591730234615865843651857942052864, a^(2*b), a^3*b^3, 2^(1/2), 0^(1/2), Power[a]}\n",
        ),
        (
            b"{Abs[-3/2], Abs[a], Sign[-1/2], Sign[0], Floor[-1/2], Floor[7/2], Ceiling[-1/2], Ceiling[7/2], Floor[\"t\"]}\n",
            "Out[1]= {3/2, Abs[a], -1, 0, -1, 3, 0, 4, Floor[\"t\"]}\n",
        ),
        (
            b"{Numerator[-3/4], Numerator[a], Denominator[-3/4], Denominator[5], Rational[6, -4], Rational[1, 0]}\n",
            "Out[1]= {-3, Numerator[a], 4, 1, -3/2, Rational[1, 0]}\n",
        ),
        (
            b"{Mod[-7, 3], Mod[7, -3], Mod[7, 0], Quotient[-7, 3], Quotient[7, -3], Quotient[7], GCD[], GCD[12, -18, 30], GCD[4, 1/2]}\n",
            "Out[1]= {2, -2, Mod[7, 0], -3, -3, Quotient[7], 0, 6, GCD[1/2, 4]}\n",
        ),
        (
            b"{Max[1, 3, 5/2], Max[1, {3, 4}], Max[], Max[{}], Max[1, a], Min[1, 3, -5/2], Min[{2}, 1], Min[a]}\n",
            "Out[1]= {3, 4, Max[], Max[{}], Max[1, a], -5/2, 1, Min[a]}\n",
        ),
        (
            b"{0!, 33!, (-1)!, (1/2)!, 34!}\n",
            "General::ovfl: Overflow occurred in computation.\nOut[1]= {1, 8683317618811886495518194401280000000, (-1)!, (1/2)!, Overflow[]}\n",
        ),
        (
            b"{IntegerQ[3], IntegerQ[1/2], EvenQ[-4], EvenQ[3], OddQ[-3], OddQ[1/3], NumberQ[1/2], NumberQ[a], AtomQ[\"t\"], AtomQ[f[]], StringQ[\"t\"], StringQ[a], ListQ[{1}], ListQ[f[1]], TrueQ[True], TrueQ[a], TrueQ[]}\n",
            "Out[1]= {True, False, True, False, True, False, True, False, True, False, True, False, True, False, True, False, TrueQ[]}\n",
        ),
        (
            b"{Equal[], a == a, 1 == 2, a == b, {a, a} == {a}, {a, b} == {b, 1}, 1 == \"t\", {1} == {2}, a == 1 == 2}\n",
            "Out[1]= {True, True, False, a == b, False, {a, b} == {b, 1}, False, False, False}\n",
        ),
        (
            b"{1 != 2, a != a, a != b, Unequal[1], 1 < 2 < 3, 1 < 3 < 2, 1 < a, 2 > 1 >= 1, 1 <= 1, a > a}\n",
            "Out[1]= {True, False, a != b, Unequal[1], True, False, 1 < a, True, True, a > a}\n",
        ),
        (
            b"{SameQ[], a === a, 1 === 1/2, a =!= b, a =!= a, !True, !False, !a}\n",
            "Out[1]= {True, True, False, True, False, False, True, !a}\n",
        ),
    ];
    for (text, expected) in rows {
        answers(&rt, rt.alloc(), text, expected, 0)?;
    }
    Ok(())
}

#[test]
fn of_lists(rt: HostRuntime) -> Result<(), Fail> {
    let rows: [(&[u8], &str); 12] = [
        (
            b"{Head[1/2], Head[f[1]], Head[], Length[f[1, 2]], Length[1/2], Length[a, a], Depth[f[1]], Depth[1/2], Order[1/2, a], Order[a, 1/2], OrderedQ[f[1, 2]], OrderedQ[{c, a}], OrderedQ[a]}\n",
            "Out[1]= {Rational, f, Head[], 2, 0, Length[a, a], 2, 1, 1, -1, True, False, OrderedQ[a]}\n",
        ),
        (
            b"{First[f[1, 2]], First[{}], Last[f[1, 2]], Rest[f[1, 2]], Rest[{}], Most[f[1, 2]], Append[f[1], a], Append[a, f[1]], Prepend[f[1], a], Reverse[f[1, 2]], Reverse[a]}\n",
            "Out[1]= {1, First[{}], 2, f[2], Rest[{}], f[1], f[1, a], Append[a, f[1]], f[a, 1], f[2, 1], Reverse[a]}\n",
        ),
        (
            b"{Sort[{c, a, b, a}], Sort[a], DeleteDuplicates[{c, a, b, a}], Join[f[1], f[2]], Join[f[1], {2}], Join[], Union[{c, a, b, a}], Union[{c}, {f[1]}], Union[f[1]]}\n",
            "Out[1]= {{a, a, b, c}, Sort[a], {c, a, b}, f[1, 2], Join[f[1], {2}], Join[], {a, b, c}, {c, f[1]}, Union[f[1]]}\n",
        ),
        (
            b"{Apply[g, f[1, 2]], Apply[g, 5], MapApply[g, {f[1], a}], Map[g, f[1, 2]], Map[g, a], Total[{1, 2, x}], Total[f[1]], Array[g, 2], Array[g, 0], Array[g, -1]}\n",
            "Out[1]= {g[1, 2], g @@ 5, {g[1], a}, f[g[1], g[2]], a, 3 + x, Total[f[1]], {g[1], g[2]}, {}, Array[g, -1]}\n",
        ),
        (
            b"{Hold[Evaluate[1 + 1]], ReleaseHold[Hold[1 + 1]], ReleaseHold[Hold[a, g]], Identity[f[1]], Identity[a, g]}\n",
            "Out[1]= {Hold[2], 2, Hold[a, g], f[1], Identity[a, g]}\n",
        ),
        (
            b"{Take[f[1, 2, 3], 2], Take[f[1, 2, 3], -1], Take[f[1, 2, 3], {2, 3}], Take[f[1, 2, 3], 4], Drop[f[1, 2, 3], 1], Drop[f[1, 2, 3], {2, 2}], Drop[f[1, 2, 3], -4]}\n",
            "Out[1]= {f[1, 2], f[3], f[2, 3], Take[f[1, 2, 3], 4], f[2, 3], f[1, 3], Drop[f[1, 2, 3], -4]}\n",
        ),
        (
            b"{\"ab\" <> \"cd\", StringJoin[], \"ab\" <> f[1], StringLength[\"a\xc3\xa4c\"], StringLength[f[1]], ToString[\"ab\"], ToString[f[1 + 1]], Characters[\"a\xc3\xa4\"], Characters[\"\"], Characters[12]}\n",
            "Out[1]= {\"abcd\", \"\", \"ab\" <> f[1], 3, StringLength[f[1]], \"ab\", \"f[2]\", {\"a\", \"ä\"}, {}, Characters[12]}\n",
        ),
        (
            b"{Flatten[f[f[1, f[2]], {3}]], Flatten[f[f[1, f[2]]], 1], Flatten[1], Partition[f[1, 2, 3], 2], Partition[f[1, 2, 3], 1], Partition[f[1], 0]}\n",
            "Out[1]= {f[1, 2, {3}], f[1, f[2]], Flatten[1], f[f[1, 2]], f[f[1], f[2], f[3]], Partition[f[1], 0]}\n",
        ),
        (
            b"{Transpose[{{1, f[2]}, {3, 4}}], Transpose[{{1}}], Transpose[{{1}, {2, 3}}], Transpose[{1, 2}]}\n",
            "Out[1]= {{{1, 3}, {f[2], 4}}, {{1}}, Transpose[{{1}, {2, 3}}], Transpose[{1, 2}]}\n",
        ),
        (
            b"{Range[2], Range[0], Range[1, 0, -1/2], Range[1, 2, 0], MakeBoxes[5], Nothing[f]}\n",
            "Out[1]= {{1, 2}, {}, {1, 1/2, 0}, Range[1, 2, 0], \"5\", Nothing[f]}\n",
        ),
        (
            b"{f[1, {2, 3}][[2, 1]], f[1, {2, 3}][[-1]], f[1, 2][[0]], f[1, 2][[{2, 1}]], Part[f[1, 2]], f[1, 2][[1/2]]}\n",
            "Out[1]= {2, {2, 3}, f, f[2, 1], Part[f[1, 2]], (f[1, 2])[[1/2]]}\n",
        ),
        (
            b"{f[1, 2][[3]], f[1, 2][[1, 1]]}\n",
            "Part::partw: Part 3 of f[1, 2] does not exist.\nPart::partw: Part 1 of 1 does not exist.\nOut[1]= {(f[1, 2])[[3]], (f[1, 2])[[1, 1]]}\n",
        ),
    ];
    for (text, expected) in rows {
        answers(&rt, rt.alloc(), text, expected, 0)?;
    }
    Ok(())
}
