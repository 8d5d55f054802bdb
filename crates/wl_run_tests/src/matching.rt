//! Patterns, replacement, and guards.
use crate::running::answers;
use std::test::Fail;

#[test]
fn matches(rt: HostRuntime) -> Result<(), Fail> {
    let rows: [(&[u8], &str, u8); 3] = [
        (
            b"q[a, b, c] /. q[x__, y__] :> {{x}, {y}}\na /. x_. + y_ :> {x, y}\n",
            "Out[1]= {{a}, {b, c}}\nOut[2]= {0, a}\n",
            0,
        ),
        (b"MatchQ[{a}, {x_, y_.}]\n", "Out[1]= False\n", 0),
        (b"While[MatchQ[1, _?((Break[]; True) &)]]\n", "", 0),
    ];
    for (text, expected, status) in rows {
        answers(&rt, rt.alloc(), text, expected, status)?;
    }
    Ok(())
}

#[test]
fn guards(rt: HostRuntime) -> Result<(), Fail> {
    let rows: [(&[u8], &str, u8); 4] = [
        (
            b"f[x_] := Module[{u = x^2}, u + 1 /; u > 10]\nf[3]\nf[4]\nModule[{w}, w]\n",
            "Out[2]= f[3]\nOut[3]= 17\nOut[4]= w$3\n",
            0,
        ),
        (
            b"g[x__, y__] := With[{n = Length[{x}]}, {n, y} /; n == 2]\ng[a, b, c]\nh[x_] := Block[{z = x}, z + 1 /; z > 0]\n{h[1], h[-1], z}\n",
            "Out[2]= {2, c}\nOut[4]= {2, h[-1], z}\n",
            0,
        ),
        (
            b"f[x_] := With[{u = x}, Block[{u = 2}, u /; True]]\nf[5]\n",
            "Out[2]= Block[{5 = 2}, 5 /; True]\n",
            0,
        ),
        (
            b"f[x_] := Block[{x = 1}, x]; f[5]\n",
            "Out[1]= Block[{5 = 1}, 5]\n",
            0,
        ),
    ];
    for (text, expected, status) in rows {
        answers(&rt, rt.alloc(), text, expected, status)?;
    }
    Ok(())
}
