//! Definitions, and the rules that they make.
use crate::running::answers;
use std::test::Fail;

#[test]
fn values(rt: HostRuntime) -> Result<(), Fail> {
    let rows: [(&[u8], &str, u8); 3] = [
        (b"{x, x = 1}\n%\n", "Out[1]= {x, 1}\nOut[2]= {1, 1}\n", 0),
        (
            b"f[b, SetAttributes[f, Orderless]; a]\n%\n",
            "Out[1]= f[b, a]\nOut[2]= f[a, b]\n",
            0,
        ),
        (
            b"Plus[a, b] = 3\n",
            "Set::write: Tag Plus in a + b is Protected.\nOut[1]= 3\n",
            0,
        ),
    ];
    for (text, expected, status) in rows {
        answers(&rt, rt.alloc(), text, expected, status)?;
    }
    Ok(())
}

#[test]
fn rules(rt: HostRuntime) -> Result<(), Fail> {
    let rows: [(&[u8], &str, u8); 5] = [
        (
            b"f[x_] /; (f[y_] = 2; False) := 0\nf[1]\nf[1]\n",
            "Out[2]= f[1]\nOut[3]= 2\n",
            0,
        ),
        (b"h[x_] := h[x]; h[1]\n", "Out[1]= h[1]\n", 0),
        (
            b"fib[0] = 0; fib[1] = 1; fib[n_] := fib[n] = fib[n - 1] + fib[n - 2]; fib[90]\n",
            "Out[1]= 2880067194370816120\n",
            0,
        ),
        (
            b"f[a, Plus, Times] ^:= 1\nf[a, 1]\nf[a, Plus, Times]\n",
            "Set::write: Tag Plus in f[a, Plus, Times] is Protected.\nSet::write: Tag Times in f[a, Plus, Times] is Protected.\nOut[1]= $Failed\nOut[2]= f[a, 1]\nOut[3]= 1\n",
            0,
        ),
        (
            b"f[x_] = Module[{u = x}, u /; u > 1]\nf[3]\n",
            "Out[1]= u$1 /; u$1 > 1\nOut[2]= f[3]\n",
            0,
        ),
    ];
    for (text, expected, status) in rows {
        answers(&rt, rt.alloc(), text, expected, status)?;
    }
    Ok(())
}

#[test]
fn what_was_read(rt: HostRuntime) -> Result<(), Fail> {
    let rows: [(&[u8], &str, u8); 3] = [
        (
            b"g[y_] := 0 /; x == 2\nBlock[{x = 1}, w = g[a]]\nx = 2\nw\nx = 2\nw\n",
            "Out[2]= g[a]\nOut[3]= 2\nOut[4]= 0\nOut[5]= 2\nOut[6]= 0\n",
            0,
        ),
        (
            b"f[a]\na /: f[a] = 7\n%1\n",
            "Out[1]= f[a]\nOut[2]= 7\nOut[3]= 7\n",
            0,
        ),
        (
            b"f[g[x_, y_:0]] := {x, y}\nf[b]\nSetAttributes[g, OneIdentity]\n%2\n",
            "Out[2]= f[b]\nOut[4]= {b, 0}\n",
            0,
        ),
    ];
    for (text, expected, status) in rows {
        answers(&rt, rt.alloc(), text, expected, status)?;
    }
    Ok(())
}
