//! Turns: what is final, what is settled, and the rows that look at their elements alone.
use crate::running::answers;
use std::test::Fail;

#[test]
fn arithmetic(rt: HostRuntime) -> Result<(), Fail> {
    let rows: [(&[u8], &str, u8); 5] = [
        (b"1/3 + 1/6\n", "Out[1]= 1/2\n", 0),
        (
            b"x*2*x + 3 x^2\n(a + b) - 2 a\n",
            "Out[1]= 5*x^2\nOut[2]= -a + b\n",
            0,
        ),
        (
            b"2^126 + (2^126 - 1)\n2^127\n170141183460469231731687303715884105728\n",
            "Out[1]= 170141183460469231731687303715884105727\nGeneral::ovfl: Overflow occurred in computation.\nOut[2]= Overflow[]\nRefused: number past 127 bits at byte 1.\n",
            1,
        ),
        (
            b"2^126 + 2^126 + Indeterminate\n",
            "Out[1]= Indeterminate\n",
            0,
        ),
        (b"x_ + x_\n", "Out[1]= 2*x_\n", 0),
    ];
    for (text, expected, status) in rows {
        answers(&rt, rt.alloc(), text, expected, status)?;
    }
    Ok(())
}

#[test]
fn forms(rt: HostRuntime) -> Result<(), Fail> {
    let rows: [(&[u8], &str, u8); 4] = [
        (
            b"Hold[a + b*-c^2] // FullForm\n",
            "Out[1]//FullForm= Hold[Plus[a, Times[b, Times[-1, Power[c, 2]]]]]\n",
            0,
        ),
        (
            b"MakeBoxes[a + b]\n",
            "Out[1]= RowBox[{\"a\", \" + \", \"b\"}]\n",
            0,
        ),
        (b"a +\n  b\n", "Out[1]= a + b\n", 0),
        (
            b"Hold[Sequence[a, b], Unevaluated[c]]\n",
            "Out[1]= Hold[Sequence[a, b], Unevaluated[c]]\n",
            0,
        ),
    ];
    for (text, expected, status) in rows {
        answers(&rt, rt.alloc(), text, expected, status)?;
    }
    Ok(())
}

#[test]
fn lists(rt: HostRuntime) -> Result<(), Fail> {
    let rows: [(&[u8], &str, u8); 2] = [
        (
            b"1 + 2 + {1, 2} + {1, 2, 3}\n",
            "Thread::tdlen: Objects of unequal length in 1 + 2 + {1, 2} + {1, 2, 3} cannot be combined.\nThread::tdlen: Objects of unequal length in 3 + {1, 2} + {1, 2, 3} cannot be combined.\nOut[1]= 3 + {1, 2} + {1, 2, 3}\n",
            0,
        ),
        (
            b"Range[2^126 + (2^126 - 4), 2^126 + (2^126 - 1), 2]\n",
            "Out[1]= {170141183460469231731687303715884105724, 170141183460469231731687303715884105726}\n",
            0,
        ),
    ];
    for (text, expected, status) in rows {
        answers(&rt, rt.alloc(), text, expected, status)?;
    }
    Ok(())
}

#[test]
fn the_greatest_list(rt: HostRuntime) -> Result<(), Fail> {
    answers(
        &rt,
        rt.alloc(),
        b"Length[Range[3999988]]\nLength[Range[3999989]]\n",
        "Out[1]= 3999988\nGeneral::large: Expression too large.\nOut[2]= $Aborted\n",
        0,
    )
}

#[test]
fn refused_among_answered(rt: HostRuntime) -> Result<(), Fail> {
    answers(
        &rt,
        rt.alloc(),
        b"1.5\n1 + 1\nf[1,",
        "Refused: real number at byte 1.\nOut[1]= 2\nRefused: unfinished input.\n",
        1,
    )
}

#[test]
fn functions(rt: HostRuntime) -> Result<(), Fail> {
    let rows: [(&[u8], &str, u8); 3] = [
        (b"x -> y & /@ {1}\n", "Out[1]= {x -> y}\n", 0),
        (
            b"Function[x, Function[y, x + y]][y]\n",
            "Out[1]= Function[y$, y + y$]\n",
            0,
        ),
        (b"Function[{x, x}, x][1, 2]\n", "Out[1]= 1\n", 0),
    ];
    for (text, expected, status) in rows {
        answers(&rt, rt.alloc(), text, expected, status)?;
    }
    Ok(())
}
