//! The limits of depth and of turns.
use crate::running::answers;
use std::test::Fail;

#[test]
fn depth(rt: HostRuntime) -> Result<(), Fail> {
    let rows: [(&[u8], &str, u8); 4] = [
        (
            b"r := r + 1\nr\n",
            "$RecursionLimit::reclim: Recursion depth of 200 exceeded.\nOut[2]= $Aborted\n",
            0,
        ),
        (
            b"CheckAbort[Block[{$RecursionLimit = 20}, d := d + 1; d], no]\n$RecursionLimit\n",
            "$RecursionLimit::reclim: Recursion depth of 20 exceeded.\nOut[1]= no\nOut[2]= 200\n",
            0,
        ),
        (
            b"Nest[f, x, 1000]\n",
            "$RecursionLimit::reclim: Recursion depth of 200 exceeded.\nOut[1]= $Aborted\n",
            0,
        ),
        (
            b"Table[$RecursionLimit, {$RecursionLimit, 18, 21}]\n$RecursionLimit\n",
            "$RecursionLimit::limset: Cannot set $RecursionLimit to 18.\n$RecursionLimit::limset: Cannot set $RecursionLimit to 19.\nOut[1]= {200, 200, 20, 21}\nOut[2]= 200\n",
            0,
        ),
    ];
    for (text, expected, status) in rows {
        answers(&rt, rt.alloc(), text, expected, status)?;
    }
    Ok(())
}

#[test]
fn turns(rt: HostRuntime) -> Result<(), Fail> {
    let rows: [(&[u8], &str, u8); 2] = [
        (
            b"k[n_] := k[n + 1]; k[0]\n$IterationLimit = 20\nk[0]\n",
            "$IterationLimit::itlim: Iteration limit of 1000 exceeded.\nOut[1]= $Aborted\nOut[2]= 20\n$IterationLimit::itlim: Iteration limit of 20 exceeded.\nOut[3]= $Aborted\n",
            0,
        ),
        (
            b"SetAttributes[List, Listable]; {{x}}\n",
            "$IterationLimit::itlim: Iteration limit of 1000 exceeded.\nOut[1]= $Aborted\n",
            0,
        ),
    ];
    for (text, expected, status) in rows {
        answers(&rt, rt.alloc(), text, expected, status)?;
    }
    Ok(())
}
