//! Scopes, loops, and what is given back.
use crate::running::answers;
use std::test::Fail;

#[test]
fn names(rt: HostRuntime) -> Result<(), Fail> {
    let rows: [(&[u8], &str, u8); 2] = [
        (
            b"Module[{x = 2}, x + y]\nModule[{u}, u]\nFunction[x, Function[y, x + y]][y]\n",
            "Out[1]= 2 + y\nOut[2]= u$2\nOut[3]= Function[y$, y + y$]\n",
            0,
        ),
        (
            b"x = 7; Block[{x = 1, x = 2}, x]\nWith[{x = 1, x = 2}, x]\nModule[{x = 1, x = 2}, x]\n",
            "Out[1]= 2\nOut[2]= 1\nOut[3]= 2\n",
            0,
        ),
    ];
    for (text, expected, status) in rows {
        answers(&rt, rt.alloc(), text, expected, status)?;
    }
    Ok(())
}

#[test]
fn given_back(rt: HostRuntime) -> Result<(), Fail> {
    let rows: [(&[u8], &str, u8); 2] = [
        (
            b"z = 1; Block[{z = 5}, Abort[]]\nz\n",
            "Out[1]= $Aborted\nOut[2]= 1\n",
            0,
        ),
        (
            b"i = 7; {Table[i, {i, 2}], i}\n",
            "Out[1]= {{1, 2}, 7}\n",
            0,
        ),
    ];
    for (text, expected, status) in rows {
        answers(&rt, rt.alloc(), text, expected, status)?;
    }
    Ok(())
}

#[test]
fn loops(rt: HostRuntime) -> Result<(), Fail> {
    let rows: [(&[u8], &str, u8); 3] = [
        (
            b"i = 0; While[True, i++; If[i == 3, Break[]]]; i\n",
            "Out[1]= 3\n",
            0,
        ),
        (
            b"Table[x, {Plus, Print[1]}]\n",
            "Out[1]= Table[x, {Plus, Print[1]}]\n",
            0,
        ),
        (
            b"Do[If[i == 2, Protect[i]]; Print[i], {i, 3}]\n",
            "1\n2\nSet::wrsym: Symbol i is Protected.\n2\n",
            0,
        ),
    ];
    for (text, expected, status) in rows {
        answers(&rt, rt.alloc(), text, expected, status)?;
    }
    Ok(())
}
