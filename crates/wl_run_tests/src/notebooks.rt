//! Whole notebooks.
use crate::running::answers;
use std::alloc::{AllocError, Global};
use std::test::Fail;

#[test]
fn cells_of_a_lesson(rt: HostRuntime) -> Result<(), Fail> {
    answers(
        &rt,
        rt.alloc(),
        b"(* area and lists *)\narea[r_] := 3 r^2\narea /@ {1, 2, 5}\nt = Table[i^2, {i, 5}]\nTotal[t]\nSelect[t, EvenQ]\nrules = {x -> 2, y -> 3};\nx^2 + y /. rules\n\"ab\" <> \"cd\"\nStringLength[%]\np[n_Integer?EvenQ] := \"even\"\np[_] = \"odd\";\np /@ {3, 4}\n",
        "Out[2]= {3, 12, 75}\nOut[3]= {1, 4, 9, 16, 25}\nOut[4]= 55\nOut[5]= {4, 16}\nOut[7]= 7\nOut[8]= \"abcd\"\nOut[9]= 4\nOut[12]= {\"odd\", \"even\"}\n",
        0,
    )
}

/// The answers of three cells that give the list of `f[1]` to `f[1000]`.
fn long_answers(alloc: Global) -> Result<String, AllocError> {
    let mut list = String::new(alloc);
    for i in 1..1_001_u32 {
        list.push_str(if i == 1 { "{" } else { ", " })?;
        list.push_str(format!(in alloc; "f[{i}]")?.as_str())?;
    }
    list.push('}')?;
    let mut text = String::new(alloc);
    for n in 1..4_u32 {
        text.push_str(format!(in alloc; "Out[{n}]= ")?.as_str())?;
        text.push_str(list.as_str())?;
        text.push('\n')?;
    }
    Ok(text)
}

#[test]
fn a_long_table(rt: HostRuntime) -> Result<(), Fail> {
    let expected = long_answers(rt.alloc())?;
    answers(
        &rt,
        rt.alloc(),
        b"Table[f[i], {i, 1000}]\n%\n%\n",
        expected.as_str(),
        0,
    )
}
