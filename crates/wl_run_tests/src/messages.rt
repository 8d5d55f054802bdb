//! Messages, and what passes out of all that waits for it.
use crate::running::answers;
use std::test::Fail;

/// Texts with their marks, and what they say with the arguments `3` and `"é x"`.
const MARKS: [(&str, &str); 12] = [
    ("`1` of `2`", "3 of é x"),
    ("`2``1`ü`1`", "é x3ü3"),
    ("`01`1`", "`013"),
    ("`0`", "`0`"),
    ("`3`1`", "`3`1`"),
    ("`18446744073709551617`", "`18446744073709551617`"),
    ("`1", "`1"),
    ("a `1 b `2`", "a `1 b é x"),
    ("``1`", "`3"),
    ("``", "``"),
    ("`+1`", "`+1`"),
    ("ü", "ü"),
];

#[test]
fn marks(rt: HostRuntime) -> Result<(), Fail> {
    let rows = MARKS;
    for (text, said) in rows.as_slice() {
        let cell = format!(in rt.alloc(); "f::t = \"{text}\"; Message[f::t, 3, \"é x\"]\n")?;
        let line = format!(in rt.alloc(); "f::t: {said}\n")?;
        answers(&rt, rt.alloc(), cell.as_bytes(), line.as_str(), 0)?;
    }
    Ok(())
}

#[test]
fn shown(rt: HostRuntime) -> Result<(), Fail> {
    let rows: [(&[u8], &str); 5] = [
        (
            b"Do[{1, 2}[[3]], {4}]\n",
            "Part::partw: Part 3 of {1, 2} does not exist.\nPart::partw: Part 3 of {1, 2} does not exist.\nPart::partw: Part 3 of {1, 2} does not exist.\nGeneral::stop: Further output of Part::partw will be suppressed during this calculation.\n",
        ),
        (
            b"Message[g::large]; Message[g::t]\n",
            "g::large: Expression too large.\ng::t: -- Message text not found --\n",
        ),
        (
            b"f::t = \"text\"; Off[f::t]; Check[Message[f::t], heard]\nOn[f::t]; Check[Message[f::t], heard]\n",
            "f::t: text\nOut[2]= heard\n",
        ),
        (
            b"f::t = \"text\"; Quiet[Quiet[1]; Do[Message[f::t], {4}]]; Do[Message[f::t], {2}]\n",
            "f::t: text\nf::t: text\n",
        ),
        (
            b"Do[2^127, {3}]\nPrint[\"a b\"]; 2^127;\n",
            "General::ovfl: Overflow occurred in computation.\nGeneral::ovfl: Overflow occurred in computation.\nGeneral::ovfl: Overflow occurred in computation.\nGeneral::stop: Further output of General::ovfl will be suppressed during this calculation.\na b\nGeneral::ovfl: Overflow occurred in computation.\n",
        ),
    ];
    for (text, expected) in rows {
        answers(&rt, rt.alloc(), text, expected, 0)?;
    }
    Ok(())
}

#[test]
fn ends_of_cells(rt: HostRuntime) -> Result<(), Fail> {
    let rows: [(&[u8], &str, u8); 2] = [
        (
            b"Catch[Do[If[i == 3, Throw[i]], {i, 9}]]\nThrow[b]\nBreak[]\n",
            "Out[1]= 3\nThrow::nocatch: Uncaught Throw[b] returned to top level.\nOut[2]= Hold[Throw[b]]\nOut[3]= Hold[Break[]]\n",
            0,
        ),
        (
            b"Quiet[Throw[1]]\nThrow[1, a];\nContinue[]\n",
            "Throw::nocatch: Uncaught Throw[1] returned to top level.\nOut[1]= Hold[Throw[1]]\nThrow::nocatch: Uncaught Throw[1, a] returned to top level.\nOut[3]= Hold[Continue[]]\n",
            0,
        ),
    ];
    for (text, expected, status) in rows {
        answers(&rt, rt.alloc(), text, expected, status)?;
    }
    Ok(())
}

#[test]
fn checks(rt: HostRuntime) -> Result<(), Fail> {
    answers(
        &rt,
        rt.alloc(),
        b"Check[1/0, bad]\nQuiet[Check[1/0, bad]]\nQuiet[1/0]\n{1/0, 1/0, 1/0, 1/0}\n",
        "Power::infy: Infinite expression 0^(-1) encountered.\nOut[1]= bad\nOut[2]= bad\nOut[3]= ComplexInfinity\nPower::infy: Infinite expression 0^(-1) encountered.\nPower::infy: Infinite expression 0^(-1) encountered.\nPower::infy: Infinite expression 0^(-1) encountered.\nGeneral::stop: Further output of Power::infy will be suppressed during this calculation.\nOut[4]= {ComplexInfinity, ComplexInfinity, ComplexInfinity, ComplexInfinity}\n",
        0,
    )
}

#[test]
fn texts(rt: HostRuntime) -> Result<(), Fail> {
    let rows: [(&[u8], &str, u8); 2] = [
        (
            b"f::bad = \"Bad `1`.\";\nMessage[f::bad, {1}]\nOff[f::bad]; Message[f::bad, 2]\nUnset[f[1]]\n",
            "f::bad: Bad {1}.\nOut[4]= $Failed\n",
            0,
        ),
        (b"Print[\"a\"]\n", "a\n", 0),
    ];
    for (text, expected, status) in rows {
        answers(&rt, rt.alloc(), text, expected, status)?;
    }
    Ok(())
}
