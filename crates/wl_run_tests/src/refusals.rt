//! Cells that are refused, and no cells.
use crate::running::answers;
use std::alloc::{AllocError, Global};
use std::test::Fail;

#[test]
fn refusals(rt: HostRuntime) -> Result<(), Fail> {
    let rows: [(&[u8], &str, u8); 5] = [
        (b"", "", 0),
        (
            b"1.5\n\xff\n37^^1\n8^^78\nf[1,",
            "Refused: real number at byte 1.\nRefused: not UTF-8.\nRefused: base at byte 1.\nRefused: digit at byte 5.\nRefused: unfinished input.\n",
            1,
        ),
        (
            b"(* c *)\n1.5\n\"a\\q\"\n#a\n(* *\n",
            "Refused: real number at byte 9.\nRefused: escape at byte 3.\nRefused: character at byte 1.\nRefused: open comment at byte 1.\n",
            1,
        ),
        (
            b"x ^ ^ 2\nf[a,,b]\n!!a\n)\n170141183460469231731687303715884105728\n",
            "Refused: unexpected input at byte 5.\nRefused: unexpected input at byte 5.\nRefused: unexpected input at byte 1.\nRefused: unexpected input at byte 1.\nRefused: number past 127 bits at byte 1.\n",
            1,
        ),
        (b"g /: l\n", "Refused: unfinished input.\n", 1),
    ];
    for (text, expected, status) in rows {
        answers(&rt, rt.alloc(), text, expected, status)?;
    }
    Ok(())
}

/// So many parentheses around `1`.
fn parentheses(alloc: Global, count: usize) -> Result<Vec<u8>, AllocError> {
    let mut text = Vec::from_elem(alloc, b'(', count)?;
    text.push(b'1')?;
    for _ in 0..count {
        text.push(b')')?;
    }
    text.push(b'\n')?;
    Ok(text)
}

#[test]
fn depth(rt: HostRuntime) -> Result<(), Fail> {
    let deepest = parentheses(rt.alloc(), 399)?;
    answers(&rt, rt.alloc(), deepest.as_slice(), "Out[1]= 1\n", 0)?;
    let deeper = parentheses(rt.alloc(), 400)?;
    answers(
        &rt,
        rt.alloc(),
        deeper.as_slice(),
        "Refused: nested deeper than 400.\n",
        1,
    )
}

/// `1` with so many blanks behind it.
fn blanks(alloc: Global, count: usize) -> Result<Vec<u8>, AllocError> {
    let mut text = Vec::from_elem(alloc, b'1', 1)?;
    for _ in 0..count {
        text.push(b' ')?;
    }
    text.push(b'\n')?;
    Ok(text)
}

#[test]
fn length(rt: HostRuntime) -> Result<(), Fail> {
    let longest = blanks(rt.alloc(), 131_071)?;
    answers(&rt, rt.alloc(), longest.as_slice(), "Out[1]= 1\n", 0)?;
    let longer = blanks(rt.alloc(), 131_072)?;
    answers(
        &rt,
        rt.alloc(),
        longer.as_slice(),
        "Refused: cell longer than 131072 bytes.\n",
        1,
    )
}
