//! The first notebooks, the last cell of the largest, and three lines.
use crate::{Notebook, summary};
use std::alloc::{AllocError, Global};
use std::test::Fail;

/// The notebook as the bytes of a source.
fn source(alloc: Global, count: u32) -> Result<String, AllocError> {
    let mut notebook = Notebook::new(count);
    let mut text = String::new(alloc);
    let mut line = String::new(alloc);
    for _ in 0..count {
        if notebook.next(&mut line)? {
            text.push_str(line.as_str())?;
            text.push_str("\n")?;
        }
    }
    Ok(text)
}

#[test]
fn notebooks(rt: HostRuntime) -> Result<(), Fail> {
    let rows = [
        (0, ""),
        (1, "{57, 76} /. 57 -> 1\n"),
        (2, "{35, 9} /. 35 -> 1\nSort[{41, 22, 2}]\n"),
        (
            3,
            "Sort[{85, 93, 1}]\nSort[{73, 26, 2}]\nTotal[Table[i^2, {i, 83}]]\n",
        ),
        (
            4,
            "Sort[{18, 71, 1}]\nd[2] = {13, 55}\nd[3] = {15, 11}\nd[4] = {25, 38}\n",
        ),
        (
            7,
            "67.5\nd[2] = {9, 4}\n{4, 15} /. 4 -> 3\n73.5\nd[5] = {36, 44}\nTotal[Table[i^2, {i, 67}]]\n24.5\n",
        ),
    ];
    for (count, want) in rows {
        let text = source(rt.alloc(), count)?;
        assert_eq!(rt; text.as_str(), want);
    }
    Ok(())
}

#[test]
fn the_end(rt: HostRuntime) -> Result<(), Fail> {
    let mut notebook = Notebook::new(20_000);
    let mut line = String::new(rt.alloc());
    for _ in 0..20_000 {
        assert!(rt; notebook.next(&mut line)?);
    }
    assert_eq!(rt; line.as_str(), "Total[Table[i^2, {i, 46}]]");
    for _ in 0..2 {
        assert!(rt; !notebook.next(&mut line)?);
        assert_eq!(rt; line.as_str(), "");
    }
    Ok(())
}

#[test]
fn summaries(rt: HostRuntime) -> Result<(), Fail> {
    let text = summary(rt.alloc(), 2, 0, 18)?;
    assert_eq!(rt; text.as_str(), "cells 2\nrefused 0\nsteps 18\n");
    let most = summary(rt.alloc(), 0, 20_000, u64::MAX)?;
    assert_eq!(rt;
        most.as_str(),
        "cells 0\nrefused 20000\nsteps 18446744073709551615\n"
    );
    Ok(())
}
