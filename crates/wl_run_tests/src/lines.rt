//! A session, line by line.
use std::alloc::Global;
use std::process::Abort;
use std::test::Fail;
use wl_ports::{NoLedger, Work};
use wl_scan::Cell;
use wl_session::{Form, LineEnd, LineFault, Options, Session};
use wl_syntax::SyntaxFault;

#[test]
fn refused_lines(rt: HostRuntime) -> Result<(), Fail> {
    let options = Options {
        steps: 5,
        total: Some(7),
        form: Form::Full,
    };
    let mut session = Session::new(rt.alloc(), options)?;
    let mut work = Work::new(NoLedger);
    let end = session.line(Cell::Bytes(b"f[1,"), &mut work)?;
    assert!(&rt;
        matches!(
            end,
            LineEnd::Refused(LineFault::Syntax(SyntaxFault::Unclosed))
        )
    );
    assert_eq!(&rt;
        session.pending(),
        b"Refused: unfinished input.\n".as_slice()
    );
    let end = session.line(Cell::TooLong, &mut work)?;
    assert!(&rt; matches!(end, LineEnd::Refused(LineFault::TooLong)));
    assert_eq!(&rt;
        session.pending(),
        b"Refused: cell longer than 131072 bytes.\n".as_slice()
    );
    assert!(&rt; session.history().is_empty());
    assert!(&rt; session.definitions().consult("Plus", &mut work).is_some());
    let counts = session.counts();
    assert_eq!(&rt; (counts.cells, counts.refused, counts.steps), (2, 2, 0));
    Ok(())
}

/// What a new session writes for these cells, and the steps of all together.
fn writes(
    rt: &impl Abort,
    alloc: Global,
    (steps, total): (u64, Option<u64>),
    cells: &[&[u8]],
    expected: &str,
    taken: u64,
) -> Result<(), Fail> {
    let options = Options {
        steps,
        total,
        form: Form::Input,
    };
    let mut session = Session::new(alloc, options)?;
    let mut work = Work::new(NoLedger);
    let mut text = Vec::new(alloc);
    for cell in cells {
        assert!(rt; cell.len() <= 131_072);
        let _end = session.line(Cell::Bytes(cell), &mut work)?;
        text.extend_from_slice(session.pending())?;
    }
    assert_eq!(rt; text.as_slice(), expected.as_bytes());
    assert_eq!(rt; session.counts().steps, taken);
    Ok(())
}

#[test]
fn budgets(rt: HostRuntime) -> Result<(), Fail> {
    let alloc = rt.alloc();
    let lists: [&[u8]; 2] = [b"{1, 2}", b"{%, 3}"];
    let whole = "Out[1]= {1, 2}\nOut[2]= {{1, 2}, 3}\n";
    writes(&rt, alloc, (6, None), &lists, whole, 8)?;
    let by_steps = "Out[1]= {1, 2}\nGeneral::steps: Step budget of 5 exceeded.\nOut[2]= $Aborted\n";
    writes(&rt, alloc, (5, None), &lists, by_steps, 7)?;
    writes(&rt, alloc, (9, Some(8)), &lists, whole, 8)?;
    let by_total =
        "Out[1]= {1, 2}\nGeneral::total: Total step budget of 7 exceeded.\nOut[2]= $Aborted\n";
    writes(&rt, alloc, (9, Some(7)), &lists, by_total, 7)?;
    let none_left = "General::steps: Step budget of 1 exceeded.\nOut[1]= $Aborted\n";
    writes(&rt, alloc, (1, Some(1)), &[b"{1, 2}"], none_left, 1)?;
    Ok(())
}

#[test]
fn steps(rt: HostRuntime) -> Result<(), Fail> {
    let alloc = rt.alloc();
    let rows: [(&[u8], &str, u64); 4] = [
        (b"x = {1, 2}", "Out[1]= {1, 2}\n", 6),
        (b"i = 1; i++", "Out[1]= 1\n", 12),
        (b"While[False]", "", 5),
        (
            b"SetAttributes[List, Listable]; {{x}}",
            "$IterationLimit::itlim: Iteration limit of 1000 exceeded.\nOut[1]= $Aborted\n",
            5_001,
        ),
    ];
    for (cell, expected, taken) in rows {
        writes(&rt, alloc, (10_000, None), &[cell], expected, taken)?;
    }
    Ok(())
}

#[test]
fn leaves_of_a_match(rt: HostRuntime) -> Result<(), Fail> {
    let alloc = rt.alloc();
    let cell: [&[u8]; 1] = [b"MatchQ[q[a, a, a, a, a, a, a, a, a, a], q[x___, y___, z___, b]]"];
    writes(&rt, alloc, (85, None), &cell, "Out[1]= False\n", 85)?;
    let ended = "General::steps: Step budget of 84 exceeded.\nOut[1]= $Aborted\n";
    writes(&rt, alloc, (84, None), &cell, ended, 84)
}
