//! What the definitions mean: texts with their cells and tokens, worked out by hand and by a second program.
use std::alloc::Global;
use std::process::Abort;
use std::test::Fail;
use wl_scan::{Cell, Cells, Kind, Token, Tokens, literal_value};

/// The cells of a text that is fed in pieces, each with the place of its line feed behind it, and how many they are.
fn cut(rt: &impl Abort, alloc: Global, text: &[u8], size: usize) -> Result<(Vec<u8>, u32), Fail> {
    let mut cells = Cells::new(alloc)?;
    let mut shown = Vec::new(alloc);
    let mut count = 0u32;
    assert!(rt; size > 0);
    for piece in text.chunks(size) {
        let mut rest = piece;
        while !rest.is_empty() {
            assert!(rt; cells.taken() < 1 << 40 && rest.len() < 1 << 40);
            let fed = cells.feed(rest);
            if fed.cell {
                show(&mut shown, cells.cell())?;
                shown.extend_from_slice(format!(in alloc;
                    "<{}>",
                    cells.taken().saturating_sub(1)
                )?.as_bytes())?;
                count = count.wrapping_add(1);
            }
            rest = &rest[fed.used..];
        }
    }
    if cells.finish() {
        show(&mut shown, cells.cell())?;
        shown.extend_from_slice(b"<>")?;
        count = count.wrapping_add(1);
    }
    Ok((shown, count))
}

fn show(shown: &mut Vec<u8>, cell: Cell<'_>) -> Result<(), Fail> {
    match cell {
        Cell::Bytes(bytes) => shown.extend_from_slice(bytes)?,
        Cell::TooLong => shown.extend_from_slice(b"TooLong")?,
    }
    Ok(())
}

#[test]
fn cells_of_texts(rt: HostRuntime) -> Result<(), Fail> {
    for (text, want) in [
        ("", ""),
        (" \t\r\n\x0c\n", ""),
        ("1\n2", "1<1>2<>"),
        ("a +\n  b\n", "a +\n  b<7>"),
        (
            "1 +\n 2 (* two (* nested *) *)\n",
            "1 +\n 2 (* two (* nested *) *)<29>",
        ),
        ("(* c *)\n1.5", "(* c *)\n1.5<>"),
        ("(* c *)\n", ""),
        ("(* c", "(* c<>"),
        ("x (* c *)\n(* d *)\n", "x (* c *)<9>"),
        ("\"a\nb\\\"\n\" y\n", "\"a\nb\\\"\n\" y<10>"),
        ("(* \" *)x\ny", "(* \" *)x<8>y<>"),
        ("(*)\n*)x\n", "(*)\n*)x<7>"),
        ("f[\n)\n]\nx\n", "f[\n)<4>]<6>x<8>"),
        ("f(\n*)\nx", "f(\n*)<5>x<>"),
        ("(", "(<>"),
        ("a\n\n\n b \n", "a<1>b <7>"),
        ("a + +\nb", "a + +<5>b<>"),
    ] {
        for size in [1, 2, 1000] {
            let (got, _) = cut(&rt, rt.alloc(), text.as_bytes(), size)?;
            assert_eq!(rt;
                got.as_slice(),
                want.as_bytes(),
                "{text:?} in pieces of {size}"
            );
        }
    }
    Ok(())
}

#[test]
fn tails_that_go_on(rt: HostRuntime) -> Result<(), Fail> {
    for (tail, want) in [
        ("*", 1),
        ("/", 1),
        ("^", 1),
        ("=", 1),
        ("<", 1),
        (">", 1),
        (",", 1),
        ("|", 1),
        ("@", 1),
        ("~", 1),
        ("?", 1),
        (":", 1),
        ("+", 1),
        ("-", 1),
        ("&&", 1),
        ("/.", 1),
        ("/;", 1),
        ("->", 1),
        ("!-", 1),
        ("/ (* c *) .", 1),
        ("& (* c *) &", 1),
        ("++", 2),
        ("--", 2),
        ("&", 2),
        ("..", 2),
        (";", 2),
        ("!", 2),
        ("=.", 2),
        (")", 2),
        ("_.", 2),
        ("#", 2),
        ("%", 2),
        ("b", 2),
    ] {
        let text = format!(in rt.alloc(); "a {tail}\nb")?;
        let (_, count) = cut(&rt, rt.alloc(), text.as_bytes(), 1000)?;
        assert_eq!(rt; count, want, "{tail}");
    }
    Ok(())
}

#[test]
fn cells_at_the_limit(rt: HostRuntime) -> Result<(), Fail> {
    for (blanks, want_length, want_end) in [
        (131_071, 131_072 + 17, "<131072>2<131074>"),
        (131_072, 7 + 17, "TooLong<131073>2<131075>"),
    ] {
        let mut text = Vec::from_elem(rt.alloc(), b' ', blanks)?;
        text.insert(0, b'1')?;
        text.extend_from_slice(b"\n2\n")?;
        for size in [1000, 1_000_000] {
            let (got, count) = cut(&rt, rt.alloc(), &text, size)?;
            assert_eq!(rt; count, 2);
            assert_eq!(rt; got.len(), want_length, "{blanks}");
            assert!(rt; got.ends_with(want_end.as_bytes()), "{blanks}");
        }
    }
    Ok(())
}

/// The tokens of a text with a space behind each, or its fault alone, which is given again.
fn scan(rt: &impl Abort, alloc: Global, text: &str) -> Result<Vec<u8>, Fail> {
    assert!(rt; text.len() <= 131_072);
    let mut tokens = Tokens::over(text);
    let mut shown = Vec::new(alloc);
    for _i in 0..1000u32 {
        match tokens.next() {
            Ok(Some(token)) => {
                shown.extend_from_slice(token.text.as_bytes())?;
                shown.push(b' ')?;
            }
            Ok(None) => return Ok(shown),
            Err(fault) => {
                assert_eq!(rt; tokens.next(), Err(fault), "{text}");
                shown.clear();
                shown.extend_from_slice(format!(in alloc; "{fault}")?.as_bytes())?;
                return Ok(shown);
            }
        }
    }
    Ok(shown)
}

#[test]
fn tokens_of_texts(rt: HostRuntime) -> Result<(), Fail> {
    for (text, want) in [
        ("", ""),
        (" (* c *) ", ""),
        ("x_.5", "x_. 5 "),
        ("x_..", "x_ .. "),
        ("x_...", "x_ ... "),
        ("_.y", "_. y "),
        ("a_b_c", "a_b _c "),
        ("x____", "x___ _ "),
        ("x_1", "x_ 1 "),
        ("1..5", "1 .. 5 "),
        ("1...5", "1 ... 5 "),
        ("x/.5", "x /. 5 "),
        ("x=.5", "x =. 5 "),
        ("%%1", "%% 1 "),
        ("%12", "%12 "),
        ("###2", "## #2 "),
        ("##a", "## a "),
        ("#1a", "#1 a "),
        ("#_", "# _ "),
        ("\"\n\\t\"", "\"\n\\t\" "),
        ("a(*b*)c", "a c "),
        ("(* \" *) a", "a "),
        ("a *) b", "a * ) b "),
        ("a\u{e9}$1", "a\u{e9}$1 "),
        ("a=!=b", "a =!= b "),
        ("a=!b", "a = ! b "),
        ("a!==b", "a != = b "),
        ("a-->b", "a -- > b "),
        ("a+++b", "a ++ + b "),
        ("a//.b", "a //. b "),
        ("a//@b", "a // @ b "),
        ("a^:=b", "a ^:= b "),
        ("a^:>b", "a ^ :> b "),
        ("a;;;", "a ;; ; "),
        ("!!!a", "!! ! a "),
        ("a&&&b", "a && & b "),
        ("a@@@@b", "a @@@ @ b "),
        ("a====b", "a === = b "),
        ("f[ [1] ]", "f [ [ 1 ] ] "),
        ("16^^ff+2^^101", "16^^ff + 2^^101 "),
        ("36^^Zz_a", "36^^Zz _a "),
        ("0016^^0F", "0016^^0F "),
        ("2^^1..", "2^^1 .. "),
        ("2^^1^^1", "2^^1 ^ ^ 1 "),
        ("16 ^^ ff", "16 ^ ^ ff "),
        ("16^ ^ff", "16 ^ ^ ff "),
        ("x^^1", "x ^ ^ 1 "),
        ("#2^^1", "#2 ^ ^ 1 "),
        ("%2^^1", "%2 ^ ^ 1 "),
        (
            "000170141183460469231731687303715884105727",
            "000170141183460469231731687303715884105727 ",
        ),
        (
            "16^^007fffffffffffffffffffffffffffffff",
            "16^^007fffffffffffffffffffffffffffffff ",
        ),
    ] {
        let got = scan(&rt, rt.alloc(), text)?;
        assert_eq!(rt; got.as_slice(), want.as_bytes(), "{text}");
    }
    Ok(())
}

#[test]
fn faults_of_texts(rt: HostRuntime) -> Result<(), Fail> {
    for (text, want) in [
        ("x__.", "BadChar at byte 4"),
        ("x_h.5", "Real at byte 4"),
        ("1.5", "Real at byte 1"),
        ("1.", "Real at byte 1"),
        ("(* c *)\n1.5", "Real at byte 9"),
        ("x.5", "Real at byte 2"),
        ("....5", "Real at byte 4"),
        ("x=..", "BadChar at byte 4"),
        ("%1.", "BadChar at byte 3"),
        ("#1.5", "Real at byte 3"),
        ("#a", "BadChar at byte 1"),
        ("#$", "BadChar at byte 1"),
        ("#\"a", "BadChar at byte 1"),
        ("\"a\\q\"", "BadEscape at byte 3"),
        ("\"a\\q", "OpenString at byte 1"),
        ("\"a\\", "OpenString at byte 1"),
        ("\"a\\\"", "OpenString at byte 1"),
        ("\"a\" \"b", "OpenString at byte 5"),
        ("(* (* *)", "OpenComment at byte 1"),
        ("a (*)", "OpenComment at byte 3"),
        ("\u{e9} + \\", "BadChar at byte 6"),
        ("a`b", "BadChar at byte 2"),
        ("a~b", "BadChar at byte 2"),
        ("a~~~b", "BadChar at byte 4"),
        ("\u{feff}a", "BadChar at byte 1"),
        ("a\u{a0}b", "BadChar at byte 2"),
        (
            "170141183460469231731687303715884105728",
            "LongNumber at byte 1",
        ),
        (
            "a #170141183460469231731687303715884105728",
            "LongNumber at byte 3",
        ),
        (
            "%170141183460469231731687303715884105728",
            "LongNumber at byte 1",
        ),
        ("170141183460469231731687303715884105728.", "Real at byte 1"),
        ("37^^1", "Base at byte 1"),
        ("1^^1", "Base at byte 1"),
        ("0^^", "Base at byte 1"),
        ("00^^5", "Base at byte 1"),
        ("a+37^^9.", "Base at byte 3"),
        (
            "340282366920938463463374607431768211472^^1",
            "Base at byte 1",
        ),
        ("8^^78", "Digit at byte 5"),
        ("2^^102.", "Digit at byte 6"),
        ("35^^Zz", "Digit at byte 5"),
        ("2^^", "Digit at byte 4"),
        ("2^^ 1", "Digit at byte 4"),
        ("2^^\u{e9}", "Digit at byte 4"),
        ("3 2^^_", "Digit at byte 6"),
        ("2^^1.", "Real at byte 1"),
        ("16^^ff.5", "Real at byte 1"),
        (
            "16^^80000000000000000000000000000000",
            "LongNumber at byte 1",
        ),
        (
            "16^^100000000000000000000000000000000",
            "LongNumber at byte 1",
        ),
        ("16^^80000000000000000000000000000000.", "Real at byte 1"),
    ] {
        let got = scan(&rt, rt.alloc(), text)?;
        assert_eq!(rt; got.as_slice(), want.as_bytes(), "{text}");
    }
    Ok(())
}

/// The kinds of the tokens of a text, each with its place.
fn kinds(alloc: Global, text: &str) -> Result<Vec<u8>, Fail> {
    let mut shown = Vec::new(alloc);
    if text.len() <= 131_072 {
        let mut tokens = Tokens::over(text);
        for _i in 0..1000u32 {
            match tokens.next() {
                Ok(Some(token)) => shown.extend_from_slice(format!(in alloc;
                    "{:?} {} ",
                    token.kind, token.at
                )?.as_bytes())?,
                _ => return Ok(shown),
            }
        }
    }
    Ok(shown)
}

#[test]
fn kinds_of_tokens(rt: HostRuntime) -> Result<(), Fail> {
    let got = kinds(rt.alloc(), "12 x x_ #1 %% \"s\" := (* c *) y")?;
    let want = b"Number 1 Name 4 Pattern 6 Slot 9 Out 12 Text 15 Sign 19 Name 30 ";
    assert_eq!(rt; got.as_slice(), want.as_slice());
    Ok(())
}

#[test]
fn tokens_are_held(rt: HostRuntime) {
    let mut tokens = Tokens::over("12 + x");
    let first = tokens.next();
    let second = tokens.next();
    let third = tokens.next();
    let end = tokens.next();
    assert!(rt;
        matches!(
            first,
            Ok(Some(Token {
                kind: Kind::Number,
                text: "12",
                at: 1
            }))
        )
    );
    assert!(rt;
        matches!(
            second,
            Ok(Some(Token {
                kind: Kind::Sign,
                text: "+",
                at: 4
            }))
        )
    );
    assert!(rt;
        matches!(
            third,
            Ok(Some(Token {
                kind: Kind::Name,
                text: "x",
                at: 6
            }))
        )
    );
    assert!(rt; matches!(end, Ok(None)));
}

#[test]
fn value_of_a_literal(rt: HostRuntime) {
    assert_eq!(rt; literal_value("16^^ff"), 255);
}
