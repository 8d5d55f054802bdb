//! Each call on outside values: what Python's fractions give, and the faults at the ends of the range.
use std::cmp::Ordering;
use std::test::Fail;
use wl_exact::{Num, NumFault};

const MAX: i128 = i128::MAX;

const OVERFLOW: Result<(i128, i128), NumFault> = Err(NumFault::Overflow);

const ZERO_DIVISOR: Result<(i128, i128), NumFault> = Err(NumFault::ZeroDivisor);

fn parts(answer: Result<Num, NumFault>) -> Result<(i128, i128), NumFault> {
    let number = answer?;
    Ok((number.num(), number.den()))
}

#[test]
fn whole_numbers(rt: HostRuntime) -> Result<(), Fail> {
    for n in [0, 1, -1, MAX, -MAX] {
        let number = Num::int(n).ok_or("in range")?;
        assert_eq!(rt; (number.num(), number.den()), (n, 1));
    }
    assert_eq!(rt; Num::int(i128::MIN), None);
    Ok(())
}

#[test]
fn ratios(rt: HostRuntime) {
    for (p, q, ratio) in [
        (6, -4, Ok((-3, 2))),
        (-6, -4, Ok((3, 2))),
        (-6, 4, Ok((-3, 2))),
        (6, 4, Ok((3, 2))),
        (0, -5, Ok((0, 1))),
        (MAX, MAX, Ok((1, 1))),
        (MAX, -1, Ok((-MAX, 1))),
        (1, 0, ZERO_DIVISOR),
        (i128::MIN, 0, ZERO_DIVISOR),
        (i128::MIN, 3, OVERFLOW),
        (3, i128::MIN, OVERFLOW),
    ] {
        assert_eq!(rt; parts(Num::ratio(p, q)), ratio, "{p}/{q}");
    }
}

#[test]
fn sums(rt: HostRuntime) -> Result<(), Fail> {
    for (p, q, r, s, sum) in [
        (1, 2, 1, 3, Ok((5, 6))),
        (1, 2, -1, 2, Ok((0, 1))),
        (-1, 6, -1, 10, Ok((-4, 15))),
        (7, 12, -5, 18, Ok((11, 36))),
        (0, 1, -5, 7, Ok((-5, 7))),
        (1, 1 << 100, 1, 1 << 100, Ok((1, 1 << 99))),
        (MAX, 1, -MAX, 1, Ok((0, 1))),
        (MAX, 1, 1, 1, OVERFLOW),
        (-MAX, 1, -1, 1, OVERFLOW),
        (1 << 126, 1, -MAX, 2, OVERFLOW),
        (MAX, 2, MAX, 2, OVERFLOW),
        (1, 1 << 64, 1, 12157665459056928801, OVERFLOW),
    ] {
        let left = Num::ratio(p, q)?;
        let right = Num::ratio(r, s)?;
        assert_eq!(rt; parts(left.add(&right)), sum, "{p}/{q} + {r}/{s}");
        assert_eq!(rt; parts(right.add(&left)), sum, "{r}/{s} + {p}/{q}");
    }
    Ok(())
}

#[test]
fn products(rt: HostRuntime) -> Result<(), Fail> {
    for (p, q, r, s, product) in [
        (2, 3, -3, 4, Ok((-1, 2))),
        (-5, 6, -6, 5, Ok((1, 1))),
        (0, 1, -7, 9, Ok((0, 1))),
        (
            10000000000000000000,
            7,
            21,
            1000000000000000000,
            Ok((30, 1)),
        ),
        (1 << 100, 3, 3, 1 << 100, Ok((1, 1))),
        (MAX, 3, 3, MAX, Ok((1, 1))),
        (MAX, 1, -1, 1, Ok((-MAX, 1))),
        (1 << 64, 1, 1 << 62, 1, Ok((1 << 126, 1))),
        (1 << 64, 1, 1 << 63, 1, OVERFLOW),
        (-MAX, 1, MAX, 1, OVERFLOW),
        (1, 1 << 64, 1, 1 << 63, OVERFLOW),
    ] {
        let left = Num::ratio(p, q)?;
        let right = Num::ratio(r, s)?;
        assert_eq!(rt; parts(left.mul(&right)), product, "{p}/{q} * {r}/{s}");
    }
    Ok(())
}

#[test]
fn powers(rt: HostRuntime) -> Result<(), Fail> {
    for (p, q, n, power) in [
        (3, 7, 0, Ok((1, 1))),
        (2, 3, -2, Ok((9, 4))),
        (-2, 3, -3, Ok((-27, 8))),
        (-7, 2, 3, Ok((-343, 8))),
        (MAX, 1, 1, Ok((MAX, 1))),
        (-MAX, 1, -1, Ok((-1, MAX))),
        (2, 1, 126, Ok((1 << 126, 1))),
        (-2, 1, 126, Ok((1 << 126, 1))),
        (1, 2, -126, Ok((1 << 126, 1))),
        (3, 1, 80, Ok((147808829414345923316083210206383297601, 1))),
        (3, 1, 81, OVERFLOW),
        (2, 1, 127, OVERFLOW),
        (-2, 1, 127, OVERFLOW),
        (1, 2, -127, OVERFLOW),
        (2, 1, MAX, OVERFLOW),
        (1, 1, i128::MIN, Ok((1, 1))),
        (-1, 1, MAX, Ok((-1, 1))),
        (-1, 1, i128::MIN, Ok((1, 1))),
        (0, 1, MAX, Ok((0, 1))),
        (0, 1, -1, ZERO_DIVISOR),
    ] {
        let base = Num::ratio(p, q)?;
        assert!(rt; base.num() != 0 || n != 0);
        assert_eq!(rt; parts(base.pow(n)), power, "({p}/{q})^{n}");
    }
    Ok(())
}

#[test]
fn signs_and_floors(rt: HostRuntime) -> Result<(), Fail> {
    for (p, q, floor) in [
        (7, 2, 3),
        (-7, 2, -4),
        (6, 1, 6),
        (-6, 1, -6),
        (0, 1, 0),
        (1, MAX, 0),
        (-1, MAX, -1),
        (MAX, 2, 85070591730234615865843651857942052863),
        (-MAX, 2, -85070591730234615865843651857942052864),
    ] {
        let number = Num::ratio(p, q)?;
        assert_eq!(rt; parts(Ok(number.neg())), Ok((-p, q)), "-({p}/{q})");
        assert_eq!(rt;
            parts(Ok(number.floor())),
            Ok((floor, 1)),
            "floor of {p}/{q}"
        );
    }
    Ok(())
}

#[test]
fn orders(rt: HostRuntime) -> Result<(), Fail> {
    for (p, q, r, s, order) in [
        (1, 2, 1, 3, Ordering::Greater),
        (-1, 2, -1, 3, Ordering::Less),
        (-1, 2, 1, 3, Ordering::Less),
        (1, 3, -1, 2, Ordering::Greater),
        (2, 4, 1, 2, Ordering::Equal),
        (0, 1, -1, MAX, Ordering::Greater),
        (1, MAX, 1, MAX - 1, Ordering::Less),
        (MAX, MAX - 1, MAX - 1, MAX - 2, Ordering::Less),
        (-MAX, MAX - 1, 1 - MAX, MAX - 2, Ordering::Greater),
    ] {
        let left = Num::ratio(p, q)?;
        assert_eq!(rt; left.cmp(&Num::ratio(r, s)?), order, "{p}/{q} and {r}/{s}");
    }
    Ok(())
}

#[test]
fn divisions(rt: HostRuntime) -> Result<(), Fail> {
    for (n, m, quotient, remainder) in [
        (7, 2, Ok((3, 1)), Ok((1, 1))),
        (-7, 2, Ok((-4, 1)), Ok((1, 1))),
        (7, -2, Ok((-4, 1)), Ok((-1, 1))),
        (-7, -2, Ok((3, 1)), Ok((-1, 1))),
        (-6, 3, Ok((-2, 1)), Ok((0, 1))),
        (0, -5, Ok((0, 1)), Ok((0, 1))),
        (5, 0, ZERO_DIVISOR, ZERO_DIVISOR),
        (-MAX, -1, Ok((MAX, 1)), Ok((0, 1))),
        (1, -MAX, Ok((-1, 1)), Ok((1 - MAX, 1))),
        (
            -MAX,
            85070591730234615865843651857942052865,
            Ok((-2, 1)),
            Ok((3, 1)),
        ),
    ] {
        let dividend = Num::int(n).ok_or("in range")?;
        let divisor = Num::int(m).ok_or("in range")?;
        assert_eq!(rt;
            parts(dividend.quotient(&divisor)),
            quotient,
            "{n} over {m}"
        );
        assert_eq!(rt;
            parts(dividend.modulo(&divisor)),
            remainder,
            "{n} modulo {m}"
        );
    }
    Ok(())
}

#[test]
fn divisors(rt: HostRuntime) -> Result<(), Fail> {
    for (n, m, divisor) in [
        (12, 18, 6),
        (-12, 18, 6),
        (12, -18, 6),
        (-12, -18, 6),
        (0, -5, 5),
        (0, 0, 0),
        (-MAX, 0, MAX),
        (MAX, 2, 1),
        (1 << 126, -3802951800684688204490109616128, 1 << 100),
    ] {
        let left = Num::int(n).ok_or("in range")?;
        let right = Num::int(m).ok_or("in range")?;
        assert_eq!(rt;
            parts(Ok(left.gcd(&right))),
            Ok((divisor, 1)),
            "{n} and {m}"
        );
    }
    Ok(())
}
