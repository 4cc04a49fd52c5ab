// The figures of the pivots.
use pivot::{Regularisation, is_positive, is_zero, regularised};
use std::io;

const EPS: f64 = 1e-12;

const DELTA: f64 = 1e-7;

// Regularisation on, by its defaults.
fn defaults() -> Regularisation {
    Regularisation::On {
        eps: EPS,
        delta: DELTA,
    }
}

// Whether a pivot is zero, above zero, or neither.
fn side(d: f64) -> &'static str {
    if is_zero(d) {
        "zero"
    } else if is_positive(d) {
        "above zero"
    } else {
        "not above zero"
    }
}

// What a shifted pivot is: delta, or what sign 0 makes of it.
fn shifted(d: f64) -> &'static str {
    if d == DELTA {
        "becomes 1e-7"
    } else if d == DELTA * 0.0 {
        "becomes delta*0"
    } else {
        "becomes another number"
    }
}

// Says whether a pivot is kept or what it becomes, and its side of zero after that.
fn show(rt: &impl Print, regularisation: Regularisation, sign: i8, d: f64) -> io::Result<()> {
    let pivot = regularised(regularisation, sign, d);
    let fate = if pivot.shifted {
        shifted(pivot.value)
    } else if pivot.value == d {
        "is kept"
    } else {
        "is changed"
    };
    let side = side(pivot.value);
    println!(rt; "{fate}, {side}")
}

// The second pivots of two pairs: the last entry less 1 * 1.
pub fn pairs(rt: &impl Print) -> io::Result<()> {
    print!(rt; "[1 1; . -1], signs 1,-1: second pivot -2 ")?;
    show(rt, defaults(), -1, -1.0 - 1.0 * 1.0)?;
    print!(rt; "[1 1; . -1], no signs, defaults: second pivot -2 ")?;
    show(rt, defaults(), 1, -1.0 - 1.0 * 1.0)?;
    print!(rt; "[1 1; . 1], off: second pivot 0 ")?;
    show(rt, Regularisation::Off, 1, 1.0 - 1.0 * 1.0)
}

// The pivots of one unknown, at eps, just below it, at -0, and with sign 0.
pub fn single(rt: &impl Print) -> io::Result<()> {
    print!(rt; "n=1, defaults: 1e-12 ")?;
    show(rt, defaults(), 1, EPS)?;
    print!(rt; "n=1, defaults: the next f64 below ")?;
    show(rt, defaults(), 1, 9.999999999999998e-13)?;
    print!(rt; "n=1, off: -0 ")?;
    show(rt, Regularisation::Off, 1, -0.0)?;
    print!(rt; "n=1, sign 0, defaults: 3 ")?;
    show(rt, defaults(), 0, 3.0)
}
