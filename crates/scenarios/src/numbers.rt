//! Each operation on numbers once as compiled, beside values computed by hand.
use calc_num::{Num, NumFault, Reading, Way};
use std::process::Abort;
use std::test::Fail;

/// An operation on two numbers.
#[derive(Clone, Copy)]
enum Operation {
    Add,
    Sub,
    Mul,
    Div,
    Pow,
    FloorMod,
    Quotient,
}

use Operation::{Add, Div, FloorMod, Mul, Pow, Quotient, Sub};

const OPERATIONS: [(Operation, &str, &str, &str); 25] = [
    (Add, "0.1", "0.2", "0.3"),
    (Add, "999999999999999999", "1", "#OVER!"),
    (Sub, "1", "0.000000001", "0.999999999"),
    (Sub, "-999999999999999999", "1", "#OVER!"),
    (Mul, "1.5", "-2.5", "-3.75"),
    (Mul, "0.00001", "0.00005", "0.000000001"),
    (Mul, "0.00001", "0.000049999", "0"),
    (Mul, "999999999.5", "1000000000", "999999999500000000"),
    (Mul, "1000000000", "1000000000", "#OVER!"),
    (Div, "1", "3", "0.333333333"),
    (Div, "-2", "3", "-0.666666667"),
    (Div, "1", "0", "#DIV/0!"),
    (Div, "999999999999999999", "0.1", "#OVER!"),
    (Pow, "1.5", "2", "2.25"),
    (Pow, "2", "-1", "0.5"),
    (Pow, "0", "0", "1"),
    (Pow, "0", "-1", "#DIV/0!"),
    (Pow, "2", "0.5", "#NUM!"),
    (Pow, "1", "1025", "#NUM!"),
    (Pow, "-10", "17", "-100000000000000000"),
    (FloorMod, "7", "-2", "-1"),
    (FloorMod, "-7.5", "2", "0.5"),
    (FloorMod, "1", "0", "#DIV/0!"),
    (Quotient, "-7", "2", "-3"),
    (Quotient, "7.9", "0.5", "15"),
];

const ROUNDINGS: [(&str, i64, Way, &str); 10] = [
    ("2.5", 0, Way::Nearest, "3"),
    ("-2.5", 0, Way::Nearest, "-3"),
    ("2.449", 1, Way::Nearest, "2.4"),
    ("2.41", 1, Way::Away, "2.5"),
    ("-2.41", 1, Way::Toward, "-2.4"),
    ("-2.41", 1, Way::Floor, "-2.5"),
    ("1250", -2, Way::Nearest, "1300"),
    ("0.123456789", 9, Way::Away, "0.123456789"),
    ("1", -18, Way::Away, "#OVER!"),
    ("1", -40, Way::Toward, "0"),
];

const ROOTS: [(&str, &str); 6] = [
    ("2", "1.414213562"),
    ("0", "0"),
    ("0.000000001", "0.000031623"),
    ("144", "12"),
    ("999999999999999999", "999999999.999999999"),
    ("-1", "#NUM!"),
];

const PERCENTS: [(&str, &str); 4] = [
    ("12.5", "0.125"),
    ("0.00000005", "0.000000001"),
    ("-0.00000005", "-0.000000001"),
    ("0.000000049", "0"),
];

fn number(rt: &impl Abort, text: &str) -> Num {
    match Num::read(text.as_bytes()) {
        Reading::Number(number) => number,
        Reading::TooLarge | Reading::NotNumber => {
            assert!(rt; false, "{text}");
            Num::default()
        }
    }
}

/// Stops unless an operation gives what the text says.
fn expect(rt: &impl Abort, found: Result<Num, NumFault>, text: &str) {
    match found {
        Ok(number) => assert_eq!(rt; number.write().bytes(), text.as_bytes(), "{text}"),
        Err(NumFault::Over) => assert_eq!(rt; "#OVER!", text),
        Err(NumFault::DivZero) => assert_eq!(rt; "#DIV/0!", text),
        Err(NumFault::NotNum) => assert_eq!(rt; "#NUM!", text),
    }
}

#[test]
fn operations_give_what_hands_compute(rt: HostRuntime) -> Result<(), Fail> {
    for (operation, left, right, expected) in OPERATIONS {
        let left = number(&rt, left);
        let right = number(&rt, right);
        let found = match operation {
            Add => left.add(right),
            Sub => left.sub(right),
            Mul => left.mul(right),
            Div => left.div(right),
            Pow => left.pow(right),
            FloorMod => left.floor_mod(right),
            Quotient => left.quotient(right),
        };
        expect(&rt, found, expected);
    }
    Ok(())
}

#[test]
fn roundings_roots_and_percents_give_what_hands_compute(rt: HostRuntime) -> Result<(), Fail> {
    for (text, digits, way, expected) in ROUNDINGS {
        expect(&rt, number(&rt, text).round_to(digits, way), expected);
    }
    for (text, expected) in ROOTS {
        expect(&rt, number(&rt, text).sqrt(), expected);
    }
    for (text, expected) in PERCENTS {
        expect(&rt, Ok(number(&rt, text).percent()), expected);
    }
    expect(&rt, Ok(number(&rt, "2.5").neg()), "-2.5");
    Ok(())
}
