//! Which fields are formulas, and how formulas are written back.
use crate::runs::{Row, bytes, expect, outcome};
use std::alloc::{AllocError, Global};
use std::process::Abort;
use std::test::Fail;
use std::thread::Threads;

const ROWS: [Row; 3] = [
    (
        "=( [.$b$2:.A1] + 1.50 ),of:==sum([.C:.A];[.3:.1])%,=FOO(1e20),=1 2\n",
        "formulas A1:D1\n",
        "=([.A1:.$B$2]+1.5),=SUM([.A:.C];[.1:.3])%,=FOO(#OVER!),=1 2\n",
        0,
    ),
    (
        "=SUM({1;2}),=SIN([.A2]),=SUM(A1:A3),=1+\n",
        "formulas A1:D1\n",
        "=SUM({1;2}),=SIN([.A2]),=SUM(A1:A3),=1+\n",
        0,
    ),
    (
        "",
        "set Sheet17.A1 1\nset A1 =[$Sheet17.A1]\nprint A1\nset A1 =[$'Sheet3'.$b$2:.A1]\nformulas A1\n",
        "line 1 refused: off-sheet\n#SYNTAX!\n=[$Sheet3.A1:.$B$2]\n",
        1,
    ),
];

/// Fields of a column, and how `formulas` writes them. A formula is written in another form than its
/// field here, and a field that spells none as it stands. Each token of the grammar stands beside its
/// nearest misses.
const TOKENS: [Row; 6] = [
    // fronts
    (
        "",
        "set A1 = 1\nset A2  =1\nset A3 == 1\nset A4 = =1\nset A5 === 1\nset A6 of:= 1\nset A7 of:== 1\nset A8 of: = 1\nset A9 OF:= 1\nset A10 = \nformulas A1:A10\n",
        "=1\n =1\n=1\n= =1\n=== 1\n=1\n=1\nof: = 1\nOF:= 1\n= \n",
        0,
    ),
    // numbers
    (
        "",
        "set A1 =1.50\nset A2 =1.\nset A3 =.5\nset A4 =.\nset A5 =1e2\nset A6 =1e\nset A7 =1 2\nset A8 =1e20\nformulas A1:A8\n",
        "=1.5\n=1\n=0.5\n=.\n=100\n=1e\n=1 2\n=#OVER!\n",
        0,
    ),
    // error constants
    (
        "",
        "set A1 = #OVER!\nset A2 = #over!\nset A3 = #SYNTAX!\nformulas A1:A3\n",
        "=#OVER!\n= #over!\n= #SYNTAX!\n",
        0,
    ),
    // texts
    (
        "",
        "set A1 = \"a\"\nset A2 = \"a\"\"b\"\nset A3 = \"a\"b\"\nset A4 = \"a\nformulas A1:A4\n",
        "\"=\"\"a\"\"\"\n\"=\"\"a\"\"\"\"b\"\"\"\n\"= \"\"a\"\"b\"\"\"\n\"= \"\"a\"\n",
        0,
    ),
    // references
    (
        "",
        "set A1 =[.$a1]\nset A2 =[.$ a1]\nset A3 = [. A1]\nset A4 =[.amj1048576]\nset A5 =[.amk1]\nset A6 =[.a1048577]\nset A7 =[.a0]\nset A8 =[.b2:.a1]\nset A9 =[.b2 :.a1]\nset A10 =[.b2:a1]\nset A11 =[.c:.a]\nset A12 =[.3:.1]\nset A13 =[.c:.1]\nset A14 =[$sheet16.a1]\nset A15 =[$sheet17.a1]\nformulas A1:A15\n",
        "=[.$A1]\n=[.$ a1]\n= [. A1]\n=[.AMJ1048576]\n=[.amk1]\n=[.a1048577]\n=[.a0]\n=[.A1:.B2]\n=[.b2 :.a1]\n=[.b2:a1]\n=[.A:.C]\n=[.1:.3]\n=[.c:.1]\n=[$Sheet16.A1]\n=[$sheet17.a1]\n",
        0,
    ),
    // names
    (
        "",
        "set A1 = rate\nset A2 = 1rate\nset A3 = AMK1\nset A4 = AMJ1048576\nset A5 = A0\nset A6 = a1\nformulas A1:A6\n",
        "=rate\n= 1rate\n=AMK1\n= AMJ1048576\n=A0\n= a1\n",
        0,
    ),
];

/// The same for the rows of the grammar.
const EXPRESSIONS: [Row; 6] = [
    // calls
    (
        "",
        "set A1 = A1(1)\nset A2 = A1(1\nset A3 = 1(1)\nset A4 = f()\nset A5 = f(;)\nset A6 = f(1;2)\nset A7 = f(1;)\nset A8 = f(1,2)\nformulas A1:A8\n",
        "=A1(1)\n= A1(1\n= 1(1)\n=F()\n= f(;)\n=F(1;2)\n= f(1;)\n\"= f(1,2)\"\n",
        0,
    ),
    // parentheses
    (
        "",
        "set A1 = ( 1 )\nset A2 = ( )\nset A3 = (1\nset A4 = 1)\nformulas A1:A4\n",
        "=(1)\n= ( )\n= (1\n= 1)\n",
        0,
    ),
    // prefix operators
    (
        "",
        "set A1 = - + 1\nset A2 = -\nformulas A1:A2\n",
        "=-+1\n= -\n",
        0,
    ),
    // percent signs
    (
        "",
        "set A1 = 1 % %\nset A2 = %\nformulas A1:A2\n",
        "=1%%\n= %\n",
        0,
    ),
    // infix operators of arithmetic and texts
    (
        "",
        "set A1 =1 ^ 2\nset A2 =1 ^\nset A3 =1 * 2 / 3\nset A4 =1 * / 3\nset A5 =1 + 2 - 3\nset A6 =1 + * 3\nset A7 =1 & 2\nset A8 =1 & & 2\nset A9 =1 = 2\nset A10 =1 == 2\nformulas A1:A10\n",
        "=1^2\n=1 ^\n=1*2/3\n=1 * / 3\n=1+2-3\n=1 + * 3\n=1&2\n=1 & & 2\n=1=2\n=1 == 2\n",
        0,
    ),
    // comparisons, and what is no operator
    (
        "",
        "set A1 =1 <> 2\nset A2 =1 < > 2\nset A3 =1 >< 2\nset A4 =1 <= 2 < 3\nset A5 =1 =< 2\nset A6 =1 >= 2 > 3\nset A7 =1 => 2\nset A8 =1 ; 2\nset A9 =1 ! 2\nset A10 =1 : 2\nformulas A1:A10\n",
        "=1<>2\n=1 < > 2\n=1 >< 2\n=1<=2<3\n=1 =< 2\n=1>=2>3\n=1 => 2\n=1 ; 2\n=1 ! 2\n=1 : 2\n",
        0,
    ),
];

/// A text made of parts, each so many times over.
type Parts = [(&'static str, usize); 3];

/// What stands behind a formula's front and a blank, at a limit of reading and one past it, and what the
/// first shows: parentheses that are open at one point, parameters of a call, tokens, bytes of a name, and
/// bytes of the formula.
const LIMITS: [(Parts, Parts, &'static str); 5] = [
    (
        [("(", 64), ("1", 1), (")", 64)],
        [("(", 65), ("1", 1), (")", 65)],
        "1",
    ),
    (
        [("F(1", 1), (";1", 29), (")", 1)],
        [("F(1", 1), (";1", 30), (")", 1)],
        "#NAME?",
    ),
    (
        [("+", 1), ("1", 1), ("+1", 511)],
        [("+", 2), ("1", 1), ("+1", 511)],
        "512",
    ),
    (
        [("rate", 1), ("s", 251), ("", 0)],
        [("rate", 1), ("s", 252), ("", 0)],
        "#NAME?",
    ),
    (
        [("all_months", 1), ("+price_in_each_month", 409), ("", 0)],
        [("all_months", 1), ("+price_in_each_month", 409), ("s", 1)],
        "#NAME?",
    ),
];

/// The parts behind a front.
fn spelled(alloc: Global, front: &str, parts: Parts) -> Result<String, AllocError> {
    let mut text = String::from_str(alloc, front)?;
    for (part, times) in parts {
        for _ in 0..times {
            text.push_str(part)?;
        }
    }
    Ok(text)
}

/// Stops unless the cell that holds a field is written so, and shows that.
fn expect_written(
    rt: &(impl Abort + Threads + Sync),
    alloc: Global,
    field: &str,
    written: &str,
    shown: &str,
) -> Result<(), AllocError> {
    let mut script = bytes(alloc, "set A1 ")?;
    script.extend_from_slice(field.as_bytes())?;
    script.extend_from_slice(b"\nformulas A1\nprint A1\n")?;
    let (status, output) = outcome(rt, alloc, Vec::new(alloc), script)?;
    let mut lines = bytes(alloc, written)?;
    lines.push(b'\n')?;
    lines.extend_from_slice(shown.as_bytes())?;
    lines.push(b'\n')?;
    assert_eq!(rt; output.as_slice(), lines.as_slice(), "{field}");
    assert_eq!(rt; status, 0, "{field}");
    Ok(())
}

#[test]
fn formulas_are_written_in_one_form(rt: HostRuntime) -> Result<(), Fail> {
    for row in ROWS {
        expect(&rt, rt.alloc(), row)?;
    }
    Ok(())
}

#[test]
fn tokens_part_formulas_from_raw_fields(rt: HostRuntime) -> Result<(), Fail> {
    for row in TOKENS {
        expect(&rt, rt.alloc(), row)?;
    }
    Ok(())
}

#[test]
fn expressions_part_formulas_from_raw_fields(rt: HostRuntime) -> Result<(), Fail> {
    for row in EXPRESSIONS {
        expect(&rt, rt.alloc(), row)?;
    }
    Ok(())
}

#[test]
fn a_formula_past_a_limit_stays_raw(rt: HostRuntime) -> Result<(), Fail> {
    let alloc = rt.alloc();
    for (within, beyond, shown) in LIMITS {
        let field = spelled(alloc, "= ", within)?;
        expect_written(&rt, alloc, &field, &spelled(alloc, "=", within)?, shown)?;
        let field = spelled(alloc, "= ", beyond)?;
        expect_written(&rt, alloc, &field, &field, "#SYNTAX!")?;
    }
    Ok(())
}

#[test]
fn formulas_of_a_book_stand_as_they_are_written(rt: HostRuntime) -> Result<(), Fail> {
    let alloc = rt.alloc();
    let (within, beyond, _) = LIMITS[0];
    let mut book = spelled(alloc, "=", within)?;
    book.push_str(&spelled(alloc, ",=", beyond)?)?;
    book.push('\n')?;
    let script = bytes(alloc, "formulas A1:B1\nprint A1:B1\n")?;
    let (status, written) = outcome(&rt, alloc, bytes(alloc, &book)?, script)?;
    book.push_str("1,#SYNTAX!\n")?;
    assert_eq!(rt; written.as_slice(), book.as_bytes());
    assert_eq!(rt; status, 0);
    Ok(())
}
