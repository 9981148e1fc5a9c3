//! Formulas that read a circle.
use crate::runs::{Row, expect};
use std::test::Fail;

const ROWS: [Row; 3] = [
    (
        "=[.B1]+[.C1],=[.A1]+[.C1],1,=[.B1]+[.C1]\n",
        "print A1:D1\n",
        "Err:522,Err:522,1,Err:522\n",
        0,
    ),
    (
        "=[.B1]+[.C1],=[.A1]+[.C1],1\n",
        "calc\nprint A1:C1\nset A1 5\ncalc\nprint A1:C1\ncalc\n",
        "recalculated 2\nErr:522,Err:522,1\nrecalculated 1\n5,6,1\nrecalculated 0\n",
        0,
    ),
    (
        "=[.A1]+[.B1],1\n",
        "print A1\nset A1 =[.B1]+[.B1]\nprint A1\nset B1 =[.A1]+[.A1]\nprint A1:B1\n",
        "Err:522\n2\nErr:522,Err:522\n",
        0,
    ),
];

#[test]
fn circles_show_and_are_broken(rt: HostRuntime) -> Result<(), Fail> {
    for row in ROWS {
        expect(&rt, rt.alloc(), row)?;
    }
    Ok(())
}
