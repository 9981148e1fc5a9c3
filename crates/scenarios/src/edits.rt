//! Edits, and which formulas they make stale.
use crate::runs::{Row, expect};
use std::test::Fail;

const ROWS: [Row; 6] = [
    ("", "set A1 a,\"b\"\nprint A1\n", "\"a,\"\"b\"\"\"\n", 0),
    (
        "1,=[.A1]+[.A1],=[.B1]+[.B1],=[.A2]+[.A2]\n",
        "calc\nset A1 3\ncalc\nprint A1:D1\nset A2 4\ncalc\nprint D1\n",
        "recalculated 3\nrecalculated 2\n3,6,12,0\nrecalculated 1\n8\n",
        0,
    ),
    (
        "1,2,=[.A1]+[.B1]\n",
        "calc\nclear A1:B1\ncalc\nprint A1:C1\nclear C1\ncalc\nprint C1\n",
        "recalculated 1\nrecalculated 1\n,,0\nrecalculated 0\n\"\"\n",
        0,
    ),
    (
        "",
        "set A1 1\nset A1 \r\nprint A1\nset A1  \nprint A1\nset B1 x \nprint B1\n",
        "line 2 refused: command\n1\n \nx \n",
        1,
    ),
    (
        "",
        "set Sheet2.A1 4\nset Sheet2.B1 =[.A1]+[.A1]\nset B1 =[.A1]+[.A1]\nprint Sheet2.A1:B1\nprint B1\n",
        "4,8\n0\n",
        0,
    ),
    (
        "",
        "# a comment\n\n   \nset A3 2\nset A2 =[.A3]+[.A3]\nset A1 =[.A2]+[.A2]\ncalc\nset A3 5\ncalc\nprint A1:A3\n",
        "recalculated 2\nrecalculated 2\n20\n10\n5\n",
        0,
    ),
];

#[test]
fn edits_change_what_cells_show(rt: HostRuntime) -> Result<(), Fail> {
    for row in ROWS {
        expect(&rt, rt.alloc(), row)?;
    }
    Ok(())
}
