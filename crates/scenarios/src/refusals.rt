//! Lines that are refused, each beside the nearest that isn't.
use crate::runs::{Row, expect};
use std::test::Fail;

const ROWS: [Row; 6] = [
    (
        "",
        "set AMK1 1\nprint A1:A65537\nset A1\nclear A1:B2\nprint a1\n",
        "line 1 refused: off-sheet\nline 2 refused: too-large\nline 3 refused: command\n\"\"\n",
        1,
    ),
    (
        "1\n",
        "frob A1\nSET A1 2\nset A0 2\nset A1:B1 2\nset A1 \nprint A1\n",
        "line 1 refused: command\nline 2 refused: command\nline 3 refused: command\nline 4 refused: command\nline 5 refused: command\n1\n",
        1,
    ),
    (
        "1\n",
        "calc now\ncalc \nclear\nclear A1 B1\n print A1\nprint A1  \nprint\tA1\n",
        "line 1 refused: command\nrecalculated 0\nline 3 refused: command\nline 4 refused: command\nline 5 refused: command\n1\nline 7 refused: command\n",
        1,
    ),
    (
        "1\n",
        "set A1048577 2\nset A1048576 2\nset AMJ1 3\nclear A1:AMK1\nprint A1\nprint AMJ1\n",
        "line 1 refused: off-sheet\nline 4 refused: off-sheet\n1\n3\n",
        1,
    ),
    (
        "",
        "set Sheet17.A1 1\nset Sheet16.A1 1\nset Sheet0.A1 1\nset Sheet17.A0 1\nset Sheet01.A1 1\nprint Sheet16.A1\n",
        "line 1 refused: off-sheet\nline 3 refused: off-sheet\nline 4 refused: command\nline 5 refused: command\n1\n",
        1,
    ),
    (
        "1,=[.A1]+[.A1]\n",
        "calc\nset A1 2\nset A1048577 3\ncalc\nprint B1\n",
        "recalculated 1\nline 3 refused: off-sheet\nrecalculated 1\n4\n",
        1,
    ),
];

#[test]
fn refused_lines_change_nothing(rt: HostRuntime) -> Result<(), Fail> {
    for row in ROWS {
        expect(&rt, rt.alloc(), row)?;
    }
    Ok(())
}
