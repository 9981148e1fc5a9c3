//! What fields of a book hold, and what cells show.
use crate::runs::{Row, expect};
use std::test::Fail;

const ROWS: [Row; 7] = [
    ("", "print A1:B1\nprint A1\n", ",\n\"\"\n", 0),
    (
        "1,2,=[.A1]+[.B1],=[.C1]+[.C1]\n",
        "print A1:D1\n",
        "1,2,3,6\n",
        0,
    ),
    (
        "x,=[.A1]+[.B2],=1+\n",
        "print A1:C1\nprint B2\n",
        "x,#VALUE!,#SYNTAX!\n\"\"\n",
        0,
    ),
    (
        "999999999999999999.999999999,0.000000001,=[.A1]+[.B1]\n",
        "print C1\n",
        "#OVER!\n",
        0,
    ),
    (
        "007,1e3,.5,-0,+2,1 000,#N/A,1e18\n",
        "print A1:H1\n",
        "7,1000,0.5,0,2,1 000,#N/A,#OVER!\n",
        0,
    ),
    (
        "1,2\n3\n",
        "print A1:B2\nprint B1:A2\n",
        "1,2\n3,\n1,2\n3,\n",
        0,
    ),
    ("\"a,b\",1\n", "print A1:B1\n", "\"a,b\",1\n", 0),
];

#[test]
fn fields_show_their_values(rt: HostRuntime) -> Result<(), Fail> {
    for row in ROWS {
        expect(&rt, rt.alloc(), row)?;
    }
    Ok(())
}
