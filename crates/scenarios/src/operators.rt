//! What operators give, and what references give them.
use crate::runs::{Row, bytes, expect, outcome};
use std::test::Fail;

const ROWS: [Row; 18] = [
    (
        "=1/3,=2/3,=1/3*3\n",
        "print A1:C1\n",
        "0.333333333,0.666666667,0.999999999\n",
        0,
    ),
    ("=-2^2,=2^3^2,=-5%\n", "print A1:C1\n", "4,64,-0.05\n", 0),
    (
        "=0.1+0.2=0.3\n",
        "set B1 =\"a\"&1+2\nprint A1:B1\n",
        "1,a3\n",
        0,
    ),
    (
        "999999999999999999.999999999,=[.A1]+0.000000001,=[.A1]+[.A1]-[.A1]\n",
        "print A1:C1\n",
        "999999999999999999.999999999,#OVER!,#OVER!\n",
        0,
    ),
    (
        "=[.B1],=[.A1]+1\n",
        "print A1:B1\nset A1 5\ncalc\nprint A1:B1\n",
        "Err:522,Err:522\nrecalculated 1\n5,6\n",
        0,
    ),
    (
        "",
        "set Sheet2.A1 4\nset A1 =[$Sheet2.A1]*2\nset Sheet2.B1 =[.A1]+[$sheet1.A1]\nprint A1\nprint Sheet2.A1:B1\nformulas Sheet2.B1\n",
        "8\n4,12\n=[.A1]+[$Sheet1.A1]\n",
        0,
    ),
    (
        "1\n2,=[.A1:.A3]*10\n3\n,=[.A1:.A3]*10\n",
        "print B1:B4\n",
        "\"\"\n20\n\"\"\n#VALUE!\n",
        0,
    ),
    (
        ",x,#N/A,#DIV/0!,2\n=[.A1]+[.E1],=[.B1]+[.C1],=[.C1]+[.D1],=[.E1]+[.D1],=[.E1]+[.B1]\n",
        "print A2:E2\n",
        "2,#VALUE!,#N/A,#DIV/0!,#VALUE!\n",
        0,
    ),
    (
        ",x,#N/A,#DIV/0!,2\n=[.A1]-[.E1],=[.B1]-[.C1],=[.C1]*[.D1],=[.E1]/[.D1],=[.E1]^[.B1]\n",
        "print A2:E2\n",
        "-2,#VALUE!,#N/A,#DIV/0!,#VALUE!\n",
        0,
    ),
    (
        ",x,#N/A,#DIV/0!,2\n=[.A1]&[.E1],=[.B1]&[.C1],=[.C1]&[.D1],=[.E1]&[.D1],=[.A1]&[.A1]\n",
        "print A2:E2\n",
        "2,#N/A,#N/A,#DIV/0!,\n",
        0,
    ),
    (
        ",x,#N/A,#DIV/0!,2\n=[.A1]<[.E1],=[.B1]=[.C1],=[.C1]<>[.D1],=[.E1]>=[.D1],=[.A1]=[.A1]\n",
        "print A2:E2\n",
        "1,#N/A,#N/A,#DIV/0!,1\n",
        0,
    ),
    (
        ",2\n=[.A1]*[.B1],=[.B1]*[.A1],=[.A1]/[.B1],=[.B1]/[.A1],=[.B1]^[.A1],=[.A1]^[.B1],=[.A1]^[.A1]\n",
        "print A2:G2\n",
        "0,0,0,#DIV/0!,1,0,1\n",
        0,
    ),
    (
        "=0^0,=2^-1,=10^18,=10^17,=1.5^2,=1^1025,=1^1024,=2^0.5,=0^-1\n",
        "print A1:I1\n",
        "1,0.5,#OVER!,100000000000000000,2.25,#NUM!,1,#NUM!,#DIV/0!\n",
        0,
    ),
    (
        "=7/2,=-7/2,=1/0,=0.00000005%,=-0.00000005%,=0.000000049%,=50%%,=-0\n",
        "print A1:H1\n",
        "3.5,-3.5,#DIV/0!,0.000000001,-0.000000001,0,0.005,0\n",
        0,
    ),
    (
        "",
        "set A1 =\"a\"<\"B\"\nset B1 =\"A\"<\"B\"\nset C1 =9<\"1\"\nset D1 =\"\">9\nset E1 =\"\"=[.A2]\nset F1 =0=[.A2]\nset G1 =[.A2]<\"a\"\nset H1 =[.A2]>-1\nprint A1:H1\n",
        "0,1,1,1,1,1,1,1\n",
        0,
    ),
    (
        "x,,#N/A\n",
        "set A2 =+[.A1]\nset B2 =+[.B1]\nset C2 =+[.C1]\nset A3 =-[.A1]\nset B3 =-[.B1]\nset C3 =-[.C1]\nset A4 =[.A1]%\nset B4 =([.B1])\nset C4 =--[.C1]\nset D4 =\"\"+1\nprint A2:D4\n",
        "x,0,#N/A,\n#VALUE!,0,#N/A,\n#VALUE!,0,#N/A,#VALUE!\n",
        0,
    ),
    (
        "1,2,3\n4,=[.A1:.C1],=([.A1:.C1])+1,=[.A1:.C1]\n=[.A1:.B2],=[.A1:.A4],=[.1:.1],=[.A:.A]\n",
        "print A2:D3\n",
        "4,2,4,#VALUE!\n#VALUE!,#VALUE!,3,#VALUE!\n",
        0,
    ),
    (
        "=Rate,=nosuch(1;[.B1]),=nosuch(1;2)+1,=#REF!,=#NULL!&1\n",
        "print A1:E1\nformulas B1\n",
        "#NAME?,Err:522,#NAME?,#REF!,#NULL!\n=NOSUCH(1;[.B1])\n",
        0,
    ),
];

#[test]
fn operators_give_what_hands_compute(rt: HostRuntime) -> Result<(), Fail> {
    for row in ROWS {
        expect(&rt, rt.alloc(), row)?;
    }
    Ok(())
}

#[test]
fn joined_texts_have_a_limit(rt: HostRuntime) -> Result<(), Fail> {
    let alloc = rt.alloc();
    let mut script = bytes(alloc, "set A1 ")?;
    for _ in 0..65_535 {
        script.push(b'x')?;
    }
    script.extend_from_slice(b"\nset B1 =[.A1]&\"\"=[.A1]\nset C1 =[.A1]&\"y\"\nprint B1:C1\n")?;
    let (status, written) = outcome(&rt, alloc, Vec::new(alloc), script)?;
    assert_eq!(rt; written.as_slice(), b"1,#OVER!\n".as_slice());
    assert_eq!(rt; status, 0);
    Ok(())
}
