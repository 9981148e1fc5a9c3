//! Each shift and move of references once as compiled, and the addresses that are written.
use calc_addr::{
    Ref, Run, delete_row_ref, insert_row_ref, move_ref, read_ref, write_ref, write_run,
};
use std::process::Abort;
use std::test::Fail;

const INSERTED: [(&str, u32, u32, &str); 5] = [
    (".A2", 2, 3, ".A5"),
    (".$A$2:.B4", 3, 1, ".$A$2:.B5"),
    (".A1", 2, 9, ".A1"),
    (".A1048576", 1, 1, "#REF!"),
    (".A:.B", 1, 5, ".A:.B"),
];

const DELETED: [(&str, u32, u32, &str); 5] = [
    (".A5", 2, 3, ".A2"),
    (".A2:.B6", 3, 2, ".A2:.B4"),
    (".A2:.B3", 2, 2, "#REF!"),
    (".A2:.B6", 1, 3, ".A1:.B3"),
    (".2:.4", 3, 1, ".2:.3"),
];

const MOVED: [(&str, i32, i32, &str); 5] = [
    (".A1", 1, 2, ".B3"),
    (".$A1", 1, 2, ".$A3"),
    (".B$2", -1, 5, ".A$2"),
    (".A1", -1, 0, "#REF!"),
    (".A2:.B$5", 0, 4, ".A$5:.B6"),
];

/// Stops unless the reference is there and is written so, or is deleted and `#REF!` is meant.
fn expect(rt: &impl Abort, found: Option<Ref>, text: &str) {
    match found {
        Some(reference) => assert_eq!(rt; write_ref(reference).bytes(), text.as_bytes(), "{text}"),
        None => assert_eq!(rt; "#REF!", text),
    }
}

#[test]
fn references_go_with_rows_and_formulas(rt: HostRuntime) -> Result<(), Fail> {
    for (text, place, count, expected) in INSERTED {
        let reference = read_ref(text.as_bytes()).ok_or("a reference")?;
        expect(&rt, insert_row_ref(reference, place, count), expected);
    }
    for (text, place, count, expected) in DELETED {
        let reference = read_ref(text.as_bytes()).ok_or("a reference")?;
        expect(&rt, delete_row_ref(reference, place, count), expected);
    }
    for (text, cols, rows, expected) in MOVED {
        let reference = read_ref(text.as_bytes()).ok_or("a reference")?;
        expect(&rt, move_ref(reference, cols, rows), expected);
    }
    Ok(())
}

#[test]
fn runs_are_written_with_their_sheet(rt: HostRuntime) -> Result<(), Fail> {
    for (sheet, first, last, text) in [
        (0, 1, 6, "B1:B6"),
        (1, 1, 6, "Sheet2.B1:B6"),
        (0, 4, 4, "B4:B4"),
    ] {
        let run = Run {
            sheet,
            col: 2,
            first,
            last,
        };
        assert_eq!(rt; write_run(run).bytes(), text.as_bytes(), "{text}");
    }
    Ok(())
}
