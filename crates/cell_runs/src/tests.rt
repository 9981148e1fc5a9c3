use crate::CellRuns;
use calc_addr::{Cell, Run};
use std::test::Fail;

#[test]
fn runs_are_pushed_with_ample_memory(rt: HostRuntime) -> Result<(), Fail> {
    let mut cells = CellRuns::new(rt.alloc());
    cells.push(Run {
        sheet: 2,
        col: 1,
        first: 5,
        last: 6,
    })?;
    let last = Cell {
        sheet: 2,
        col: 1,
        row: 6,
    };
    assert_eq!(rt; cells.len(), 2);
    assert_eq!(rt; cells.runs().len(), 1);
    assert_eq!(rt; cells.cell(1), Some(last));
    assert_eq!(rt; cells.place(last), Some(1));
    Ok(())
}
