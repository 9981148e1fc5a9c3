use crate::{Group, GroupColumn};
use calc_addr::LAST_ROW;
use calc_model::CodeId;
use std::test::Fail;

/// The groups as numbers: first row, last row, code.
fn told(column: &GroupColumn, place: usize) -> Option<(u32, u32, u32)> {
    let group = column.groups().get(place)?;
    Some((group.first, group.last, group.code.number()))
}

#[test]
fn every_call_is_made_with_ample_memory(rt: HostRuntime) -> Result<(), Fail> {
    let mut column = GroupColumn::new(rt.alloc());
    column.reserve(2)?;
    column.set_run(1, 6, CodeId::of(7))?;
    column.set_code(LAST_ROW, CodeId::of(7))?;
    column.set_code(LAST_ROW - 1, CodeId::of(8))?;
    column.set_code(3, CodeId::of(8))?;
    assert_eq!(rt; column.groups().len(), 5);
    assert_eq!(rt; told(&column, 1), Some((3, 3, 8)));
    column.set_code(3, CodeId::of(7))?;
    assert_eq!(rt; told(&column, 0), Some((1, 6, 7)));
    column.insert_rows(3, 2)?;
    assert_eq!(rt; told(&column, 0), Some((1, 2, 7)));
    assert_eq!(rt; told(&column, 1), Some((5, 8, 7)));
    assert_eq!(rt; told(&column, 2), None);
    column.erase_rows(3, 2)?;
    assert_eq!(rt; told(&column, 0), Some((1, 6, 7)));
    column.remove(2, 6)?;
    assert_eq!(rt; column.groups().len(), 1);
    assert_eq!(rt; column.group_at(1).is_some(), true);
    assert_eq!(rt; column.group_at(2).is_some(), false);
    Ok(())
}
