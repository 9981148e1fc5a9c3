use block_column::{BlockColumn, Kind, Slot};
use calc_addr::{Cell, LAST_ROW, Run};
use calc_model::{CodeId, Fault, Text, Value};
use calc_num::Num;
use formula_groups::GroupColumn;
use std::test::Fail;
use value_column::{ValueColumn, ValueSheets};

#[test]
fn a_text_between_numbers_leaves_one_block(rt: HostRuntime) -> Result<(), Fail> {
    let mut column = BlockColumn::new(rt.alloc())?;
    let mut text = String::new(rt.alloc());
    text.push_str("x")?;
    column.set_range(1, 6, &Slot::Number(Num::default()))?;
    column.set(3, Slot::Words(Text::of(text)))?;
    assert_eq!(rt; column.blocks().len(), 4);
    column.set(3, Slot::Number(Num::default()))?;
    assert_eq!(rt; column.blocks().len(), 2);
    assert_eq!(rt; column.blocks()[0].last, 6);
    assert_eq!(rt; column.blocks()[0].kind, Kind::Number);
    assert_eq!(rt; column.blocks()[1].last, LAST_ROW);
    assert_eq!(rt; column.used(), 6);
    Ok(())
}

#[test]
fn slots_are_set_and_cleared_in_room_that_was_reserved(rt: HostRuntime) -> Result<(), Fail> {
    let mut blocks = BlockColumn::new(rt.alloc())?;
    blocks.reserve(2)?;
    blocks.set(LAST_ROW, Slot::Bad(Fault::NA))?;
    assert_eq!(rt; blocks.blocks().len(), 2);
    blocks.clear(LAST_ROW, LAST_ROW)?;
    assert_eq!(rt; blocks.blocks().len(), 1);
    Ok(())
}

/// How many spans the rows of a column are.
fn span_count(column: &ValueColumn) -> u64 {
    let mut count = 0u64;
    for _span in column.spans(1, LAST_ROW) {
        count = count.saturating_add(1);
    }
    count
}

#[test]
fn values_are_set_and_cleared_in_room_that_was_reserved(rt: HostRuntime) -> Result<(), Fail> {
    let mut values = ValueColumn::new(rt.alloc())?;
    values.reserve(2)?;
    values.set(LAST_ROW, Value::Bad(Fault::NA))?;
    assert_eq!(rt; span_count(&values), 2);
    values.clear(1, LAST_ROW)?;
    assert_eq!(rt; span_count(&values), 1);
    Ok(())
}

#[test]
fn codes_are_set_and_removed_in_room_that_was_reserved(rt: HostRuntime) -> Result<(), Fail> {
    let mut groups = GroupColumn::new(rt.alloc());
    groups.reserve(2)?;
    groups.set_code(LAST_ROW, CodeId::of(1))?;
    assert_eq!(rt; groups.groups().len(), 1);
    groups.remove(1, LAST_ROW)?;
    assert_eq!(rt; groups.groups().len(), 0);
    Ok(())
}

#[test]
fn sheets_are_set_and_cleared_in_room_that_was_reserved(rt: HostRuntime) -> Result<(), Fail> {
    let mut sheets = ValueSheets::new(rt.alloc());
    sheets.reserve(2, 3, 2)?;
    sheets.set(
        Cell {
            sheet: 2,
            col: 3,
            row: 1,
        },
        Value::Bad(Fault::NA),
    )?;
    sheets.clear(Run {
        sheet: 2,
        col: 3,
        first: 1,
        last: LAST_ROW,
    })?;
    assert_eq!(rt; sheets.column(2, 3).is_some(), true);
    assert_eq!(rt; sheets.column(2, 4).is_some(), false);
    Ok(())
}
