ghost use Rattle.std.specs.Prelude.{◌↔◌, IsTrue};
ghost use Rattle.run_tables.specs.Rows.{AreRows, IsRowEdit};

use crate::cases::{BAD, CASES, Edit, NONE, ONE, Rows};
use block_column::{BlockColumn, Kind, Slot};
use calc_addr::{LAST_ROW, NoMemory};
use calc_model::{CodeId, Fault, Value};
use calc_num::Num;
use formula_groups::GroupColumn;
use std::alloc::Global;
use std::test::Fail;
use value_column::{ValueColumn, ValueSpan};

/// A column that can be edited, and tells its rows.
trait Column {
    fn set(&mut self, row: u32, held: u8) -> Result<(), NoMemory>
        requires { AreRows row row };

    fn fill(&mut self, first: u32, last: u32, held: u8) -> Result<(), NoMemory>
        requires { AreRows first last };

    fn clear(&mut self, first: u32, last: u32) -> Result<(), NoMemory>
        requires { AreRows first last };

    fn insert(&mut self, place: u32, count: u32) -> Result<(), NoMemory>
        requires { IsRowEdit place count };

    fn erase(&mut self, place: u32, count: u32) -> Result<(), NoMemory>
        requires { IsRowEdit place count };

    fn tell(&self, told: &mut Vec<Rows>) -> Result<(), NoMemory>;
}

impl Column for BlockColumn {
    fn set(&mut self, row: u32, held: u8) -> Result<(), NoMemory> {
        self.set(row, slot(held))
    }

    fn fill(&mut self, first: u32, last: u32, held: u8) -> Result<(), NoMemory> {
        self.set_range(first, last, &slot(held))
    }

    fn clear(&mut self, first: u32, last: u32) -> Result<(), NoMemory> {
        self.clear(first, last)
    }

    fn insert(&mut self, place: u32, count: u32) -> Result<(), NoMemory> {
        self.insert_empty(place, count)
    }

    fn erase(&mut self, place: u32, count: u32) -> Result<(), NoMemory> {
        self.erase(place, count)
    }

    fn tell(&self, told: &mut Vec<Rows>) -> Result<(), NoMemory> {
        for block in self.blocks() {
            let held = match block.kind {
                Kind::Number => ONE,
                Kind::Bad => BAD,
                Kind::Empty | Kind::Words | Kind::Raw | Kind::Formula => NONE,
            };
            told.push((block.last, held))?;
        }
        Ok(())
    }
}

fn slot(held: u8) -> Slot {
    match held {
        ONE => Slot::Number(Num::default()),
        BAD => Slot::Bad(Fault::NA),
        _ => Slot::Empty,
    }
}

impl Column for ValueColumn {
    fn set(&mut self, row: u32, held: u8) -> Result<(), NoMemory> {
        let value = match held {
            ONE => Value::Number(Num::default()),
            BAD => Value::Bad(Fault::NA),
            _ => Value::Blank,
        };
        self.set(row, value)
    }

    fn fill(&mut self, first: u32, last: u32, held: u8) -> Result<(), NoMemory> {
        for row in first..last + 1 {
            Column::set(self, row, held)?;
        }
        Ok(())
    }

    fn clear(&mut self, first: u32, last: u32) -> Result<(), NoMemory> {
        self.clear(first, last)
    }

    fn insert(&mut self, place: u32, count: u32) -> Result<(), NoMemory> {
        self.insert_empty(place, count)
    }

    fn erase(&mut self, place: u32, count: u32) -> Result<(), NoMemory> {
        self.erase(place, count)
    }

    fn tell(&self, told: &mut Vec<Rows>) -> Result<(), NoMemory> {
        let mut last = 0u32;
        for span in self.spans(1, LAST_ROW) {
            let held = match span {
                ValueSpan::Small { first: _, items: _ } => ONE,
                ValueSpan::Faults { first: _, items: _ } => BAD,
                ValueSpan::Wide { first: _, items: _ } => NONE,
                ValueSpan::Words { first: _, items: _ } => NONE,
                ValueSpan::Blank { first: _, count: _ } => NONE,
            };
            last = last.saturating_add(span.len().min(LAST_ROW as usize) as u32);
            told.push((last, held))?;
        }
        Ok(())
    }
}

impl Column for GroupColumn {
    fn set(&mut self, row: u32, held: u8) -> Result<(), NoMemory> {
        if held == NONE {
            return self.remove(row, row);
        }
        self.set_code(row, CodeId::of(u32::from(held)))
    }

    fn fill(&mut self, first: u32, last: u32, held: u8) -> Result<(), NoMemory> {
        if held == NONE {
            return self.remove(first, last);
        }
        self.set_run(first, last, CodeId::of(u32::from(held)))
    }

    fn clear(&mut self, first: u32, last: u32) -> Result<(), NoMemory> {
        self.remove(first, last)
    }

    fn insert(&mut self, place: u32, count: u32) -> Result<(), NoMemory> {
        self.insert_rows(place, count)
    }

    fn erase(&mut self, place: u32, count: u32) -> Result<(), NoMemory> {
        self.erase_rows(place, count)
    }

    fn tell(&self, told: &mut Vec<Rows>) -> Result<(), NoMemory> {
        let mut last = 0u32;
        for group in self.groups() {
            if last < group.first.saturating_sub(1) {
                told.push((group.first.saturating_sub(1), NONE))?;
            }
            last = group.last;
            told.push((last, group.code.number().min(9) as u8))?;
        }
        if last < LAST_ROW {
            told.push((LAST_ROW, NONE))?;
        }
        Ok(())
    }
}

fn are_rows(first: u32, last: u32) -> bool
    ensures { IsTrue result ↔ AreRows first last }
{
    1 <= first && first <= last && last <= LAST_ROW
}

fn is_row_edit(place: u32, count: u32) -> bool
    ensures { IsTrue result ↔ IsRowEdit place count }
{
    1 <= place && 1 <= count && place <= LAST_ROW && count <= LAST_ROW + 1 - place
}

/// An edit of a table. One whose rows aren't those of a sheet is left out.
fn apply<C: Column + Drop>(column: &mut C, edit: Edit) -> Result<(), NoMemory> {
    match edit {
        Edit::Set(row, held) if are_rows(row, row) => column.set(row, held),
        Edit::Clear(first, last) if are_rows(first, last) => column.clear(first, last),
        Edit::Insert(place, count) if is_row_edit(place, count) => column.insert(place, count),
        Edit::Erase(place, count) if is_row_edit(place, count) => column.erase(place, count),
        Edit::Range(first, last, held) if are_rows(first, last) => column.fill(first, last, held),
        _ => Ok(()),
    }
}

/// How many cases leave what they say.
fn holding<C: Column + Drop, F: Fn(Global) -> Result<C, NoMemory>>(
    alloc: Global,
    new: F,
) -> Result<usize, NoMemory>
    requires { F.IsAlwaysCallable new }
{
    let mut hold = 0usize;
    for case in CASES {
        let mut column = new(alloc)?;
        for edit in case.edits {
            apply(&mut column, *edit)?;
        }
        let mut told = Vec::new(alloc);
        column.tell(&mut told)?;
        if told.as_slice() == case.left {
            hold = hold.saturating_add(1);
        }
    }
    Ok(hold)
}

#[test]
fn blocks_are_those_of_the_edits(rt: HostRuntime) -> Result<(), Fail> {
    let hold = holding(rt.alloc(), |alloc| BlockColumn::new(alloc))?;
    assert_eq!(rt; hold, CASES.len());
    Ok(())
}

#[test]
fn spans_are_those_of_the_edits(rt: HostRuntime) -> Result<(), Fail> {
    let hold = holding(rt.alloc(), |alloc| ValueColumn::new(alloc))?;
    assert_eq!(rt; hold, CASES.len());
    Ok(())
}

#[test]
fn groups_are_those_of_the_edits(rt: HostRuntime) -> Result<(), Fail> {
    let hold = holding(rt.alloc(), |alloc| Ok(GroupColumn::new(alloc)))?;
    assert_eq!(rt; hold, CASES.len());
    Ok(())
}
