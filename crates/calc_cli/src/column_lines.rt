//! Lines of a column's groups and of its blocks.
ghost use Rattle.std.specs.Prelude.{◌≡◌, ◌++◌, IfOk, OnOk};
ghost use Rattle.calc_addr.specs.Addresses.{printed_rows};
ghost use Rattle.calc_addr.specs.Places.{IsRows};
ghost use Rattle.cell_columns.specs.ColumnRuns.{IsSheetColumn, rows_of_block, rows_of_group};
ghost use Rattle.calc_cli.specs.ColumnLines.{block_line, blocks_text, group_line, groups_text};

use block_column::Block;
use calc_addr::{NoMemory, Run, write_run};
use formula_groups::Group;
use std::alloc::Global;
use workbook::Workbook;

/// A line for each group of a column, downwards.
#[tactic(auto, unfolding(crate::specs::ColumnLines::groups_text))]
pub(crate) fn group_lines(
    alloc: Global,
    workbook: &Workbook,
    sheet: u8,
    col: u16,
) -> Result<Vec<u8>, NoMemory>
    requires { IsSheetColumn sheet col }
    ensures { IfOk result (λ text. text.items ≡ groups_text workbook.now.book sheet col) }
{
    let mut text = Vec::new(alloc);
    for group in workbook.groups(sheet, col) {
        push_group(sheet, col, *group, &mut text)?;
    }
    Ok(text)
}

fn push_group(sheet: u8, col: u16, group: Group, text: &mut Vec<u8>) -> Result<(), NoMemory>
    requires { IsRows (rows_of_group sheet col group) }
    ensures { OnOk result (text.new.items
        ≡ text.old.items ++ group_line (rows_of_group sheet col group)) }
{
    let (first, last) = (group.first, group.last);
    push_rows(
        Run {
            sheet,
            col,
            first,
            last,
        },
        text,
    )?;
    text.push(b'\n')?;
    Ok(())
}

/// A line for each block of a column, downwards.
#[tactic(auto, unfolding(crate::specs::ColumnLines::blocks_text))]
pub(crate) fn block_lines(
    alloc: Global,
    workbook: &Workbook,
    sheet: u8,
    col: u16,
) -> Result<Vec<u8>, NoMemory>
    requires { IsSheetColumn sheet col }
    ensures { IfOk result (λ text. text.items ≡ blocks_text workbook.now.book sheet col) }
{
    let mut text = Vec::new(alloc);
    for block in workbook.blocks(sheet, col) {
        push_block(sheet, col, *block, &mut text)?;
    }
    Ok(text)
}

fn push_block(sheet: u8, col: u16, block: Block, text: &mut Vec<u8>) -> Result<(), NoMemory>
    requires { IsRows (rows_of_block sheet col block) }
    ensures { OnOk result (text.new.items ≡ text.old.items ++ block_line sheet col block) }
{
    let (first, last) = (block.first, block.last);
    push_rows(
        Run {
            sheet,
            col,
            first,
            last,
        },
        text,
    )?;
    text.push(b' ')?;
    text.extend_from_slice(block.kind.word().as_bytes())?;
    text.push(b'\n')?;
    Ok(())
}

/// Appends the address of rows.
fn push_rows(rows: Run, text: &mut Vec<u8>) -> Result<(), NoMemory>
    ensures { OnOk result (text.new.items ≡ text.old.items ++ printed_rows rows) }
{
    text.extend_from_slice(write_run(rows).bytes())
}
