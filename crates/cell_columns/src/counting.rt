//! How many cells of neighbouring rows aren't empty.
ghost use Rattle.std.specs.Prelude.{ℕ, ◌≡◌, ◌≤◌, ◌<◌, length};
ghost use Rattle.calc_addr.specs.declared.cell.TheConstants.{LAST_ROW};
ghost use Rattle.run_tables.specs.Rows.{AreRows};
ghost use Rattle.calc_model.specs.declared.limits.TheConstants.{MOST_CELLS};
ghost use Rattle.formula_code.specs.Codes.{Codes};
ghost use Rattle.cell_columns.specs.Cells.{cells_of, column_at};
ghost use Rattle.cell_columns.specs.Lent.{slots_of};
ghost use Rattle.cell_columns.specs.Uses.{cell_of, formulas_in, summed};
ghost use Rattle.cell_columns.specs.Walks.{block_overlap, filled_among, filled_in, formulas_by_blocks, formulas_in_block, holds_something, within_rows};

use block_column::{Block, BlockColumn, Kind};
use calc_addr::LAST_ROW;
use kept_codes::COLUMNS;

/// Whether the slots of that kind hold something.
pub(crate) fn holds_something(kind: Kind) -> bool
    ensures { result ≡ holds_something kind }
{
    !matches!(kind, Kind::Empty)
}

/// How many of the rows from the first to the last a block has.
fn overlap(block: Block, first: u32, last: u32) -> usize
    requires { last ≤ LAST_ROW }
    ensures { result ≡ block_overlap first last block }
{
    let from = block.first.max(first);
    let to = block.last.min(last);
    if to < from {
        return 0;
    }
    (to + 1 - from) as usize
}

/// How many of the rows from the first to the last a block has that aren't empty.
fn filled_in(block: Block, first: u32, last: u32) -> usize
    requires { last ≤ LAST_ROW }
    ensures { result ≡ filled_in first last block }
{
    if holds_something(block.kind) {
        overlap(block, first, last)
    } else {
        0
    }
}

/// How many rows of a block hold a formula.
fn formulas_in(block: Block) -> usize
    ensures { result ≡ formulas_in_block block }
{
    if matches!(block.kind, Kind::Formula) {
        overlap(block, 1, LAST_ROW)
    } else {
        0
    }
}

/// How many of some rows aren't empty, by the blocks of their column.
fn count_rows(blocks: &[Block], first: u32, last: u32) -> usize
    requires to { last ≤ LAST_ROW }
    requires few { filled_among first last blocks.now ≤ MOST_CELLS }
    ensures { result ≡ filled_among first last blocks.now }
{
    let mut count = 0;
    for block in blocks {
        count += filled_in(*block, first, last);
    }
    count
}

/// How many cells of neighbouring rows of neighbouring columns aren't empty. Linear in the blocks of these
/// columns.
pub(crate) fn count_cells(
    columns: &[BlockColumn],
    from: usize,
    behind: usize,
    first: u32,
    last: u32,
) -> usize
    requires all { length columns.now ≡ COLUMNS }
    requires order { from ≤ behind }
    requires among { behind ≤ COLUMNS }
    requires rows { AreRows first last }
    requires few { summed cell_of (slots_of columns.now) ≤ MOST_CELLS }
    ensures { (codes : Codes) → result ≡ length
        (within_rows from behind first last (cells_of codes (slots_of columns.now))) }
{
    let mut count = 0;
    for number in from..behind {
        count += count_rows(columns[number].blocks(), first, last);
    }
    count
}

/// How many rows of a column hold a formula, by its blocks.
fn count_formulas(blocks: &[Block]) -> usize
    requires few { formulas_by_blocks blocks.now ≤ MOST_CELLS }
    ensures { result ≡ formulas_by_blocks blocks.now }
{
    let mut count = 0;
    for block in blocks {
        count += formulas_in(*block);
    }
    count
}

/// How many rows of all columns hold a formula. Linear in the blocks.
pub(crate) fn all_formulas(columns: &[BlockColumn]) -> usize
    requires all { length columns.now ≡ COLUMNS }
    requires long { (number : ℕ) → number < COLUMNS
        → length (column_at (slots_of columns.now) number) ≡ LAST_ROW }
    requires few { formulas_in (slots_of columns.now) ≤ MOST_CELLS }
    ensures { result ≡ formulas_in (slots_of columns.now) }
{
    let mut count = 0;
    for number in 0..COLUMNS {
        count += count_formulas(columns[number].blocks());
    }
    count
}
