//! The cells of the generated book.
ghost use Rattle.std.specs.Prelude.{◌≡◌, ◌≤◌, ◌<◌, ◌+◌, pos, true, length, IfOk, OnOk, []};
ghost use Rattle.std.specs.BTreeMap.{insert_entry};
ghost use Rattle.calc_addr.specs.Places.{place_cmp};
ghost use Rattle.calc_model.specs.Books.{is_held};
ghost use Rattle.calc_addr.specs.References.{IsSpanned};
ghost use Rattle.calc_model.specs.CellEdits.{with_entries};
ghost use Rattle.calc_model.specs.GeneratedBook.{cell_reference, column_reference, doubled, generated_entries, running_sum, unmarked, whole, window_sum};
ghost use Rattle.book_parts.specs.GeneratedColumns.{content_of, entries_of, first_of, place_of};

use calc_addr::{Area, Cell, Marks, NoMemory, Ref, Span};
use calc_model::{
    Constant, Content, Formula, MOST_CELLS, MOST_GENERATED_ROWS, Op, Text, Tree, Value,
};
use calc_num::Num;
use cell_columns::CellColumns;
use sqlite_items::{Boxed, Items};
use std::alloc::Global;

/// The raw number of 1.
const ONE: i128 = 1_000_000_000;

const UNMARKED: Marks = Marks {
    sheet: false,
    first_col: false,
    first_row: false,
    last_col: false,
    last_row: false,
};

/// A column of the generated book.
#[derive(Clone, Copy)]
pub(crate) enum GeneratedColumn {
    Numbers { start: u32 },
    Doubles,
    RunningSums,
    WindowSums,
}

/// The cells of the generated book of so many rows. It costs what the setting of each does.
pub(crate) fn generated(alloc: Global, start: u32, rows: u32) -> Result<CellColumns, NoMemory>
    requires { rows ≤ MOST_GENERATED_ROWS }
    ensures { IfOk result (λ cells. cells ≡ with_entries [] (generated_entries start rows)) }
{
    let mut cells = CellColumns::new(alloc)?;
    put_column(alloc, &mut cells, GeneratedColumn::Numbers { start }, rows)?;
    put_column(alloc, &mut cells, GeneratedColumn::Doubles, rows)?;
    put_column(alloc, &mut cells, GeneratedColumn::RunningSums, rows)?;
    put_column(alloc, &mut cells, GeneratedColumn::WindowSums, rows)?;
    Ok(cells)
}

/// Puts a content that isn't empty into a cell.
fn add(
    alloc: Global,
    cells: &mut CellColumns,
    cell: Cell,
    content: &Content,
) -> Result<(), NoMemory>
    requires held { is_held content.now ≡ true }
    requires room { length cells.old < MOST_CELLS }
    ensures cells { OnOk result (cells.new
        ≡ insert_entry place_cmp cells.old cell content.now) }
    ensures longer { OnOk result (length cells.new ≤ length cells.old + 1) }
{
    cells.set(alloc, cell, content)
}

/// Puts the cells of a column among the cells.
fn put_column(
    alloc: Global,
    cells: &mut CellColumns,
    column: GeneratedColumn,
    rows: u32,
) -> Result<(), NoMemory>
    requires rows { rows ≤ MOST_GENERATED_ROWS }
    requires room { length cells.old + rows ≤ MOST_CELLS }
    ensures cells { OnOk result (cells.new
        ≡ with_entries cells.old (entries_of column (first_of column) rows)) }
    ensures longer { OnOk result (length cells.new ≤ length cells.old + rows) }
{
    let behind = rows + 1;
    for row in column.first_row()..behind {
        let content = column.content(alloc, row)?;
        add(alloc, cells, column.cell(row), &content)?;
    }
    Ok(())
}

impl GeneratedColumn {
    /// The first row in which something stands.
    fn first_row(self) -> u32
        ensures { result ≡ first_of self }
    {
        match self {
            GeneratedColumn::WindowSums => 8,
            _ => 1,
        }
    }

    /// The column's cell in a row.
    fn cell(self, row: u32) -> Cell
        requires from { 1 ≤ row }
        requires to { row ≤ MOST_GENERATED_ROWS }
        ensures { result ≡ place_of self row }
    {
        let col = match self {
            GeneratedColumn::Numbers { .. } => 1,
            GeneratedColumn::Doubles => 2,
            GeneratedColumn::RunningSums => 3,
            GeneratedColumn::WindowSums => 4,
        };
        Cell { sheet: 0, col, row }
    }

    /// What stands in a row.
    fn content(self, alloc: Global, row: u32) -> Result<Content, NoMemory>
        requires from { first_of self ≤ row }
        requires to { row ≤ MOST_GENERATED_ROWS }
        ensures { IfOk result (λ content. content ≡ content_of self row) }
    {
        Ok(match self {
            GeneratedColumn::Numbers { start } => number(start, row),
            GeneratedColumn::Doubles => Content::Formula(double(alloc, row)?),
            GeneratedColumn::RunningSums => Content::Formula(running_sum(alloc, row)?),
            GeneratedColumn::WindowSums => Content::Formula(window_sum(alloc, row)?),
        })
    }
}

/// The number of a row.
fn number(start: u32, row: u32) -> Content
    requires { row ≤ MOST_GENERATED_ROWS }
    ensures { result ≡ content_of (GeneratedColumn.Numbers start) row }
{
    let n = (u64::from(start) + 37 * u64::from(row)) % 1000;
    Content::Constant(Constant::of(Value::Number(of_whole(n))))
}

fn of_whole(n: u64) -> Num
    requires { n ≤ 1000 }
    ensures { result ≡ pos (whole n) }
{
    Num::from_raw(i128::from(n) * ONE).unwrap()
}

/// The double of the number of a row.
#[tactic(auto, using(calc_model::proofs::GeneratedKept::doubled_formed))]
fn double(alloc: Global, row: u32) -> Result<Formula, NoMemory>
    requires from { 1 ≤ row }
    requires to { row ≤ MOST_GENERATED_ROWS }
    ensures { IfOk result (λ formula. formula ≡ doubled row) }
{
    Ok(Formula::of(Tree::Binary {
        op: Op::Mul,
        left: Boxed::new(alloc, cell_at(1, row))?,
        right: Boxed::new(alloc, Tree::Number(of_whole(2)))?,
    }))
}

/// The sum of the doubles down to a row.
#[tactic(auto, using(calc_model::proofs::GeneratedKept::cell_formed, calc_model::proofs::GeneratedKept::sum_formed))]
fn running_sum(alloc: Global, row: u32) -> Result<Formula, NoMemory>
    requires from { 1 ≤ row }
    requires to { row ≤ MOST_GENERATED_ROWS }
    ensures { IfOk result (λ formula. formula ≡ running_sum row) }
{
    if row == 1 {
        return Ok(Formula::of(cell_at(2, 1)));
    }
    Ok(Formula::of(Tree::Binary {
        op: Op::Add,
        left: Boxed::new(alloc, cell_at(3, row - 1))?,
        right: Boxed::new(alloc, cell_at(2, row))?,
    }))
}

/// The sum of the numbers of a row and of the seven above it.
#[tactic(auto, using(calc_model::proofs::GeneratedKept::window_sum_formed))]
fn window_sum(alloc: Global, row: u32) -> Result<Formula, NoMemory>
    requires from { 8 ≤ row }
    requires to { row ≤ MOST_GENERATED_ROWS }
    ensures { IfOk result (λ formula. formula ≡ window_sum row) }
{
    let mut args = Items::new(alloc);
    args.push(Tree::Ref(reference(Span::Cells, 1, row - 7, row)))?;
    Ok(Formula::of(Tree::Call {
        name: Text::of(String::from_str(alloc, "SUM")?),
        args,
    }))
}

/// A reference to one cell.
fn cell_at(col: u16, row: u32) -> Tree
    requires from_col { 1 ≤ col }
    requires to_col { col ≤ 4 }
    requires from { 1 ≤ row }
    requires to { row ≤ MOST_GENERATED_ROWS }
    ensures { result ≡ cell_reference col row }
{
    Tree::Ref(reference(Span::One, col, row, row))
}

/// A reference to rows of a column.
fn reference(span: Span, col: u16, first: u32, last: u32) -> Ref
    requires span { IsSpanned span (column_reference span col first last).area unmarked }
    requires from_col { 1 ≤ col }
    requires to_col { col ≤ 4 }
    requires from { 1 ≤ first }
    requires order { first ≤ last }
    requires to { last ≤ MOST_GENERATED_ROWS }
    ensures { result ≡ column_reference span col first last }
{
    let area = Area {
        sheet: 0,
        first_col: col,
        last_col: col,
        first_row: first,
        last_row: last,
    };
    Ref {
        area,
        span,
        marks: UNMARKED,
    }
}
