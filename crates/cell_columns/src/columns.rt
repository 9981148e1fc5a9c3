ghost use Rattle.std.specs.Prelude.{◌≡◌, IfOk, replicate};
ghost use Rattle.block_column.specs.Tables.{no_slots};
ghost use Rattle.formula_groups.specs.Groups.{no_codes};
ghost use Rattle.cell_columns.specs.Lent.{codes_of, slots_of};

use crate::cells::{code_at, column_number, make_room, numbers_of, put, used_at};
use crate::emptying::{clear_columns, make_rooms};
use crate::reading::content_at;
use crate::slots::{give_back, slot_of};
use block_column::BlockColumn;
use calc_addr::{Area, Cell, NoMemory};
use calc_model::{Content, MOST_CELLS};
use formula_code::CodeTable;
use formula_groups::GroupColumn;
use kept_codes::COLUMNS;
use std::alloc::Global;
use std::marker::Model;

/// What each cell of a book holds, as a column of slots for each column of its sheets, with the groups of
/// its formulas and their codes. Contracts see the cells that aren't empty, in the order of cells.
#[derive(Drop)]
pub struct CellColumns {
    // column c of sheet s stands at 1024 * s + c - 1
    pub(crate) columns: Vec<BlockColumn>,
    pub(crate) groups: Vec<GroupColumn>,
    pub(crate) table: CodeTable,
    pub(crate) len: usize,
}

impl Model for CellColumns {
    ghost use Rattle.std.specs.Coded.{codes};
    ghost use Rattle.calc_model.specs.CellEdits.{CellEntries};
    ghost use Rattle.calc_model.specs.contracts.tree.Tree as coded_tree;

    ghost Value = { CellEntries };

    ghost coded = { Prim.hlevel (codes, coded_tree.the_row.coded) };

    ghost use Rattle.cell_columns.specs.Cells.{cells_of};
    ghost use Rattle.cell_columns.specs.Lent.{AreColumns, slots_of};

    ghost view = { λ c. cells_of c.table (slots_of c.columns.items) };

    ghost invariant = { λ c. AreColumns c.table c.columns.items c.groups.items c.len };
}

impl CellColumns {
    ghost use Rattle.std.specs.Prelude.{◌≡◌, ◌≤◌, [], length, IfOk, OnErr, OnOk};
    ghost use Rattle.calc_model.specs.Books.{content_at, with_content};
    ghost use Rattle.cell_columns.specs.Cells.{cells_only};
    ghost use Rattle.calc_model.specs.CellEdits.{without_area};

    /// No cell. It makes all columns.
    pub fn new(alloc: Global) -> Result<CellColumns, NoMemory>
        ensures { IfOk result (λ c. c ≡ []) }
    {
        let columns = empty_columns(alloc)?;
        let groups = empty_groups(alloc)?;
        Ok(CellColumns {
            columns,
            groups,
            table: CodeTable::new(alloc),
            len: 0,
        })
    }

    /// How many cells aren't empty.
    pub fn len(&self) -> usize
        ensures { result ≡ length self.now }
    {
        self.len
    }

    /// Puts a content into a cell, or empties it. It costs what the setting of a slot in its column does, and
    /// is linear in the content.
    pub fn set(&mut self, alloc: Global, cell: Cell, content: &Content) -> Result<(), NoMemory>
        requires room { length (with_content self.old cell content.now) ≤ MOST_CELLS }
        ensures cells { OnOk result (self.new ≡ with_content self.old cell content.now) }
        ensures kept { OnErr result (self.new ≡ self.old) }
    {
        make_room(&mut self.columns, &mut self.groups, column_number(cell))?;
        let slot = slot_of(alloc, &mut self.table, cell, content)?;
        let code = code_at(self.groups.as_slice(), cell);
        let used = used_at(self.columns.as_slice(), cell);
        put(&mut self.columns, &mut self.groups, cell, slot);
        give_back(&mut self.table, code);
        self.len = self.len + used_at(self.columns.as_slice(), cell) - used;
        Ok(())
    }

    /// Empties the cells of an area. It is linear in the groups of its columns and costs what the emptying of
    /// rows in each of them does. Where memory is refused, it changes nothing.
    pub fn clear(&mut self, area: Area) -> Result<(), NoMemory>
        ensures cells { OnOk result (self.new ≡ without_area self.old area) }
        ensures kept { OnErr result (self.new ≡ self.old) }
    {
        let (from, behind) = numbers_of(area);
        make_rooms(&mut self.columns, &mut self.groups, from, behind)?;
        self.len = clear_columns(
            &mut self.columns,
            &mut self.groups,
            &mut self.table,
            self.len,
            from,
            behind,
            area.first_row,
            area.last_row,
        );
        Ok(())
    }

    /// What a cell holds. It takes the logarithm of the blocks of its column, and is linear in the content.
    pub fn content(&self, alloc: Global, cell: Cell) -> Result<Content, NoMemory>
        ensures { IfOk result (λ content. content ≡ content_at (cells_only self.now) cell) }
    {
        content_at(alloc, self.columns.as_slice(), &self.table, cell)
    }
}

fn empty_columns(alloc: Global) -> Result<Vec<BlockColumn>, NoMemory>
    ensures { IfOk result (λ columns. slots_of columns.items ≡ replicate COLUMNS no_slots) }
{
    let mut columns = Vec::new(alloc);
    columns.reserve(COLUMNS)?;
    for _ in 0..COLUMNS {
        columns.push(BlockColumn::new(alloc)?)?;
    }
    Ok(columns)
}

fn empty_groups(alloc: Global) -> Result<Vec<GroupColumn>, NoMemory>
    ensures { IfOk result (λ groups. codes_of groups.items ≡ replicate COLUMNS no_codes) }
{
    let mut groups = Vec::new(alloc);
    groups.reserve(COLUMNS)?;
    for _ in 0..COLUMNS {
        groups.push(GroupColumn::new(alloc))?;
    }
    Ok(groups)
}
