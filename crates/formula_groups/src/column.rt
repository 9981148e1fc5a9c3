ghost use Rattle.std.specs.Prelude.{◌≡◌, ◌≤◌, ◌+◌, ◌-◌, ℕ, List, Option, None, Some, length, vec_len, IfSome, OnOk, OnErr, IsOk, slice_get, slice_set};
ghost use Rattle.std.specs.List.{Contains};
ghost use Rattle.std.specs.Option.{option_map};
ghost use Rattle.std.specs.Vec.{vec_capacity};
ghost use Rattle.run_tables.specs.Rows.{AreRows, IsRowEdit, rows_erased, rows_inserted, rows_set, spliced};
ghost use Rattle.formula_groups.specs.Groups.{codes_of, groups_of, no_codes};

use crate::group::Group;
use calc_addr::{LAST_ROW, NoMemory};
use calc_model::CodeId;
use run_tables::{piece_at, splice};
use std::alloc::{AllocError, Global};
use std::marker::Model;

/// How many places an edit of a table may take.
const PLACES: usize = 3;

/// A group with a code, wherever it lies.
fn key_of(code: Option<CodeId>) -> Option<Group>
    ensures { option_map (λ g. g.code) result ≡ code }
{
    Some(Group {
        first: 1,
        last: 1,
        code: code?,
    })
}

/// Puts `rows` rows with a code or none in the place of those from the one behind `from` to `to`.
fn edit(
    groups: &mut Vec<Group>,
    from: u32,
    to: u32,
    rows: u32,
    code: Option<CodeId>,
) -> Result<(), NoMemory>
    requires table { groups.old.items ≡ groups_of (codes_of groups.old.items) }
    requires order { from ≤ to }
    requires to { to ≤ LAST_ROW }
    requires rows { from + rows ≤ LAST_ROW }
    ensures ok { OnOk result ((codes : List (Option ℕ)) → to ≤ length codes →
        groups.old.items ≡ groups_of codes
        → groups.new.items ≡ groups_of (spliced from to rows code codes)) }
    ensures err { OnErr result (groups.new.items ≡ groups.old.items) }
    ensures len { vec_len groups.new ≤ vec_len groups.old + PLACES }
    ensures capacity { vec_capacity groups.old ≤ vec_capacity groups.new }
    ensures succeeds { vec_len groups.old + PLACES ≤ vec_capacity groups.old → IsOk result }
{
    splice(groups, from, to, rows, key_of(code))
}

/// The codes of a column's formulas, kept as groups. Contracts see what each row has, row 1 first,
/// and how many single rows can be set or cleared before memory is asked for.
#[derive(Debug, Drop)]
pub struct GroupColumn {
    groups: Vec<Group>,
}

impl Model for GroupColumn {
    ghost use Rattle.std.specs.Prelude.{◌≡◌, ◌-◌, ◌/◌, map, vec_len};
    ghost use Rattle.std.specs.Vec.{vec_capacity};
    ghost use Rattle.formula_groups.specs.GroupRows.{GroupRows};

    ghost Value = { GroupRows };

    ghost use Rattle.formula_groups.specs.Groups.{codes_of, groups_of};

    ghost view = { λ c.
        record {
          entries = codes_of c.groups.items;
          spare = (vec_capacity c.groups - vec_len c.groups) / 3;
        } };

    ghost invariant = { λ c. c.groups.items ≡ groups_of (codes_of c.groups.items) };
}

impl GroupColumn {
    /// A column without formulas, which takes no memory.
    pub fn new(alloc: Global) -> GroupColumn
        ensures { result.entries ≡ no_codes }
    {
        GroupColumn {
            groups: Vec::new(alloc),
        }
    }

    /// Makes room for the setting or clearing of n rows.
    pub fn reserve(&mut self, n: usize) -> Result<(), NoMemory>
        ensures room { OnOk result (n ≤ self.new.spare) }
        ensures entries { self.new.entries ≡ self.old.entries }
    {
        let places = n.checked_mul(PLACES).ok_or(AllocError)?;
        self.groups.reserve(places)
    }

    /// Gives a row a code. It is logarithmic in the groups, and linear in those behind the row
    /// where the number of groups changes.
    pub fn set_code(&mut self, row: u32, id: CodeId) -> Result<(), NoMemory>
        requires { AreRows row row }
        ensures ok { OnOk result (self.new.entries
            ≡ slice_set self.old.entries (row - 1) (Some id)) }
        ensures err { OnErr result (self.new.entries ≡ self.old.entries) }
        ensures reserved { 1 ≤ self.old.spare → IsOk result }
        ensures spare { OnOk result (self.old.spare ≤ self.new.spare + 1) }
    {
        let _ = &self.groups;
        self.set_run(row, row, id)
    }

    /// Gives neighbouring rows a code. It costs what `set_code` does.
    pub fn set_run(&mut self, first: u32, last: u32, id: CodeId) -> Result<(), NoMemory>
        requires { AreRows first last }
        ensures ok { OnOk result (self.new.entries
            ≡ rows_set (first - 1) (last + 1 - first) (Some id) self.old.entries) }
        ensures err { OnErr result (self.new.entries ≡ self.old.entries) }
        ensures reserved { 1 ≤ self.old.spare → IsOk result }
        ensures spare { OnOk result (self.old.spare ≤ self.new.spare + 1) }
    {
        edit(
            &mut self.groups,
            first - 1,
            last,
            last + 1 - first,
            Some(id),
        )
    }

    /// Takes the codes from neighbouring rows. It costs what `set_code` does.
    pub fn remove(&mut self, first: u32, last: u32) -> Result<(), NoMemory>
        requires { AreRows first last }
        ensures ok { OnOk result (self.new.entries
            ≡ rows_set (first - 1) (last + 1 - first) None self.old.entries) }
        ensures err { OnErr result (self.new.entries ≡ self.old.entries) }
        ensures reserved { 1 ≤ self.old.spare → IsOk result }
        ensures spare { OnOk result (self.old.spare ≤ self.new.spare + 1) }
    {
        edit(&mut self.groups, first - 1, last, last + 1 - first, None)
    }

    /// Puts in rows without a code from a place on, and takes as many from the end. It is linear in
    /// the groups behind the place.
    pub fn insert_rows(&mut self, place: u32, count: u32) -> Result<(), NoMemory>
        requires { IsRowEdit place count }
        ensures ok { OnOk result (self.new.entries
            ≡ rows_inserted (place - 1) count None self.old.entries) }
        ensures err { OnErr result (self.new.entries ≡ self.old.entries) }
        ensures reserved { 2 ≤ self.old.spare → IsOk result }
    {
        self.groups.reserve(2 * PLACES)?;
        edit(&mut self.groups, LAST_ROW - count, LAST_ROW, 0, None)?;
        edit(&mut self.groups, place - 1, place - 1, count, None)
    }

    /// Takes out rows from a place on, and adds as many without a code at the end. It is linear in
    /// the groups behind the place.
    pub fn erase_rows(&mut self, place: u32, count: u32) -> Result<(), NoMemory>
        requires { IsRowEdit place count }
        ensures ok { OnOk result (self.new.entries
            ≡ rows_erased (place - 1) count None self.old.entries) }
        ensures err { OnErr result (self.new.entries ≡ self.old.entries) }
        ensures reserved { 1 ≤ self.old.spare → IsOk result }
    {
        edit(&mut self.groups, place - 1, place - 1 + count, 0, None)
    }

    /// The group of a row, if it has a code. It is logarithmic in the groups.
    pub fn group_at(&self, row: u32) -> Option<Group>
        requires { AreRows row row }
        ensures code { slice_get self.now.entries (row - 1)
            ≡ Some (option_map (λ g. g.code) result) }
        ensures group { IfSome result (Contains (groups_of self.now.entries)) }
        ensures from { IfSome result (λ g. g.first ≤ row) }
        ensures to { IfSome result (λ g. row ≤ g.last) }
    {
        piece_at(self.groups.as_slice(), row)
    }

    /// All groups in order, which the column keeps so.
    pub fn groups(&self) -> &[Group]
        ensures { result.now ≡ groups_of self.now.entries }
    {
        self.groups.as_slice()
    }
}
