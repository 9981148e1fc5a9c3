ghost use Rattle.std.specs.Prelude.{◌≡◌, ◌<◌, ◌≤◌, ◌^◌, ◌+◌, ◌-◌, ◌↔◌, ℕ, [], None, true, IfNone, IfOk, IfSome, IsTrue, OnErr, OnOk, ◌++◌, length};
ghost use Rattle.calc_model.specs.Formed.{is_formed};
ghost use Rattle.formula_code.specs.Codes.{AreApart, AreUsed, Changes, HasForm, HasRoom, IsCodeAt, IsInterned, IsLive, IsSame, code_at, form_at, live_count, tree_at, used_again, uses_at, with_uses};
ghost use Rattle.calc_model.specs.TreeShifts.{moved_tree, replaced, tree_after_deletion, tree_after_insertion};
ghost use Rattle.calc_model.specs.Changes.{IsChange, IsShift, changed};
ghost use Rattle.formula_code.specs.Digests.{digest_at};
ghost use Rattle.formula_code.specs.Ears.{ears};
ghost use Rattle.calc_model.specs.Homes.{StaysDeleted, StaysInserted, cols_between, home_after_deletion, home_after_insertion, rows_between};
ghost use Rattle.formula_code.specs.Names.{UsesName};
ghost use Rattle.formula_code.specs.Nodes.{postfix};
ghost use Rattle.formula_code.specs.Relative.{relative};

use crate::building::build;
use crate::digest::digest;
use crate::ears::push_ears;
use crate::index::Index;
use crate::kept::Kept;
use crate::slots::Slots;
use crate::token::Tokens;
use calc_addr::{Cell, NoMemory};
use calc_model::{
    Change, CodeId, Ear, MOST_TOKENS, NameTable, Tree, home_after_deletion, home_after_insertion,
};
use std::alloc::Global;
use std::marker::Model;

/// How many codes are tried before one is looked up, by the columns of their cells.
const RECENT: usize = 64;

/// Formulas as token arrays, relative to their cells. Each form is kept once, with the number of its uses.
/// Contracts see a list: at each place the code with that number, if it is live.
#[derive(Drop)]
pub struct CodeTable {
    slots: Slots,
    index: Index,
    // for each column, counted around, a number that was asked for there
    recent: [u32; RECENT],
    alloc: Global,
}

impl Model for CodeTable {
    ghost use Rattle.std.specs.Coded.{coded_list, coded_option};
    ghost use Rattle.formula_code.specs.Codes.{Codes, code_of_code};

    ghost Value = { Codes };

    ghost coded = { coded_list (coded_option code_of_code) };

    ghost use Rattle.formula_code.specs.Table.{IsTable};

    ghost view = { λ t. t.slots };

    ghost invariant = { λ t. IsTable t.slots t.index };
}

impl CodeTable {
    /// A table without codes.
    pub fn new(alloc: Global) -> CodeTable
        ensures { result ≡ [] }
    {
        CodeTable {
            slots: Slots::new(alloc),
            index: Index::new(alloc),
            recent: [0; RECENT],
            alloc,
        }
    }

    /// Two live codes are one exactly where their forms are, and each has a use.
    pub fn are_apart(&self)
        ensures apart { AreApart self.now }
        ensures used { AreUsed self.now }
    {
        let _ = &self.slots;
    }

    /// Whether the number has the form of the tree at `home`.
    fn has_form(&self, number: u32, tree: &Tree, home: Cell) -> bool
        ensures { IsTrue result ↔ HasForm self.now number (relative home tree.now) }
    {
        match self.slots.get(number) {
            Some(code) => code.has_form(tree, home),
            None => false,
        }
    }

    /// The number of the code of the tree at `home`, if it is live.
    fn find(&self, digest: u64, tree: &Tree, home: Cell) -> Option<u32>
        requires { digest ≡ digest_at home tree.now }
        ensures found { IfSome result (λ id. HasForm self.now id (relative home tree.now)) }
        ensures missed { IfNone result ((id : ℕ) → ¬ HasForm self.now id (relative home tree.now)) }
    {
        for number in self.index.ids(digest) {
            if self.has_form(*number, tree, home) {
                return Some(*number);
            }
        }
        None
    }

    /// The number of the code of a tree at `home`, which has one use more. Linear in the tree where its
    /// code is live, and then without memory.
    pub fn intern(&mut self, tree: &Tree, home: Cell) -> Result<CodeId, NoMemory>
        requires formed { is_formed tree.now ≡ true }
        requires room { HasRoom self.old }
        ensures interned { IfOk result (IsInterned self.old self.new home tree.now) }
        ensures err { OnErr result (IsSame self.old self.new) }
    {
        let place = usize::from(home.col) % RECENT;
        let recent = self.recent[place];
        if self.has_form(recent, tree, home) {
            return Ok(self.use_again(recent));
        }
        let digest = digest(tree, home);
        let id = match self.find(digest, tree, home) {
            Some(number) => self.use_again(number),
            None => self.add(digest, tree, home)?,
        };
        self.recent[place] = id.number();
        Ok(id)
    }

    fn use_again(&mut self, number: u32) -> CodeId
        requires live { IsLive self.old number }
        requires fits { uses_at self.old number + 1 < 2 ^ 32 }
        ensures id { result ≡ number }
        ensures changes { Changes self.old self.new number
            (used_again self.old number (form_at self.old number)) }
    {
        match self.slots.get(number) {
            Some(code) => {
                let uses = code.uses() + 1;
                self.slots.set_uses(number, uses);
                CodeId::of(number)
            }
            None => unreachable!(),
        }
    }

    /// The number of a new code.
    fn add(&mut self, digest: u64, tree: &Tree, home: Cell) -> Result<CodeId, NoMemory>
        requires formed { is_formed tree.now ≡ true }
        requires codes { live_count self.old < 2 ^ 24 }
        requires digest { digest ≡ digest_at home tree.now }
        requires missing { (id : ℕ) → ¬ HasForm self.old id (relative home tree.now) }
        ensures changes { IfOk result (λ id.
            Changes self.old self.new id (used_again self.old id (relative home tree.now))) }
        ensures new { IfOk result (λ id. code_at self.old id ≡ None) }
        ensures err { OnErr result (IsSame self.old self.new) }
    {
        let code = Kept::of(self.alloc, tree, home, digest)?;
        let number = self.slots.insert(code)?;
        if let Err(refused) = self.index.add(self.alloc, digest, number) {
            self.slots.remove(number);
            return Err(refused);
        }
        Ok(CodeId::of(number))
    }

    /// Adds uses of a code.
    pub fn take(&mut self, id: CodeId, uses: u32)
        requires live { IsLive self.old id }
        requires fits { uses_at self.old id + uses < 2 ^ 32 }
        ensures { Changes self.old self.new id
            (with_uses (form_at self.old id) (uses_at self.old id + uses)) }
    {
        let number = id.number();
        match self.slots.get(number) {
            Some(code) => {
                let sum = code.uses() + uses;
                self.slots.set_uses(number, sum);
            }
            None => unreachable!(),
        }
    }

    /// Removes uses of a code, which goes with its last one. Then it is linear in the codes with one
    /// digest.
    pub fn give_back(&mut self, id: CodeId, uses: u32)
        requires live { IsLive self.old id }
        requires there { uses ≤ uses_at self.old id }
        ensures { Changes self.old self.new id
            (with_uses (form_at self.old id) (uses_at self.old id - uses)) }
    {
        let number = id.number();
        let Some(code) = self.slots.get(number) else {
            unreachable!()
        };
        let left = code.uses() - uses;
        if left > 0 {
            self.slots.set_uses(number, left);
        } else {
            let digest = code.digest();
            self.index.remove(digest, number);
            self.slots.remove(number);
        }
    }

    /// The tree of a code for a formula at `home`. Linear in its nodes and the bytes of its texts.
    pub fn tree_at(&self, alloc: Global, id: CodeId, home: Cell) -> Result<Tree, NoMemory>
        requires { IsCodeAt self.now id home }
        ensures { IfOk result (λ tree. tree ≡ tree_at self.now id home) }
    {
        build(alloc, self.tokens_at(id, home), Change::Stays, home)
    }

    /// The nodes of a code's tree at `home`, in postfix order.
    pub fn tokens_at(&self, id: CodeId, home: Cell) -> Tokens<'_>
        requires { IsCodeAt self.now id home }
        ensures nodes { result ≡ postfix (tree_at self.now id home) }
        ensures few { length result ≤ MOST_TOKENS }
        ensures formed { is_formed (tree_at self.now id home) ≡ true }
    {
        match self.slots.get(id.number()) {
            Some(code) => code.tokens(home),
            None => unreachable!(),
        }
    }

    /// Appends what the formula at `home` reads, with the ends that move. Linear in its nodes, with a lookup
    /// for each name.
    pub fn ears_at<N: NameTable>(
        &self,
        id: CodeId,
        home: Cell,
        names: &N,
        out: &mut Vec<Ear>,
    ) -> Result<(), NoMemory>
        requires { IsCodeAt self.now id home }
        ensures ears { OnOk result (out.new.items ≡ out.old.items
            ++ ears home (N.entries names.now) (tree_at self.now id home)) }
        ensures err { OnErr result (out.new.items ≡ out.old.items) }
    {
        let before = out.len();
        let pushed = push_ears(self.tokens_at(id, home), home, names, out);
        if pushed.is_err() {
            out.truncate(before);
        }
        pushed
    }

    /// Whether the formula has that name, whatever the case of its ASCII letters. Linear in its nodes.
    pub fn uses_name(&self, id: CodeId, name: &[u8]) -> bool
        requires { IsLive self.now id }
        ensures { IsTrue result ↔ UsesName (form_at self.now id) name.now }
    {
        match self.slots.get(id.number()) {
            Some(code) => code.uses_name(name),
            None => unreachable!(),
        }
    }

    /// The code of the moved formula at its new cell, which has one use more. Linear in the formula.
    pub fn moved(&mut self, id: CodeId, from: Cell, to: Cell) -> Result<CodeId, NoMemory>
        requires at { IsCodeAt self.old id from }
        requires room { HasRoom self.old }
        ensures moved { IfOk result (IsInterned self.old self.new to
            (moved_tree (cols_between from to) (rows_between from to) (tree_at self.old id from))) }
        ensures err { OnErr result (IsSame self.old self.new) }
    {
        let cols = i32::from(to.col) - i32::from(from.col);
        let rows = to.row as i32 - from.row as i32;
        self.intern_changed(id, from, Change::Moves { cols, rows }, to)
    }

    /// The code of the formula where rows of a sheet are inserted, at the cell to which it goes. It has
    /// one use more. Linear in the formula.
    pub fn row_inserted(
        &mut self,
        id: CodeId,
        home: Cell,
        sheet: u8,
        place: u32,
        count: u32,
    ) -> Result<CodeId, NoMemory>
        requires at { IsCodeAt self.old id home }
        requires room { HasRoom self.old }
        requires shift { IsShift place count }
        requires stays { StaysInserted sheet place count home }
        ensures shifted { IfOk result (IsInterned self.old self.new
            (home_after_insertion sheet place count home)
            (tree_after_insertion home sheet place count (tree_at self.old id home))) }
        ensures err { OnErr result (IsSame self.old self.new) }
    {
        let to = home_after_insertion(sheet, place, count, home);
        self.intern_changed(
            id,
            home,
            Change::Inserted {
                sheet,
                place,
                count,
            },
            to,
        )
    }

    /// The code of the formula where rows of a sheet are deleted, at the cell to which it goes. It has
    /// one use more. Linear in the formula.
    pub fn row_deleted(
        &mut self,
        id: CodeId,
        home: Cell,
        sheet: u8,
        place: u32,
        count: u32,
    ) -> Result<CodeId, NoMemory>
        requires at { IsCodeAt self.old id home }
        requires room { HasRoom self.old }
        requires shift { IsShift place count }
        requires stays { StaysDeleted sheet place count home }
        ensures shifted { IfOk result (IsInterned self.old self.new
            (home_after_deletion sheet place count home)
            (tree_after_deletion home sheet place count (tree_at self.old id home))) }
        ensures err { OnErr result (IsSame self.old self.new) }
    {
        let to = home_after_deletion(sheet, place, count, home);
        self.intern_changed(
            id,
            home,
            Change::Deleted {
                sheet,
                place,
                count,
            },
            to,
        )
    }

    /// Whether the code serves the changed formula at the cell `to` too. False says nothing. Linear in its
    /// nodes, without memory.
    pub fn stays(&self, id: CodeId, home: Cell, change: Change, to: Cell) -> bool
        requires at { IsCodeAt self.now id home }
        requires change { IsChange change }
        ensures { IsTrue result
            → relative to (replaced (changed change home) (tree_at self.now id home))
            ≡ form_at self.now id }
    {
        match self.slots.get(id.number()) {
            Some(code) => code.stays(home, change, to),
            None => unreachable!(),
        }
    }

    /// The code of the formula at `home` with a change of its references, at the cell `to`.
    fn intern_changed(
        &mut self,
        id: CodeId,
        home: Cell,
        change: Change,
        to: Cell,
    ) -> Result<CodeId, NoMemory>
        requires at { IsCodeAt self.old id home }
        requires room { HasRoom self.old }
        requires change { IsChange change }
        ensures interned { IfOk result (IsInterned self.old self.new to
            (replaced (changed change home) (tree_at self.old id home))) }
        ensures err { OnErr result (IsSame self.old self.new) }
    {
        let tokens = self.tokens_at(id, home);
        if self.stays(id, home, change, to) {
            self.recent[usize::from(to.col) % RECENT] = id.number();
            return Ok(self.use_again(id.number()));
        }
        let tree = build(self.alloc, tokens, change, home)?;
        self.intern(&tree, to)
    }
}
