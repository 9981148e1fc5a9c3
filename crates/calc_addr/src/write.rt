ghost use Rattle.calc_addr.specs.Addresses.{address, printed_rows, sheet_prefix, sheet_word};
ghost use Rattle.calc_addr.specs.Bracketed.{column_text, corner_text, printed_reference, printed_span, row_text};
ghost use Rattle.calc_addr.specs.Ends.{AreEnds};
ghost use Rattle.calc_addr.specs.Letters.{column_letters};
ghost use Rattle.std.specs.Prelude.{[], decimal, length, ◌*◌, ◌++◌, ◌+◌, ◌<◌, ◌∷◌, ◌≡◌, ◌≤◌};

use crate::cell::{Cell, LAST_COL, LAST_ROW, LAST_SHEET, Run};
use crate::ends::{End, Ends, cols_of, rows_of};
use crate::reference::{Ref, Span};
use std::marker::Model;

/// The text of an address, at most 40 bytes.
#[derive(Drop)]
pub struct AddrText {
    text: [u8; 40],
    len: usize,
}

impl Model for AddrText {
    ghost use Rattle.std.specs.Prelude.{List, take, ℕ, ◌≤◌};

    ghost Value = { List ℕ };

    ghost view = { λ t. take t.len t.text };

    ghost invariant = { λ t. t.len ≤ 40 };
}

impl AddrText {
    fn new() -> AddrText
        ensures { result ≡ [] }
    {
        AddrText {
            text: [0; 40],
            len: 0,
        }
    }

    /// The bytes of the text.
    pub fn bytes(&self) -> &[u8]
        ensures value { result.now ≡ self.now }
        ensures short { length result.now ≤ 40 }
    {
        &self.text[..self.len]
    }

    fn push_text(&mut self, text: &[u8])
        requires { length self.old + length text.now ≤ 40 }
        ensures { self.new ≡ self.old ++ text.now }
    {
        for byte in text {
            self.push(*byte);
        }
    }

    fn push(&mut self, byte: u8)
        requires { length self.old < 40 }
        ensures { self.new ≡ self.old ++ byte ∷ [] }
    {
        self.text[self.len] = byte;
        self.len += 1;
    }

    fn push_number(&mut self, number: u32)
        requires { length self.old + length (decimal number) ≤ 40 }
        ensures { self.new ≡ self.old ++ decimal number }
    {
        if number >= 10 {
            self.push_number(number / 10);
        }
        self.push(b'0' + (number % 10) as u8);
    }

    fn push_letters(&mut self, col: u16)
        requires from { 1 ≤ col }
        requires to { col ≤ LAST_COL }
        requires room { length self.old + length (column_letters col) ≤ 40 }
        ensures { self.new ≡ self.old ++ column_letters col }
    {
        if col > 26 {
            self.push_letters((col - 1) / 26);
        }
        self.push(b'A' + ((col - 1) % 26) as u8);
    }

    fn push_sheet(&mut self, sheet: u8)
        requires to { sheet ≤ LAST_SHEET }
        requires room { length self.old ≤ 33 }
        ensures text { self.new ≡ self.old ++ sheet_word sheet }
        ensures room { length self.new ≤ length self.old + 7 }
    {
        self.push_text(b"Sheet");
        self.push_number(u32::from(sheet) + 1);
    }

    fn push_column(&mut self, col: End)
        requires from { 1 ≤ col.at }
        requires to { col.at ≤ LAST_COL }
        requires room { length self.old ≤ 36 }
        ensures text { self.new ≡ self.old ++ column_text col }
        ensures room { length self.new ≤ length self.old + 4 }
    {
        if col.marked {
            self.push(b'$');
        }
        self.push_letters(col.at as u16);
    }

    fn push_row(&mut self, row: End)
        requires to { row.at ≤ LAST_ROW }
        requires room { length self.old ≤ 32 }
        ensures text { self.new ≡ self.old ++ row_text row }
        ensures room { length self.new ≤ length self.old + 8 }
    {
        if row.marked {
            self.push(b'$');
        }
        self.push_number(row.at);
    }

    fn push_corner(&mut self, col: End, row: End)
        requires col_from { 1 ≤ col.at }
        requires col_to { col.at ≤ LAST_COL }
        requires row_to { row.at ≤ LAST_ROW }
        requires room { length self.old ≤ 28 }
        ensures text { self.new ≡ self.old ++ corner_text col row }
        ensures room { length self.new ≤ length self.old + 12 }
    {
        self.push_column(col);
        self.push_row(row);
    }

    fn push_span(&mut self, span: Span, cols: Ends, rows: Ends)
        requires cols { AreEnds LAST_COL cols }
        requires rows { AreEnds LAST_ROW rows }
        requires room { length self.old ≤ 14 }
        ensures { self.new ≡ self.old ++ printed_span span cols rows }
    {
        match span {
            Span::One => self.push_corner(cols.first, rows.first),
            Span::Cells => {
                self.push_corner(cols.first, rows.first);
                self.push_text(b":.");
                self.push_corner(cols.last, rows.last);
            }
            Span::Columns => {
                self.push_column(cols.first);
                self.push_text(b":.");
                self.push_column(cols.last);
            }
            Span::Rows => {
                self.push_row(rows.first);
                self.push_text(b":.");
                self.push_row(rows.last);
            }
        }
    }
}

/// A cell's address in capitals, with its sheet where that isn't the first, as `Sheet2.B1`.
pub fn write_cell(cell: Cell) -> AddrText
    ensures { result ≡ address cell }
{
    let mut text = front(cell.sheet);
    text.push_corner(End::plain(u32::from(cell.col)), End::plain(cell.row));
    text
}

/// The word of a sheet and a point, or nothing for the first sheet.
fn front(sheet: u8) -> AddrText
    requires { sheet ≤ LAST_SHEET }
    ensures prefix { result ≡ sheet_prefix sheet }
    ensures room { length result ≤ 8 }
{
    let mut text = AddrText::new();
    if sheet > 0 {
        text.push_sheet(sheet);
        text.push(b'.');
    }
    text
}

/// The rows of one column, as `Sheet2.B1:B6`, with the sheet where it isn't the first.
pub fn write_run(run: Run) -> AddrText
    ensures { result ≡ printed_rows run }
{
    let col = End::plain(u32::from(run.col));
    let mut text = front(run.sheet);
    text.push_corner(col, End::plain(run.first));
    text.push(b':');
    text.push_corner(col, End::plain(run.last));
    text
}

/// A reference as it stands between brackets, with capitals and its marks, as `$Sheet2.$A$1:.B2`.
pub fn write_ref(r: Ref) -> AddrText
    ensures { result ≡ printed_reference r }
{
    let mut text = AddrText::new();
    if r.marks.sheet {
        text.push(b'$');
        text.push_sheet(r.area.sheet);
    }
    text.push(b'.');
    text.push_span(r.span, cols_of(r), rows_of(r));
    text
}
