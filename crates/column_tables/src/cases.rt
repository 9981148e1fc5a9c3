use calc_addr::LAST_ROW;

/// What a row holds: nothing, a number, or an error.
pub const NONE: u8 = 0;

pub const ONE: u8 = 1;

pub const BAD: u8 = 2;

/// An edit of a column. Rows are the first and the last, and a place has a count.
#[derive(Clone, Copy)]
pub enum Edit {
    Set(u32, u8),
    Range(u32, u32, u8),
    Clear(u32, u32),
    Insert(u32, u32),
    Erase(u32, u32),
}

/// Neighbouring rows that hold the same, by the last of them.
pub type Rows = (u32, u8);

/// Edits of an empty column, and what they leave, down to the last row.
pub struct Case {
    pub edits: &'static [Edit],
    pub left: &'static [Rows],
}

pub const CASES: &[Case] = &[
    // On a column that holds nothing.
    Case {
        edits: &[
            Edit::Clear(1, LAST_ROW),
            Edit::Erase(1, 1),
            Edit::Erase(LAST_ROW, 1),
            Edit::Insert(1, LAST_ROW),
        ],
        left: &[(LAST_ROW, NONE)],
    },
    // At the first row and the last two.
    Case {
        edits: &[
            Edit::Set(1, ONE),
            Edit::Set(LAST_ROW, ONE),
            Edit::Set(LAST_ROW - 1, BAD),
        ],
        left: &[
            (1, ONE),
            (LAST_ROW - 2, NONE),
            (LAST_ROW - 1, BAD),
            (LAST_ROW, ONE),
        ],
    },
    Case {
        edits: &[
            Edit::Range(LAST_ROW - 1, LAST_ROW, ONE),
            Edit::Clear(LAST_ROW, LAST_ROW),
        ],
        left: &[(LAST_ROW - 2, NONE), (LAST_ROW - 1, ONE), (LAST_ROW, NONE)],
    },
    // At the first and the last row of a block.
    Case {
        edits: &[Edit::Range(5, 9, ONE), Edit::Set(5, BAD), Edit::Set(9, BAD)],
        left: &[(4, NONE), (5, BAD), (8, ONE), (9, BAD), (LAST_ROW, NONE)],
    },
    Case {
        edits: &[
            Edit::Range(5, 9, ONE),
            Edit::Clear(5, 5),
            Edit::Clear(9, 9),
            Edit::Set(10, ONE),
        ],
        left: &[(5, NONE), (8, ONE), (9, NONE), (10, ONE), (LAST_ROW, NONE)],
    },
    // A block of one row between unlike ones, and its end.
    Case {
        edits: &[
            Edit::Set(1, ONE),
            Edit::Set(2, BAD),
            Edit::Set(3, ONE),
            Edit::Set(4, BAD),
            Edit::Set(2, ONE),
        ],
        left: &[(3, ONE), (4, BAD), (LAST_ROW, NONE)],
    },
    // Blocks that join over a hole: by what is put in it, and by its end.
    Case {
        edits: &[
            Edit::Range(1, 2, ONE),
            Edit::Range(4, 5, ONE),
            Edit::Set(3, ONE),
        ],
        left: &[(5, ONE), (LAST_ROW, NONE)],
    },
    Case {
        edits: &[
            Edit::Range(1, 2, ONE),
            Edit::Range(4, 5, ONE),
            Edit::Erase(3, 1),
        ],
        left: &[(4, ONE), (LAST_ROW, NONE)],
    },
    // Rows that come and go at both ends.
    Case {
        edits: &[Edit::Set(LAST_ROW, ONE), Edit::Insert(1, 1)],
        left: &[(LAST_ROW, NONE)],
    },
    Case {
        edits: &[
            Edit::Set(LAST_ROW, ONE),
            Edit::Set(1, BAD),
            Edit::Erase(1, 1),
        ],
        left: &[(LAST_ROW - 2, NONE), (LAST_ROW - 1, ONE), (LAST_ROW, NONE)],
    },
    Case {
        edits: &[
            Edit::Range(LAST_ROW - 1, LAST_ROW, ONE),
            Edit::Insert(LAST_ROW, 1),
        ],
        left: &[(LAST_ROW - 2, NONE), (LAST_ROW - 1, ONE), (LAST_ROW, NONE)],
    },
    Case {
        edits: &[
            Edit::Range(LAST_ROW - 2, LAST_ROW, ONE),
            Edit::Erase(LAST_ROW - 1, 2),
        ],
        left: &[(LAST_ROW - 3, NONE), (LAST_ROW - 2, ONE), (LAST_ROW, NONE)],
    },
    // In the middle of a full column.
    Case {
        edits: &[
            Edit::Range(1, LAST_ROW, ONE),
            Edit::Insert(500_000, 2),
            Edit::Set(500_002, BAD),
            Edit::Erase(499_999, 2),
        ],
        left: &[
            (499_998, ONE),
            (499_999, NONE),
            (500_000, BAD),
            (LAST_ROW - 2, ONE),
            (LAST_ROW, NONE),
        ],
    },
];
