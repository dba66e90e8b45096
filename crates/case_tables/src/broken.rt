//! Bytes that break an input, and what is told of each.

ghost use Rattle.std.specs.Prelude.{◌≡◌, IsTrue, length};
ghost use Rattle.case_tables.specs.Tables.{are_distinct};
ghost use Rattle.case_tables.specs.BrokenRows.{row_names, rows_seen};

/// One byte of an input set to another, and the fault that this brings about.
#[derive(Clone, Copy)]
pub struct BrokenRow {
    /// The kind, the place of the byte and its value, parted by `_`.
    pub name: &'static str,
    /// The place of the byte that is set.
    pub at: u32,
    /// What it is set to.
    pub byte: u8,
    /// The place of the fault.
    pub place: u64,
    /// The kind of the fault.
    pub kind: &'static str,
}

/// So many rows, no two of which have one name.
#[derive(Clone, Copy)]
pub struct BrokenTable<const N: usize> {
    pub(crate) rows: &'static [BrokenRow],
    pub ghost distinct: { IsTrue (are_distinct (row_names (rows_seen rows.now))) },
    pub ghost count: { length (rows_seen rows.now) ≡ N },
}

impl<const N: usize> BrokenTable<N> {
    ghost use Rattle.std.specs.Prelude.{◌≤◌, MatchOption};
    ghost use Rattle.case_tables.specs.BrokenRows.{row_seen};
    ghost use Rattle.case_tables.specs.Broken.{IsRowAt};

    /// The row at this place, None from N on.
    pub fn get(&self, at: usize) -> Option<&BrokenRow>
        ensures { MatchOption result (N ≤ at) (λ row. IsRowAt self.now at (row_seen row.now)) }
    {
        self.rows.get(at)
    }
}
