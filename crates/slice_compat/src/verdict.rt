//! What is said of two types of two schemas.

/// Why what was spelled of a class cannot be read by that of its type id. The tests are made in this order.
#[derive(Clone, Copy, PartialEq, Eq)]
pub enum Why {
    /// The new schema has no class of its type id.
    Missing,
    /// The bases are not of one type id, or one of the classes has none.
    Base,
    /// Its compact id is not that of the class there.
    CompactId,
    /// There are more or fewer required members.
    Members,
    /// The first required member that cannot be read, by its place among the required ones, from 0.
    Required(usize),
    /// The optional member of the least tag that cannot be read as the one of its tag.
    Optional(u32),
}

/// Whether what was spelled of a type under one schema can be read of a type under another.
#[derive(Clone, Copy, PartialEq, Eq)]
pub enum Verdict {
    /// It can.
    Yes,
    /// The types themselves do not fit.
    NoRoot,
    /// The first class, by its place in the old schema's table, that a value may reach and that cannot be read.
    NoClass { class: u32, why: Why },
}
