//! The two formats of class instances.

/// How class instances are written. (Ice manual, "Data Encoding for Class and Exception Types".)
#[derive(Clone, Copy, PartialEq, Eq)]
pub enum Format {
    /// Each slice with its size and a table of the instances that its members name.
    Sliced,
    /// Without sizes and tables: a type id stands in the first slice alone, and an instance begins where a
    /// member names it first.
    Compact,
}
