//! The tables of the words that Slice keeps for itself, and of its symbols.

ghost use Rattle.std.specs.Prelude.{◌≡◌};
ghost use Rattle.case_tables.specs.Tables.{keyword_names, symbol_names};
ghost use Rattle.case_tables.specs.Rows.{HasOneCode, names_of};

use crate::CaseTable;

/// No name has two codes. That no code has two names is what a list is.
pub fn codes_apart<const N: usize>(table: &CaseTable<N>)
    ensures { HasOneCode table.now }
{}

/// The words of Slice that are no identifiers, unless a `\` stands before them.
pub fn keywords() -> CaseTable<30>
    ensures { names_of result ≡ keyword_names }
{
    case_table![
        "bool",
        "byte",
        "class",
        "const",
        "dictionary",
        "double",
        "enum",
        "exception",
        "extends",
        "false",
        "float",
        "idempotent",
        "implements",
        "int",
        "interface",
        "local",
        "LocalObject",
        "long",
        "module",
        "Object",
        "optional",
        "out",
        "sequence",
        "short",
        "string",
        "struct",
        "throws",
        "true",
        "Value",
        "void",
    ]
}

/// The symbols of Slice.
pub fn symbols() -> CaseTable<17>
    ensures { names_of result ≡ symbol_names }
{
    case_table![
        "{", "}", "(", ")", "<", ">", "[", "]", "[[", "]]", ",", ";", "::", "=", "*", "+", "-",
    ]
}
