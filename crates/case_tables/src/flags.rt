//! The flags of a slice of a class instance.

ghost use Rattle.std.specs.Prelude.{IsTrue, ◌↔◌};
ghost use Rattle.case_tables.specs.Protocol.{AreFlags};

/// Whether a slice of a class instance may have these flags: bits 6 and 7 are clear, an indirection
/// table (0x08) comes only with a size (0x10), and a size only with a type id (0x01 to 0x03).
/// (Ice manual, "Data Encoding for Class and Exception Types".)
pub fn flags_valid(flags: u8) -> bool
    ensures { IsTrue result ↔ AreFlags flags }
{
    let has_type_id = flags % 4 != 0;
    let has_table = flags / 8 % 2 == 1;
    let has_size = flags / 16 % 2 == 1;
    flags < 64 && (!has_table || has_size) && (!has_size || has_type_id)
}
