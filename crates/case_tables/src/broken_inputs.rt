//! Tables of bytes that break an input.

ghost use Rattle.std.specs.Prelude.{◌≡◌};
ghost use Rattle.case_tables.specs.BrokenRows.{broken_message_rows, broken_value_rows};
ghost use Rattle.case_tables.specs.Broken.{HasOneRow, rows_of};

use crate::broken::{BrokenRow, BrokenTable};

/// A table of rows: name, place and value of the byte, place and kind of the fault.
macro_rules! broken_table {
    ($($name:literal: $at:literal, $byte:literal, $place:literal, $kind:literal;)*) => {
        BrokenTable { rows: &[$(BrokenRow { name: $name, at: $at, byte: $byte, place: $place, kind: $kind }),*] }
    };
}

/// No two rows have one name.
pub fn rows_apart<const N: usize>(table: &BrokenTable<N>)
    ensures { HasOneRow table.now }
{}

/// Bytes of a small graph, an instance with a reference to itself in sliced format.
pub fn broken_values() -> BrokenTable<12>
    ensures { rows_of result ≡ broken_value_rows }
{
    broken_table! {
        "Short_0_27": 0, 27, 0, "Short";
        "BadVersion_4_2": 4, 2, 4, "BadVersion";
        "BadFlags_7_249": 7, 249, 7, "BadFlags";
        "BadFlags_7_41": 7, 41, 7, "BadFlags";
        "BadLast_7_25": 7, 25, 7, "BadLast";
        "BadSize_15_3": 15, 3, 15, "BadSize";
        "Short_15_8": 15, 8, 23, "Short";
        "LeftOver_15_10": 15, 10, 24, "LeftOver";
        "BadReference_23_2": 23, 2, 23, "BadReference";
        "Short_24_255": 24, 255, 24, "Short";
        "BadReference_25_0": 25, 0, 25, "BadReference";
        "BadReference_25_3": 25, 3, 25, "BadReference";
    }
}

/// Bytes of a request.
pub fn broken_messages() -> BrokenTable<11>
    ensures { rows_of result ≡ broken_message_rows }
{
    broken_table! {
        "BadMagic_0_72": 0, 72, 0, "BadMagic";
        "BadVersion_4_2": 4, 2, 4, "BadVersion";
        "BadMessage_8_5": 8, 5, 8, "BadMessage";
        "BadStatus_9_3": 9, 3, 9, "BadStatus";
        "Short_10_42": 10, 42, 37, "Short";
        "TooLarge_13_1": 13, 1, 10, "TooLarge";
        "BadFacet_25_2": 25, 2, 25, "BadFacet";
        "BadMode_35_3": 35, 3, 35, "BadMode";
        "Short_36_1": 36, 1, 38, "Short";
        "BadSize_37_5": 37, 5, 37, "BadSize";
        "Short_37_7": 37, 7, 37, "Short";
    }
}
