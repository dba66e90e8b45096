//! Plain data of Slice: names, lists, types and the schema that tells which types there are.
//!
//! Forms, and why they are so:
//!
//! - `TypeRef` is passed by value: it is small and `Copy`. `Class` and `Proxy` go by `Option` of a place, since
//!   `Object` and `Object*` have none.
//! - `RowRef` is a row of any table: a type, an exception or an interface. Ids are said of rows, so that "new",
//!   "of one row only" and "found" are one definition each for all tables.
//! - Look-ups by id go by one ordered map beside the tables (`Ids`), in time n log n for a whole text. That it
//!   is right is in the schema's invariant (`AreFound`); no definition above mentions it.
//! - A row is added by one function for all tables (`add_row`): the copy of the id is made first, the row is put
//!   in, then the id; where the id finds no memory, the row is taken off again.
//! - Beside a class or interface stands an `Option`: None while it is only declared, then how many bases it
//!   has. The flags that contracts see are read off it, so that both cannot part. Those numbers fall along
//!   bases, by which look-ups follow bases without recursion.
//! - Beside a class stands its far base too, by which `is_a` leaps: over 10,000 bases it takes fewer than forty
//!   steps. The invariant says of it only that it is the base or one above that (`HasFarBases`), which is all
//!   that a right answer needs; how far up it lies is the code's own affair.
//! - The classes by compact id are a hash map (`CompactIds`), since `define_*` cannot fail: `add_class` takes the
//!   room for one of each class that is not yet defined, and an ordered map has no room to take beforehand.
//! - A compact id that stands in place of a type id is the text `#n` where an id is kept as a text: no type id
//!   begins so.
//! - A class or interface is declared by its id and defined once, as Slice does; `add_*` takes the memory, so
//!   that `define_*` cannot fail.
//! - What may be added is said in words that the checker has found already (`*Fits`), and an adding call tests
//!   none of it again; it walks a new struct's members once more to keep its measure.
//! - Bases of interfaces are counted over 1,001 levels in the definition: with at most 1,000 bases by paths no
//!   chain is longer, and one level more than that finds no more (`enough_levels`).
//! - The names of all arguments and results of an operation differ, the returned value's `$return` among them:
//!   notations by name need it, and no Slice word has a `$`.
//! - `TYPE` names a built-in type as Slice writes it, or a type id. An interface has a type id but is no type;
//!   its proxies have none and are reached through members and elements.
//! - `Schema::rules` does nothing when it runs: the rules that every schema keeps are its model's, and a body
//!   that calls it has them in its proof.
//! - What a schema says of a type is kept beside its row (`Measure`: depth, smallest spelling, whether all
//!   spellings are as long, whether it may be a key), and computed when the row is added. Walking a type each
//!   time would take time that doubles with each level. The definition (`measure`) does walk it, by levels.
//! - `is_a` and `interface_is_a` hold of a row and itself, also of a place without a row; a row that is only
//!   declared has no base.
//! - `operation` goes by exact names, through the interface's own operations, then its bases in order, each
//!   before its own bases; a base that is reached by two paths is looked at twice.
//! - A sequence or dictionary whose place is in no table has the format of one whose parts are of no fixed
//!   length.
//! - Formats are numbers with names (`FORMAT_F1` ..), since they are what is written into the leading byte of a
//!   tag.
#![tactic(auto)]

mod adding;
mod bases;
mod compact_ids;
mod declarations;
mod defining;
mod identity;
mod ids;
mod inheritance;
mod kind;
mod laws;
mod list;
mod look_ups;
mod measure;
mod measuring;
mod name;
mod optional_format;
mod own_names;
mod proxy;
mod rows;
mod schema;
mod slice_ids;

pub use declarations::{
    ClassDecl, DictDecl, Entry, EnumDecl, ExceptionDecl, InterfaceDecl, Member, OpDecl, SeqDecl,
    Shape, StructDecl,
};
pub use identity::Identity;
pub use kind::{RowRef, TypeRef};
pub use laws::no_type_in_itself;
pub use list::{Bytes, List};
pub use measure::Measure;
pub use name::Name;
pub use optional_format::{
    FORMAT_CLASS, FORMAT_F1, FORMAT_F2, FORMAT_F4, FORMAT_F8, FORMAT_FSIZE, FORMAT_SIZE,
    FORMAT_VSIZE,
};
pub use own_names::have_own_names;
pub use proxy::{Endpoint, Proxy};
pub use rows::{MOST_ROWS, Row};
pub use schema::{MOST_BASES, MOST_DEPTH, MOST_NUMBER, MOST_SMALLEST, Schema};
pub use slice_ids::{is_numbered, number_in, numbered_id};
