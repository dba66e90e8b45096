//! Laws of graphs of class instances and of user exceptions, over the definitions of `ice_encoding`. No
//! function here has a body, and each has its law as its contract.
//!
//! - Typing: what is read as a graph of a type is of that type.
//! - Canonicity: the canonical bytes of a graph tell all of it but the names of its instances.
//! - Exceptions: their types, and what is written for them.
//! - Relaying by a node that lacks some classes of the reader's schema: it reads what the reader would,
//!   and what it writes spells the same graph.
//! - Faults (`defect_laws`): what is told of bytes that spell nothing.
//! - Another schema (`schema_laws`): what was spelled under one schema spells under another that can read it.
//!
//! Forms, and why they are so:
//!
//! - That canonical bytes are spelled rests on the rules of a schema, by which each type id is UTF-8, as a type
//!   id that bytes spell has to be. Equal canonical bytes are then spelled by both graphs, and what one piece of
//!   bytes spells is one graph: no law compares two graphs part by part.
//! - That canonical bytes are the only ones of their sort is said where a choice is left: of names (`forms_spelled`)
//!   and of tables (`tables_by_first_use`). A relation over the whole would be the writer once more.
//! - Two tables at once. A schema that lacks classes has its rows at other places. What the laws relate is
//!   therefore types, members and slices of two tables by their type ids (`SameKind`, `SameShape` of
//!   `ice_types`), and not one table with hidden rows: with those an id would no more name one class.
//! - The node sees a relation, not a function (`Seen`): what it keeps of a slice are the bytes that stood there,
//!   which the graph alone does not tell (unknown tags, the order of a table). Only of canonical bytes is there
//!   a function (`closed`).
//! - Both visit in their own order. What is kept names its whole table, so the node may reach more instances
//!   than the reader. Nothing is said of the two orders but for canonical bytes, where they are one.
//! - Reading (`value_at`, `numbered_at` and what they call) answers the first fault by going over the bytes step by
//!   step. Here stands what the fault is without any steps: a relation by kinds, which says of what stands before the
//!   place that it is spelled, and of what stands there that it has a defect of this kind. The laws say that reading
//!   answers a fault exactly where the relation has it. So no two tests of reading can be exchanged, and no kind or
//!   place but one (the last but one below) can be another, in the definitions and in the code alike.
//! - Where several defects stand at one place, a case says of those that come first that they do not stand: the tests
//!   behind the id of a slice (`HeadBreaks`), a key that is equal to an earlier one before its value (`PairsBreak`), a
//!   format that is not the member's before what stands behind the tag (`TaggedBreaks`), a place past the end of a
//!   table before its entries (`TableBreaks`).
//! - A place in a table of which the table's size tells that it is past the end has its fault at its own place, which
//!   a spelling does not tell. So the fault is that of the members, read once more with no more places than the table
//!   has (`places`): what stands as members has no other defect in such a table.
//! - What may begin, one inside the other, is counted down as in the spelling of an instance (`InstancesBreak`). That
//!   the count never runs out before the limit of instances is part of the proof, and no case of the relation; nor is
//!   a type that is none of the tables, since the laws ask that types are.
//! - The class of a reference is judged when all else stands. The places of references are those that reading met
//!   (`FirstMisfit`): a spelling has none.
//! - Of user exceptions there is only the law of those that are cut.
#![tactic(auto)]

mod canonicity_laws;
mod defect_laws;
mod exception_laws;
mod relaying_laws;
mod schema_laws;
mod typing_laws;

pub use canonicity_laws::{
    equal_graphs, forms_spelled, graphs_canonical, graphs_relayed, graphs_the_same, relaying_again,
    spelled_same, tables_by_first_use,
};
pub use defect_laws::{cut_value, graphs_break, members_break, slice_heads, values_break};
pub use exception_laws::{exceptions_typed, exceptions_written, written_exceptions_apart};
pub use relaying_laws::{
    canonical_bytes_sized, canonical_bytes_unchanged, formats_same, graphs_read_by_both,
    graphs_seen, one_lacks_a_class, relays_returned, relays_spelled, sized_graphs_spelled,
    unknown_slices_reopened,
};
pub use schema_laws::{encapsulations_read, formats_kept, graphs_read, plain_spelled, values_read};
pub use typing_laws::{classes_related, graphs_typed};
