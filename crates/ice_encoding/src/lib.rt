//! The definitions of the Ice encoding: which bytes spell a proxy, a tag, an encapsulation, a value of a type, the
//! optional members of a shape, a slice, a class instance, a graph of them and a user exception, the first fault of
//! bytes that spell none, and the canonical bytes of each. They stand in `specs/`; here are the limits that they
//! name, and functions without bodies, each with a law of the definitions as its contract. (Ice manual, "The Ice
//! Encoding".)
//!
//! - Parts (`part_laws`): identities, facets, proxies, what an encapsulation bounds, and what stands
//!   before an optional member.
//! - Values (`laws`): values of types, and encapsulations of them.
//! - Optional members (`optional_laws`): unknown ones are passed over. Values stand over a port, which
//!   says how a reference to a class instance stands.
//! - Graphs and exceptions (`instance_laws`).
//!
//! Forms, and why they are so:
//!
//! - A part is one thing with four sides (`Part`), and parts are joined by a handful of ways (`both`, `made`,
//!   `tested`, `chosen`, `times`). So a call and a proxy are a line for each of their parts, and that reading,
//!   spelling and writing agree is proved once for each way.
//! - What fills a bound is another thing (`Content`), since what is whatever is left, as the bytes of an opaque
//!   endpoint, is not read whatever follows it. `filling` makes one of a part, `enclosed` a part of one behind
//!   its size.
//! - A law of every part is that no spelling is shorter than what is put for it. So the canonical bytes of a
//!   value with proxies are not longer than what came in, though a facet has two spellings.
//! - Definitions that several crates cite stand below them, with their laws, and with no code but limits.
//!   Numbers, sizes and texts stand lower still, in `ice_prims`, whose calls cite them.
//! - Items and members are one rule (`Each`, `each_at`): values of a list of types, one after the other. A
//!   sequence's list is its element's type, as often as its size says; a struct's is that of its members.
//! - What holds everywhere in a value is one definition (`Everywhere`), by which sizes (`HasSizes`) and order
//!   (`IsOrdered`) are said in a line each for the parts that have them.
//! - How a reference stands is handed in, with the type of what is remembered: to spelling as a `Port R S`, to
//!   writing as a `Writer`, to reading as the way a reference is read (`refer`) alone, so that code that reads
//!   has no spelling to name. What is written spells its value at any port; the law in a contract is that of
//!   `by_number`, since no clause can range over a type of states.
//! - What a value of a type is (`IsValue`) is said without bytes, so that `equal_values` and `values_canonical`
//!   speak of all values and not only of those that some bytes spell. No code tests it: `write_value` asks for
//!   no more than sizes.
//! - That canonical bytes are as long as any spelling is no law, and none says that a type has a spelling as
//!   long as its smallest: a proxy's facet has a longer spelling than the canonical one. `values_canonical` says
//!   that no spelling is shorter.
//! - Values are the same (`Same`) where dictionaries have as many pairs and each pair of one is among those of
//!   the other, at every depth. It is no comparison by sorting, so that the law `equal_values` says something.
//!   Half of a bijection is enough, since no key comes twice.
//! - An encapsulation is in parts (`opened_at`, `filled`, `encapsulated_at`), over any content, so that two in a
//!   row and one inside a message can use them. Which bytes it has is one line: those that are put for its
//!   content.
//! - `nowhere` answers `LeftOver`, which is no defect of those bytes. The law `levels_suffice` says that reading
//!   never comes to it for a type of a schema.
//! - Optional members are a list of tag and value, in `Members` of the definitions (`Present`) as in that of the
//!   code, and not a place for each member of the shape. What is unknown has no place then, tags rise by
//!   themselves in what is read, and a member that is absent takes nothing.
//! - Which slices are read is a parameter (`Reach`): all that the encoding has, or those of a known class alone,
//!   with a size or without. The laws hold of both. Code reads all. The second is what a reader is that keeps no
//!   slices; the laws say what such a one can read.
//! - References in a slice's members are places in its table until that is read, since the table stands behind
//!   the members; then they are replaced by names. What is remembered of a place goes along, so a place past the
//!   table has its fault where it stands, though that is known later.
//! - The fuel of a definition is a number that is there anyway: an instance has no more slices than bytes where
//!   it begins (`slices_at`), and there are no more optional members than bytes and one (`options_at`). Code has
//!   the same number as a counter (`steps`), so it ends for the same reason and with the same answer where it
//!   runs out.
//! - The bases of a class are followed at most as often as there are classes (`leads_to`). No chain is longer in
//!   a schema, but the definition is over any tables, and a ring of bases would have no end. The code counts
//!   too, so that it needs no rule of the schema for this.
//! - Whether classes fit is tested at the end of the content, where all else in it is right: the class of an
//!   instance is known once it is read, and what refers to it may stand before. Of references that do not fit
//!   the first in the bytes has the fault.
//! - An exception's last slice may lack its flag, since some writers leave it out; but for that an exception's
//!   slices are those of an instance in tables whose classes are the exceptions (`of_exceptions`).
//! - Two graphs are the same by pairs of names (`Same`), not by a walk: so the form by first visits (`form`) has
//!   something to be right about.
#![tactic(auto)]

mod instance_laws;
mod laws;
mod limits;
mod optional_laws;
mod part_laws;

pub use instance_laws::{
    exceptions_apart, exceptions_found, exceptions_only, graphs_apart, graphs_found, graphs_only,
    places_lawful, references_apart, references_lawful, slices_reopened, values_with_references,
};
pub use laws::{
    encapsulations_apart, encapsulations_canonical, encapsulations_found, encapsulations_in_a_row,
    encapsulations_only, equal_values, fixed_sizes, levels_suffice, pairs_in_any_order,
    relaying_again, smallest_spellings, values_apart, values_canonical, values_found,
    values_have_sizes, values_only, values_ordered, values_typed,
};
pub use limits::{GREATEST, LARGEST, SIZE_BYTES, SMALLEST};
pub use optional_laws::{
    contents_apart, contents_found, contents_only, slices_apart, slices_found, slices_only,
    tags_known,
};
pub use part_laws::{
    encapsulations_opened, proxies_apart, proxies_canonical, proxies_found, proxies_only,
    proxies_sized, tags_apart, tags_put, tags_read, values_passed,
};
