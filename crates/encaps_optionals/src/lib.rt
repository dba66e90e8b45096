//! Encapsulations that are opened and wrapped, the tags of optional members, and the values of unknown ones, which are
//! passed over by their format; proxies as bytes, which hold encapsulations: read with the first fault, and written,
//! and their endpoints that can be used; and the parts that proxies, messages and encapsulations share: sizes, the end
//! of a bound, and facets. (Ice manual, "The Ice Encoding".)
#![tactic(auto)]

mod encapsulation;
mod ending;
mod facet;
mod formats;
mod prefix;
mod read;
mod read_endpoint;
mod size;
mod skipping;
mod tags;
mod take;
mod tcp;
mod write;
mod write_endpoint;

pub use encapsulation::{open_encaps, wrap_encaps};
pub use ending::end;
pub use facet::take_facet;
pub use formats::formats_named;
pub use prefix::{bound_by_int, bound_by_size};
pub use read::read_proxy;
pub use size::{claimed_size, size_length};
pub use skipping::{Skipped, skip_format};
pub use tags::{put_tag, take_tag};
pub use tcp::tcp_of;
pub use write::write_proxy;
