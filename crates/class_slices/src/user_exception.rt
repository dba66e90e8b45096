//! A user exception by itself, with the instances that it refers to.

use graph_arena::{Graph, Slice};
use ice_types::List;

/// A user exception. In its slices the known ones name exceptions by their places in the schema's table, and
/// references stand for the instances of the graph, whose own roots say nothing.
/// (Ice manual, "User Exceptions".)
#[derive(Drop)]
pub struct UserException {
    /// From the most derived exception on.
    pub slices: List<Slice>,
    pub graph: Graph,
}
