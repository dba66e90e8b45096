//! What slices are written by.

use crate::format::Format;
use ice_types::Schema;
use std::alloc::Global;

/// The schema of what is written, the format, and where memory comes from.
#[derive(Clone, Copy)]
pub(crate) struct Encoder<'a> {
    pub alloc: Global,
    pub schema: &'a Schema,
    pub format: Format,
}
