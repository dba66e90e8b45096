//! A declaration as the scopes hold it.

use crate::skip::Skip;
use crate::standing::Standing;

/// A declaration, with the number of the scope round it.
#[derive(Clone, Copy)]
pub struct Entry<'a> {
    pub around: usize,
    pub name: &'a str,
    pub standing: Standing,
    pub file: u32,
    pub place: u32,
    /// From the scope inside this declaration.
    pub skip: Skip,
}
