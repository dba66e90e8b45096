//! What stands behind optional members.

/// How the optional members of a shape end. (Ice manual, "Data Encoding for Optional Values".)
#[derive(Clone, Copy)]
pub enum Ending {
    /// Those of a slice: with the byte 255, where there is any.
    Marked,
    /// Those of a whole content: with nothing, since they go on to the end of the bound.
    Bound,
}
