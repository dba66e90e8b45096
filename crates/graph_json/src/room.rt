//! Lists with room for as many items as come.

ghost use Rattle.std.specs.Prelude.{◌≡◌, ◌++◌, ◌∷◌, [], IfOk, OnOk};

use ice_types::List;
use std::alloc::{AllocError, Global};

/// Puts the item last. The first one takes room for itself alone, so that many small arrays and objects take little.
pub(crate) fn put_last<T: Drop>(items: &mut Vec<T>, item: T) -> Result<(), AllocError>
    ensures { OnOk result (items.new.items ≡ items.old.items ++ item ∷ []) }
{
    if items.is_empty() {
        items.reserve_exact(1)?;
    }
    items.push(item)?;
    Ok(())
}

/// A list of no items, with room for so many.
pub(crate) fn with_room<T>(alloc: Global, count: usize) -> Result<List<T>, AllocError>
    ensures { IfOk result (λ items. items ≡ []) }
{
    Ok(List::from_vec(Vec::with_capacity(alloc, count)?))
}
