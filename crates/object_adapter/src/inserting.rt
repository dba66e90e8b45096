//! An item more among others.

ghost use Rattle.std.specs.Prelude.{◌≡◌, ◌≤◌, is_ok, length, if◌then◌else◌};
ghost use Rattle.std.specs.List.{insert};

use std::alloc::AllocError;

/// Puts an item at a place. Out of memory leaves the items as they were.
pub(crate) fn insert_at<T: Drop>(items: &mut Vec<T>, at: usize, item: T) -> Result<(), AllocError>
    requires { at ≤ length items.old.items }
    ensures { items.new.items ≡ (if is_ok result then insert items.old.items at item else items.old.items) }
{
    items.insert(at, item)?;
    Ok(())
}
