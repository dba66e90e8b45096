//! A list that has no items more often than not.

ghost use Rattle.std.specs.Prelude.{◌≡◌, [], IfOk};

use ice_types::List;
use std::alloc::{AllocError, Global};
use std::marker::Model;

/// Items in order, of which there are none more often than not: it takes two words, and more where there are any.
/// Contracts see the list of them, and not where it lies in memory.
pub struct ThinList<T> {
    pub(crate) items: Option<Box<List<T>>>,
}

impl<T: Drop> Drop for ThinList<T> {
    fn drop(self) {
        let ThinList { items } = self;
        drop(items);
    }
}

impl<T> Model for ThinList<T> {
    ghost use Rattle.std.specs.Prelude.{List};
    ghost use Rattle.std.specs.Coded.{coded_list};
    ghost use Rattle.graph_arena.specs.Thin.{items_of};

    ghost Value = { List T };

    ghost coded = { coded_list T.code };

    ghost view = { λ l. items_of l.items };
}

impl<T> ThinList<T> {
    /// A list of no items.
    pub fn new() -> ThinList<T>
        ensures { result ≡ [] }
    {
        ThinList { items: None }
    }

    /// All items, which are not copied.
    pub fn as_slice(&self) -> &[T]
        ensures { result.now ≡ self.now }
    {
        match &self.items {
            Some(items) => items.as_slice(),
            None => &[],
        }
    }
}

impl<T: Drop> ThinList<T> {
    /// The items of this list. Out of memory leaves nothing.
    pub fn of(alloc: Global, items: List<T>) -> Result<ThinList<T>, AllocError>
        ensures { IfOk result (λ list. list ≡ items) }
    {
        if items.is_empty() {
            drop(items);
            return Ok(ThinList::new());
        }
        Ok(ThinList {
            items: Some(Box::new(alloc, items)?),
        })
    }
}
