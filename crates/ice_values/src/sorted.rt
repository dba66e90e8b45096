//! The pairs of a dictionary, put at their places while they are read.

ghost use Rattle.std.specs.Prelude.{◌≡◌, true, [], None, Some, OnOk, IfOk, not, if◌then◌else◌};
ghost use Rattle.std.specs.Option.{is_some};
ghost use Rattle.ice_encoding.specs.Order.{has_key, insert};
ghost use Rattle.graph_arena.specs.View.{view, view_pairs};
ghost use Rattle.ice_values.specs.Kept.{kept_pairs, Rises, HasPlace};
ghost use Rattle.ice_values.specs.Sorted.{PutsKey, PutsValue};

use graph_arena::{Value, in_order, is_above, keyed, put};
use ice_types::List;
use std::alloc::{AllocError, Global};
use std::collections::BTreeMap;
use std::marker::Model;
use std::mem;

/// Pairs in rising order of their keys.
#[derive(Drop)]
pub enum Kept {
    /// Each key was above those before.
    Rising(List<(Value, Value)>),
    /// The keys came in some other order.
    Scattered(BTreeMap<Value, Value>),
}

impl Kept {
    /// Whether no pair has the key. As long as keys come in rising order each is compared with the last
    /// one alone; the first that does not moves the pairs into a map.
    fn is_new(&mut self, alloc: Global, key: &Value) -> Result<bool, AllocError>
        requires { Rises self.old }
        ensures new { IfOk result (λ new. new ≡ not (has_key (view key.now) (kept_pairs self.old))) }
        ensures kept { OnOk result (kept_pairs self.new ≡ kept_pairs self.old) }
        ensures place { IfOk result (λ new. new ≡ true → HasPlace self.new (view key.now)) }
        ensures rises { Rises self.new }
    {
        match self {
            Kept::Rising(pairs) => {
                if is_above(pairs.as_slice(), key) {
                    return Ok(true);
                }
                let map = keyed(alloc, mem::replace(pairs, List::new(alloc)))?;
                let is_new = !map.contains_key(key);
                drop(mem::replace(self, Kept::Scattered(map)));
                Ok(is_new)
            }
            Kept::Scattered(map) => Ok(!map.contains_key(key)),
        }
    }

    /// Puts a pair at its place.
    fn put(&mut self, key: Value, value: Value) -> Result<(), AllocError>
        requires rises { Rises self.old }
        requires place { HasPlace self.old (view key) }
        ensures put { OnOk result (kept_pairs self.new ≡ insert (view key) (view value) (kept_pairs self.old)) }
        ensures rises { Rises self.new }
    {
        match self {
            Kept::Rising(pairs) => {
                pairs.push((key, value))?;
                Ok(())
            }
            Kept::Scattered(map) => {
                let _is_new = put(map, key, value)?;
                Ok(())
            }
        }
    }

    /// The pairs, in the order of their keys.
    fn into_list(self, alloc: Global) -> Result<List<(Value, Value)>, AllocError>
        ensures { IfOk result (λ pairs. view_pairs pairs ≡ kept_pairs self) }
    {
        match self {
            Kept::Rising(pairs) => Ok(pairs),
            Kept::Scattered(map) => in_order(alloc, map),
        }
    }
}

/// The pairs of a dictionary that are read, and the key whose value is not. Contracts see the pairs in
/// rising order of their keys, and that key.
#[derive(Drop)]
pub struct SortedPairs {
    kept: Kept,
    waits: Option<Value>,
}

impl Model for SortedPairs {
    ghost use Rattle.std.specs.Coded.{coded×, coded_list, coded_option};
    ghost use Rattle.graph_arena.specs.contracts.value.Value as values;
    ghost use Rattle.ice_values.specs.Sorted.{Sorted};
    ghost use Rattle.ice_values.specs.Kept.{pairs_in, HasPlaces};

    ghost Value = { Sorted };

    ghost coded = { coded× (coded_list (coded× values.the_row.coded values.the_row.coded))
        (coded_option values.the_row.coded) };

    ghost view = { λ s. (pairs_in s.kept, s.waits) };

    ghost invariant = { λ s. HasPlaces s.kept s.waits };
}

impl SortedPairs {
    /// No pairs, which take no memory.
    pub(crate) fn new(alloc: Global) -> SortedPairs
        ensures { result ≡ ([], None) }
    {
        SortedPairs {
            kept: Kept::Rising(List::new(alloc)),
            waits: None,
        }
    }

    /// Whether a key waits for its value.
    pub(crate) fn has_key(&self) -> bool
        ensures { result ≡ is_some self.now.1 }
    {
        self.waits.is_some()
    }

    /// Keeps a key until its value is there. False where a pair has it already.
    pub(crate) fn put_key(&mut self, alloc: Global, key: Value) -> Result<bool, AllocError>
        ensures { IfOk result (PutsKey (view key) self.old self.new) }
    {
        drop(self.waits.take());
        match self.kept.is_new(alloc, &key) {
            Ok(is_new) => {
                hold(&mut self.waits, key, is_new);
                Ok(is_new)
            }
            Err(error) => {
                drop(key);
                Err(error)
            }
        }
    }

    /// Puts the pair of the key that waits and its value at its place.
    pub(crate) fn put_value(&mut self, value: Value) -> Result<(), AllocError>
        ensures { OnOk result (PutsValue (view value) self.old self.new) }
    {
        match mem::replace(&mut self.waits, None) {
            Some(key) => self.kept.put(key, value),
            None => {
                drop(value);
                Ok(())
            }
        }
    }

    /// The pairs, in the order of their keys.
    pub(crate) fn into_list(self, alloc: Global) -> Result<List<(Value, Value)>, AllocError>
        ensures { IfOk result (λ pairs. view_pairs pairs ≡ view_pairs self.0) }
    {
        self.kept.into_list(alloc)
    }
}

/// Holds the item where this says so, and else lets it go.
fn hold<T: Drop>(held: &mut Option<T>, item: T, holds: bool)
    ensures { held.new ≡ (if holds then Some item else held.old) }
{
    if holds {
        drop(held.replace(item));
    } else {
        drop(item);
    }
}
