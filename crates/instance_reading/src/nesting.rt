//! An instance with those that begin in it, over an explicit stack of those that are not read whole.

ghost use Rattle.std.specs.Prelude.{◌≡◌, ◌<◌, ◌≤◌, ◌++◌, ◌∷◌, [], OnOk, map};
ghost use Rattle.ice_encoding.specs.Instances.{most_instances};
ghost use Rattle.instance_reading.specs.Stacked.{ReadsInstance, StepsNesting, instance_within, is_within, resumed};
ghost use Rattle.instance_reading.specs.Stacked.{stack_left, steps_left};
ghost use Rattle.instance_reading.specs.Unfinished.{room};

use crate::unfinished::Unfinished;
use crate::waiting::Waiting;
use ice_prims::{Cursor, ReadFault};
use ice_types::{List, Schema};
use slice_heads::Arena;
use std::alloc::Global;
use std::mem;
use value_parts::{Paused, SlicedType};

/// Reads the instance of this name, which begins here, whole, with those that begin in it.
pub(crate) fn read_instance<'a>(
    alloc: Global,
    schema: &Schema,
    name: u32,
    cursor: &mut Cursor<'a>,
    arena: &mut Arena<'a>,
) -> Result<(), ReadFault>
    requires { room arena.old < most_instances }
    ensures reads { ReadsInstance result
        (instance_within schema.now most_instances name arena.old cursor.old) arena.new cursor.new }
    ensures room { OnOk result (room arena.new ≤ room arena.old) }
{
    let mut stack = List::new(alloc);
    let result = read_over(alloc, schema, name, &mut stack, cursor, arena);
    drop(stack);
    result
}

/// The same over this stack, which is empty.
fn read_over<'a>(
    alloc: Global,
    schema: &Schema,
    name: u32,
    stack: &mut List<Waiting<'a>>,
    cursor: &mut Cursor<'a>,
    arena: &mut Arena<'a>,
) -> Result<(), ReadFault>
    requires empty { stack.old ≡ [] }
    requires room { room arena.old < most_instances }
    ensures reads { ReadsInstance result
        (instance_within schema.now most_instances name arena.old cursor.old) arena.new cursor.new }
    ensures room { OnOk result (room arena.new ≤ room arena.old) }
{
    stack.push(Waiting::begun(name, cursor))?;
    while let Some(top) = stack.pop() {
        read_on(alloc, schema, top.resume(alloc), stack, cursor, arena)?;
    }
    Ok(())
}

/// Reads on in the innermost instance, which is off the stack, up to its end or to the begin of the next one.
fn read_on<'a>(
    alloc: Global,
    schema: &Schema,
    mut top: Unfinished<'a>,
    stack: &mut List<Waiting<'a>>,
    cursor: &mut Cursor<'a>,
    arena: &mut Arena<'a>,
) -> Result<(), ReadFault>
    requires { is_within (map resumed stack.old ++ top ∷ []) arena.old }
    ensures steps { StepsNesting schema.now result
        (stack_left schema.now (map resumed stack.old ++ top.entry ∷ []) arena.old cursor.old)
        (map resumed stack.new) arena.new cursor.new }
    ensures within { OnOk result (is_within (map resumed stack.new) arena.new) }
    ensures room { OnOk result (room arena.new ≤ room arena.old) }
    ensures less { OnOk result (steps_left (map resumed stack.new) arena.new
        < steps_left (map resumed stack.old ++ top.entry ∷ []) arena.old) }
{
    match top.go(alloc, SlicedType::Class, schema, cursor, arena) {
        Err(fault) => {
            drop(top);
            Err(fault)
        }
        Ok(Paused::Done(())) => {
            let slices = mem::replace(&mut top.slices, List::new(alloc));
            arena.end(top.name, slices);
            drop(top);
            Ok(())
        }
        Ok(Paused::Begins(name)) => {
            stack.push(Waiting::of(alloc, top)?)?;
            stack.push(Waiting::begun(name, cursor))?;
            Ok(())
        }
    }
}
