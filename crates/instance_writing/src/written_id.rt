//! The id under which a slice is written. (Ice manual, "Compact Type IDs".)

ghost use Rattle.std.specs.Prelude.{◌≡◌};
ghost use Rattle.ice_encoding.specs.CanonicalGraph as spec;
ghost use Rattle.graph_arena.specs.Seen.{view_slice};
ghost use Rattle.value_parts.specs.SlicedType.{rows_of};
ghost use Rattle.value_parts.specs.SliceIds.{id_of};
ghost use Rattle.instance_writing.specs.Ids.{IsTold};

use graph_arena::Slice;
use ice_types::{Schema, number_in};
use value_parts::{SliceId, SlicedType};

/// The id under which a slice is written: of a known class its compact id where it has one, else its type id; of a
/// kept one the id that was kept.
pub(crate) fn written_id<'a>(schema: &'a Schema, sort: SlicedType, slice: &'a Slice) -> SliceId<'a>
    ensures id { id_of result ≡ spec.written_id (rows_of sort schema.now) (view_slice slice.now) }
    ensures told { IsTold sort result }
{
    // No type id begins with `#`.
    schema.rules();
    match slice {
        Slice::Known { class, .. } => match sort.compact_of(schema, *class) {
            Some(number) => SliceId::Number(number),
            None => SliceId::Text(sort.id_of(schema, *class)),
        },
        Slice::Unknown(kept) => kept_id(sort, kept.id.as_str()),
    }
}

/// The same of an id that was kept.
fn kept_id(sort: SlicedType, id: &str) -> SliceId<'_>
    ensures id { id_of result ≡ id.now }
    ensures told { IsTold sort result }
{
    match sort {
        SlicedType::Exception => SliceId::Text(id),
        SlicedType::Class => match number_in(id) {
            Some(number) => SliceId::Number(number),
            None => SliceId::Text(id),
        },
    }
}
