//! The members of a shape, written in pieces.

ghost use Rattle.std.specs.Prelude.{◌≡◌, ◌++◌, ◌<◌, ◌≤◌, ◌^◌, List, ℕ, length, OnOk, OnErr, IfOk, [], ◌∷◌};
ghost use Rattle.ice_prims.specs.Bytes.{Grows};
ghost use Rattle.ice_encoding.specs.Pausing.{written_in_place};
ghost use Rattle.ice_encoding.specs.OptionalMembers.{shape_of};
ghost use Rattle.ice_encoding.specs.Optionals.{kind_tagged};
ghost use Rattle.graph_arena.specs.View.{view, view_all};
ghost use Rattle.graph_arena.specs.Seen.{view_content, view_present};
ghost use Rattle.value_writing.specs.Putting.{InsideWritten, Values, lists};
ghost use Rattle.value_parts.specs.Pauses.{NarrowsOnPause};
ghost use Rattle.value_writing.specs.Pauses.{GoesOnWriting};
ghost use Rattle.value_writing.specs.WritingLengths.{GoesOnFrom, IsBehind};
ghost use Rattle.value_writing.specs.WritingMembers.{ContentCanBeWritten, RemainingFits, WritesPiece, all_of};
ghost use Rattle.value_writing.specs.WritingMembers.{held_bytes, is_marked, marker, members_left, members_written};
ghost use Rattle.value_writing.specs.WritingMembers.{place_of, remaining, tag_bytes, values_of};

use crate::ending::Ending;
use crate::length_place::LengthPlace;
use crate::put_port::PutPort;
use crate::writer::ValueWriter;
use encaps_optionals::put_tag;
use graph_arena::{Members, Value};
use ice_prims::put_byte;
use ice_types::{Member, Schema, TypeRef};
use std::alloc::{AllocError, Global};
use std::slice::from_ref;
use value_parts::{Paused, kind_tagged, prefix_of};

/// Members of a shape that are being written.
pub struct MembersWriter<'a> {
    /// What is left of the required values, or of the optional value that has begun.
    values: ValueWriter<'a>,
    /// Where the length of that one is put behind it.
    place: LengthPlace,
    /// The optional members behind it.
    optional: &'a [(u32, Value)],
    /// Whether the marker stands behind them.
    marked: bool,
}

impl Drop for MembersWriter<'_> {
    fn drop(self) {
        let MembersWriter {
            values,
            place: _,
            optional: _,
            marked: _,
        } = self;
        drop(values);
    }
}

impl<'a> MembersWriter<'a> {
    /// Before the first byte of these members.
    pub fn new(
        alloc: Global,
        members: &'a Members,
        ending: Ending,
    ) -> Result<MembersWriter<'a>, AllocError>
        ensures { IfOk result (λ writer. remaining writer ≡ all_of ending (view_content members.now)) }
    {
        let optional = members.optional.as_slice();
        Ok(MembersWriter {
            values: ValueWriter::new(alloc, members.required.as_slice())?,
            place: LengthPlace::Nowhere,
            optional,
            marked: is_marked(ending, optional),
        })
    }

    /// Writes on, up to the end or to the next reference at which an instance begins. A tag that none of
    /// the optional members has writes nothing. Out of memory may leave a part of what was to be written
    /// at the end of the output, and so may an optional value of more bytes than the greatest int, which
    /// is answered as that is.
    /// (Ice manual, "Data Encoding for Class and Exception Types".)
    pub fn go<P: PutPort>(
        &mut self,
        alloc: Global,
        schema: &Schema,
        optional: &[Member],
        out: &mut Vec<u8>,
        port: &mut P,
    ) -> Result<Paused<()>, AllocError>
        requires { RemainingFits (remaining self.old) out.old.items }
        ensures goes { (inside : InsideWritten P)
            → GoesOnWriting inside (members_left P.put inside schema.now optional.now (remaining self.new)) result
            (members_left P.put inside schema.now optional.now (remaining self.old) (port.old, out.old.items))
            (port.new, out.new.items) }
        ensures fits { OnOk result (RemainingFits (remaining self.new) out.new.items) }
        ensures room { NarrowsOnPause result (P.room port.old) (P.room port.new) }
        ensures longer { length out.old.items ≤ length out.new.items }
        ensures grows { (base : List ℕ) → GoesOnFrom base (remaining self.old).place out.old.items
            → Grows base out.new.items }
        ensures behind { OnOk result ((base : List ℕ) → GoesOnFrom base (remaining self.old).place out.old.items
            → IsBehind (length base) (remaining self.new).place) }
    {
        loop {
            match self.values.go(out, port)? {
                Paused::Done(()) => {}
                Paused::Begins(name) => return Ok(Paused::Begins(name)),
            }
            self.place.put(out)?;
            match self.optional.split_first() {
                None => {
                    put_end(self.marked, out)?;
                    return Ok(Paused::Done(()));
                }
                Some((option, others)) => {
                    self.optional = others;
                    self.begin(alloc, schema, optional, option, out)?;
                }
            }
        }
    }

    /// An optional member begins.
    fn begin(
        &mut self,
        alloc: Global,
        schema: &Schema,
        optional: &[Member],
        option: &'a (u32, Value),
        out: &mut Vec<u8>,
    ) -> Result<(), AllocError>
        requires { option.now.0 < 2 ^ 31 }
        ensures values { OnOk result (lists self.new.values
            ≡ values_of (kind_tagged option.now.0 optional.now) (view option.now.1)) }
        ensures place { OnOk result (self.new.place
            ≡ place_of schema.now (kind_tagged option.now.0 optional.now)
            (length (out.old.items ++ tag_bytes schema.now option.now.0 (kind_tagged option.now.0 optional.now)))) }
        ensures others { (self.new.optional ≡ self.old.optional) × (self.new.marked ≡ self.old.marked) }
        ensures ok { OnOk result (out.new.items
            ≡ (out.old.items ++ tag_bytes schema.now option.now.0
            (kind_tagged option.now.0 optional.now)) ++ held_bytes schema.now (kind_tagged option.now.0 optional.now)) }
        ensures grows { Grows out.old.items out.new.items }
    {
        let kind = kind_tagged(optional, option.0);
        self.values = ValueWriter::new(alloc, values_of(kind, &option.1))?;
        self.place = put_front(schema, option.0, kind, out)?;
        Ok(())
    }
}

/// Whether the marker stands behind these optional members.
fn is_marked(ending: Ending, optional: &[(u32, Value)]) -> bool
    ensures { result ≡ is_marked ending (view_present optional.now) }
{
    match ending {
        Ending::Marked => !optional.is_empty(),
        Ending::Bound => false,
    }
}

/// The values that are written for an optional member of this type: its own, and none where no member
/// has its tag.
fn values_of<'a>(kind: Option<TypeRef>, value: &'a Value) -> &'a [Value]
    ensures { Values (view_all result.now) ∷ [] ≡ values_of kind (view value.now) }
{
    match kind {
        Some(_) => from_ref(value),
        None => &[],
    }
}

/// The tag of an optional member, and what is held for its length; nothing where no member has the tag.
fn put_front(
    schema: &Schema,
    tag: u32,
    kind: Option<TypeRef>,
    out: &mut Vec<u8>,
) -> Result<LengthPlace, AllocError>
    requires { tag < 2 ^ 31 }
    ensures place { IfOk result (λ place. place
        ≡ place_of schema.now kind (length (out.old.items ++ tag_bytes schema.now tag kind))) }
    ensures ok { OnOk result (out.new.items
        ≡ (out.old.items ++ tag_bytes schema.now tag kind) ++ held_bytes schema.now kind) }
    ensures grows { Grows out.old.items out.new.items }
{
    match kind {
        None => Ok(LengthPlace::Nowhere),
        Some(kind) => {
            put_tag(out, tag, schema.optional_format(kind))?;
            LengthPlace::hold(prefix_of(schema, kind), out)
        }
    }
}

/// The end behind the optional members.
fn put_end(marked: bool, out: &mut Vec<u8>) -> Result<(), AllocError>
    ensures ok { OnOk result (out.new.items ≡ out.old.items ++ marker marked) }
    ensures err { OnErr result (out.new.items ≡ out.old.items) }
{
    if marked {
        return put_byte(out, 255);
    }
    Ok(())
}

/// Puts the members at the end of the output, at a port at which nothing begins. Out of memory leaves the output as
/// it was, and the port anywhere on the way; so does an optional value of more bytes than the greatest int, which is
/// answered as that is.
/// (Ice manual, "Data Encoding for Class and Exception Types".)
pub fn write_members<P: PutPort>(
    alloc: Global,
    schema: &Schema,
    optional: &[Member],
    members: &Members,
    ending: Ending,
    out: &mut Vec<u8>,
    port: &mut P,
) -> Result<(), AllocError>
    requires room { P.room port.old ≡ 0 }
    requires fits { ContentCanBeWritten (view_content members.now) }
    ensures writes { (inside : InsideWritten P)
        → WritesPiece
        (members_written (written_in_place P.put inside) schema.now ending (shape_of optional.now)
        (view_content members.now)) result port.old out.old.items port.new out.new.items }
    ensures err { OnErr result (out.new.items ≡ out.old.items) }
{
    let start = out.len();
    let result = append_members(alloc, schema, optional, members, ending, out, port);
    if result.is_err() {
        out.truncate(start);
    }
    result
}

/// The same, but what is refused may leave a part of them there.
fn append_members<P: PutPort>(
    alloc: Global,
    schema: &Schema,
    optional: &[Member],
    members: &Members,
    ending: Ending,
    out: &mut Vec<u8>,
    port: &mut P,
) -> Result<(), AllocError>
    requires room { P.room port.old ≡ 0 }
    requires fits { ContentCanBeWritten (view_content members.now) }
    ensures writes { (inside : InsideWritten P)
        → WritesPiece
        (members_written (written_in_place P.put inside) schema.now ending (shape_of optional.now)
        (view_content members.now)) result port.old out.old.items port.new out.new.items }
    ensures grows { Grows out.old.items out.new.items }
{
    let mut writer = MembersWriter::new(alloc, members, ending)?;
    match writer.go(alloc, schema, optional, out, port) {
        Ok(Paused::Done(())) => Ok(()),
        Ok(Paused::Begins(_)) => unreachable!(),
        Err(error) => Err(error),
    }
}
