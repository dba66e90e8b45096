//! The members of a shape, in pieces.

ghost use Rattle.std.specs.Prelude.{◌≡◌, None, IfOk, OnErr, [], true};
ghost use Rattle.std.specs.Option.{is_some};
ghost use Rattle.ice_encoding.specs.Pausing.{Inside};
ghost use Rattle.graph_arena.specs.Seen.{view_content};
ghost use Rattle.value_parts.specs.Shapes.{handed, shape_seen};
ghost use Rattle.ice_values.specs.Unread.{left_of_members, from_stage};
ghost use Rattle.value_parts.specs.Pauses.{NarrowsOnPause};
ghost use Rattle.ice_values.specs.Pauses.{EndsReading, GoesOnReading, StaysUnless};
ghost use Rattle.ice_values.specs.Advancing.{ReadsMembers, fresh_members, members_at};

use crate::options::OptionsReader;
use crate::required::RequiredReader;
use graph_arena::{Members, ThinList, Value};
use ice_prims::{Cursor, ReadFault};
use ice_types::{List, Schema};
use std::alloc::{AllocError, Global};
use std::mem;
use value_parts::{DeclaredMembers, Optionals, Paused, RefPort};

/// Members that are being read. It takes memory for what is read, and never for what a size merely claims.
pub struct MembersReader<'a> {
    optionals: Optionals,
    required: RequiredReader,
    /// The optional members, from where the required ones end.
    options: Option<OptionsReader<'a>>,
}

impl Drop for MembersReader<'_> {
    fn drop(self) {
        let MembersReader {
            optionals: _,
            required,
            options,
        } = self;
        drop(required);
        drop(options);
    }
}

impl<'a> MembersReader<'a> {
    /// Before the first byte of members whose optional ones stand so. It takes no memory.
    pub fn new(alloc: Global, optionals: Optionals) -> MembersReader<'a>
        ensures { result ≡ fresh_members optionals }
    {
        MembersReader {
            optionals,
            required: RequiredReader::new(alloc),
            options: None,
        }
    }

    /// Reads on, up to the end of the members or to the next reference at which an instance begins. The
    /// same members are handed over, and the same cursor, each time; inside a value behind a length it
    /// is over that bound alone, for an instance that begins there too. A refusal is the first fault
    /// from the left, or out of memory; it leaves reader, cursor and port anywhere on the way.
    /// (Ice manual, "Data Encoding for Class and Exception Types".)
    pub fn go<P: RefPort>(
        &mut self,
        alloc: Global,
        schema: &Schema,
        fields: DeclaredMembers<'_>,
        cursor: &mut Cursor<'a>,
        port: &mut P,
    ) -> Result<Paused<Members>, ReadFault>
        ensures goes { (inside : Inside P)
            → GoesOnReading inside (left_of_members P.take schema.now inside
            (handed fields.entry) self.new) view_content result
            (left_of_members P.take schema.now inside
            (handed fields.entry) self.old port.old cursor.old) port.new cursor.new }
        ensures room { NarrowsOnPause result (P.room port.old) (P.room port.new) }
    {
        match &self.options {
            Some(_) => self.go_optional(alloc, schema, fields, cursor, port),
            None => self.go_required(alloc, schema, fields, cursor, port),
        }
    }

    /// The members, where nothing is left to read of them: an instance begins at the last one, and there are no
    /// optional ones, nor an end marker. Else the reader is as it was.
    pub fn ended<P: RefPort>(
        &mut self,
        alloc: Global,
        schema: &Schema,
        fields: DeclaredMembers<'_>,
        port: &P,
    ) -> Result<Option<Members>, AllocError>
        ensures ends { IfOk result (λ members. (inside : Inside P)
            → EndsReading (left_of_members P.take schema.now inside
            (handed fields.entry) self.old) view_content members) }
        ensures stays { IfOk result (StaysUnless self.old self.new) }
    {
        match (&self.options, self.optionals) {
            (None, Optionals::Absent) => {
                match self.required.ended(alloc, schema, fields.required, port)? {
                    Some(required) => Ok(Some(Members {
                        required,
                        optional: ThinList::new(),
                    })),
                    None => Ok(None),
                }
            }
            _ => Ok(None),
        }
    }

    /// Reads on up to the end of the members, at a port at which nothing begins.
    fn finish<P: RefPort>(
        &mut self,
        alloc: Global,
        schema: &Schema,
        fields: DeclaredMembers<'_>,
        cursor: &mut Cursor<'a>,
        port: &mut P,
    ) -> Result<Members, ReadFault>
        requires { P.room port.old ≡ 0 }
        ensures { (inside : Inside P)
            → ReadsMembers result
            (left_of_members P.take schema.now inside (handed fields.entry) self.old port.old cursor.old)
            port.new cursor.new }
    {
        match self.go(alloc, schema, fields, cursor, port) {
            Ok(Paused::Done(members)) => Ok(members),
            Ok(Paused::Begins(_)) => unreachable!(),
            Err(fault) => Err(fault),
        }
    }

    /// Reads on in the required members, and then in the optional ones.
    fn go_required<P: RefPort>(
        &mut self,
        alloc: Global,
        schema: &Schema,
        fields: DeclaredMembers<'_>,
        cursor: &mut Cursor<'a>,
        port: &mut P,
    ) -> Result<Paused<Members>, ReadFault>
        requires { self.old.options ≡ None }
        ensures goes { (inside : Inside P)
            → GoesOnReading inside (left_of_members P.take schema.now inside
            (handed fields.entry) self.new) view_content result
            (from_stage P.take schema.now inside self.old.optionals
            (handed fields.entry) self.old.required None port.old cursor.old) port.new cursor.new }
        ensures room { NarrowsOnPause result (P.room port.old) (P.room port.new) }
    {
        match self
            .required
            .go(alloc, schema, fields.required, cursor, port)?
        {
            Paused::Begins(name) => Ok(Paused::Begins(name)),
            Paused::Done(()) => match self.optionals {
                Optionals::Absent => Ok(Paused::Done(self.with(alloc, ThinList::new()))),
                Optionals::Marked | Optionals::ToEnd => {
                    let options = OptionsReader::new(alloc, cursor);
                    drop(self.options.replace(options));
                    self.go_optional(alloc, schema, fields, cursor, port)
                }
            },
        }
    }

    /// Reads on in the optional members, which have begun.
    fn go_optional<P: RefPort>(
        &mut self,
        alloc: Global,
        schema: &Schema,
        fields: DeclaredMembers<'_>,
        cursor: &mut Cursor<'a>,
        port: &mut P,
    ) -> Result<Paused<Members>, ReadFault>
        requires { is_some self.old.options ≡ true }
        ensures goes { (inside : Inside P)
            → GoesOnReading inside (left_of_members P.take schema.now inside
            (handed fields.entry) self.new) view_content result
            (left_of_members P.take schema.now inside
            (handed fields.entry) self.old port.old cursor.old) port.new cursor.new }
        ensures room { NarrowsOnPause result (P.room port.old) (P.room port.new) }
    {
        let marked = self.optionals.is_marked();
        match &mut self.options {
            Some(options) => {
                match options.go(alloc, schema, marked, fields.optional, cursor, port)? {
                    Paused::Begins(name) => Ok(Paused::Begins(name)),
                    Paused::Done(()) => {
                        let done = mem::replace(&mut options.done, List::new(alloc));
                        let done = ThinList::of(alloc, done)?;
                        Ok(Paused::Done(self.with(alloc, done)))
                    }
                }
            }
            None => unreachable!(),
        }
    }

    /// The required members that are read, with these optional ones.
    fn with(&mut self, alloc: Global, optional: ThinList<(u32, Value)>) -> Members
        ensures { result ≡ record { required = self.old.required.done; optional = optional } }
    {
        Members {
            required: mem::replace(&mut self.required.done, List::new(alloc)),
            optional,
        }
    }
}

/// The members of a shape at the front, with the first fault from the left, at a port at which nothing
/// begins. A refusal leaves the cursor as it was, and the port anywhere on the way. Memory is taken for what is
/// read, never for what a size merely claims.
/// (Ice manual, "Data Encoding for Class and Exception Types".)
pub fn read_members<P: RefPort>(
    alloc: Global,
    schema: &Schema,
    fields: DeclaredMembers<'_>,
    optionals: Optionals,
    cursor: &mut Cursor<'_>,
    port: &mut P,
) -> Result<Members, ReadFault>
    requires { P.room port.old ≡ 0 }
    ensures reads { (inside : Inside P)
        → ReadsMembers result
        (members_at P.take schema.now inside optionals
        (shape_seen fields.entry) port.old cursor.old) port.new cursor.new }
    ensures refused { OnErr result (cursor.new ≡ cursor.old) }
{
    let mut ahead = cursor.fork();
    match read_on(alloc, schema, fields, optionals, &mut ahead, port) {
        Ok(members) => {
            *cursor = ahead;
            Ok(members)
        }
        Err(fault) => Err(fault),
    }
}

/// The same, but a refusal leaves the cursor anywhere on the way.
fn read_on<P: RefPort>(
    alloc: Global,
    schema: &Schema,
    fields: DeclaredMembers<'_>,
    optionals: Optionals,
    cursor: &mut Cursor<'_>,
    port: &mut P,
) -> Result<Members, ReadFault>
    requires { P.room port.old ≡ 0 }
    ensures { (inside : Inside P)
        → ReadsMembers result
        (members_at P.take schema.now inside optionals
        (shape_seen fields.entry) port.old cursor.old) port.new cursor.new }
{
    let mut reader = MembersReader::new(alloc, optionals);
    let result = reader.finish(alloc, schema, fields, cursor, port);
    drop(reader);
    result
}
