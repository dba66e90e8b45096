//! The optional members, by rising tag. (Ice manual, "Data Encoding for Optional Values".)

ghost use Rattle.std.specs.Prelude.{◌≡◌, ◌<◌, Bool, None, Some, length, List, ◌+◌, suc, ◌≤◌, ◌==◌};
ghost use Rattle.ice_encoding.specs.Pausing.{Inside, in_place};
ghost use Rattle.ice_types.specs.declared.optional_format.TheConstants.{FORMAT_CLASS};
ghost use Rattle.ice_types.specs.declared.declarations.Member.{Member as Declared};
ghost use Rattle.ice_types.specs.Tables.{Tables};
ghost use Rattle.ice_encoding.specs.Optionals.{kind_tagged, skipped_by};
ghost use Rattle.ice_encoding.specs.Prefixes as prefixes;
ghost use Rattle.ice_encoding.specs.Steps.{given};
ghost use Rattle.graph_arena.specs.Seen.{view_present};
ghost use Rattle.value_parts.specs.Shapes.{with_tag};
ghost use Rattle.ice_values.specs.Entering.{Begun, entered_at};
ghost use Rattle.ice_values.specs.Unread.{left_options, option_behind, options_behind, options_work};
ghost use Rattle.ice_values.specs.Advancing.{fresh_options};
ghost use Rattle.value_parts.specs.Pauses.{NarrowsOnPause, NarrowsOnStep, LessOnStep};
ghost use Rattle.ice_values.specs.Pauses.{GoesOnReading, StepsReading};

use crate::entering::{enter, leave};
use crate::reader::ValueReader;
use encaps_optionals::{Skipped, skip_format, take_tag};
use graph_arena::Value;
use ice_prims::{Cursor, Fault, Kind, ReadFault};
use ice_types::{List, Member, Schema, TypeRef};
use std::alloc::Global;
use value_parts::{Met, Paused, RefPort, Step, kind_tagged, prefix_of};

/// An optional member that has begun and is not read whole.
#[derive(Drop)]
pub struct Item<'a> {
    pub tag: u32,
    pub reader: ValueReader,
    /// Where reading goes on behind the bound of the value, if it has one.
    pub behind: Option<Cursor<'a>>,
}

/// What stands before an optional member.
#[derive(Clone, Copy)]
pub(crate) struct Lead {
    pub place: u64,
    pub tag: u32,
    pub format: u8,
}

/// Optional members of which some are read.
#[derive(Drop)]
pub struct OptionsReader<'a> {
    /// Those that are read, by rising tag.
    pub done: List<(u32, Value)>,
    /// The tag before the next one, known or unknown.
    pub last: Option<u32>,
    /// How many tags and ends there are at most. Each but the end takes a byte.
    pub steps: usize,
    pub item: Option<Item<'a>>,
}

impl<'a> OptionsReader<'a> {
    /// Before the first tag, where the cursor stands. It takes no memory.
    pub(crate) fn new(alloc: Global, cursor: &Cursor<'_>) -> OptionsReader<'a>
        ensures { result ≡ fresh_options (suc (length cursor.now.bytes)) }
    {
        OptionsReader {
            done: List::new(alloc),
            last: None,
            steps: steps_in(cursor),
            item: None,
        }
    }

    /// Reads on, up to the end of the members or to the next reference at which an instance
    /// begins. Members without a tag are none of these.
    pub(crate) fn go<P: RefPort>(
        &mut self,
        alloc: Global,
        schema: &Schema,
        marked: bool,
        members: &[Member],
        cursor: &mut Cursor<'a>,
        port: &mut P,
    ) -> Result<Paused<()>, ReadFault>
        ensures goes { (inside : Inside P)
            → GoesOnReading inside (left_options P.take schema.now inside marked (with_tag members.now) self.new)
            (λ _. view_present self.new.done) result
            (left_options P.take schema.now inside marked
            (with_tag members.now) self.old port.old cursor.old) port.new cursor.new }
        ensures room { NarrowsOnPause result (P.room port.old) (P.room port.new) }
    {
        loop {
            match self.step(alloc, schema, marked, members, cursor, port)? {
                Step::On => {}
                Step::Done(()) => return Ok(Paused::Done(())),
                Step::Begins(name) => return Ok(Paused::Begins(name)),
            }
        }
    }

    /// Reads on in the member that has begun, or goes on to the next tag.
    fn step<P: RefPort>(
        &mut self,
        alloc: Global,
        schema: &Schema,
        marked: bool,
        members: &[Member],
        cursor: &mut Cursor<'a>,
        port: &mut P,
    ) -> Result<Step<()>, ReadFault>
        ensures advances { (inside : Inside P)
            → StepsReading inside (left_options P.take schema.now inside marked (with_tag members.now) self.new)
            (λ _. view_present self.new.done) result
            (left_options P.take schema.now inside marked
            (with_tag members.now) self.old port.old cursor.old) port.new cursor.new }
        ensures room { NarrowsOnStep result (P.room port.old) (P.room port.new) }
        ensures less { LessOnStep result (options_work self.old) (options_work self.new) }
    {
        match &mut self.item {
            Some(item) => match item.reader.go(alloc, schema, cursor, port)? {
                Paused::Done(value) => {
                    leave(item.behind.take(), cursor)?;
                    self.done.push((item.tag, value))?;
                    drop(self.item.take());
                    Ok(Step::On)
                }
                Paused::Begins(name) => Ok(Step::Begins(name)),
            },
            None => self.next(alloc, schema, marked, members, cursor, port),
        }
    }

    /// Goes on to the next tag, or to the end.
    fn next<P: RefPort>(
        &mut self,
        alloc: Global,
        schema: &Schema,
        marked: bool,
        members: &[Member],
        cursor: &mut Cursor<'a>,
        port: &mut P,
    ) -> Result<Step<()>, ReadFault>
        requires { self.old.item ≡ None }
        ensures advances { (inside : Inside P)
            → StepsReading inside (left_options P.take schema.now inside marked (with_tag members.now) self.new)
            (λ _. view_present self.new.done) result
            (options_behind P.take schema.now inside marked (with_tag members.now)
            (view_present self.old.done) self.old.steps self.old.last port.old cursor.old) port.new cursor.new }
        ensures room { NarrowsOnStep result (P.room port.old) (P.room port.new) }
        ensures less { LessOnStep result (options_work self.old) (options_work self.new) }
    {
        if self.steps == 0 {
            return Err(ReadFault::Broken(cursor.fault(Kind::LeftOver)));
        }
        self.steps -= 1;
        let place = cursor.place();
        match take_tag(cursor, self.last, marked)? {
            None => Ok(Step::Done(())),
            Some((tag, format)) => {
                self.last = Some(tag);
                let kind = kind_tagged(members, tag);
                let lead = Lead { place, tag, format };
                self.begin(alloc, schema, lead, kind, cursor, port)
            }
        }
    }

    /// Begins the member of the type behind its tag, or passes over it where that is unknown.
    fn begin<P: RefPort>(
        &mut self,
        alloc: Global,
        schema: &Schema,
        lead: Lead,
        kind: Option<TypeRef>,
        cursor: &mut Cursor<'a>,
        port: &mut P,
    ) -> Result<Step<()>, ReadFault>
        requires none { self.old.item ≡ None }
        requires last { self.old.last ≡ Some lead.tag }
        requires format { lead.format ≤ 7 }
        ensures advances { (inside : Inside P) (marked : Bool) (members : List Declared)
            → StepsReading inside (left_options P.take schema.now inside marked members self.new)
            (λ _. view_present self.new.done) result
            (option_behind P.take schema.now inside marked members (view_present self.old.done) self.old.steps
            lead.place lead.tag kind lead.format port.old cursor.old)
            port.new cursor.new }
        ensures room { NarrowsOnStep result (P.room port.old) (P.room port.new) }
        ensures less { LessOnStep result (2 + options_work self.old) (options_work self.new) }
    {
        match kind {
            Some(kind) => {
                if lead.format != schema.optional_format(kind) {
                    return Err(ReadFault::Broken(Fault {
                        place: lead.place,
                        kind: Kind::BadFormat,
                    }));
                }
                drop(
                    self.item
                        .replace(begun(alloc, schema, lead.tag, kind, cursor)?),
                );
                Ok(Step::On)
            }
            None => match pass_over(lead.format, cursor, port)? {
                Paused::Begins(name) => Ok(Step::Begins(name)),
                Paused::Done(()) => Ok(Step::On),
            },
        }
    }
}

/// Goes on behind a value of an unknown tag, whatever it says. Where it is a reference, the instance of
/// the name that is answered may begin at it.
fn pass_over<P: RefPort>(
    format: u8,
    cursor: &mut Cursor<'_>,
    port: &mut P,
) -> Result<Paused<()>, ReadFault>
    requires { format ≤ 7 }
    ensures goes { (inside : Inside P) (t : Tables)
        → GoesOnReading inside (given None) (λ _. None) result
        (skipped_by (in_place P.take inside) t
        (format == FORMAT_CLASS) format port.old cursor.old) port.new cursor.new }
    ensures room { NarrowsOnPause result (P.room port.old) (P.room port.new) }
{
    match skip_format(cursor, format)? {
        Skipped::Passed => Ok(Paused::Done(())),
        Skipped::Reference => match port.take_ref(None, cursor)? {
            Met::Known(_) => Ok(Paused::Done(())),
            Met::Begins(name) => Ok(Paused::Begins(name)),
        },
    }
}

/// A value of the type, before its first byte behind the prefix.
fn begun<'a>(
    alloc: Global,
    schema: &Schema,
    tag: u32,
    kind: TypeRef,
    cursor: &mut Cursor<'a>,
) -> Result<Item<'a>, Fault>
    ensures { Begun tag kind result cursor.new (entered_at (prefixes.prefix_of schema.now kind) cursor.old) }
{
    let behind = enter(prefix_of(schema, kind), cursor)?;
    Ok(Item {
        tag,
        reader: ValueReader::new(alloc, kind),
        behind,
    })
}

/// One more than there are bytes left.
fn steps_in(cursor: &Cursor<'_>) -> usize
    ensures { result ≡ suc (length cursor.now.bytes) }
{
    match cursor.fork().take_bytes(cursor.left()) {
        Ok(bytes) => bytes.len() + 1,
        Err(_) => unreachable!(),
    }
}
