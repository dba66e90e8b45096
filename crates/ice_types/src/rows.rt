//! The rows of the tables by place, and what the schema says of each.

ghost use Rattle.std.specs.Prelude.{◌≡◌, ◌<◌, ◌++◌, [], ◌∷◌, List, ℕ, MatchOption, IfOk, OnOk, OnErr, Some, None, cond};
ghost use Rattle.std.specs.Prelude.{bytes_eq, length, map};
ghost use Rattle.ice_types.specs.Ids.{row_in};
ghost use Rattle.ice_types.specs.Tables.{changed, no_types};
ghost use Rattle.ice_types.specs.Kept.{beside_of, tables_of};
ghost use Rattle.ice_types.specs.Rules.{nothing};

use crate::declarations::{
    ClassDecl, DictDecl, EnumDecl, ExceptionDecl, InterfaceDecl, Member, OpDecl, SeqDecl,
    StructDecl,
};
use crate::ids::Ids;
use crate::kind::RowRef;
use crate::list::List;
use crate::measure::Measure;
use std::alloc::{AllocError, Global};

/// No table has so many rows: files within the limits on Slice texts never reach that.
pub const MOST_ROWS: usize = 100_000_000;

/// A row of a table, which has a type id.
pub trait Row {
    /// The bytes of its type id.
    ghost id_of: { Self → List ℕ };

    fn id(&self) -> &str
        ensures { result.now ≡ id_of self.now };
}

impl Row for SeqDecl {
    ghost id_of = { λ q. q.id };

    fn id(&self) -> &str {
        self.id.as_str()
    }
}

impl Row for DictDecl {
    ghost id_of = { λ d. d.id };

    fn id(&self) -> &str {
        self.id.as_str()
    }
}

impl Row for StructDecl {
    ghost id_of = { λ d. d.id };

    fn id(&self) -> &str {
        self.id.as_str()
    }
}

impl Row for EnumDecl {
    ghost id_of = { λ e. e.id };

    fn id(&self) -> &str {
        self.id.as_str()
    }
}

impl Row for ClassDecl {
    ghost id_of = { λ c. c.id };

    fn id(&self) -> &str {
        self.id.as_str()
    }
}

impl Row for ExceptionDecl {
    ghost id_of = { λ e. e.id };

    fn id(&self) -> &str {
        self.id.as_str()
    }
}

impl Row for InterfaceDecl {
    ghost id_of = { λ i. i.id };

    fn id(&self) -> &str {
        self.id.as_str()
    }
}

/// The rows of a table. Beside each, at the same place, is what the schema says of it.
#[derive(Drop)]
pub(crate) struct Rows<T, S> {
    pub decls: List<T>,
    pub beside: List<S>,
}

impl<T, S> Rows<T, S> {
    /// No rows, which take no memory.
    pub fn new(alloc: Global) -> Rows<T, S>
        ensures decls { result.decls ≡ [] }
        ensures beside { result.beside ≡ [] }
    {
        Rows {
            decls: List::new(alloc),
            beside: List::new(alloc),
        }
    }
}

impl<T: Drop, S: Drop> Rows<T, S> {
    /// Adds a row. Out of memory leaves the rows as they were.
    fn add(&mut self, decl: T, beside: S) -> Result<(), AllocError>
        ensures decls { OnOk result (self.new.decls ≡ self.old.decls ++ decl ∷ []) }
        ensures beside { OnOk result (self.new.beside ≡ self.old.beside ++ beside ∷ []) }
        ensures err { OnErr result (self.new ≡ self.old) }
    {
        self.beside.push(beside)?;
        match self.decls.push(decl) {
            Ok(()) => Ok(()),
            Err(error) => {
                self.beside.pop();
                Err(error)
            }
        }
    }
}

/// Adds a row with what stands beside it, and its id, and answers its place. Out of memory leaves all as it was.
pub(crate) fn add_row<T: Row + Drop, S: Drop>(
    rows: &mut Rows<T, S>,
    ids: &mut Ids,
    decl: T,
    beside: S,
    at: u32,
    row: RowRef,
) -> Result<u32, AllocError>
    ensures ok { IfOk result (λ place. (place ≡ at)
        × (rows.new.decls ≡ rows.old.decls ++ decl ∷ []) × (rows.new.beside ≡ rows.old.beside ++ beside ∷ [])
        × ((id : List ℕ) →
        row_in ids.new id ≡ cond (bytes_eq (T.id_of decl) id) (Some row) (row_in ids.old id))) }
    ensures err { OnErr result ((rows.new ≡ rows.old)
        × ((id : List ℕ) → row_in ids.new id ≡ row_in ids.old id)) }
{
    let id = ids.copied(decl.id())?;
    rows.add(decl, beside)?;
    match ids.insert(id, row) {
        Ok(()) => Ok(at),
        Err(error) => {
            rows.decls.pop();
            rows.beside.pop();
            Err(error)
        }
    }
}

/// Puts a base, a compact id and members into the class at this place.
pub(crate) fn fill_class(
    classes: &mut List<ClassDecl>,
    at: u32,
    base: Option<u32>,
    compact: Option<u32>,
    members: List<Member>,
)
    requires { at < length classes.old }
    ensures { classes.new ≡ changed
        (λ c. record { id = c.id; base = base; compact = compact; members = members }) classes.old at }
{
    let class = &mut classes.items[at as usize];
    class.base = base;
    class.compact = compact;
    class.members = members;
}

/// Puts bases and operations into the interface at this place.
pub(crate) fn fill_interface(
    interfaces: &mut List<InterfaceDecl>,
    at: u32,
    bases: List<u32>,
    ops: List<OpDecl>,
)
    requires { at < length interfaces.old }
    ensures { interfaces.new ≡ changed (λ i. record { id = i.id; bases = bases; ops = ops }) interfaces.old at }
{
    let interface = &mut interfaces.items[at as usize];
    interface.bases = bases;
    interface.ops = ops;
}

/// What stands beside a class that is defined.
#[derive(Clone, Copy)]
pub(crate) struct Above {
    /// How many bases it has, one above the other.
    pub bases: u32,
    /// Its far base: its base or one above that, and the class itself where it has no base.
    pub far: u32,
}

/// The rows of the classes. What stands beside one is None while it is only declared.
pub(crate) type ClassRows = Rows<ClassDecl, Option<Above>>;

/// The rows of all tables.
#[derive(Drop)]
pub(crate) struct TableRows {
    pub seqs: Rows<SeqDecl, Measure>,
    pub dicts: Rows<DictDecl, Measure>,
    pub structs: Rows<StructDecl, Measure>,
    pub enums: Rows<EnumDecl, Measure>,
    pub classes: ClassRows,
    /// Beside each exception how many bases it has.
    pub exceptions: Rows<ExceptionDecl, u32>,
    /// Beside each interface how many bases it has by paths, None while it is only declared.
    pub interfaces: Rows<InterfaceDecl, Option<u32>>,
}

impl TableRows {
    /// No rows, which take no memory.
    pub fn new(alloc: Global) -> TableRows
        ensures tables { tables_of result ≡ no_types }
        ensures beside { beside_of result ≡ nothing }
    {
        TableRows {
            seqs: Rows::new(alloc),
            dicts: Rows::new(alloc),
            structs: Rows::new(alloc),
            enums: Rows::new(alloc),
            classes: Rows::new(alloc),
            exceptions: Rows::new(alloc),
            interfaces: Rows::new(alloc),
        }
    }
}
