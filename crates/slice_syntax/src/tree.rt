//! What a Slice text declares, in the order of the text.

ghost use Rattle.std.specs.Prelude.{◌≡◌};

use ice_types::{List, Name};

/// A name where it is declared. A `\` before it is not part of it.
#[derive(Drop)]
pub struct Word {
    pub name: Name,
    /// Its first byte, a `\` included.
    pub place: u32,
}

/// A name of one or more words, as `A::B`, where it is used.
#[derive(Drop)]
pub struct Path {
    /// Whether it begins with `::`.
    pub outer: bool,
    pub words: List<Name>,
    /// Its first byte, a `::` or a `\` included.
    pub place: u32,
}

/// A type where it is used.
#[derive(Drop)]
pub enum TypeWord {
    /// A keyword with its code in the table of keywords, and whether `*` stands after it.
    Built { code: u8, star: bool, place: u32 },
    /// A name, and whether `*` stands after it.
    Named { path: Path, star: bool },
}

/// What a value is.
#[derive(Drop)]
pub enum Const {
    /// A number by its sign and its size, where no sign counts as `+`.
    Number { negative: bool, size: u64 },
    /// A string.
    Text,
    /// `true` or `false`.
    Truth(bool),
    /// A constant or an enumerator by its name.
    Named(Path),
}

/// A value where it stands.
#[derive(Drop)]
pub struct Constant {
    /// Its first byte, a sign included.
    pub place: u32,
    pub value: Const,
}

/// A member of a struct, a class or an exception, or a parameter.
#[derive(Drop)]
pub struct Field {
    /// The tag of an optional one.
    pub tag: Option<Constant>,
    pub kind: TypeWord,
    pub word: Word,
    /// The value after `=`. A parameter has none.
    pub value: Option<Constant>,
}

/// A parameter of an operation.
#[derive(Drop)]
pub struct Param {
    pub out: bool,
    pub field: Field,
}

/// An operation of an interface.
#[derive(Drop)]
pub struct OpTree {
    pub idempotent: bool,
    /// The tag of an optional result.
    pub tag: Option<Constant>,
    /// None is `void`.
    pub result: Option<TypeWord>,
    pub word: Word,
    pub params: List<Param>,
    pub throws: List<Path>,
}

/// A declaration, or one end of a module.
#[derive(Drop)]
pub enum Item {
    /// What follows stands in this module, up to its `Exit`.
    Enter(Word),
    /// The innermost module ends.
    Exit,
    Const {
        kind: TypeWord,
        word: Word,
        value: Constant,
    },
    Enum {
        word: Word,
        entries: List<(Word, Option<Constant>)>,
    },
    Struct {
        word: Word,
        fields: List<Field>,
    },
    Seq {
        word: Word,
        element: TypeWord,
    },
    Dict {
        word: Word,
        key: TypeWord,
        value: TypeWord,
    },
    /// Without a body the fields are None, and so are the compact id and the base.
    Class {
        word: Word,
        /// The value in `(` and `)` behind the name.
        compact: Option<Constant>,
        base: Option<Path>,
        fields: Option<List<Field>>,
    },
    Exception {
        word: Word,
        base: Option<Path>,
        fields: List<Field>,
    },
    /// Without a body the operations are None.
    Interface {
        word: Word,
        bases: List<Path>,
        ops: Option<List<OpTree>>,
    },
}

/// A whole text. It is flat: a module is an `Enter`, what stands in it, and an `Exit`, and `module A::B` is two of
/// each.
#[derive(Drop)]
pub struct File {
    pub items: List<Item>,
    /// The names in `#include` directives, each with the place of its `#`.
    pub included: List<(Name, u32)>,
}

impl File {
    /// The names in `#include` directives, each with the place of its `#`.
    pub fn includes(&self) -> &List<(Name, u32)>
        ensures { result.now ≡ self.now.included }
    {
        &self.included
    }
}
