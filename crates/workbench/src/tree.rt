//! What a file declares, a line for each item.
//!
//! `@` stands before each place. A type is its keyword's code or a name, `tag` stands before the tag of what is
//! optional, and a base or a thrown exception has its word before it each time.

use ice_types::List;
use slice_syntax::{Const, Constant, Field, File, Item, OpTree, Path, TypeWord, Word};
use std::alloc::{AllocError, Global};

/// The items of the file, a line each, and then its includes.
pub fn tree(alloc: Global, file: &File) -> Result<String, AllocError> {
    let mut all = String::new(alloc);
    for item in file.items.as_slice() {
        write_item(alloc, &mut all, item)?;
        all.push_str("\n")?;
    }
    for (name, place) in file.includes().as_slice() {
        let one = format!(in alloc; "include {}@{place}\n", name.as_str())?;
        all.push_str(one.as_str())?;
    }
    Ok(all)
}

fn write_item(alloc: Global, all: &mut String, item: &Item) -> Result<(), AllocError> {
    match item {
        Item::Enter(word) => write_word(alloc, all, "enter ", word),
        Item::Exit => all.push_str("exit"),
        Item::Const { kind, word, value } => {
            write_kind(alloc, all, "const", kind)?;
            write_word(alloc, all, " ", word)?;
            write_value(alloc, all, value)
        }
        Item::Enum { word, entries } => write_enum(alloc, all, word, entries),
        Item::Struct { word, fields } => {
            write_word(alloc, all, "struct ", word)?;
            write_fields(alloc, all, fields)
        }
        Item::Seq { word, element } => {
            write_word(alloc, all, "sequence ", word)?;
            write_kind(alloc, all, "", element)
        }
        Item::Dict { word, key, value } => {
            write_word(alloc, all, "dictionary ", word)?;
            write_kind(alloc, all, "", key)?;
            write_kind(alloc, all, "", value)
        }
        Item::Class {
            word,
            compact,
            base,
            fields,
        } => write_class(alloc, all, word, compact, base, fields),
        Item::Exception { word, base, fields } => {
            write_word(alloc, all, "exception ", word)?;
            write_base(alloc, all, base)?;
            write_fields(alloc, all, fields)
        }
        Item::Interface { word, bases, ops } => write_interface(alloc, all, word, bases, ops),
    }
}

fn write_enum(
    alloc: Global,
    all: &mut String,
    word: &Word,
    entries: &List<(Word, Option<Constant>)>,
) -> Result<(), AllocError> {
    write_word(alloc, all, "enum ", word)?;
    for (word, value) in entries.as_slice() {
        write_word(alloc, all, " ", word)?;
        write_given(alloc, all, value)?;
    }
    Ok(())
}

fn write_class(
    alloc: Global,
    all: &mut String,
    word: &Word,
    compact: &Option<Constant>,
    base: &Option<Path>,
    fields: &Option<List<Field>>,
) -> Result<(), AllocError> {
    write_word(alloc, all, "class ", word)?;
    if compact.is_some() {
        all.push_str(" id")?;
    }
    write_given(alloc, all, compact)?;
    write_base(alloc, all, base)?;
    match fields {
        Some(fields) => write_fields(alloc, all, fields),
        None => all.push_str(";"),
    }
}

fn write_interface(
    alloc: Global,
    all: &mut String,
    word: &Word,
    bases: &List<Path>,
    ops: &Option<List<OpTree>>,
) -> Result<(), AllocError> {
    write_word(alloc, all, "interface ", word)?;
    write_paths(alloc, all, " extends ", bases)?;
    match ops {
        Some(ops) => write_ops(alloc, all, ops),
        None => all.push_str(";"),
    }
}

fn write_base(alloc: Global, all: &mut String, base: &Option<Path>) -> Result<(), AllocError> {
    match base {
        Some(base) => write_path(alloc, all, " extends ", base),
        None => Ok(()),
    }
}

fn write_word(
    alloc: Global,
    all: &mut String,
    before: &str,
    word: &Word,
) -> Result<(), AllocError> {
    let one = format!(in alloc; "{before}{}@{}", word.name.as_str(), word.place)?;
    all.push_str(one.as_str())
}

fn write_path(
    alloc: Global,
    all: &mut String,
    before: &str,
    path: &Path,
) -> Result<(), AllocError> {
    all.push_str(before)?;
    for (at, name) in path.words.as_slice().iter().enumerate() {
        all.push_str(if at > 0 || path.outer { "::" } else { "" })?;
        all.push_str(name.as_str())?;
    }
    let one = format!(in alloc; "@{}", path.place)?;
    all.push_str(one.as_str())
}

fn write_paths(
    alloc: Global,
    all: &mut String,
    before: &str,
    paths: &List<Path>,
) -> Result<(), AllocError> {
    for path in paths.as_slice() {
        write_path(alloc, all, before, path)?;
    }
    Ok(())
}

fn write_kind(
    alloc: Global,
    all: &mut String,
    before: &str,
    kind: &TypeWord,
) -> Result<(), AllocError> {
    all.push_str(before)?;
    match kind {
        TypeWord::Built { code, star, place } => {
            let star = if *star { "*" } else { "" };
            let one = format!(in alloc; " {code}{star}@{place}")?;
            all.push_str(one.as_str())
        }
        TypeWord::Named { path, star } => {
            write_path(alloc, all, " ", path)?;
            all.push_str(if *star { "*" } else { "" })
        }
    }
}

fn write_value(alloc: Global, all: &mut String, constant: &Constant) -> Result<(), AllocError> {
    let place = format!(in alloc; " = @{} ", constant.place)?;
    all.push_str(place.as_str())?;
    match &constant.value {
        Const::Number { negative, size } => {
            let sign = if *negative { "-" } else { "" };
            let one = format!(in alloc; "{sign}{size}")?;
            all.push_str(one.as_str())
        }
        Const::Text => all.push_str("text"),
        Const::Truth(true) => all.push_str("true"),
        Const::Truth(false) => all.push_str("false"),
        Const::Named(path) => write_path(alloc, all, "", path),
    }
}

fn write_given(
    alloc: Global,
    all: &mut String,
    value: &Option<Constant>,
) -> Result<(), AllocError> {
    match value {
        Some(value) => write_value(alloc, all, value),
        None => Ok(()),
    }
}

fn write_field(alloc: Global, all: &mut String, field: &Field) -> Result<(), AllocError> {
    if field.tag.is_some() {
        all.push_str(" tag")?;
    }
    write_given(alloc, all, &field.tag)?;
    write_kind(alloc, all, "", &field.kind)?;
    write_word(alloc, all, " ", &field.word)?;
    write_given(alloc, all, &field.value)
}

fn write_fields(alloc: Global, all: &mut String, fields: &List<Field>) -> Result<(), AllocError> {
    all.push_str(" {")?;
    for field in fields.as_slice() {
        write_field(alloc, all, field)?;
        all.push_str(";")?;
    }
    all.push_str(" }")
}

fn write_ops(alloc: Global, all: &mut String, ops: &List<OpTree>) -> Result<(), AllocError> {
    all.push_str(" {")?;
    for op in ops.as_slice() {
        all.push_str(if op.idempotent { " idempotent" } else { "" })?;
        if op.tag.is_some() {
            all.push_str(" tag")?;
        }
        write_given(alloc, all, &op.tag)?;
        match &op.result {
            Some(kind) => write_kind(alloc, all, "", kind)?,
            None => all.push_str(" void")?,
        }
        write_word(alloc, all, " ", &op.word)?;
        all.push_str("(")?;
        for param in op.params.as_slice() {
            all.push_str(if param.out { " out" } else { "" })?;
            write_field(alloc, all, &param.field)?;
            all.push_str(",")?;
        }
        all.push_str(")")?;
        write_paths(alloc, all, " throws ", &op.throws)?;
        all.push_str(";")?;
    }
    all.push_str(" }")
}
