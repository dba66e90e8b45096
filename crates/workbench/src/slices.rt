//! Reads the Slice files that its words name, and prints what came of each.
//!
//! usage: workbench slice [--tokens | --tree] FILE..
//!
//! A line for each file: its name, and `read` or why it is not. `--tokens` prints a line for each token instead,
//! with its kind and its first byte and the one after its last, and `--tree` one for each item of the tree. There a
//! refusal is printed with its place and the kind of token that was found.

use crate::tree::tree;
use ice_ports::{FolderShelf, Shelf};
use slice_lexer::{MOST_BYTES, tokens};
use slice_syntax::parse;
use std::alloc::{AllocError, Global};
use std::io;

/// No more bytes of a file are read: a text has fewer.
const MOST_OF_A_FILE: u64 = MOST_BYTES as u64 + 1;

/// What is printed of a file.
#[derive(Clone, Copy, PartialEq, Eq)]
enum Shown {
    Outcome,
    Tokens,
    Tree,
}

/// What the word asks for, None where it is the name of a file.
fn shown_by(word: &str) -> Option<Shown> {
    match word {
        "--tokens" => Some(Shown::Tokens),
        "--tree" => Some(Shown::Tree),
        _ => None,
    }
}

/// `read`, or why the text is no file of Slice.
fn outcome(alloc: Global, name: &str, text: &[u8]) -> Result<String, AllocError> {
    match tokens(alloc, text) {
        Ok(found) => match parse(alloc, text, &found) {
            Ok(_) => format!(in alloc; "{name}: read\n"),
            Err(fault) => format!(in alloc; "{name}: {fault}\n"),
        },
        Err(fault) => format!(in alloc; "{name}: {fault}\n"),
    }
}

/// The tokens of the text, a line each, or its defect.
fn token_lines(alloc: Global, text: &[u8]) -> Result<String, AllocError> {
    let found = match tokens(alloc, text) {
        Ok(found) => found,
        Err(fault) => return format!(in alloc; "{fault:?}\n"),
    };
    let mut all = String::new(alloc);
    for at in 0..found.len() {
        if let Some(token) = found.get(at) {
            let one = format!(in alloc; "{:?} {}..{}\n", token.kind, token.from, token.to)?;
            all.push_str(one.as_str())?;
        }
    }
    Ok(all)
}

/// What the text declares, or the token that no file goes on with.
fn tree_lines(alloc: Global, text: &[u8]) -> Result<String, AllocError> {
    match tokens(alloc, text) {
        Ok(found) => match parse(alloc, text, &found) {
            Ok(file) => tree(alloc, &file),
            Err(fault) => format!(in alloc; "{fault:?}\n"),
        },
        Err(fault) => format!(in alloc; "{fault:?}\n"),
    }
}

/// What is printed of a text.
fn lines(alloc: Global, shown: Shown, name: &str, text: &[u8]) -> Result<String, AllocError> {
    match shown {
        Shown::Outcome => outcome(alloc, name, text),
        Shown::Tokens => token_lines(alloc, text),
        Shown::Tree => tree_lines(alloc, text),
    }
}

/// Prints what came of each file that these words name.
pub fn read(rt: &HostRuntime, alloc: Global, words: &[String]) -> io::Result<()> {
    let mut shown = Shown::Outcome;
    for word in words {
        let name = word.as_str();
        if let Some(other) = shown_by(name) {
            shown = other;
            continue;
        }
        let mut shelf = FolderShelf::new(rt, MOST_OF_A_FILE);
        let came = match shelf.load(alloc, name) {
            Ok(Some(bytes)) => lines(alloc, shown, name, bytes.as_slice())?,
            Ok(None) => format!(in alloc; "{name}: no such file\n")?,
            Err(_) => format!(in alloc; "{name}: not loaded\n")?,
        };
        print!(rt; "{came}")?;
    }
    Ok(())
}
