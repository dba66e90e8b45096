//! The grammar of Slice: from the tokens of a text to what it declares.
//!
//! `parse` answers the tree of exactly the texts that the grammar has, and for any other text the first token after
//! which no file can go on, or the text's end: some file begins with the tokens before it, and none with those up
//! to it. `specs/Rules.antt` and `specs/Files.antt` have the grammar, rule by rule, and `specs/Syntax.antt` says
//! what is answered. `one_answer` is the law that this leaves no choice, and `specs/Places.antt` has what the laws
//! of `text_laws.rt` say of the places and names in it. `cases/slice-trees.cases` and `cases/slice-faults.cases`
//! have texts with what they declare, and with the token that no file goes on with.
//!
//! - A name is a word that is no keyword, or any word after a `\`, which is not part of the name.
//! - Metadata and directives leave nothing in the tree, but for `#include` with its name.
//! - Before the modules stand `#include "NAME"`, `#include <NAME>`, `#pragma once`, `#ifndef WORD`, `#define WORD` and
//!   `[[..]]`. NAME is UTF-8. After the modules stands `#endif`, once, exactly where an `#ifndef` stands before them.
//! - Blanks may stand after the `#` of a directive, between its parts and at its end. A comment may not.
//! - A module in a module takes no stack: the tree is flat, and modules are read in one loop.
//!
//! Forms, and why they are so:
//!
//! - The grammar of Slice is data (`Grammar`), and what a rule spells is one relation over it (`Spells`): a rule
//!   is written as in the EBNF above it, and what holds of every rule is proved once, joiner by joiner. Modules
//!   in modules are a relation by cases beside it, since they are read by one loop.
//! - A list of what a rule may begin with is made by one macro (`or_type`) in `slice_syntax/src/words.rt`, since
//!   `begins` takes one slice.
#![tactic(auto)]

mod classes;
mod cursor;
mod definitions;
mod directive;
mod fault;
mod interfaces;
mod modules;
mod parser;
mod terminal;
mod text_laws;
mod tree;
mod words;

pub use fault::SyntaxFault;
pub use parser::{one_answer, parse, words_written};
pub use text_laws::{in_order_of_text, regular};
pub use tree::{Const, Constant, Field, File, Item, OpTree, Param, Path, TypeWord, Word};
