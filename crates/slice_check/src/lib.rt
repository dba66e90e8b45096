//! From a file of Slice on a shelf, with all that it includes, to its schema.
//!
//! - `walk.rt` goes over FILE and all that it includes, depth first, each name once, over a stack of open files;
//!   `including.rt` finds the next include and opens its file, `text.rt` makes a tree of a text.
//! - `loading.rt` hands the trees to the checker, each after those that it includes.
//! - `fault.rt` says what is wrong: with its file, its place and the word that is printed.
//!
//! `load` answers what `Loads` and `LoadBreaks` of `slice_meaning` say of a name on a shelf.
//!
//! Forms, and why they are so:
//!
//! - The walk is a stack of open files: no recursion, at most a hundred open files. What is proved of it is the
//!   rest: "as the rest of the walk ends, so does the whole" (`GoesOn`) holds of FILE alone at first, and each
//!   step keeps it. So the definitions of the walk are relations over includes and know no stack.
//! - A step goes on to the next file that is not loaded, past all includes of loaded ones: then each step either
//!   opens a file or closes one, and twice the files that may still be loaded plus the open ones falls.
//! - The names of loaded files are an ordered set. A text of 1,000,000 bytes has 83,000 includes; to compare
//!   each of a hundred such files' with a hundred names would be 800,000,000 comparisons of texts.
//! - A text and its tokens are dropped when its tree is there. The trees are kept until all are there, since the
//!   checker takes them together.
//! - `LoadFault::Text` owns its words (`Name` for the file and for the kind), since the file may be an included
//!   one, whose name no caller has; want of memory for them is want of memory.
//! - That each tree is as the grammar has it (`AreRegular`, which `check` asks for) is a law of the grammar,
//!   used where a text is parsed, and goes along with the trees.
//! - A fault of the checker is in one of the files (`breaks_within`): the place that `check` answers is less
//!   than the number of files, so its name is found.
//! - A shelf that does not tell its files has no clause on what it means; its counts are told. (`FolderShelf`.)
#![tactic(auto)]

mod fault;
mod files;
mod including;
mod loading;
mod names;
mod open;
mod text;
mod walk;

pub use fault::LoadFault;
pub use loading::load;
