//! The texts of proxies and identities: read with the place of the first word that cannot stand, and
//! printed. (Ice manual, "Proxy and Endpoint Syntax".) What reads and writes proxies as bytes is passed on from
//! `encaps_optionals`.
//!
//! - Blanks are space, tab, newline, form feed and carriage return. A blank, `:` or `@` outside quotes ends a word,
//!   behind a `\` too.
//! - A `"` without a `\` before it is the first and the last byte of a text or an identity, or it is not there.
//! - Escapes are `\\`, `\"`, `\/`, `\'`, `\a`, `\b`, `\t`, `\n`, `\v`, `\f` and `\r`, `\` with three octal digits up
//!   to 377 for one byte, and `\u` with four or `\U` with eight hexadecimal digits for a Unicode scalar value in UTF-8.
//! - An identity is a name that is not empty, or a category, `/` and such a name. Any other `/` has a `\` before it.
//! - A text, a category and a name are UTF-8, once their escapes are replaced.
//! - Printed, `\`, `"`, `'`, newline, carriage return and tab have their escapes, other bytes below 32 and 127 stand in
//!   octal, and `/` within a category or a name is `\/`. A word is in quotes where it is empty, has a blank, `:`, `@`
//!   or `"`, or begins with `-`.
//!
//! Forms, and why they are so:
//!
//! - The text of a proxy is read by a function (`proxy_text`), which answers the first word that cannot stand;
//!   laws tie it to the printed form in both directions. What it means stands beside it and follows no reader: the
//!   grammar is a relation (`IsProxy`) of pieces, which are words, `:` and `@`, and a text breaks where no proxy goes
//!   on (`ProxyBreaks`). Laws say that the function answers exactly these (`texts_spelled`, `texts_break`), and which
//!   words can lack where one breaks (`kinds_of_breaks`). All take from the tables which words there are (`flags`,
//!   `tcp_flags`, `transports`), and what a word means (`text_of`, `number`, `version`, `hexadecimal`).
//! - A word is found before it is understood: where it ends hangs on quotes and `\` alone, what it stands for on
//!   the letters that its escapes make. So a `/` of an escape parts no identity.
#![tactic(auto)]

mod endpoints;
mod escape;
mod fault;
mod identity_text;
mod laws;
mod numbers;
mod options;
mod parse;
mod print;
mod printing;
mod reading;
mod taking;
mod tcp;
mod word_laws;
mod words;

pub use encaps_optionals::{read_proxy, tcp_of, write_proxy};
pub use fault::TextFault;
pub use identity_text::parse_identity;
pub use laws::{
    identities_or_breaks, kinds_of_breaks, proxies_or_breaks, texts_break, texts_read_back,
    texts_sized, texts_spelled, texts_typed,
};
pub use parse::parse_text;
pub use print::print_text;
pub use printing::{escape_identity, print_identity, print_word, quote};
pub use reading::{identity_of, text_of};
pub use word_laws::{identities_printed, printed_is_a_word, texts_printed, words_stand_next};
pub use words::{Token, Words};
