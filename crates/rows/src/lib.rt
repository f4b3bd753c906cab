//! Tests as rows: a program that reads lines, makes the call that each names, and prints what it
//! answered, a line for a line. The lines stand in the program's `stdin`, the answers that are wanted
//! in its `stdout`, so `paste -d'|' stdin stdout` shows the table, and a further row costs no proof.
//!
//! A row is one JSON array on a line of its own: the name of a call, then the call's arguments, as
//! `["seek",0,200000000]`. Texts have JSON's escapes, so each text can be told (`"\u0001"`, `""`);
//! a map keeps a name that comes twice; octets are a text of hex digits. An empty line and a line that
//! begins with `#` are printed as they are. A line that is no row, has no such call or has other
//! arguments than the call takes is answered `bad row`.
//!
//! A program for a layer gives a `Table`, its calls, and its `main` is `play(&rt, &mut table)`. What
//! lives from row to row is the table's own. Each call is best a function of its own that takes
//! `arguments` apart with `one`, `two`, `text_in` and the like, found by a plain enum of words in a table:
//!
//! ```text
//! const WORDS: [(&str, Word); 2] = [("pop", Word::Pop), ("push", Word::Push)];
//! match named(&WORDS, name)? { Word::Pop => call_pop(..), Word::Push => call_push(..) }
//! ```
//!
//! A row that finds no memory is answered `no memory`. Behind the line `# patient` it is called once
//! more, so that a run in which one request for memory is refused prints what every run prints, or ends
//! early: a call that changes the table has to want no memory for its answer afterwards, which is why
//! the answer has room before the call.
#![tactic(auto)]

mod answers;
mod arguments;
mod lines;

pub use answers::{RowError, push_flag};
pub use arguments::{
    flag_in, items_in, named, none, number_in, octets_in, one, text_in, three, two,
};
pub use json::Value as Json;
pub use lines::{Table, play};
