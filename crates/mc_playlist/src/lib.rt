//! A list of films, the script that changes it, and properties of it that a front end makes itself.
//! A `Playlist` takes steps (add, remove, move, clear, next, prev, jump, played) and answers each,
//! or refuses it and stays as it was (`specs/Steps.antt`); `parse_list` gives the lines of a script
//! (`specs/Lines.antt`). A `ListTable` takes the caller's properties, and its type keeps that their
//! reader answers a stated function, the same wherever the fields of a property's mask are the
//! same. So `Watches` can tell what is new by reading only what a change may concern, and what it
//! tells is what computing every value anew gives (`specs/Watches.antt`). `list_text` writes what
//! became of a script, line by line (`specs/Text.antt`).
//!
//! The program `playlist_example` has a property of its own, how many films are left. Its meaning
//! is a definition, `left_at` of its `specs/Left.antt`, and a type that names it:
//!
//! ```text
//! abbrev pub left_at : ℕ → ListFacts → Reading
//! left_at place f = Is (Int (pos (min (length f.names - next_place f.pos) (2 ^ 63 - 1))))
//!
//! impl ListMeaning for Left { ghost value = { left_at }; }
//! ```
//!
//! A closure reads it, `|_place: u32, facts: &ListFacts| Ok(left(facts))`, and is handed to a
//! function that is generic over the reader, since a table's type names it. The mask says on which
//! fields the value depends; a mask without `POS` is refused, as `left_at` depends on it:
//!
//! ```text
//! let mask = fields::NAMES | fields::POS;
//! entries.push(PropEntry { name: Text::new(alloc, "left")?, mask, writable: false })?;
//! let table = ListTable::new(entries, reader);
//! let mut list = Playlist::new(alloc);
//! let mut watches = Watches::new(alloc);
//! watches.watch(&table, "left")?;
//! let step = ListStep::Add(Text::new(alloc, "a.mkv")?);
//! let fields = step.fields();
//! list.step(step)?;
//! watches.changes(&table, list.facts(), fields)?      // left 1
//! ```
#![tactic(auto)]

mod acts;
mod aside;
mod facts;
pub mod fields;
mod lines;
pub mod meanings;
mod names;
mod news;
mod places;
mod playlist;
mod reads;
mod script;
mod steps;
mod table;
mod telling;
mod text;
mod watched;
mod watches;

pub use acts::{ListAct, ListJournal, ListRecord, ListScript};
pub use facts::ListFacts;
pub use mc_value::NoMemory;
pub use meanings::ListMeaning;
pub use names::Names;
pub use playlist::Playlist;
pub use reads::ListReads;
pub use script::parse_list;
pub use steps::{ListError, ListStep};
pub use table::ListTable;
pub use text::{FilmRun, list_text};
pub use watched::{Change, Changes, Watched};
pub use watches::Watches;
