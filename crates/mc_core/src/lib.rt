//! The core of a player: its clients, the requests that wait, what the player knows of itself, and
//! a journal of all that happened. It opens no file and reads no clock: it is told what the
//! demuxer's cache holds (`learn`), says what the demuxer is to do (`work`), and is told what became
//! of it (`done`).
//!
//! # A client's life
//!
//! A client comes with room for some events. It observes a property, and asks for another value of
//! it; the request waits until the player works it, and is replied to. Its polls give what happened
//! in order, and tell an observer what it has, until there is nothing new. The crate `core_example`
//! is this as a program, and prints what is shown here.
//!
//! ```text
//! let c = core.create_client(6, Text::new(alloc, "a")?, 16)?;
//! core.call(6, c, Call::Observe { id: 1, name: pause, format: Format::Flag })?;   // Ok
//! core.call(6, c, Call::Poll)?;                       // Change: observer 1 has `false`
//! core.work(1)?;                                      // Load: the file is ordered first
//! core.call(6, c, Call::Set { id: 7, name: pause, value: Value::Flag(true) })?;   // Ok: it waits
//! core.done(1, loaded)?;                              // the file was opened
//! core.work(1)?;                                      // Finished: the request was worked
//! core.call(6, c, Call::Poll)?;                       // StartFile, FileLoaded, SetReply of 7, ..
//! core.call(6, c, Call::Poll)?;                       // .. Change: observer 1 has `true`, ..
//! core.call(6, c, Call::Poll)?;                       // .. and None: it was given what it has
//! core.destroy(6, c)?;
//! ```
//!
//! # What holds
//!
//! Contracts see a core as the record of `specs/Core`: its facts, the order that is out, and its
//! journal; whatever else it holds is what the journal tells. `journal` says (`core`) that each
//! record was allowed, so that all laws of `mc_player` hold of every core: no event leaves out of
//! order, no accepted request loses its reply or gets two, an overflow is told, and a client that
//! finds no event was given what each of its observers has.
//!
//! Each call says which error comes when (`refused`, by `specs/Errors`), that nothing changed then
//! (`err`), which records it wrote (`made`, `gone`, `answers`, `adds`, `works`), and that they bear
//! its caller's number (`grows`). All memory that a call needs is there before it changes anything.
#![tactic(auto)]

mod calls;
mod core_error;
mod deciding;
mod doing;
mod following;
mod learning;
mod player;
mod pushing;
mod requests;
mod working;

pub use core_error::CoreError;
pub use player::Core;
