//! A session in the manner of mpv's JSON IPC, apart from the socket and the player. It cuts an
//! input that comes in pieces into lines (`LineCut`), reads what a line asks for (`parse_line`), and
//! writes replies and events as lines (`reply_line`, `event_line`). The definitions are those of
//! `specs/Lines.antt`, `specs/Asked.antt` and `specs/Written.antt`, over the JSON of `serde_json`.
//! The rows of `ipc_rows` begin with this session:
//!
//! ```text
//! let mut cut = LineCut::new(alloc);
//! let fed = cut.feed(alloc, b"{\"command\":[\"get_property\",\"pause\"],\"request_id\":7}\n")?;
//! for line in fed.lines.as_slice() {
//!     match parse_line(alloc, line.as_slice())? {
//!         IpcCall::Core { id, call } => ..          // Get { id: 7, name: "pause", format: Node }
//!         IpcCall::Name { id } => ..
//!         IpcCall::Bad { id } => ..                 // reply_line(alloc, id, -4, None)
//!         IpcCall::Skip => {}
//!     }
//! }
//! reply_line(alloc, 7, 0, Some(&Value::Flag(false)))?
//! // {"data":false,"error":"success","request_id":7}
//! ```
#![tactic(auto)]

mod asking;
mod cutting;
mod data;
mod table;
mod writing;

pub use asking::{IpcCall, parse_line};
pub use cutting::{Fed, Line, LineCut, Lines};
pub use mc_value::NoMemory;
pub use writing::{event_line, has_line, reply_line};
