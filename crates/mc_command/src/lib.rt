//! The commands of a client, from a line of text. It takes a line and gives its words by the
//! quoting rules (`specs/Lines.antt`), takes words and gives the command that they say
//! (`specs/Commands.antt`), and else names the first wrong or missing word.
#![tactic(auto)]

mod command;
mod line;
mod parsing;
mod scan;

pub use command::{Command, CommandError};
pub use line::split_line;
pub use parsing::parse_command;
