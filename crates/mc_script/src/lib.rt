//! The words of a command line, scripts, the statuses that a command ends with, and the text of a
//! journal. It takes words and gives the limits and the files that they name (`specs/RunLines`); it
//! takes the text of a script and gives its acts, or the first line outside the grammar and why
//! (`specs/Grammar`); of a journal it gives one line for each record (`specs/Transcript`), and a
//! status for each way to end.
#![tactic(auto)]

mod acts;
mod cache_text;
mod exit;
mod lines;
mod options;
mod plays;
mod script;
mod switches;
mod transcript;
mod words;

pub use acts::{Act, Numbers, Script, ScriptError, ScriptWhy};
pub use exit::{Exit, RunReport, ShelfCause};
pub use options::{RunLine, parse_run_line};
pub use plays::{worked_scripts, wrong_plays};
pub use script::parse_script;
pub use transcript::{demux_text, records_text};
