ghost use Rattle.std.specs.Prelude.{◌≡◌, codes, map, option_map, Some, IfOk};
ghost use Rattle.mc_ipc.specs.Asked.{asked, asked_by, call_of, command_in, id_in, json_in};
ghost use Rattle.serde_json.specs.View.{view};

use crate::table::{call_by, number_in};
use mc_dispatch::Call;
use mc_value::NoMemory;
use serde_json::Value as Json;
use std::alloc::{AllocError, Global};

/// What a line asks for, with the `request_id` that its reply bears: 0 where the line gives none.
#[derive(Debug, Drop)]
pub enum IpcCall {
    /// A call of the player's core.
    Core {
        /// The `request_id`.
        id: u64,
        /// The call. A request bears that number too; an observer has its own.
        call: Call,
    },
    /// The client asks for its own name (`client_name`).
    Name {
        /// The `request_id`.
        id: u64,
    },
    /// The line is no call: it is to be answered `invalid parameter`.
    Bad {
        /// The `request_id`, or 0 where it can't be read.
        id: u64,
    },
    /// The line is empty, and gets no answer.
    Skip,
}

/// What a line asks for, without its LF, by the table of `specs/Asked.antt`. A call is a JSON
/// object whose `command` is an array that begins with a string, after mpv's manual ("JSON IPC"). Its
/// `request_id` is an integer from 0 to 2^63 - 1, and other keys are passed over. Every other line
/// is `Bad`, but an empty one, which is `Skip`.
pub fn parse_line(alloc: Global, line: &[u8]) -> Result<IpcCall, NoMemory>
    ensures { IfOk result (λ call. call ≡ asked line.now) }
{
    if line.is_empty() {
        return Ok(IpcCall::Skip);
    }
    match read(alloc, line)? {
        Some(json) => parse_request(alloc, &json),
        None => Ok(IpcCall::Bad { id: 0 }),
    }
}

fn read(alloc: Global, line: &[u8]) -> Result<Option<Json>, NoMemory>
    ensures { IfOk result (λ json. option_map view json ≡ json_in line.now) }
{
    match Json::from_slice(alloc, line) {
        Ok(json) => Ok(Some(json)),
        Err(error) if error.is_memory() => Err(AllocError),
        Err(_) => Ok(None),
    }
}

fn parse_request(alloc: Global, json: &Json) -> Result<IpcCall, NoMemory>
    ensures { IfOk result (λ call. call ≡ asked_by (Some (view json.now))) }
{
    let Some(id) = request_id(json) else {
        return Ok(IpcCall::Bad { id: 0 });
    };
    let Some(words) = command(json) else {
        return Ok(IpcCall::Bad { id });
    };
    let call = parse_words(alloc, id, words)?;
    Ok(call.unwrap_or(IpcCall::Bad { id }))
}

// The number of a request, where it can be read.
fn request_id(json: &Json) -> Option<u64>
    ensures { result ≡ id_in (view json.now) }
{
    match json.get("request_id") {
        Some(id) => number_in(id),
        None => Some(0),
    }
}

fn command(json: &Json) -> Option<&[Json]>
    ensures { option_map (λ words. map view words.now) result ≡ command_in (view json.now) }
{
    let words = json.get("command")?.as_array()?;
    Some(words.as_slice())
}

fn parse_words(alloc: Global, id: u64, words: &[Json]) -> Result<Option<IpcCall>, NoMemory>
    ensures { IfOk result (λ call. call ≡ call_of id (map view words.now)) }
{
    let [first, arguments @ ..] = words else {
        return Ok(None);
    };
    match first.as_str() {
        Some(word) => call_by(alloc, id, word, arguments, words),
        None => Ok(None),
    }
}
