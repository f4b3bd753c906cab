ghost use Rattle.std.specs.Prelude.{◌≡◌, ◌∷◌, [], codes, false, IfOk, IsTrue, OnOk};
ghost use Rattle.std.specs.Option.{option_copied};
ghost use Rattle.mc_ipc.specs.Written.{change_data, error_word, event_data, event_of, event_word, has_line, line_of, put_all, reason_word, reply_data, reply_of};
ghost use Rattle.serde_json.specs.Data.{number, put as with_member, string, unsigned};
ghost use Rattle.serde_json.specs.View.{members_view, view};
ghost use Rattle.serde_json.specs.Written.{has_float};

use crate::data::{data_of, texts_of};
use mc_ring::Event;
use mc_value::{Format, NoMemory, Text, Value};
use serde_json::{Map, Value as Json, put};
use std::alloc::Global;

type Members = Map<String, Json>;

/// The line of a reply, with its LF: an object with `error`, `request_id` and, where `error` is 0
/// and there is a value, `data`, with its keys in byte order. `id` is the request's `request_id`,
/// and `error` 0 or an error of libmpv's `client.h`, which stands there in mpv's words.
pub fn reply_line(
    alloc: Global,
    id: u64,
    error: i32,
    value: Option<&Value>,
) -> Result<Text, NoMemory>
    ensures { IfOk result (λ line. line ≡ line_of (reply_of id error (option_copied value.entry))) }
{
    let mut members = Members::new(alloc);
    put_text(alloc, &mut members, "error", error_word(error))?;
    put(&mut members, alloc, "request_id", Json::from(id))?;
    put_value(alloc, &mut members, error, value)?;
    line_of(alloc, &Json::from(members))
}

/// The line of an event, with its LF: an object with the event's name in mpv's manual as `event`
/// and with what it carries, its keys in byte order. `EndFile` has its `reason` as a word, `Message` its
/// words as `args`, and `Change` its `id`, its `name` and, but in the format `None`, its value as
/// `data`. No event and a reply have no line.
pub fn event_line(alloc: Global, event: &Event) -> Result<Text, NoMemory>
    requires { IsTrue (has_line event.now) }
    ensures { IfOk result (λ line. line ≡ line_of (event_of event.now)) }
{
    let mut members = Members::new(alloc);
    put_text(alloc, &mut members, "event", event_word(event))?;
    put_event(alloc, &mut members, event)?;
    line_of(alloc, &Json::from(members))
}

/// Whether the event has a line: it is neither `None` nor a reply, for which there is `reply_line`.
pub fn has_line(event: &Event) -> bool
    ensures { result ≡ has_line event.now }
{
    !matches!(
        event,
        Event::None | Event::GetReply { .. } | Event::SetReply { .. } | Event::CommandReply { .. }
    )
}

fn line_of(alloc: Global, json: &Json) -> Result<Text, NoMemory>
    requires { has_float (view json.now) ≡ false }
    ensures { IfOk result (λ line. line ≡ line_of (view json.now)) }
{
    let mut line = json.to_string(alloc)?;
    line.push('\n')?;
    Ok(Text::from_string(line))
}

fn put_text(alloc: Global, members: &mut Members, key: &str, text: &str) -> Result<(), NoMemory>
    ensures { OnOk result (members_view members.new.entries
        ≡ with_member key.now (string text.now) (members_view members.old.entries)) }
{
    put(members, alloc, key, Json::try_from_str(alloc, text)?)
}

fn put_value(
    alloc: Global,
    members: &mut Members,
    error: i32,
    value: Option<&Value>,
) -> Result<(), NoMemory>
    ensures { OnOk result (members_view members.new.entries
        ≡ put_all (reply_data error (option_copied value.entry))
        (members_view members.old.entries)) }
{
    match value {
        Some(value) if error == 0 => put(members, alloc, "data", data_of(alloc, value)?),
        _ => Ok(()),
    }
}

fn put_event(alloc: Global, members: &mut Members, event: &Event) -> Result<(), NoMemory>
    ensures { OnOk result (members_view members.new.entries
        ≡ put_all (event_data event.now) (members_view members.old.entries)) }
{
    match event {
        Event::EndFile { reason } => put_text(alloc, members, "reason", reason_word(*reason)),
        Event::Message { words } => {
            put(members, alloc, "args", texts_of(alloc, words.as_slice())?)
        }
        Event::Change {
            id,
            name,
            format,
            value,
        } => {
            put(members, alloc, "id", Json::from(*id))?;
            put_text(alloc, members, "name", name.as_str())?;
            put_change(alloc, members, *format, value)
        }
        _ => Ok(()),
    }
}

fn put_change(
    alloc: Global,
    members: &mut Members,
    format: Format,
    value: &Value,
) -> Result<(), NoMemory>
    ensures { OnOk result (members_view members.new.entries
        ≡ put_all (change_data format value.now) (members_view members.old.entries)) }
{
    match format {
        Format::None => Ok(()),
        Format::String | Format::Flag | Format::Int64 | Format::Node => {
            put(members, alloc, "data", data_of(alloc, value)?)
        }
    }
}

// mpv's words for the errors of `client.h`.
fn error_word(error: i32) -> &'static str
    ensures { result.now ≡ error_word error }
{
    match error {
        0 => "success",
        -1 => "event queue full",
        -4 => "invalid parameter",
        -8 => "property not found",
        -9 => "unsupported format for accessing property",
        -10 => "property unavailable",
        -11 => "error accessing property",
        -12 => "error running command",
        -18 => "not supported",
        _ => "unknown error",
    }
}

fn event_word(event: &Event) -> &'static str
    ensures { result.now ≡ event_word event.now }
{
    match event {
        Event::None => "none",
        Event::Shutdown => "shutdown",
        Event::GetReply { .. } => "get-property-reply",
        Event::SetReply { .. } => "set-property-reply",
        Event::CommandReply { .. } => "command-reply",
        Event::StartFile => "start-file",
        Event::EndFile { .. } => "end-file",
        Event::FileLoaded => "file-loaded",
        Event::Message { .. } => "client-message",
        Event::Seek => "seek",
        Event::PlaybackRestart => "playback-restart",
        Event::Change { .. } => "property-change",
        Event::Overflow => "queue-overflow",
    }
}

// mpv's words for the reasons of `client.h`.
fn reason_word(reason: u32) -> &'static str
    ensures { result.now ≡ reason_word reason }
{
    match reason {
        0 => "eof",
        2 => "stop",
        3 => "quit",
        4 => "error",
        _ => "unknown",
    }
}
