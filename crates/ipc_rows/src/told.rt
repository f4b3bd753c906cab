use crate::events::event_in;
use mc_ipc::{event_line, has_line, reply_line};
use rows::{Json, RowError, number_in, one};
use rows_values::value_in;
use std::alloc::Global;

/// The line of a reply: a `request_id`, an error and, where there is one, a value.
pub fn call_reply(alloc: Global, arguments: &[Json<'_>], out: &mut String) -> Result<(), RowError> {
    match arguments {
        [id, error] => {
            let line = reply_line(alloc, id_in(id)?, error_in(error)?, None)?;
            push_line(out, line.as_str())
        }
        [id, error, value] => {
            let value = value_in(alloc, value)?;
            let line = reply_line(alloc, id_in(id)?, error_in(error)?, Some(&value))?;
            push_line(out, line.as_str())
        }
        _ => Err(RowError::BadRow),
    }
}

fn id_in(argument: &Json<'_>) -> Result<u64, RowError> {
    Ok(u64::try_from(number_in(argument)?)?)
}

fn error_in(argument: &Json<'_>) -> Result<i32, RowError> {
    Ok(i32::try_from(number_in(argument)?)?)
}

/// The line of an event.
pub fn call_event(alloc: Global, arguments: &[Json<'_>], out: &mut String) -> Result<(), RowError> {
    let event = event_in(alloc, one(arguments)?)?;
    if !has_line(&event) {
        return Ok(out.push_str("no line")?);
    }
    let line = event_line(alloc, &event)?;
    push_line(out, line.as_str())
}

// A line without the LF at its end, which has to be its only one.
fn push_line(out: &mut String, line: &str) -> Result<(), RowError> {
    match line.split_once('\n') {
        Some((text, "")) => Ok(out.push_str(text)?),
        _ => Ok(out.push_str("no whole line")?),
    }
}
