use crate::answers::RowError;
use crate::arguments::text_in;
use json::{Error, Scratch, Value as Json};
use std::alloc::{AllocError, Global};
use std::io;

/// The calls of a layer, by their names.
pub trait Table {
    /// Makes the call of that name, and appends its answer to `out`, which has room for a short one:
    /// a call that changes the table wants no memory for its answer. An answer of several lines has
    /// line ends between them and none at its end. What was appended before an `Err` is not printed.
    fn call(
        &mut self,
        alloc: Global,
        name: &str,
        arguments: &[Json<'_>],
        out: &mut String,
    ) -> Result<(), RowError>;
}

/// Answers every line of standard input, on standard output. A row that finds no memory is answered
/// `no memory`; behind the line `# patient` it is called a second time, as it has to be possible
/// after a refusal. An error is one of reading or printing, or of memory for the line itself.
pub fn play<T: Table>(rt: &HostRuntime, table: &mut T) -> io::Result<()> {
    let alloc = rt.alloc();
    let mut is_patient = false;
    for line in rt.lines(alloc) {
        let line = line?;
        is_patient = is_patient || line.as_str() == "# patient";
        let answered = answer(alloc, table, line.as_str(), is_patient)?;
        println!(rt; "{}", answered.as_str())?;
    }
    Ok(())
}

// The octets that an answer may have without asking for memory.
const ROOM: usize = 4096;

fn answer<T: Table>(
    alloc: Global,
    table: &mut T,
    line: &str,
    is_patient: bool,
) -> Result<String, AllocError> {
    let mut out = String::with_capacity(alloc, ROOM)?;
    let mut ended = answer_line(alloc, table, line, &mut out);
    if is_patient && matches!(ended, Err(RowError::NoMemory)) {
        out.clear();
        ended = answer_line(alloc, table, line, &mut out);
    }
    if let Err(error) = ended {
        out.clear();
        out.push_str(error.text())?;
    }
    Ok(out)
}

// A row is answered by its call, a remark by itself.
fn answer_line<T: Table>(
    alloc: Global,
    table: &mut T,
    line: &str,
    out: &mut String,
) -> Result<(), RowError> {
    if line.is_empty() || line.starts_with('#') {
        return Ok(out.push_str(line)?);
    }
    let mut scratch = Scratch::new(alloc);
    match Json::parse(alloc, line, &mut scratch) {
        Ok(Json::Array(row)) => call(alloc, table, row.as_slice(), out),
        Err(Error::OutOfMemory) => Err(RowError::NoMemory),
        _ => Err(RowError::BadRow),
    }
}

fn call<T: Table>(
    alloc: Global,
    table: &mut T,
    row: &[Json<'_>],
    out: &mut String,
) -> Result<(), RowError> {
    let [word, arguments @ ..] = row else {
        return Err(RowError::BadRow);
    };
    table.call(alloc, text_in(word)?, arguments, out)
}
