use std::alloc::{AllocError, Global};

/// Whether a text begins with another.
pub fn begins_with(text: &[u8], front: &[u8]) -> bool {
    text.len() >= front.len() && text.iter().zip(front).all(|(a, b)| a == b)
}

/// The lines of a text that begin with one of these words.
pub fn lines_of(alloc: Global, text: &str, words: &[&str]) -> Result<String, AllocError> {
    let mut kept = String::new(alloc);
    for line in text.lines() {
        let front = line.as_bytes();
        if words.iter().any(|word| begins_with(front, word.as_bytes())) {
            kept.push_str(line)?;
            kept.push_str("\n")?;
        }
    }
    Ok(kept)
}

/// The part of a text from its first seek on, nothing where there is none.
pub fn from_seek(text: &str) -> &str {
    match text.find("seek ") {
        Some(at) => text.get(at..).unwrap_or(""),
        None => "",
    }
}

/// The lines of a text that stand before the first end.
pub fn before_end(text: &str) -> &str {
    match text.find("end ") {
        Some(at) => text.get(..at).unwrap_or(""),
        None => text,
    }
}
