ghost use Rattle.std.specs.Prelude.{◌≡◌, ◌≤◌, ◌<◌, ◌^◌, take, length, IfOk};
ghost use Rattle.mc_outside.specs.Shelf.{content};
ghost use Rattle.mc_cursor.specs.Reads.{Told};
ghost use Rattle.mc_play.specs.Texts.{ReadsText};

use mc_outside::{FileNo, ReadFault, Shelf, read_full};
use std::alloc::{AllocError, Global};

/// Most scripts have fewer octets.
const SHORT: usize = 65_536;

/// One octet more than a script may have.
const LONG: usize = 16_777_217;

/// Why a file's text was not read.
#[derive(Clone, Copy, Debug, PartialEq, Eq)]
pub enum TextError {
    /// The shelf's count of faults rose.
    ReadFault,
    /// Memory was wanting.
    NoMemory,
}

impl From<ReadFault> for TextError {
    ghost use Rattle.std.specs.Prelude.{◌≡◌};
    ghost use Rattle.mc_play.specs.declared.text.TextError.TheVariants.{ReadFault};

    ghost from_gives = { λ _ e. e ≡ ReadFault };

    fn from(_error: ReadFault) -> TextError {
        TextError::ReadFault
    }
}

impl From<AllocError> for TextError {
    ghost use Rattle.std.specs.Prelude.{◌≡◌};
    ghost use Rattle.mc_play.specs.declared.text.TextError.TheVariants.{NoMemory};

    ghost from_gives = { λ _ e. e ≡ NoMemory };

    fn from(_error: AllocError) -> TextError {
        TextError::NoMemory
    }
}

/// The first octets of a file, so many at most.
fn read_front<D: Shelf>(
    alloc: Global,
    shelf: &mut D,
    file: FileNo,
    most: usize,
) -> Result<Vec<u8>, TextError>
    requires { most ≤ 16777217 }
    ensures octets { IfOk result (λ text. Told
        (content (D.files shelf.old) (D.opened shelf.old) file.0)
        (λ octets. text.items ≡ take most octets)) }
    ensures reads { ReadsText (D.files shelf.old) (D.files shelf.new) (D.opened shelf.old)
        (D.opened shelf.new) (D.faults shelf.old) (D.faults shelf.new) result }
{
    let mut text = vec![in alloc; 0u8; most]?;
    let count = read_full(shelf, file, 0, &mut text)?;
    text.truncate(count);
    Ok(text)
}

/// The octets of a file: all of them, where it is not longer than a script may be, else one more than
/// that.
pub(crate) fn read_text<D: Shelf>(
    alloc: Global,
    shelf: &mut D,
    file: FileNo,
) -> Result<Vec<u8>, TextError>
    ensures octets { IfOk result (λ text. Told
        (content (D.files shelf.old) (D.opened shelf.old) file.0)
        (λ octets. text.items ≡ take 16777217 octets)) }
    ensures reads { ReadsText (D.files shelf.old) (D.files shelf.new) (D.opened shelf.old)
        (D.opened shelf.new) (D.faults shelf.old) (D.faults shelf.new) result }
{
    let front = read_front(alloc, shelf, file, SHORT)?;
    if front.len() < SHORT {
        return Ok(front);
    }
    read_front(alloc, shelf, file, LONG)
}
