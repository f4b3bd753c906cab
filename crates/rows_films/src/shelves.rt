use mc_outside::{MemShelf, NamedFile, NamedFiles, NoMemory, Spots};
use std::alloc::Global;

/// A shelf with a film, which is file 0 and called `film.mkv`, and, where it is given, a script, which
/// is file 1 and called `script`; the read of the octet at a spot of a file fails once.
pub fn shelf_of(
    alloc: Global,
    film: &[u8],
    script: Option<&[u8]>,
    spot: Option<(u32, u64)>,
) -> Result<MemShelf, NoMemory> {
    let mut files = NamedFiles::new(alloc);
    files.push(NamedFile::new(alloc, "film.mkv", film)?)?;
    if let Some(script) = script {
        files.push(NamedFile::new(alloc, "script", script)?)?;
    }
    let mut spots = Spots::new(alloc);
    if let Some(spot) = spot {
        spots.push(spot)?;
    }
    Ok(MemShelf::new(files, spots))
}
