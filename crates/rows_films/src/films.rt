use rows::{Json, RowError, items_in, number_in, octets_in, text_in, two};
use std::alloc::{AllocError, Global};
use std::fmt::Write;

#[derive(Drop)]
struct Film {
    name: String,
    octets: Vec<u8>,
}

/// The films that rows have named so far.
#[derive(Drop)]
pub struct Films {
    films: Vec<Film>,
}

impl Films {
    /// No films yet.
    pub fn new(alloc: Global) -> Films {
        Films {
            films: Vec::new(alloc),
        }
    }

    /// The octets of the film of a name; a bad row where there is none.
    pub fn octets(&self, name: &Json<'_>) -> Result<&[u8], RowError> {
        let name = text_in(name)?;
        match self.films.iter().find(|film| film.name.as_str() == name) {
            Some(film) => Ok(film.octets.as_slice()),
            None => Err(RowError::BadRow),
        }
    }

    // A name that stands already keeps its first film.
    fn add(&mut self, alloc: Global, name: &Json<'_>, octets: Vec<u8>) -> Result<(), RowError> {
        let name = String::from_str(alloc, text_in(name)?)?;
        self.films.push(Film { name, octets })?;
        Ok(())
    }
}

fn push_size(size: usize, out: &mut String) -> Result<(), AllocError> {
    write!(out, "{size} octets")
}

/// `["film",NAME,HEX]`: names a film of these octets, and answers how many there are.
pub fn call_film(
    alloc: Global,
    films: &mut Films,
    arguments: &[Json<'_>],
    out: &mut String,
) -> Result<(), RowError> {
    let (name, octets) = two(arguments)?;
    let octets = octets_in(alloc, octets)?;
    push_size(octets.len(), out)?;
    films.add(alloc, name, octets)
}

/// `["change",NAME,FILM,LENGTH,[[PLACE,OCTET],..],HEX]`: names the first octets of a film, so many at
/// most, with some of them changed and others behind; answers how many there are.
pub fn call_change(
    alloc: Global,
    films: &mut Films,
    arguments: &[Json<'_>],
    out: &mut String,
) -> Result<(), RowError> {
    let [name, film, length, changes, behind] = arguments else {
        return Err(RowError::BadRow);
    };
    let length = u32::try_from(number_in(length)?)?;
    let mut octets = Vec::from_slice(alloc, films.octets(film)?)?;
    octets.truncate(length as usize);
    for change in items_in(changes)? {
        put(octets.as_mut_slice(), change)?;
    }
    octets.extend_from_slice(octets_in(alloc, behind)?.as_slice())?;
    push_size(octets.len(), out)?;
    films.add(alloc, name, octets)
}

fn put(octets: &mut [u8], change: &Json<'_>) -> Result<(), RowError> {
    let (place, octet) = two(items_in(change)?)?;
    let place = u32::try_from(number_in(place)?)?;
    match octets.get_mut(place as usize) {
        Some(held) => {
            *held = u8::try_from(number_in(octet)?)?;
            Ok(())
        }
        None => Err(RowError::BadRow),
    }
}
