ghost use Rattle.std.specs.Prelude.{◌≡◌, ◌++◌, ◌∷◌, ◌||◌, ◌==◌, [], OnOk, IfOk, Ok, encode_utf8, string_bytes, min, length, ◌-◌, ◌^◌};
ghost use Rattle.mc_command.specs.Commands.{Parses};
ghost use Rattle.mc_command.specs.Lines.{Takes, is_blank, is_special, resumed, told};
ghost use Rattle.mc_command.specs.declared.scan.Place.TheVariants.{Gap, Plain, Quoted, Escape, Closed, Broken};

use crate::command::CommandError;
use mc_value::{NoMemory, Text, Words};
use std::alloc::Global;
use std::mem;

/// Where the next character of a line stands.
#[derive(Clone, Copy)]
pub enum Place {
    /// Outside a word.
    Gap,
    /// Inside a word without quotes.
    Plain,
    /// Between the quotes of a word.
    Quoted,
    /// Between quotes, behind a `\`.
    Escape,
    /// Behind a closing quote.
    Closed,
    /// Behind a character that no word allows.
    Broken,
}

/// The words of the characters so far, and the one that was begun.
#[derive(Drop)]
pub struct Scan {
    /// Where the next character stands.
    pub place: Place,
    /// The words that have ended.
    pub words: Words,
    /// The characters so far of the word that was begun; outside a word it says nothing.
    pub word: String,
}

impl Scan {
    /// At the start of a line.
    pub fn new(alloc: Global) -> Scan
        ensures words { result.words ≡ [] }
        ensures place { result.place ≡ Gap }
    {
        Scan {
            place: Place::Gap,
            words: Words::new(alloc),
            word: String::new(alloc),
        }
    }

    /// Takes the next character.
    pub fn take(&mut self, c: char) -> Result<(), NoMemory>
        ensures { OnOk result (Takes self.old self.new c) }
    {
        match self.place {
            Place::Gap => self.take_in_gap(c),
            Place::Plain => self.take_plain(c),
            Place::Quoted => self.take_quoted(c),
            Place::Escape => self.take_escaped(c),
            Place::Closed => self.take_closed(c),
            Place::Broken => Ok(()),
        }
    }

    #[tactic(auto, using(crate::proofs::LineLemmas::in_front_none))]
    fn take_in_gap(&mut self, c: char) -> Result<(), NoMemory>
        requires { self.old.place ≡ Gap }
        ensures { OnOk result (Takes self.old self.new c) }
    {
        if is_blank(c) {
            return Ok(());
        }
        self.word.clear();
        if c == '"' {
            self.place = Place::Quoted;
            return Ok(());
        }
        self.place = Place::Plain;
        self.word.push(c)
    }

    fn take_plain(&mut self, c: char) -> Result<(), NoMemory>
        requires { self.old.place ≡ Plain }
        ensures { OnOk result (Takes self.old self.new c) }
    {
        if is_blank(c) {
            return self.end_word();
        }
        self.push(c)
    }

    fn take_quoted(&mut self, c: char) -> Result<(), NoMemory>
        requires { self.old.place ≡ Quoted }
        ensures { OnOk result (Takes self.old self.new c) }
    {
        if c == '"' {
            self.place = Place::Closed;
            return Ok(());
        }
        if c == '\\' {
            self.place = Place::Escape;
            return Ok(());
        }
        self.push(c)
    }

    fn take_escaped(&mut self, c: char) -> Result<(), NoMemory>
        requires { self.old.place ≡ Escape }
        ensures { OnOk result (Takes self.old self.new c) }
    {
        self.place = Place::Quoted;
        if is_special(c) {
            return self.push(c);
        }
        self.push('\\')?;
        self.push(c)
    }

    fn take_closed(&mut self, c: char) -> Result<(), NoMemory>
        requires { self.old.place ≡ Closed }
        ensures { OnOk result (Takes self.old self.new c) }
    {
        if is_blank(c) {
            return self.end_word();
        }
        self.place = Place::Broken;
        Ok(())
    }

    /// One more character of the word that was begun.
    fn push(&mut self, c: char) -> Result<(), NoMemory>
        ensures words { self.new.words ≡ self.old.words }
        ensures place { self.new.place ≡ self.old.place }
        ensures word { OnOk result (string_bytes self.new.word ≡
            string_bytes self.old.word ++ encode_utf8 c) }
    {
        self.word.push(c)
    }

    /// The word that was begun is whole.
    fn end_word(&mut self) -> Result<(), NoMemory>
        ensures words { OnOk result (self.new.words ≡
            self.old.words ++ string_bytes self.old.word ∷ []) }
        ensures place { OnOk result (self.new.place ≡ Gap) }
    {
        let alloc = *self.word.allocator();
        let word = mem::replace(&mut self.word, String::new(alloc));
        self.words.push(Text::from_string(word))?;
        self.place = Place::Gap;
        Ok(())
    }

    /// The words, at the line's end.
    pub fn finish(self) -> Result<Words, CommandError>
        ensures { Parses result (told (resumed self [])) }
    {
        let Scan { place, words, word } = self;
        match place {
            Place::Gap => Ok(words),
            Place::Plain | Place::Closed => with_last(words, word),
            Place::Quoted | Place::Escape | Place::Broken => Err(CommandError::Bad {
                word: word_number(words.len()),
            }),
        }
    }
}

fn with_last(words: Words, word: String) -> Result<Words, CommandError>
    ensures { Parses result (Ok (words ++ string_bytes word ∷ [])) }
{
    let mut words = words;
    words.push(Text::from_string(word))?;
    Ok(words)
}

fn is_blank(c: char) -> bool
    ensures { result ≡ is_blank c }
{
    c == ' ' || c == '\t'
}

/// Whether a `\` before it is an escape.
fn is_special(c: char) -> bool
    ensures { result ≡ is_special c }
{
    c == '"' || c == '\\'
}

fn word_number(number: usize) -> u32
    ensures { result ≡ min number (2 ^ 32 - 1) }
{
    number.min(u32::MAX as usize) as u32
}
