ghost use Rattle.mc_command.specs.Commands.{Found, Parses, cycle_command, flag_of, message_command, parsed, parsed_as, plain_command, seek_at, seek_command, seek_with, send_command, set_command, verb_of};
ghost use Rattle.mc_command.specs.Table.{IsNear, Means};
ghost use Rattle.mc_command.specs.declared.command.Command.{Command};
ghost use Rattle.mc_command.specs.declared.command.Command.TheVariants.{Ignore, Quit};
ghost use Rattle.mc_value.specs.Seconds.{seconds_of};
ghost use Rattle.std.specs.Prelude.{IfOk, Result, ◌≡◌, ℕ};

use crate::command::{Command, CommandError};
use mc_value::{Text, Words, copy_words, parse_seconds};
use std::alloc::Global;

/// What a command's first word asks for.
#[derive(Clone, Copy)]
pub enum Verb {
    /// `seek`.
    Seek,
    /// `set`.
    Set,
    /// `cycle`.
    Cycle,
    /// `script-message`.
    Message,
    /// `script-message-to`.
    MessageTo,
    /// `ignore`.
    Ignore,
    /// `quit`.
    Quit,
}

/// The command that words say, after the list of input commands in mpv's manual:
/// `seek SECONDS [FLAG [forward]]` with the flag `relative` (where none is given) or `absolute`,
/// `set NAME VALUE`, `cycle NAME`, `script-message WORD...`, `script-message-to CLIENT WORD...`,
/// `ignore` or `quit`. Seconds are as `parse_seconds` reads them, so at most 2^62 nanoseconds on
/// either side of 0.
///
/// `Bad` for any other words, with the number of the first wrong or missing one, the command's name
/// being number 0. `NoMemory` where there is none for the texts of the command.
pub fn parse_command(alloc: Global, words: &Words) -> Result<Command, CommandError>
    ensures value { Parses result (parsed words.now) }
    // The table has the command for the words, or they leave it at the word that is named.
    ensures meant { Found result (Means words.now) }
    // Nothing else is so.
    ensures only { (said : Result Command ℕ) → Means words.now said → Parses result said }
    ensures near { IfOk result (λ command. IsNear command) }
{
    parse_words(alloc, words.as_slice())
}

fn parse_words(alloc: Global, words: &[Text]) -> Result<Command, CommandError>
    ensures { Parses result (parsed words.now) }
{
    match words {
        [] => Err(CommandError::Bad { word: 0 }),
        [name, args @ ..] => parse_verb(alloc, first_word(name.as_str()), args),
    }
}

fn first_word(name: &str) -> Option<Verb>
    ensures { result ≡ verb_of name.now }
{
    match name {
        "seek" => Some(Verb::Seek),
        "set" => Some(Verb::Set),
        "cycle" => Some(Verb::Cycle),
        "script-message" => Some(Verb::Message),
        "script-message-to" => Some(Verb::MessageTo),
        "ignore" => Some(Verb::Ignore),
        "quit" => Some(Verb::Quit),
        _ => None,
    }
}

fn parse_verb(alloc: Global, verb: Option<Verb>, args: &[Text]) -> Result<Command, CommandError>
    ensures { Parses result (parsed_as verb args.now) }
{
    match verb {
        None => Err(CommandError::Bad { word: 0 }),
        Some(Verb::Seek) => parse_seek(args),
        Some(Verb::Set) => parse_set(args),
        Some(Verb::Cycle) => parse_cycle(args),
        Some(Verb::Message) => parse_message(alloc, args),
        Some(Verb::MessageTo) => parse_message_to(alloc, args),
        Some(Verb::Ignore) => parse_ignore(args),
        Some(Verb::Quit) => parse_quit(args),
    }
}

fn parse_seek(args: &[Text]) -> Result<Command, CommandError>
    ensures { Parses result (seek_command args.now) }
{
    match args {
        [] => Err(CommandError::Bad { word: 1 }),
        [word, rest @ ..] => parse_seek_to(seconds(word.as_str()), rest),
    }
}

#[tactic(auto, using(crate::proofs::LineLemmas::ok_or_some, crate::proofs::LineLemmas::ok_or_none))]
fn seconds(word: &str) -> Option<i64>
    ensures { result ≡ seconds_of word.now }
{
    match parse_seconds(word) {
        Ok(time) => Some(time),
        Err(_) => None,
    }
}

fn parse_seek_to(time: Option<i64>, rest: &[Text]) -> Result<Command, CommandError>
    ensures { Parses result (seek_at time rest.now) }
{
    let Some(t) = time else {
        return Err(CommandError::Bad { word: 1 });
    };
    match rest {
        [] => Ok(Command::Seek {
            t,
            absolute: false,
            forward: false,
        }),
        [flag, rest @ ..] => parse_seek_flag(t, seek_flag(flag.as_str()), rest),
    }
}

/// Whether the flag of a `seek` asks for an absolute time.
fn seek_flag(word: &str) -> Option<bool>
    ensures { result ≡ flag_of word.now }
{
    match word {
        "relative" => Some(false),
        "absolute" => Some(true),
        _ => None,
    }
}

fn parse_seek_flag(t: i64, absolute: Option<bool>, rest: &[Text]) -> Result<Command, CommandError>
    ensures { Parses result (seek_with t absolute rest.now) }
{
    let Some(absolute) = absolute else {
        return Err(CommandError::Bad { word: 2 });
    };
    match rest {
        [] => Ok(Command::Seek {
            t,
            absolute,
            forward: false,
        }),
        [word] if word.as_str() == "forward" => Ok(Command::Seek {
            t,
            absolute,
            forward: true,
        }),
        [word, ..] if word.as_str() == "forward" => Err(CommandError::Bad { word: 4 }),
        _ => Err(CommandError::Bad { word: 3 }),
    }
}

fn parse_set(args: &[Text]) -> Result<Command, CommandError>
    ensures { Parses result (set_command args.now) }
{
    match args {
        [] => Err(CommandError::Bad { word: 1 }),
        [_] => Err(CommandError::Bad { word: 2 }),
        [name, value] => Ok(Command::Set {
            name: name.copy()?,
            value: value.copy()?,
        }),
        _ => Err(CommandError::Bad { word: 3 }),
    }
}

fn parse_cycle(args: &[Text]) -> Result<Command, CommandError>
    ensures { Parses result (cycle_command args.now) }
{
    match args {
        [] => Err(CommandError::Bad { word: 1 }),
        [name] => Ok(Command::Cycle { name: name.copy()? }),
        _ => Err(CommandError::Bad { word: 2 }),
    }
}

fn parse_message(alloc: Global, args: &[Text]) -> Result<Command, CommandError>
    ensures { Parses result (message_command args.now) }
{
    if args.is_empty() {
        return Err(CommandError::Bad { word: 1 });
    }
    Ok(Command::Message {
        words: copy_words(alloc, args)?,
    })
}

fn parse_message_to(alloc: Global, args: &[Text]) -> Result<Command, CommandError>
    ensures { Parses result (send_command args.now) }
{
    match args {
        [] => Err(CommandError::Bad { word: 1 }),
        [_] => Err(CommandError::Bad { word: 2 }),
        [client, words @ ..] => Ok(Command::MessageTo {
            client: client.copy()?,
            words: copy_words(alloc, words)?,
        }),
    }
}

fn parse_ignore(args: &[Text]) -> Result<Command, CommandError>
    ensures { Parses result (plain_command Ignore args.now) }
{
    match args {
        [] => Ok(Command::Ignore),
        _ => Err(CommandError::Bad { word: 1 }),
    }
}

fn parse_quit(args: &[Text]) -> Result<Command, CommandError>
    ensures { Parses result (plain_command Quit args.now) }
{
    match args {
        [] => Ok(Command::Quit),
        _ => Err(CommandError::Bad { word: 1 }),
    }
}
