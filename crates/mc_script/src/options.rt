ghost use Rattle.std.specs.Prelude.{◌≡◌, ◌+◌, ◌≤◌, IfSome, Some, string_bytes, map, length};
ghost use Rattle.mc_script.specs.Options.{between, limits_of, names_at, nanoseconds, nothing_chosen, number_behind, options_at, run_line, set_in, setting_of};
ghost use Rattle.mc_script.specs.RunLines.{AreLimits, IsRunLine, IsWithin};
ghost use Rattle.mc_script.specs.Settings.{settings};

use crate::words::is_file_name;
use mc_packet::Limits;
use mc_value::read_number;

/// What the words `run OPTIONS FILE [SCRIPT]` say.
#[derive(Clone, Copy, Debug, PartialEq, Eq)]
pub struct RunLine {
    /// How much the cache keeps.
    pub limits: Limits,
    /// The number of the word FILE, counted from 0.
    pub file: u32,
    /// The number of the word SCRIPT, where it is given.
    pub script: Option<u32>,
}

/// What an option's word sets; the time that is read ahead in nanoseconds.
#[derive(Clone, Copy)]
pub enum Setting {
    Forward(u64),
    Back(u64),
    Readahead(i64),
}

/// The options that were set.
#[derive(Clone, Copy)]
pub struct Chosen {
    /// `--forward`, in octets.
    pub forward: Option<u64>,
    /// `--back`, in octets.
    pub back: Option<u64>,
    /// `--readahead`, in nanoseconds.
    pub readahead: Option<i64>,
}

/// The number whose digits stand behind a name.
fn number_behind(name: &[u8], word: &[u8]) -> Option<u64>
    ensures { result ≡ number_behind name.now word.now }
{
    read_number(word.strip_prefix(name)?)
}

/// The number, where it is from `least` to `most`.
pub fn between(least: u64, most: u64, number: Option<u64>) -> Option<u64>
    ensures value { result ≡ between least most number }
    ensures bound { IfSome result (λ n. n ≤ most) }
{
    number.filter(|n| least <= *n && *n <= most)
}

/// What a word sets, where it is an option with a number in its range.
fn setting_of(word: &[u8]) -> Option<Setting>
    ensures { result ≡ setting_of word.now }
{
    if let Some(n) = between(1, 1_073_741_824, number_behind(b"--forward=", word)) {
        return Some(Setting::Forward(n));
    }
    if let Some(n) = between(0, 1_073_741_824, number_behind(b"--back=", word)) {
        return Some(Setting::Back(n));
    }
    let n = between(0, 3_600_000, number_behind(b"--readahead=", word))?;
    Some(Setting::Readahead(n as i64 * 1_000_000))
}

impl Chosen {
    const NOTHING: Chosen = Chosen {
        forward: None,
        back: None,
        readahead: None,
    };

    /// The choice with one option more; `None` where that option was set before.
    fn with(self, setting: Setting) -> Option<Chosen>
        ensures value { result ≡ set_in setting self }
        ensures more { IfSome result (λ chosen. settings chosen ≡ settings self + 1) }
    {
        match (setting, self) {
            (Setting::Forward(n), Chosen { forward: None, .. }) => Some(Chosen {
                forward: Some(n),
                ..self
            }),
            (Setting::Back(n), Chosen { back: None, .. }) => Some(Chosen {
                back: Some(n),
                ..self
            }),
            (
                Setting::Readahead(t),
                Chosen {
                    readahead: None,
                    ..
                },
            ) => Some(Chosen {
                readahead: Some(t),
                ..self
            }),
            _ => None,
        }
    }

    fn limits(self) -> Limits
        ensures { result ≡ limits_of self }
    {
        Limits {
            forward: self.forward.unwrap_or(157_286_400),
            back: self.back.unwrap_or(52_428_800),
            readahead: self.readahead.unwrap_or(1_000_000_000),
        }
    }
}

/// Reads FILE and SCRIPT, the first of them the word of this number.
fn read_names(chosen: Chosen, at: u32, words: &[String]) -> Option<RunLine>
    requires { at ≤ 4 }
    ensures { result ≡ names_at chosen at (map string_bytes words.now) }
{
    match words {
        [file] if is_file_name(file.as_str()) => Some(RunLine {
            limits: chosen.limits(),
            file: at,
            script: None,
        }),
        [file, script] if is_file_name(file.as_str()) && is_file_name(script.as_str()) => {
            Some(RunLine {
                limits: chosen.limits(),
                file: at,
                script: Some(at + 1),
            })
        }
        _ => None,
    }
}

/// Reads options and what follows them, the first of them the word of this number.
fn read_options(chosen: Chosen, at: u32, words: &[String]) -> Option<RunLine>
    requires { at ≡ settings chosen + 1 }
    ensures { result ≡ options_at chosen at (map string_bytes words.now) }
{
    match words {
        [] => None,
        [word, rest @ ..] => match setting_of(word.as_bytes()) {
            None => read_names(chosen, at, words),
            Some(setting) => read_options(chosen.with(setting)?, at + 1, rest),
        },
    }
}

/// What the words `run OPTIONS FILE [SCRIPT]` say. OPTIONS are none or more of `--forward=N` (1 to
/// 1073741824 octets, else 157286400), `--back=N` (0 to 1073741824 octets, else 52428800) and
/// `--readahead=N` (0 to 3600000 milliseconds, else 1000), each at most once, in any order. N is one
/// or more decimal digits. FILE and SCRIPT are not empty and do not begin with a dash. `None`
/// exactly where the words are not in this grammar. It takes no memory.
pub fn parse_run_line(words: &[String]) -> Option<RunLine>
    ensures value { result ≡ run_line (map string_bytes words.now) }
    // The words are the line that is answered.
    ensures said { IfSome result (IsRunLine (map string_bytes words.now)) }
    // They are no other.
    ensures only { (line : RunLine) → IsRunLine (map string_bytes words.now) line
        → result ≡ Some line }
    ensures within { IfSome result (IsWithin (length words.now)) }
    ensures limits { IfSome result (λ line. AreLimits line.limits) }
{
    read_line(words)
}

fn read_line(words: &[String]) -> Option<RunLine>
    ensures { result ≡ run_line (map string_bytes words.now) }
{
    match words {
        [command, rest @ ..] if command.as_str() == "run" => {
            read_options(Chosen::NOTHING, 1, rest)
        }
        _ => None,
    }
}
