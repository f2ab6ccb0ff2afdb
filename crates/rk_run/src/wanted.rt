//! What the words of `run` say.
ghost use Rattle.std.specs.Prelude.{◌≡◌, ◌≤◌, codes, length, map, option_map, string_bytes};
ghost use Rattle.std.specs.List.{list_any, position_or_len, before_first, after_first};
ghost use Rattle.rk_options.specs.Said as said;
ghost use Rattle.rk_run.specs.Words.{behind_run, given, id_said, is_contrary, is_dashes, is_trap_with_value, library_said, said_by, wanted_said};

use rk_options::Options;
use rk_text::number;
use rk_variables::is_library;

/// What the words of `run` say.
#[derive(Clone, Copy)]
pub struct Wanted<'a> {
    /// The socket of the daemon.
    pub socket: Option<&'a str>,
    /// The user to say in HELLO.
    pub uid: Option<u32>,
    /// The group to say in HELLO.
    pub gid: Option<u32>,
    /// The library that is preloaded.
    pub library: Option<&'a str>,
    /// Whether `reqkey-trap` starts the program, and no library is preloaded.
    pub trap: bool,
    /// The program, by its path, or by a name that is looked for in `PATH`.
    pub program: &'a str,
    /// What it is started with, its name not among them.
    pub words: &'a [String],
}

/// All options of `run`, with their dashes.
const OPTIONS: [&str; 5] = ["--socket", "--uid", "--gid", "--library", "--trap"];

impl<'a> Wanted<'a> {
    /// What the words say, of which the first is the name of the program that is called and the second `run`: options, each at most once, as `--uid 5` or
    /// `--uid=5`, and after the first `--` the program and its words, whatever they look like. `None` for a usage error: `--` or the program is
    /// missing, an option is unknown or there twice, a uid or gid is no number up to 4294967295, the library is no absolute path or has a space or a colon,
    /// or `--trap` has a value or stands beside a uid, a gid or a library, since each process acts for its own user then, by no library.
    pub fn read(words: &'a [String]) -> Option<Wanted<'a>>
        ensures { option_map said_by result ≡ wanted_said (map string_bytes words.now) }
    {
        match words {
            [_, word, words @ ..] if word.as_str() == "run" => behind_run(words),
            _ => None,
        }
    }
}

/// What the words after `run` say.
fn behind_run<'a>(words: &'a [String]) -> Option<Wanted<'a>>
    ensures { option_map said_by result ≡ behind_run (map string_bytes words.now) }
{
    let (before, behind) = cut(words);
    let (program, words) = behind.split_first()?;
    let options = Options {
        words: before,
        flags: &["--trap"],
    };
    if has_trap_with_value(before) || !options.are_known(&OPTIONS) {
        return None;
    }
    let wanted = Wanted {
        socket: options.value_of("--socket")?,
        uid: number_given(&options, "--uid")?,
        gid: number_given(&options, "--gid")?,
        library: library_given(&options)?,
        trap: options.value_of("--trap")?.is_some(),
        program: program.as_str(),
        words,
    };
    if is_contrary(&wanted) {
        return None;
    }
    Some(wanted)
}

/// Whether it says what does not go with `--trap`, and that too.
fn is_contrary(wanted: &Wanted<'_>) -> bool
    ensures { result ≡ is_contrary (said_by wanted.now) }
{
    wanted.trap && (wanted.uid.is_some() || wanted.gid.is_some() || wanted.library.is_some())
}

/// Whether one of the words is `--trap` with a value, even an empty one.
fn has_trap_with_value(words: &[String]) -> bool
    ensures { result ≡ list_any is_trap_with_value (map string_bytes words.now) }
{
    match words {
        [] => false,
        [word, others @ ..] => is_trap_with_value(word.as_str()) || has_trap_with_value(others),
    }
}

/// Whether the word is `--trap` with a value, even an empty one.
fn is_trap_with_value(word: &str) -> bool
    ensures { result ≡ is_trap_with_value word.now }
{
    match word.split_once('=') {
        Some((name, _)) => name == "--trap",
        None => false,
    }
}

/// The words up to the first `--`, and those after it.
fn cut<'a>(words: &'a [String]) -> (&'a [String], &'a [String])
    ensures before { map string_bytes result.0.now ≡ before_first is_dashes (map string_bytes words.now) }
    ensures behind { map string_bytes result.1.now ≡ after_first is_dashes (map string_bytes words.now) }
{
    let (before, rest) = words.split_at(place(words));
    match rest.split_first() {
        Some((_, behind)) => (before, behind),
        None => (before, rest),
    }
}

/// Where the first `--` stands; the length if there is none.
fn place(words: &[String]) -> usize
    ensures is { result ≡ position_or_len is_dashes (map string_bytes words.now) }
    ensures bound { result ≤ length words.now }
{
    match words {
        [] => 0,
        [word, others @ ..] => if word.as_str() == "--" {
            0
        } else {
            1 + place(others)
        },
    }
}

/// The number that the option of this name gives, if it is there.
fn number_given(options: &Options<'_>, name: &str) -> Option<Option<u32>>
    ensures { result ≡ given id_said name.now (said.said_by options.now) }
{
    match options.value_of(name)? {
        Some(text) => {
            let number = number(text.as_bytes(), 4_294_967_295)?;
            Some(Some(number as u32))
        }
        None => Some(None),
    }
}

/// The library that is given, if one is.
fn library_given<'a>(options: &Options<'a>) -> Option<Option<&'a str>>
    ensures { option_map (option_map (λ s. s.now)) result ≡ given library_said (codes "--library") (said.said_by options.now) }
{
    match options.value_of("--library")? {
        Some(path) => if is_library(path) {
            Some(Some(path))
        } else {
            None
        },
        None => Some(None),
    }
}
