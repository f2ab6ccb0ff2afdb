//! What a word is to timeout(1) and env(1).
ghost use Rattle.std.specs.Prelude.{◌≡◌, option_map};
ghost use Rattle.rk_wrappers.specs.Wrappers.{env_step, is_absolute, is_option, is_setting, is_split, program_step, read_word, timeout_step, wrapper_at};

/// What is read of the words before a program.
#[derive(Clone, Copy, Debug, PartialEq, Eq)]
pub enum Wrapper {
    /// The options of timeout(1), and the duration after them.
    Timeout,
    /// The value of one of these options.
    TimeoutValue,
    /// The options of env(1), and the variables after them.
    Env,
    /// The value of one of these options.
    EnvValue,
    /// The program.
    Program,
}

/// What comes of a word.
#[derive(Clone, Copy, Debug, PartialEq, Eq)]
pub enum Step {
    /// The next word is this.
    On(Wrapper),
    /// The word is the program.
    Found,
    /// The program can't be told.
    Lost,
}

/// What the first word of the program at this path is, if that is timeout(1) or env(1).
pub fn wrapper_at(path: &str) -> Option<Wrapper>
    ensures { result ≡ wrapper_at path.now }
{
    match path {
        "/usr/bin/timeout" | "/bin/timeout" => Some(Wrapper::Timeout),
        "/usr/bin/env" | "/bin/env" => Some(Wrapper::Env),
        _ => None,
    }
}

/// What comes of a word, which may not be known.
pub fn read_word(wrapper: Wrapper, word: Option<&str>) -> Step
    ensures { result ≡ read_word wrapper (option_map (λ s. s.now) word.entry) }
{
    match (wrapper, word) {
        (Wrapper::TimeoutValue, _) => Step::On(Wrapper::Timeout),
        (Wrapper::EnvValue, _) => Step::On(Wrapper::Env),
        (_, None) => Step::Lost,
        (Wrapper::Timeout, Some(word)) => timeout_step(word),
        (Wrapper::Env, Some(word)) => env_step(word),
        (Wrapper::Program, Some(word)) => program_step(word),
    }
}

/// What comes of a word of timeout(1): an option, of which some have their value in the next word, or the duration.
fn timeout_step(word: &str) -> Step
    ensures { result ≡ timeout_step word.now }
{
    match word {
        "-k" | "-s" | "--kill-after" | "--signal" => Step::On(Wrapper::TimeoutValue),
        _ if is_option(word) => Step::On(Wrapper::Timeout),
        _ => Step::On(Wrapper::Program),
    }
}

/// What comes of a word of env(1): an option, of which some have their value in the next word, a variable, or the program. Of a text that env(1) splits by
/// itself nothing is told.
fn env_step(word: &str) -> Step
    ensures { result ≡ env_step word.now }
{
    match word {
        "-u" | "-C" | "--unset" | "--chdir" => Step::On(Wrapper::EnvValue),
        _ if is_split(word) => Step::Lost,
        _ if is_option(word) || is_setting(word) => Step::On(Wrapper::Env),
        _ => program_step(word),
    }
}

/// What comes of a program: one that starts another is read on.
fn program_step(word: &str) -> Step
    ensures { result ≡ program_step word.now }
{
    match wrapper_at(word) {
        Some(wrapper) => Step::On(wrapper),
        None if is_absolute(word) => Step::Found,
        None => Step::Lost,
    }
}

/// Whether the word is an option.
fn is_option(word: &str) -> bool
    ensures { result ≡ is_option word.now }
{
    matches!(word.as_bytes(), [b'-', ..])
}

/// Whether the word is the option `-S` or `--split-string` of env(1), which may be shortened.
fn is_split(word: &str) -> bool
    ensures { result ≡ is_split word.now }
{
    matches!(word.as_bytes(), [b'-', b'S', ..] | [b'-', b'-', b's', ..])
}

/// Whether the word sets a variable.
fn is_setting(word: &str) -> bool
    ensures { result ≡ is_setting word.now }
{
    word.as_bytes().iter().any(|byte| *byte == b'=')
}

/// Whether the word is an absolute path.
fn is_absolute(word: &str) -> bool
    ensures { result ≡ is_absolute word.now }
{
    matches!(word.as_bytes(), [b'/', ..])
}
