//! What is wrong with words where the manual finds nothing.

use crate::call::op_and_more;
use crate::search::Search;
use rk_options::Options;
use rk_text::number;
use rk_variables::is_library;
use thiserror::Error;

/// Why a file stands for no argument.
#[derive(Clone, Copy, Debug, PartialEq, Eq, Error)]
pub enum Misplaced {
    /// The op takes no payload.
    #[error("the argument '--payload-from <FILE>' cannot be used with a command that takes no payload")]
    Payload,
    /// The op takes no callout.
    #[error("the argument '--callout-from <FILE>' cannot be used with a command that takes no callout")]
    Callout,
    /// Both are named.
    #[error("the argument '--payload-from <FILE>' cannot be used with '--callout-from <FILE>'")]
    Both,
    /// It is standard input, where the daemon is.
    #[error("the file '-' is standard input, which leads to the daemon unless '--socket <PATH>' is used")]
    Input,
}

/// A usage error that the manual lets pass.
#[derive(Clone, Copy, Debug, Error)]
pub enum Leftover<'a> {
    /// A number with a sign.
    #[error("invalid value '{value}' for '{option} <N>': a number has digits alone")]
    Number {
        /// The option, with its dashes.
        option: &'static str,
        /// The word, which is not a number up to its limit.
        value: &'a str,
    },
    /// A library that can't be preloaded.
    #[error("invalid value '{0}' for '--library <FILE>': it has to be an absolute path, without a space or a colon")]
    Library(&'a str),
    /// An option that `list` and `sweep` don't take.
    #[error("'list' and 'sweep' take no other options than '--socket', '--timeout', '--uid' and '--gid'")]
    Search,
    /// No socket for `list` or `sweep`.
    #[error("neither '--socket <PATH>' nor REQKEYD_SOCKET says where the daemon is")]
    Nowhere,
    /// Options before `run`.
    #[error("the options of 'run' stand behind it, as in 'reqkeyctl run --uid 1000 -- PROGRAM'")]
    Run,
}

/// The options that have numbers.
const NUMBERS: [&str; 4] = ["--timeout", "--uid", "--gid", "--join"];

/// Which usage error these words have, in which the manual finds no fault. The first is the name of the program.
pub fn unnoticed(words: &[String]) -> Leftover<'_> {
    let options = Options {
        words: options_in(words),
        flags: &["--raw", "--quiet", "--trap"],
    };
    for option in NUMBERS {
        if let Some(Some(value)) = options.value_of(option) {
            if number(value.as_bytes(), 4_294_967_295).is_none() {
                return Leftover::Number { option, value };
            }
        }
    }
    match options.value_of("--library") {
        Some(Some(path)) if !is_library(path) => Leftover::Library(path),
        _ if !searches(words) => Leftover::Run,
        _ if options.are_known(&["--socket", "--timeout", "--uid", "--gid"]) => Leftover::Nowhere,
        _ => Leftover::Search,
    }
}

/// Whether the last word names a search.
fn searches(words: &[String]) -> bool {
    match words {
        [.., word] => Search::named(word.as_str()).is_some(),
        [] => false,
    }
}

/// The words that are to be options: those after `run` up to the first `--`, or those before the op.
fn options_in(words: &[String]) -> &[String] {
    match words {
        [] => words,
        [_, word, others @ ..] if word.as_str() == "run" => {
            match others.iter().position(|word| word.as_str() == "--") {
                Some(end) if end <= others.len() => {
                    let (front, _) = others.split_at(end);
                    front
                }
                _ => others,
            }
        }
        [_, words @ ..] => match op_and_more(words) {
            Some((_, arguments)) => {
                let (front, _) = words.split_at(words.len() - arguments.len() - 1);
                front
            }
            None if searches(words) => match words.split_last() {
                Some((_, front)) => front,
                None => words,
            },
            None => words,
        },
    }
}
