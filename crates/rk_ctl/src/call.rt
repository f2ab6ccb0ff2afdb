//! The words of a call: options, an op and its arguments.
ghost use Rattle.std.specs.Prelude.{◌≡◌, ◌<◌, IfSome, length, map, option_map, string_bytes};
ghost use Rattle.rk_ctl.specs.Around.{call_in, or_else};
ghost use Rattle.rk_ctl.specs.Said.{call_by, call_said, is_alone, is_flag, is_flag_with_value, op_and_more, options_by, options_said};

use crate::around::Around;
use crate::search::Search;
use rk_client::op_named;
use rk_message::Op;

/// What stands before the op.
#[derive(Clone, Copy)]
pub struct Options<'a> {
    /// The socket of the daemon; without one it is at the other ends of the standard streams.
    pub socket: Option<&'a str>,
    /// For how many seconds the daemon at a socket is waited for; 0 for as long as it takes, and if none is given.
    pub timeout: u32,
    /// The user to act for, 0 if none is given.
    pub uid: u32,
    /// The group to act for, 0 if none is given.
    pub gid: u32,
    /// The session ring to join, 0 for a new one, and if none is given.
    pub join: u32,
    /// Whether the bytes of a reply are written as they are.
    pub raw: bool,
    /// Whether a reply is not written at all, but for a refusal.
    pub quiet: bool,
    /// The file of the payload, `-` for standard input.
    pub payload_from: Option<&'a str>,
    /// The file of the callout, `-` for standard input.
    pub callout_from: Option<&'a str>,
}

/// What the words ask for.
#[derive(Clone, Copy)]
pub struct Call<'a> {
    /// What stands before the op.
    pub options: Options<'a>,
    /// Which request is sent.
    pub op: Op,
    /// The words after it.
    pub arguments: &'a [String],
}

/// All options, with their dashes.
const OPTIONS: [&str; 9] = [
    "--socket",
    "--timeout",
    "--uid",
    "--gid",
    "--join",
    "--raw",
    "--quiet",
    "--payload-from",
    "--callout-from",
];

impl<'a> Call<'a> {
    /// The call that the words say, of which the first is the name of the program; `None` if they say none. Options come first, each at most
    /// once, as `--uid 5` or `--uid=5`, and `--raw` and `--quiet` without a value, even an empty one; all words after the op are its arguments, whatever they
    /// look like.
    pub fn read(words: &'a [String]) -> Option<Call<'a>>
        ensures { option_map call_by result ≡ call_said (map string_bytes words.now) }
    {
        let (_program, words) = words.split_first()?;
        let (op, arguments) = op_and_more(words)?;
        let (front, _) = words.split_at(words.len() - arguments.len() - 1);
        Some(Call {
            options: Options::read(front)?,
            op,
            arguments,
        })
    }

    /// The same, with the socket that what is around has for its op where the words name none.
    pub fn read_in(words: &'a [String], around: &'a Around) -> Option<Call<'a>>
        ensures { option_map call_by result ≡ call_in around.now (map string_bytes words.now) }
    {
        let call = Call::read(words)?;
        let options = Options {
            socket: or_else(call.options.socket, around.socket_for(call.op)),
            ..call.options
        };
        Some(Call { options, ..call })
    }
}

/// The socket that is named, or else another.
pub fn or_else<'a>(named: Option<&'a str>, other: Option<&'a str>) -> Option<&'a str>
    ensures { option_map (λ s. s.now) result ≡ or_else (option_map (λ s. s.now) named.entry) (option_map (λ s. s.now) other.entry) }
{
    match named {
        Some(path) => Some(path),
        None => other,
    }
}

/// The first op after options, and the words after it; `None` if there is no op, or a flag before it has a value.
pub fn op_and_more<'a>(words: &'a [String]) -> Option<(Op, &'a [String])>
    ensures found { option_map (λ x. (x.0, map string_bytes x.1.now)) result ≡ op_and_more (map string_bytes words.now) }
    ensures shorter { IfSome result (λ x. length x.1.now < length words.now) }
{
    let mut left = words;
    'each: while let Some((word, rest)) = left.split_first() {
        if let Some(op) = op_named(word.as_str()) {
            return Some((op, rest));
        }
        if is_flag_with_value(word.as_str()) {
            return None;
        }
        if is_alone(word.as_str()) {
            left = rest;
        } else {
            let (_value, more) = rest.split_first()?;
            left = more;
        }
    }
    None
}

/// Whether the word is a flag that is given a value, even an empty one.
fn is_flag_with_value(word: &str) -> bool
    ensures { result ≡ is_flag_with_value word.now }
{
    match word.split_once('=') {
        Some((name, _)) => is_flag(name),
        None => false,
    }
}

/// Whether the word takes no next word: it is an option in one word, or a command that looks for keys.
pub fn is_alone(word: &str) -> bool
    ensures { result ≡ is_alone word.now }
{
    word.split_once('=').is_some() || is_flag(word) || Search::named(word).is_some()
}

/// Whether it is the name of an option that has no value.
fn is_flag(name: &str) -> bool
    ensures { result ≡ is_flag name.now }
{
    name == "--raw" || name == "--quiet"
}

impl<'a> Options<'a> {
    /// What the words before an op say; `None` if an option is unknown, there twice, or has a value that is not allowed.
    pub fn read(words: &'a [String]) -> Option<Options<'a>>
        ensures { option_map options_by result ≡ options_said (map string_bytes words.now) }
    {
        let options = rk_options::Options {
            words,
            flags: &["--raw", "--quiet"],
        };
        if !options.are_known(&OPTIONS) {
            return None;
        }
        Some(Options {
            socket: options.value_of("--socket")?,
            timeout: options.number_or("--timeout", 4_294_967_295, 0)?,
            uid: options.number_or("--uid", 4_294_967_295, 0)?,
            gid: options.number_or("--gid", 4_294_967_295, 0)?,
            join: options.number_or("--join", 2_147_483_647, 0)?,
            raw: options.value_of("--raw")?.is_some(),
            quiet: options.value_of("--quiet")?.is_some(),
            payload_from: options.value_of("--payload-from")?,
            callout_from: options.value_of("--callout-from")?,
        })
    }
}
