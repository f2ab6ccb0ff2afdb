//! The words of `list` and `sweep`: options, and the command as the last word.
ghost use Rattle.std.specs.Prelude.{◌≡◌, map, option_map, string_bytes};
ghost use Rattle.rk_ctl.specs.Said.{options_by};
ghost use Rattle.rk_ctl.specs.Surveys.{greeting_for, is_bare, search_alone, survey_by, survey_said};

use crate::address::Address;
use crate::around::Around;
use crate::call::{Options, or_else};
use crate::search::Search;
use rk_message::{Ask, Greeting};

/// Whose keys are looked for, where, and for what.
#[derive(Clone, Copy)]
pub struct Survey<'a> {
    /// Where the daemon is.
    pub address: Address<'a>,
    /// The user to act for.
    pub uid: u32,
    /// The group to act for.
    pub gid: u32,
    /// What the keys are looked for, for.
    pub search: Search,
}

impl<'a> Survey<'a> {
    /// What the words say, of which the first is the name of the program: `--socket`, `--timeout`, `--uid` and `--gid`, each at most once, and `list` or
    /// `sweep` after them. `None` if they say none, or no socket, and what is around names none either.
    pub fn read(words: &'a [String], around: &'a Around) -> Option<Survey<'a>>
        ensures { option_map survey_by result ≡ survey_said around.now (map string_bytes words.now) }
    {
        let (_program, words) = words.split_first()?;
        let (front, command) = words.split_at(words.len().saturating_sub(1));
        let search = search_alone(command)?;
        let options = Options::read(front)?;
        if !is_bare(&options) {
            return None;
        }
        let path = or_else(options.socket, around.socket())?;
        Some(Survey {
            address: Address {
                path,
                seconds: options.timeout,
            },
            uid: options.uid,
            gid: options.gid,
            search,
        })
    }

    /// The HELLO for these keys: a new session ring and no other.
    pub fn greeting(&self) -> Ask
        ensures { result ≡ greeting_for (survey_by self.now) }
    {
        Ask::Hello(Greeting {
            uid: self.uid,
            gid: self.gid,
            thread: false,
            process: false,
            join: None,
        })
    }
}

/// The search that the only word names.
fn search_alone(words: &[String]) -> Option<Search>
    ensures { result ≡ search_alone (map string_bytes words.now) }
{
    match words {
        [word] => Search::named(word.as_str()),
        _ => None,
    }
}

/// Whether they say no more than where the daemon is, and who acts.
fn is_bare(options: &Options<'_>) -> bool
    ensures { result ≡ is_bare (options_by options.now) }
{
    options.join == 0
        && !options.raw
        && !options.quiet
        && options.payload_from.is_none()
        && options.callout_from.is_none()
}
