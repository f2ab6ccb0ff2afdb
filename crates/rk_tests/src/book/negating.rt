//! A handler that follows a piped one: what the Book says to each event, also to those that are out of turn.
use super::scenes::PIPED;
use super::*;

const PUT_OUT_NOTHING: &[Row] = &[("ended 3 exit 0", "negate 3")];

/// The piped handler ends with status 1: its output doesn't count, and a `negate` handler is to follow.
pub(super) const ENDED_BADLY: &[Row] = &[("ended 3 exit 1 0123456789", "negate 3")];

const ENDED_BY_A_SIGNAL: &[Row] = &[("ended 3 signal 0123456789", "negate 3")];

const ENDED_UNREAD: &[Row] = &[("ended 3 fault 0123456789", "negate 3")];

/// Another handler is to be started, which is not piped. It cannot be.
pub(super) const FOLLOWED_BY_NONE: &[Row] = &[
    ("collect c1", "waiting 3"),
    ("stage 3", "negating"),
    ("owed h3", "2 1"),
    ("ended 3 exit 1", "E22"),
    ("launched 3 piped", "E22"),
    ("launched 3 failed", "0"),
    ("collect c1", "E126"),
];

/// Another handler has the authority of the first, and says for how long there is no key.
pub(super) const NEGATED_BY_THE_SECOND: &[Row] = &[
    ("launched 3 plain", "0"),
    ("h3 assume 3", "0"),
    ("h3 callout", "bytes x"),
    ("h3 negate 3 30 none", "0"),
    ("100 ended 3 exit 0", "0"),
    ("collect c1", "E126"),
    ("129 c1 request user a none x", "E126"),
    ("130 c1 request user a none x", "start 4"),
];

/// Another handler makes the key after all.
const MADE_BY_THE_SECOND: &[Row] = &[
    ("launched 3 plain", "0"),
    ("h3 assume 3", "0"),
    ("h3 instantiate 3 hi none", "0"),
    ("ended 3 exit 1", "0"),
    ("collect c1", "3"),
    ("c1 read 3", "bytes hi"),
];

/// No third handler follows.
const ENDED_IN_VAIN: &[Row] = &[
    ("launched 3 plain", "0"),
    ("ended 3 exit 1", "0"),
    ("launched 3 plain", "E22"),
    ("collect c1", "E126"),
];

#[test]
fn no_second_handler_can_be_started(rt: HostRuntime) -> Result<(), Fail> {
    for ending in [
        PUT_OUT_NOTHING,
        ENDED_BADLY,
        ENDED_BY_A_SIGNAL,
        ENDED_UNREAD,
    ] {
        play_all(&rt, rt.alloc(), &[ALONE, PIPED, ending, FOLLOWED_BY_NONE])?;
    }
    Ok(())
}

#[test]
fn a_second_handler_acts(rt: HostRuntime) -> Result<(), Fail> {
    for second in [NEGATED_BY_THE_SECOND, MADE_BY_THE_SECOND, ENDED_IN_VAIN] {
        play_all(&rt, rt.alloc(), &[ALONE, PIPED, ENDED_BADLY, second])?;
    }
    Ok(())
}
