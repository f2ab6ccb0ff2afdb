//! What does not fit is refused, and changes nothing.
use super::*;

/// Nothing is there but a client without a context.
const OF_NOTHING: &[Row] = &[
    ("100 open c1", "0"),
    ("open c1", "E16"),
    ("open h3", "E22"),
    ("gone c2", "E22"),
    ("gone h3", "E22"),
    ("collect c1", "E22"),
    ("collect c2", "E22"),
    ("collect h3", "E22"),
    ("launched 3 plain", "E22"),
    ("ended 3 exit 0", "E22"),
    ("c2 hello 1000 1000 0 0", "E22"),
    ("h3 assume 3", "E22"),
    ("c1 callout", "E13"),
    ("c1 hello 1000 1000 0 0", "rings 0 0 1 2"),
    ("c1 callout", "E126"),
    ("c1 read auth", "E126"),
    ("c1 read 0", "E22"),
    ("c1 read 1", "E126"),
];

#[test]
fn events_of_nothing(rt: HostRuntime) -> Result<(), Fail> {
    play_all(&rt, rt.alloc(), &[OF_NOTHING])
}

/// A session that waits asks nothing, and each event has its turn once.
const OUT_OF_TURN: &[Row] = &[
    ("c1 request user a none x", "start 3"),
    ("c1 read 3", "E16"),
    ("c1 hello 1000 1000 0 0", "E16"),
    ("ended 3 exit 0", "E22"),
    ("launched 3 plain", "0"),
    ("launched 3 plain", "E22"),
    ("launched 3 failed", "E22"),
    ("open h3", "E22"),
    ("gone h3", "E22"),
    ("h3 callout", "E13"),
    ("h3 hello 1000 1000 0 0", "E13"),
    ("h3 assume 3", "0"),
    ("h3 hello 1000 1000 0 0", "E22"),
    ("ended 3 exit 0", "0"),
    ("ended 3 exit 0", "E22"),
    ("launched 3 plain", "E22"),
    ("h3 assume 3", "E22"),
    ("collect c1", "E126"),
    ("collect c1", "E22"),
    ("gone c1", "0"),
    ("gone c1", "E22"),
    ("c1 read 3", "E22"),
];

#[test]
fn events_out_of_turn(rt: HostRuntime) -> Result<(), Fail> {
    play_all(&rt, rt.alloc(), &[ALONE, OUT_OF_TURN])
}

/// What a plain handler outputs is no payload, and a piped one has no session.
const OF_A_PLAIN_HANDLER: &[Row] = &[
    ("c1 request user a none x", "start 3"),
    ("launched 3 plain", "0"),
    ("ended 3 exit 0 hi", "0"),
    ("collect c1", "E126"),
];

const OF_A_PIPED_HANDLER: &[Row] = &[
    ("c1 request user a none x", "start 3"),
    ("launched 3 piped", "0"),
    ("h3 assume 3", "E22"),
];

#[test]
fn plain_and_piped_handlers_differ(rt: HostRuntime) -> Result<(), Fail> {
    play_all(&rt, rt.alloc(), &[ALONE, OF_A_PLAIN_HANDLER])?;
    play_all(&rt, rt.alloc(), &[ALONE, OF_A_PIPED_HANDLER])
}

/// A handler that ends while it waits: its wait is gone with it.
const OF_A_HANDLER_THAT_ENDED: &[Row] = &[
    ("c1 request user a none x", "start 3"),
    ("c2 request user b none x", "start 4"),
    ("launched 3 plain", "0"),
    ("launched 4 plain", "0"),
    ("h3 assume 3", "0"),
    ("h3 request user b none x", "waiting 4"),
    ("ended 3 signal", "0"),
    ("collect h3", "E22"),
    ("h4 assume 4", "0"),
    ("h4 instantiate 4 b none", "0"),
    ("collect h3", "E22"),
];

#[test]
fn a_handler_that_ended_collects_nothing(rt: HostRuntime) -> Result<(), Fail> {
    play_all(&rt, rt.alloc(), &[TWO, OF_A_HANDLER_THAT_ENDED])
}
