//! What a book returns without a step.
use super::*;

/// A payload is seen by the handler of a key, in the rings of its requester, as long as its authority is unspent.
const WHAT_A_HANDLER_SEES: &[Row] = &[
    ("c1 add user b hi session", "3"),
    ("peek 3 user b", "none"),
    ("c1 request user a none x", "start 4"),
    ("peek 4 user b", "bytes hi"),
    ("peek 4 user c", "none"),
    ("peek 4 other b", "none"),
    ("peek 4 user a", "none"),
    ("peek 9 user b", "none"),
    ("launched 4 failed", "0"),
    ("peek 4 user b", "none"),
];

#[test]
fn payloads_are_seen(rt: HostRuntime) -> Result<(), Fail> {
    play_all(&rt, rt.alloc(), &[ALONE, WHAT_A_HANDLER_SEES])
}

/// Nobody waits, and nothing is owed but the end of a client.
const IN_PEACE: &[Row] = &[
    ("waits c1", "no"),
    ("ready c1", "no"),
    ("waits h3", "no"),
    ("ready c9", "no"),
    ("there 1", "yes"),
    ("there 9", "no"),
    ("counts", "0 0"),
    ("stage 3", "none"),
    ("depth 3", "none"),
    ("owed c1", "1 0"),
    ("owed h3", "0 0"),
    ("owes launched 3 plain", "no"),
    ("owes ended 3 exit 0", "no"),
    ("owes collect c1", "no"),
    ("owes gone c1", "yes"),
    ("owes gone c9", "no"),
    ("owes gone h3", "no"),
    ("owes open c9", "no"),
    ("owes c1 callout", "no"),
];

const WHILE_IT_STARTS: &[Row] = &[
    ("c1 request user a none x", "start 3"),
    ("c2 request user a none x", "waiting 3"),
    ("waits c1", "yes"),
    ("waits c2", "yes"),
    ("ready c1", "no"),
    ("counts", "1 1"),
    ("stage 3", "starting"),
    ("depth 3", "1"),
    ("owed c1", "2 0"),
    ("owed h3", "4 2"),
    ("owes launched 3 plain", "yes"),
    ("owes launched 3 failed", "yes"),
    ("owes ended 3 exit 0", "no"),
    ("owes launched 4 plain", "no"),
];

const WHILE_IT_RUNS: &[Row] = &[
    ("launched 3 plain", "0"),
    ("stage 3", "plain"),
    ("owed h3", "1 1"),
    ("owes launched 3 plain", "no"),
    ("owes ended 3 signal", "yes"),
    ("h3 assume 3", "0"),
    ("depth 3", "1"),
    ("h3 negate 3 10 none", "0"),
    ("depth 3", "none"),
    ("ready c1", "no"),
    ("owes collect c1", "no"),
    ("counts", "1 1"),
    ("ready c2", "yes"),
    ("owes collect c2", "yes"),
];

const WHEN_IT_HAS_ENDED: &[Row] = &[
    ("ended 3 exit 0", "0"),
    ("counts", "1 0"),
    ("stage 3", "none"),
    ("owed h3", "0 0"),
    ("owes ended 3 exit 0", "no"),
    ("ready c1", "yes"),
    ("owes collect c1", "yes"),
    ("collect c1", "E126"),
    ("ready c1", "no"),
    ("waits c1", "no"),
    ("waits c2", "yes"),
];

#[test]
fn what_is_waited_for_and_owed(rt: HostRuntime) -> Result<(), Fail> {
    play_all(
        &rt,
        rt.alloc(),
        &[
            TWO,
            IN_PEACE,
            WHILE_IT_STARTS,
            WHILE_IT_RUNS,
            WHEN_IT_HAS_ENDED,
        ],
    )
}
