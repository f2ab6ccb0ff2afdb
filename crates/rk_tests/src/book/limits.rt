//! What a script does not reach: how deep a construction is, other serials than those from 1 on.
use super::*;

/// Eight handlers, each started by the one before it; the ninth is refused and draws no serial.
const EIGHT_DEEP: &[Row] = &[
    ("c1 request user a none x", "start 3"),
    ("launched 3 plain", "0"),
    ("h3 assume 3", "0"),
    ("h3 request user b none x", "start 4"),
    ("launched 4 plain", "0"),
    ("h4 assume 4", "0"),
    ("h4 request user c none x", "start 5"),
    ("launched 5 plain", "0"),
    ("h5 assume 5", "0"),
    ("h5 request user d none x", "start 6"),
    ("launched 6 plain", "0"),
    ("h6 assume 6", "0"),
    ("h6 request user e none x", "start 7"),
    ("launched 7 plain", "0"),
    ("h7 assume 7", "0"),
    ("h7 request user f none x", "start 8"),
    ("launched 8 plain", "0"),
    ("h8 assume 8", "0"),
    ("h8 request user g none x", "start 9"),
    ("launched 9 plain", "0"),
    ("h9 assume 9", "0"),
    ("h9 request user h none x", "start 10"),
    ("launched 10 plain", "0"),
    ("h10 assume 10", "0"),
    ("h10 request user i none x", "E122"),
    ("depth 3", "1"),
    ("depth 10", "8"),
    ("depth 11", "none"),
    ("h10 add user v v session", "11"),
];

#[test]
fn a_chain_of_eight(rt: HostRuntime) -> Result<(), Fail> {
    play_all(&rt, rt.alloc(), &[ALONE, EIGHT_DEEP])
}

/// Two serials are left, then none: a client may still join.
const THE_LAST_TWO_SERIALS: &[Row] = &[
    ("100 open c1", "0"),
    ("c1 hello 1000 1000 0 0", "rings 0 0 2147483646 2147483647"),
    ("c1 add user k v session", "E122"),
    ("c1 request user k none x", "E122"),
    ("c1 request user k none", "E126"),
    ("open c2", "0"),
    ("c2 hello 1001 1001 0 0", "E122"),
    (
        "c2 hello 1000 1000 0 2147483646",
        "rings 0 0 2147483646 2147483647",
    ),
];

/// One serial is left, too few for two rings, and a refused greeting draws none.
const THE_LAST_SERIAL: &[Row] = &[
    ("100 open c1", "0"),
    ("c1 hello 1000 1000 0 0", "E122"),
    ("c1 hello 1000 1000 0 0", "E122"),
];

#[test]
fn serials_come_to_an_end(rt: HostRuntime) -> Result<(), Fail> {
    play_from(&rt, rt.alloc(), 2_147_483_646, &[THE_LAST_TWO_SERIALS])?;
    play_from(&rt, rt.alloc(), 2_147_483_647, &[THE_LAST_SERIAL])
}

/// A book may have every fourth serial alone.
const EVERY_FOURTH_SERIAL: &[Row] = &[
    ("100 open c1", "0"),
    ("c1 hello 1000 1000 0 0", "rings 0 0 4 8"),
    ("c1 add user k v session", "12"),
    ("c1 request user a none x", "start 16"),
];

/// If a key is negative for no time, the next request starts a handler at once.
const NEGATIVE_FOR_NO_TIME: &[Row] = &[
    ("launched 16 failed", "0"),
    ("collect c1", "E126"),
    ("c1 describe 16", "bytes user;1000;expired;a"),
    ("c1 request user a none x", "start 20"),
];

#[test]
fn books_begin_with_other_limits(rt: HostRuntime) -> Result<(), Fail> {
    let limits = Limits {
        negative: 0,
        first: Serial::new(4).expect(&rt, "a serial"),
        stride: 4,
        seed: 0,
    };
    let mut book = Book::new(rt.alloc(), limits)?;
    let played = play_tables(
        &rt,
        rt.alloc(),
        &mut book,
        &[EVERY_FOURTH_SERIAL, NEGATIVE_FOR_NO_TIME],
    );
    drop(book);
    played
}
