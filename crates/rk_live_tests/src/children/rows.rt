//! What a requester gets for each call of a device that fails, and what else only a fake does. What the rest that a program may do leads to is tried in
//! tests/serve, with programs that are really started.
use crate::answers::Said;
use crate::children::handling::Handling;
use crate::fakes::launcher::Call::{Read, Start, Wait, Write};
use crate::fakes::launcher::Fuse;
use crate::fakes::programs::{self, ASKS_OFTEN, ENDLESS, Started, WRITES_ON};
use crate::halls::opening::in_new_halls;
use rk_devices::Driven::{self, ReadFailed, StartFailed, WaitFailed};
use rk_machine::How;
use rk_names::Errno;
use std::alloc::Global;
use std::process::Abort;

/// The client gets its key.
pub const MADE: Said = Said::Number(12);

const NO_KEY: Said = Said::Refused(Errno::Enokey);

const ENDED: Driven = Driven::Ended(How::Exit(0));

const NEGATED: Driven = Driven::Ended(How::Exit(3));

const NESTS: Driven = Driven::Ended(How::Exit(6));

const FAILS: Driven = Driven::Ended(How::Exit(7));

/// So many steps has a volume, where it is not looked at.
const STEPS: usize = 1_048_576;

/// A plain handler.
pub const PLAIN: Handling = Handling {
    started: programs::PLAIN,
    fuse: None,
    driven: ENDED,
    outcome: MADE,
    told: None,
    steps: None,
    reads: None,
    reported: Some(1),
    volumes: 0,
};

/// One whose output comes in pieces.
const IN_PIECES: Handling = Handling {
    started: programs::IN_PIECES,
    ..PLAIN
};

/// A piped one.
pub const PIPED: Handling = Handling {
    started: programs::PIPED,
    ..PLAIN
};

/// A handler that asks for another key.
pub const NESTED: Handling = Handling {
    started: programs::NESTED,
    driven: NESTS,
    reported: Some(2),
    ..PLAIN
};

/// A piped one that fails, and one that says that the key can't be made.
pub const FOLLOWED: Handling = Handling {
    started: programs::FOLLOWED,
    driven: NEGATED,
    outcome: NO_KEY,
    reported: Some(2),
    ..PLAIN
};

/// The number 0.
const ZERO: &[u8] = b"\0\0\0\x05\0\0\0\0\0";

/// The number 16.
const SIXTEEN: &[u8] = b"\0\0\0\x05\0\0\0\0\x10";

/// ENOKEY, 126.
const NONE: &[u8] = b"\0\0\0\x02\x03\x7e";

/// The callout, as a piped handler gets it.
const X: &[u8] = b"x";

/// Which call fails, how the launch ends, what the client is answered, how many commands are started, what their handlers are answered, those of the innermost
/// first, and how many steps there are up to the client's outcome.
pub type Row = (Fuse, Driven, Said, usize, &'static [&'static [u8]], u64);

/// Of a plain handler.
pub const PLAIN_ROWS: &[Row] = &[
    (Fuse(1, Start, 1), StartFailed, NO_KEY, 0, &[], 5),
    (Fuse(1, Read, 1), ReadFailed, NO_KEY, 1, &[], 6),
    (Fuse(1, Read, 2), ReadFailed, MADE, 1, &[ZERO, ZERO], 8),
    (Fuse(1, Write, 1), ENDED, NO_KEY, 1, &[], 7),
    (Fuse(1, Write, 2), ENDED, MADE, 1, &[ZERO], 8),
    (Fuse(1, Wait, 1), WaitFailed, MADE, 1, &[ZERO, ZERO], 8),
];

/// Of a piped one. If it fails, no line says what is to make the key negative: a start that fails.
pub const PIPED_ROWS: &[Row] = &[
    (Fuse(1, Start, 1), StartFailed, NO_KEY, 0, &[], 5),
    (Fuse(1, Read, 1), ReadFailed, NO_KEY, 1, &[X], 7),
    (Fuse(1, Read, 2), ReadFailed, NO_KEY, 1, &[X], 7),
    (Fuse(1, Write, 1), ENDED, MADE, 1, &[], 6),
    (Fuse(1, Wait, 1), WaitFailed, NO_KEY, 1, &[X], 7),
];

/// What both are answered if all goes well: the callout; and 0 and 0.
const NEGATES: &[&[u8]] = &[X, ZERO, ZERO];

/// If the first command is started, the second one is too, whatever becomes of it.
pub const FOLLOWED_ROWS: &[Row] = &[
    (Fuse(1, Start, 1), StartFailed, NO_KEY, 0, &[], 5),
    (Fuse(1, Read, 1), NEGATED, NO_KEY, 2, NEGATES, 10),
    (Fuse(1, Read, 2), NEGATED, NO_KEY, 2, NEGATES, 10),
    (Fuse(1, Write, 1), NEGATED, NO_KEY, 2, &[ZERO, ZERO], 10),
    (Fuse(1, Wait, 1), NEGATED, NO_KEY, 2, NEGATES, 10),
    (Fuse(2, Start, 1), FAILS, NO_KEY, 1, &[X], 7),
    (Fuse(2, Read, 1), ReadFailed, NO_KEY, 2, &[X], 8),
    (Fuse(2, Read, 2), ReadFailed, NO_KEY, 2, NEGATES, 10),
    (Fuse(2, Write, 1), NEGATED, NO_KEY, 2, &[X], 9),
    (Fuse(2, Write, 2), NEGATED, NO_KEY, 2, &[X, ZERO], 10),
    (Fuse(2, Wait, 1), WaitFailed, NO_KEY, 2, NEGATES, 10),
];

/// What both are answered if all goes well: 0 and 0; and 0, 16 and 0.
const BOTH: &[&[u8]] = &[ZERO, ZERO, ZERO, SIXTEEN, ZERO];

/// What the first one is answered if key 16 is not made.
const WITHOUT: &[&[u8]] = &[ZERO, NONE, ZERO];

/// Whatever becomes of the handler of key 16, the first one learns whether that key was made, goes on and makes key 12.
pub const NESTED_ROWS: &[Row] = &[
    (Fuse(2, Start, 1), NESTS, MADE, 1, WITHOUT, 11),
    (Fuse(2, Read, 1), NESTS, MADE, 2, WITHOUT, 12),
    (Fuse(2, Read, 2), NESTS, MADE, 2, BOTH, 14),
    (Fuse(2, Write, 1), NESTS, MADE, 2, WITHOUT, 13),
    (
        Fuse(2, Write, 2),
        NESTS,
        MADE,
        2,
        &[ZERO, ZERO, SIXTEEN, ZERO],
        14,
    ),
    (Fuse(2, Wait, 1), NESTS, MADE, 2, BOTH, 14),
    (Fuse(1, Start, 1), StartFailed, NO_KEY, 0, &[], 5),
    (Fuse(1, Read, 1), ReadFailed, NO_KEY, 1, &[], 6),
    (Fuse(1, Write, 1), NESTS, NO_KEY, 1, &[], 7),
    (Fuse(1, Write, 2), NESTS, NO_KEY, 2, &[ZERO, ZERO, ZERO], 13),
    (
        Fuse(1, Write, 3),
        NESTS,
        MADE,
        2,
        &[ZERO, ZERO, ZERO, SIXTEEN],
        14,
    ),
    (Fuse(1, Read, 2), ReadFailed, MADE, 2, BOTH, 14),
    (Fuse(1, Wait, 1), WaitFailed, MADE, 2, BOTH, 14),
];

/// Of a plain handler whose output comes in pieces: its second read is the first one of its INSTANTIATE.
pub const IN_PIECES_ROWS: &[Row] = &[
    (Fuse(1, Read, 2), ReadFailed, NO_KEY, 1, &[ZERO], 7),
    (Fuse(1, Read, 3), ReadFailed, NO_KEY, 1, &[ZERO], 7),
];

/// The handling, of which a call fails.
fn failing(whole: &Handling, row: &Row) -> Handling {
    let (fuse, driven, outcome, count, told, steps) = *row;
    let commands = whole.started.commands;
    Handling {
        started: Started {
            commands: &commands[..count.min(commands.len())],
            ..whole.started
        },
        fuse: Some(fuse),
        driven,
        outcome,
        told: Some(told),
        steps: Some(steps),
        reported: None,
        ..*whole
    }
}

/// The handling, where the call of each of these rows fails.
fn each_fails<R: std::sync::Wait + Abort + Copy>(
    rt: &R,
    alloc: Global,
    whole: &Handling,
    rows: &[Row],
) {
    for row in rows {
        in_new_halls(rt, alloc, STEPS, &failing(whole, row));
    }
}

#[test]
fn a_call_of_a_device_fails(rt: HostRuntime) {
    for (whole, rows) in [
        (PLAIN, PLAIN_ROWS),
        (PIPED, PIPED_ROWS),
        (FOLLOWED, FOLLOWED_ROWS),
        (NESTED, NESTED_ROWS),
        (IN_PIECES, IN_PIECES_ROWS),
    ] {
        each_fails(&rt, rt.alloc(), &whole, rows);
    }
}

/// A handler that outputs bytes for ever is read a million times.
const GIVEN_UP: Handling = Handling {
    driven: ReadFailed,
    outcome: NO_KEY,
    reads: Some(1_048_576),
    reported: None,
    ..PLAIN
};

/// Its key is made if it has completed it before.
const FOR_EVER: &[Handling] = &[
    Handling {
        started: Started {
            programs: &[WRITES_ON],
            ..programs::PLAIN
        },
        ..GIVEN_UP
    },
    Handling {
        started: Started {
            programs: &[ENDLESS],
            ..programs::PLAIN
        },
        outcome: MADE,
        ..GIVEN_UP
    },
    Handling {
        started: Started {
            programs: &[WRITES_ON],
            ..programs::PIPED
        },
        ..GIVEN_UP
    },
];

#[test]
fn a_handler_that_writes_for_ever_is_given_up(rt: HostRuntime) {
    for handling in FOR_EVER {
        in_new_halls(&rt, rt.alloc(), STEPS, handling);
    }
}

/// Ten times the callout, as the reply to an ask for it.
const TEN_X: &[u8] =
    b"\0\0\0\x04\x01\0\x01x\0\0\0\x04\x01\0\x01x\0\0\0\x04\x01\0\x01x\0\0\0\x04\x01\0\x01x\0\0\0\x04\x01\0\x01x\
    \0\0\0\x04\x01\0\x01x\0\0\0\x04\x01\0\x01x\0\0\0\x04\x01\0\x01x\0\0\0\x04\x01\0\x01x\0\0\0\x04\x01\0\x01x";

const ASKING: Handling = Handling {
    started: Started {
        programs: &[ASKS_OFTEN],
        ..programs::PLAIN
    },
    told: Some(&[ZERO, TEN_X, TEN_X, TEN_X, ZERO]),
    ..PLAIN
};

/// How many steps a volume has, and how many volumes are handed out. Of the 32 asks the first volume has those for which there are places after its four
/// steps, and each other one as many as it has places but for three, which are owed: to the client its end and its outcome, to the construction its end.
const VOLUMES: &[(usize, u64)] = &[
    (9, 5),
    (10, 5),
    (11, 4),
    (12, 3),
    (13, 3),
    (14, 3),
    (15, 2),
    (16, 2),
    (17, 2),
    (18, 2),
    (19, 2),
    (38, 1),
    (39, 0),
];

#[test]
fn volumes_are_handed_out_while_a_handler_asks(rt: HostRuntime) {
    for (steps, volumes) in VOLUMES {
        let asking = Handling {
            volumes: *volumes,
            ..ASKING
        };
        in_new_halls(&rt, rt.alloc(), *steps, &asking);
    }
}
