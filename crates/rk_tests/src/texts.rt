//! What errors and faults print: the names of errno(3), and texts that were written down by hand.
use crate::same::same;
use rk_auth::AuthFault;
use rk_conf::{ConfFault, ConfKind};
use rk_frame::FrameFault;
use rk_keys::KeyFault;
use rk_macro::ExpandFault;
use rk_message::{Fault, ReadError};
use rk_names::{Errno, KeyError, NameFault};
use rk_replay::{ScriptFault, TakeFault};
use rk_rings::RingFault;
use std::alloc::Global;
use std::fmt::Display;
use std::process::Abort;
use std::test::Fail;

/// Finds that each prints as the text beside it.
fn print<T: Display>(rt: &impl Abort, alloc: Global, rows: &[(T, &str)]) -> Result<(), Fail> {
    for (value, text) in rows {
        let shown = format!(in alloc; "{value}")?;
        same(rt, shown.as_str(), *text);
    }
    Ok(())
}

const ERRNOS: &[(Errno, &str)] = &[
    (Errno::Eperm, "EPERM"),
    (Errno::Enoent, "ENOENT"),
    (Errno::Enomem, "ENOMEM"),
    (Errno::Eacces, "EACCES"),
    (Errno::Ebusy, "EBUSY"),
    (Errno::Einval, "EINVAL"),
    (Errno::Edeadlk, "EDEADLK"),
    (Errno::Edquot, "EDQUOT"),
    (Errno::Enokey, "ENOKEY"),
    (Errno::Ekeyexpired, "EKEYEXPIRED"),
    (Errno::Ekeyrevoked, "EKEYREVOKED"),
    (Errno::Ekeyrejected, "EKEYREJECTED"),
];

const NAMES: &[(NameFault, &str)] = &[
    (NameFault::Empty, "it is empty"),
    (NameFault::TooLong, "it is too long"),
    (NameFault::Dot, "a type begins with a dot"),
    (NameFault::Byte, "it is not text without a zero byte"),
    (NameFault::NoMemory, "out of memory"),
];

const FRAMES: &[(FrameFault, &str)] = &[
    (FrameFault::Empty, "a frame has no body"),
    (FrameFault::TooLong, "a frame is longer than 65,536 bytes"),
];

const BODIES: &[(ReadError, &str)] = &[
    (
        ReadError::Fault(Fault::UnknownOp),
        "the first byte names no message",
    ),
    (ReadError::Fault(Fault::Short), "the body is too short"),
    (
        ReadError::Fault(Fault::Trailing),
        "bytes are left after the last field",
    ),
    (
        ReadError::Fault(Fault::Bad(Errno::Eperm)),
        "a field is bad: EPERM",
    ),
    (ReadError::NoMemory, "out of memory"),
];

const LINES: &[(ConfFault, &str)] = &[
    (
        ConfFault {
            line: 3,
            kind: ConfKind::TooFewFields,
        },
        "line 3: C1",
    ),
    (
        ConfFault {
            line: 1,
            kind: ConfKind::NoMemory,
        },
        "line 1: C5",
    ),
];

const COMMANDS: &[(ExpandFault, &str)] = &[
    (ExpandFault::NoKey, "X1"),
    (ExpandFault::NotText, "X2"),
    (ExpandFault::TooLong, "X3"),
    (ExpandFault::NoMemory, "X4"),
];

#[test]
fn faults_of_values_print(rt: HostRuntime) -> Result<(), Fail> {
    let alloc = rt.alloc();
    same(&rt, ExpandFault::NoKey.code(), "X1");
    print(&rt, alloc, ERRNOS)?;
    print(&rt, alloc, NAMES)?;
    print(&rt, alloc, FRAMES)?;
    print(&rt, alloc, BODIES)?;
    print(&rt, alloc, LINES)?;
    print(&rt, alloc, COMMANDS)
}

const KEYS: &[(KeyFault, &str)] = &[
    (KeyFault::Quota, "the quota is used up"),
    (KeyFault::Busy, "the key is under construction"),
    (
        KeyFault::Own(KeyError::Expired),
        "the key can't be used: EKEYEXPIRED",
    ),
    (KeyFault::NoMemory, "out of memory"),
];

const RINGS: &[(RingFault, &str)] = &[
    (RingFault::NoRing, "there is no such ring"),
    (RingFault::Full, "a limit is reached"),
    (RingFault::NotLinked, "the key is not linked there"),
    (RingFault::Elsewhere, "the ring is not one of the context"),
    (RingFault::NoMemory, "out of memory"),
];

const AUTHORITIES: &[(AuthFault, &str)] = &[
    (
        AuthFault::NoKey,
        "the session has no authority for that key",
    ),
    (AuthFault::Revoked, "the authority is spent"),
    (
        AuthFault::NotOwner,
        "the session has not assumed the key's authority",
    ),
    (AuthFault::Circle, "the wait would close a circle"),
    (AuthFault::Quota, "a limit is reached"),
    (AuthFault::NoMemory, "out of memory"),
];

const HAPPENINGS: &[(TakeFault, &str)] = &[
    (
        TakeFault::Unknown,
        "the client or handler is not at that point",
    ),
    (TakeFault::NoMemory, "memory was refused"),
];

const SCRIPTS: &[(ScriptFault, &str)] = &[
    (ScriptFault::Read, "the script could not be read"),
    (ScriptFault::Write, "the output could not be written"),
    (ScriptFault::Conf, "the configuration is refused"),
    (ScriptFault::NoMemory, "memory was refused"),
    (ScriptFault::TurnsUsed, "the script is too long"),
];

#[test]
fn faults_of_calls_print(rt: HostRuntime) -> Result<(), Fail> {
    let alloc = rt.alloc();
    print(&rt, alloc, KEYS)?;
    print(&rt, alloc, RINGS)?;
    print(&rt, alloc, AUTHORITIES)?;
    print(&rt, alloc, HAPPENINGS)?;
    print(&rt, alloc, SCRIPTS)
}
