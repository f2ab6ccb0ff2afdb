//! Programs that are started in the tests, by the frames that they say, and the lines of a configuration that start them. The key that is requested is 12.
use crate::fakes::launcher::Program;
use rk_machine::How;

/// ASSUME 12.
const ASSUME_12: &[u8] = b"\0\0\0\x05\x03\0\0\0\x0c";

/// INSTANTIATE 12 "hi".
const INSTANTIATE_12: &[u8] = b"\0\0\0\x0d\x04\0\0\0\x0c\0\x02hi\0\0\0\0";

/// NEGATE 12 for 30 seconds.
const NEGATE_12: &[u8] = b"\0\0\0\x0d\x05\0\0\0\x0c\0\0\0\x1e\0\0\0\0";

/// CALLOUT.
const CALLOUT: &[u8] = b"\0\0\0\x01\x10";

/// REQUEST user b, with the callout x.
const REQUEST_B: &[u8] = b"\0\0\0\x12\x02\0\x04user\0\x01b\x01\0\x01x\0\0\0\0";

/// ASSUME 16, and INSTANTIATE 16 "hi".
const MAKES_16: &[u8] = b"\0\0\0\x05\x03\0\0\0\x10\0\0\0\x0d\x04\0\0\0\x10\0\x02hi\0\0\0\0";

/// It completes its key.
const COMPLETES: Program = Program {
    says: &[(1, ASSUME_12), (1, INSTANTIATE_12)],
    piece: usize::MAX,
    endless: false,
    ends: How::Exit(0),
};

/// It completes its key, and then outputs bytes for ever.
pub const ENDLESS: Program = Program {
    endless: true,
    ..COMPLETES
};

/// It outputs bytes that make no frame, for ever.
pub const WRITES_ON: Program = Program {
    says: &[],
    ..ENDLESS
};

/// It asks for its callout thirty times before it completes its key.
pub const ASKS_OFTEN: Program = Program {
    says: &[(1, ASSUME_12), (30, CALLOUT), (1, INSTANTIATE_12)],
    ..COMPLETES
};

/// It asks for key 16 before it completes its own.
const NESTS: Program = Program {
    says: &[(1, ASSUME_12), (1, REQUEST_B), (1, INSTANTIATE_12)],
    ends: How::Exit(6),
    ..COMPLETES
};

/// It completes key 16.
const IS_NESTED: Program = Program {
    says: &[(1, MAKES_16)],
    ends: How::Exit(5),
    ..COMPLETES
};

/// It outputs ten bytes.
const TEN: Program = Program {
    says: &[(10, b"a")],
    ..COMPLETES
};

/// It outputs ten bytes, and fails.
const FAILS: Program = Program {
    ends: How::Exit(7),
    ..TEN
};

/// It says that its key can't be made.
const NEGATES: Program = Program {
    says: &[(1, ASSUME_12), (1, NEGATE_12)],
    ends: How::Exit(3),
    ..COMPLETES
};

/// What is started for a request.
#[derive(Clone, Copy)]
pub struct Started {
    /// The configuration, which says by which commands.
    pub conf: &'static [u8],
    /// What the programs do that are started one after the other.
    pub programs: &'static [Program],
    /// The commands that are started, each with a space after each word.
    pub commands: &'static [&'static [u8]],
}

/// A plain handler.
pub const PLAIN: Started = Started {
    conf: b"create * * * /bin/h %k\n",
    programs: &[COMPLETES],
    commands: &[b"/bin/h 12 "],
};

/// One whose output comes in pieces of 9 bytes: the first is its ASSUME.
pub const IN_PIECES: Started = Started {
    programs: &[Program {
        piece: 9,
        ..COMPLETES
    }],
    ..PLAIN
};

/// A piped one.
pub const PIPED: Started = Started {
    conf: b"create * * * |/bin/p\n",
    programs: &[TEN],
    commands: &[b"/bin/p "],
};

/// A handler that asks for key 16, and the handler of that key.
pub const NESTED: Started = Started {
    programs: &[NESTS, IS_NESTED],
    commands: &[b"/bin/h 12 ", b"/bin/h 16 "],
    ..PLAIN
};

/// A piped handler that fails, and one that says that the key can't be made, which is never piped.
pub const FOLLOWED: Started = Started {
    conf: b"create * * * |/bin/p\nnegate * * * |/bin/n %o %k\n",
    programs: &[FAILS, NEGATES],
    commands: &[b"/bin/p ", b"/bin/n negate 12 "],
};

/// No command.
pub const NOTHING: Started = Started {
    conf: b"# none\n",
    programs: &[],
    commands: &[],
};
