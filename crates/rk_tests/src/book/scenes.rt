//! What happens while allocations fail.
use super::Row;

/// A handler is started, assumes its authority and makes the key; when it has ended, the requester gets the outcome.
pub(super) const MADE_BY_A_HANDLER: &[Row] = &[
    ("c1 request user a none x", "start 3"),
    ("launched 3 plain", "0"),
    ("101 h3 assume 3", "0"),
    ("h3 instantiate 3 hi none", "0"),
    ("collect c1", "waiting 3"),
    ("102 ended 3 exit 0", "0"),
    ("collect c1", "3"),
    ("c1 read 3", "bytes hi"),
];

/// Client 1 asks for a key, and client 2 for the same: one handler is started, which assumes its authority.
pub(super) const ONE_START_FOR_TWO: &[Row] = &[
    ("c1 request user a none x", "start 3"),
    ("c2 request user a none y", "waiting 3"),
    ("launched 3 plain", "0"),
];

/// The handler assumes its authority, and reads the callout of the first requester.
pub(super) const ITS_HANDLER_ACTS: &[Row] = &[("h3 assume 3", "0"), ("h3 callout", "bytes x")];

/// Who waits gets the outcome when the key is complete, who started it when the handler has ended.
pub(super) const TOLD_ONE_AFTER_THE_OTHER: &[Row] = &[
    ("collect c2", "waiting 3"),
    ("h3 instantiate 3 hi none", "0"),
    ("collect c1", "waiting 3"),
    ("collect c2", "3"),
    ("ended 3 exit 0", "0"),
    ("collect c1", "3"),
];

/// A third client of the session ring revokes the key under construction: a new request starts anew. Who
/// waits gets the error that it was revoked, though the handler makes it.
pub(super) const REVOKED_IN_THE_MAKING: &[Row] = &[
    ("open c3", "0"),
    ("c3 hello 1000 1000 0 1", "rings 0 0 1 2"),
    ("c3 revoke 3", "0"),
    ("c3 request user a none x", "start 4"),
    ("h3 instantiate 3 hi none", "0"),
    ("collect c2", "E128"),
    ("ended 3 exit 0", "0"),
    ("collect c1", "E128"),
];

/// The handler of `u` asks for `w`: its own handler gets the client's identity, and finds its rings.
pub(super) const A_HANDLER_ASKS: &[Row] = &[
    ("c1 request user u none x", "start 4"),
    ("launched 4 plain", "0"),
    ("h4 assume 4", "0"),
    ("h4 request user w none y", "start 5"),
    ("launched 5 plain", "0"),
    ("h5 assume 4", "E126"),
    ("h5 assume 5", "0"),
    ("h5 callout", "bytes y"),
    ("h5 read auth", "bytes y"),
];

/// The inner handler links its key into the ring of its requestor, which gets it. The outer one makes its own key, and no other.
pub(super) const BOTH_ARE_MADE: &[Row] = &[
    ("h5 instantiate 5 w requestor", "0"),
    ("ended 5 exit 0", "0"),
    ("collect h4", "5"),
    ("h4 instantiate 5 z none", "E1"),
    ("h4 read 5", "bytes w"),
    ("h4 instantiate 4 u none", "0"),
    ("ended 4 exit 0", "0"),
    ("collect c1", "4"),
];

/// Both keys went into the first ring that the client has, its thread ring.
pub(super) const BOTH_IN_THE_THREAD_RING: &[Row] = &[
    ("c1 unlink 4 thread", "0"),
    ("c1 read 4", "E126"),
    ("c1 unlink 5 1", "0"),
    ("c1 read 5", "E126"),
];

/// ADD makes a new key each time, which takes the place of the one of its name.
pub(super) const THE_SAME_NAME_AGAIN: &[Row] = &[
    ("c1 add user k one session", "3"),
    ("c2 read 3", "bytes one"),
    ("c1 add user k two session", "4"),
    ("c2 read 3", "E126"),
    ("c2 read 4", "bytes two"),
];

/// What DESCRIBE returns of a key, from its start on.
pub(super) const STATES: &[Row] = &[
    ("c1 request user a none x", "start 3"),
    ("c2 describe 3", "bytes user;1000;building;a"),
    ("launched 3 piped", "0"),
    ("ended 3 exit 0 v", "0"),
    ("c2 describe 3", "bytes user;1000;valid;a"),
    ("c2 timeout 3 1", "0"),
    ("101 c2 describe 3", "bytes user;1000;expired;a"),
    ("c2 timeout 3 0", "E127"),
    ("c2 link 3 user", "E127"),
    ("c2 revoke 3", "0"),
    ("c2 describe 3", "bytes user;1000;revoked;a"),
    ("c2 read 3", "E128"),
    ("c2 timeout 3 0", "E128"),
    ("c2 link 3 user", "E128"),
];

/// A client whose key is under construction in its thread ring goes: the ring is dropped, and the key vanishes when it is made.
/// The uid's user ring stays.
pub(super) const GONE_WHILE_IT_WAITS: &[Row] = &[
    ("c1 request user a thread x", "start 4"),
    ("launched 4 plain", "0"),
    ("h4 assume 4", "0"),
    ("gone c1", "0"),
    ("h4 instantiate 4 hi none", "0"),
    ("ended 4 exit 0", "0"),
    ("collect c1", "E22"),
    ("open c2", "0"),
    ("c2 hello 1000 1000 0 0", "rings 0 0 5 3"),
    ("c2 read 4", "E126"),
];

/// The session ring is cleared and the starter goes: the other one gets the serial of a key that has vanished.
pub(super) const CLEARED_IN_THE_MAKING: &[Row] = &[
    ("c1 request user a none x", "start 3"),
    ("c2 request user a none y", "waiting 3"),
    ("launched 3 plain", "0"),
    ("h3 assume 3", "0"),
    ("open c3", "0"),
    ("c3 hello 1000 1000 0 1", "rings 0 0 1 2"),
    ("c3 clear session", "0"),
    ("gone c1", "0"),
    ("h3 instantiate 3 hi none", "0"),
    ("collect c2", "3"),
    ("ended 3 exit 0", "0"),
    ("collect c1", "E22"),
    ("c2 read 3", "E126"),
];

/// A piped handler is at work.
pub(super) const PIPED: &[Row] = &[
    ("c1 request user a none x", "start 3"),
    ("launched 3 piped", "0"),
];

/// The handler has output one byte and ends well: that is the payload.
pub(super) const PUT_OUT_A_BYTE: &[Row] = &[
    ("ended 3 exit 0 p", "0"),
    ("collect c1", "3"),
    ("c1 read 3", "bytes p"),
];
