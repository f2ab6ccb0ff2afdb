//! The numbers of sessions, starts, ends and uses.
ghost use Rattle.std.specs.Prelude.{◌≡◌, ◌≢◌, ◌<◌, MatchOption};
ghost use Rattle.rk_names.specs.declared.numbers.SessionId.{SessionId as Sessions};
ghost use Rattle.rk_machine.specs.declared.event.Ran.{Ran as Rans};
ghost use Rattle.rk_machine.specs.declared.event.How.{How as Hows};
ghost use Rattle.rk_macro.specs.declared.subject.Op.{Op as Ops};
ghost use Rattle.rk_volumes.specs.Kinds.{session_kind, session_number, ran_kind, how_kind, status_of, op_kind};
ghost use Rattle.rk_volumes.specs.Rules.{IsSession};

use rk_machine::{How, Ran};
use rk_macro::Op;
use rk_names::{Serial, SessionId};

/// Whether a session is a client or a handler.
pub(crate) fn session_kind(id: &SessionId) -> u8
    ensures { result ≡ session_kind id.now }
{
    match id {
        SessionId::Client(_) => 0,
        SessionId::Handler(_) => 1,
    }
}

/// The number of a client, or the key of a handler.
pub(crate) fn session_number(id: &SessionId) -> u32
    ensures number { result ≡ session_number id.now }
    ensures rule { IsSession id.now }
{
    match id {
        SessionId::Client(number) => *number,
        SessionId::Handler(key) => key.get(),
    }
}

/// The session of a kind and a number.
pub(crate) fn session(kind: u8, number: u32) -> Option<SessionId>
    ensures { MatchOption result ((s : Sessions) → IsSession s → kind ≡ session_kind s → number ≢ session_number s)
        (λ s. IsSession s × (kind ≡ session_kind s) × (number ≡ session_number s)) }
{
    match kind {
        0 => Some(SessionId::Client(number)),
        1 => match Serial::new(number) {
            Some(key) => Some(SessionId::Handler(key)),
            None => None,
        },
        _ => None,
    }
}

/// The number of what became of a start.
pub(crate) fn ran_kind(ran: Ran) -> u8
    ensures { result ≡ ran_kind ran }
{
    match ran {
        Ran::Plain => 0,
        Ran::Piped => 1,
        Ran::Failed => 2,
    }
}

/// What became of a start.
pub(crate) fn ran(kind: u8) -> Option<Ran>
    ensures { MatchOption result ((r : Rans) → kind ≢ ran_kind r) (λ r. kind ≡ ran_kind r) }
{
    match kind {
        0 => Some(Ran::Plain),
        1 => Some(Ran::Piped),
        2 => Some(Ran::Failed),
        _ => None,
    }
}

/// The number of how a handler ended.
pub(crate) fn how_kind(how: How) -> u8
    ensures { result ≡ how_kind how }
{
    match how {
        How::Exit(_) => 0,
        How::Signal => 1,
        How::Fault => 2,
    }
}

/// The status with which a handler exited, or 0.
pub(crate) fn status_of(how: How) -> u8
    ensures status { result ≡ status_of how }
    ensures byte { status_of how < 256 }
{
    match how {
        How::Exit(status) => status,
        How::Signal | How::Fault => 0,
    }
}

/// How a handler ended, by its kind and status.
pub(crate) fn how(kind: u8, status: u8) -> Option<How>
    ensures { MatchOption result ((h : Hows) → kind ≡ how_kind h → status ≢ status_of h) (λ h. (kind ≡ how_kind h) × (status ≡ status_of h)) }
{
    match (kind, status) {
        (0, status) => Some(How::Exit(status)),
        (1, 0) => Some(How::Signal),
        (2, 0) => Some(How::Fault),
        _ => None,
    }
}

/// The number of what a command is made for.
pub(crate) fn op_kind(op: Op) -> u8
    ensures { result ≡ op_kind op }
{
    match op {
        Op::Create => 0,
        Op::Negate => 1,
    }
}

/// What a command is made for.
pub(crate) fn op(kind: u8) -> Option<Op>
    ensures { MatchOption result ((o : Ops) → kind ≢ op_kind o) (λ o. kind ≡ op_kind o) }
{
    match kind {
        0 => Some(Op::Create),
        1 => Some(Op::Negate),
        _ => None,
    }
}
