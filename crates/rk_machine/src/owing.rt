//! How many steps are owed, for which whoever records the steps of a daemon has to keep room.
ghost use Rattle.std.specs.Prelude.{◌≡◌, ◌+◌};
ghost use Rattle.rk_machine.specs.Owing as owing;

use crate::event::{Answer, EventView};
use rk_auth::{Session, Stage};
use rk_message::AskView;
use rk_names::SessionId;

/// How many steps are owed to a session that is there: its end, and the collect of its wait.
#[inline(always)]
pub fn session_owes(session: &Session) -> usize
    ensures { result ≡ 1 + owing.wait_owes session.now }
{
    if session.wait.is_some() { 2 } else { 1 }
}

/// How many steps are owed to a construction: its launches, its ends, and the collect of its handler.
pub fn stage_owes(stage: &Stage) -> usize
    ensures { result ≡ owing.stage_owes stage.now }
{
    match stage {
        Stage::Starting => 4,
        Stage::Plain(session) => session_owes(session),
        Stage::Piped => 3,
        Stage::Negating => 2,
    }
}

/// How many ends are owed to a construction, each of which may bring a payload.
pub fn stage_ends(stage: &Stage) -> usize
    ensures { result ≡ owing.stage_ends stage.now }
{
    match stage {
        Stage::Starting | Stage::Piped => 2,
        Stage::Plain(_) | Stage::Negating => 1,
    }
}

impl<'a> EventView<'a> {
    /// Whose event it is.
    #[inline(always)]
    pub fn whose(&self) -> SessionId
        ensures { result ≡ owing.whose self.now }
    {
        match self {
            EventView::Opened(id)
            | EventView::Asked(id, _)
            | EventView::Collect(id)
            | EventView::Gone(id) => *id,
            EventView::Launched(key, _) | EventView::Ended(key, _, _) => SessionId::Handler(*key),
        }
    }

    /// Whether it is an ask.
    #[inline(always)]
    pub fn is_ask(&self) -> bool
        ensures { result ≡ owing.is_ask self.now }
    {
        matches!(self, EventView::Asked(_, _))
    }

    /// How many places of a record it may need, where it is not owed: its own step, and what may be owed after it.
    #[inline(always)]
    pub fn need(&self) -> usize
        ensures { result ≡ owing.need self.now }
    {
        match self {
            EventView::Opened(_) => 2,
            EventView::Asked(_, ask) if matches!(ask.ask(), AskView::Request { .. }) => 6,
            _ => 1,
        }
    }
}

impl Answer {
    /// How many steps more are owed to the session whose ask is answered so: the collect of its wait.
    pub fn wait_owes(&self) -> usize
        ensures { result ≡ owing.wait_made self.now }
    {
        match self {
            Answer::Start(_, _) | Answer::Waiting(_) => 1,
            _ => 0,
        }
    }

    /// How many steps are owed to the construction that it starts.
    pub fn start_owes(&self) -> usize
        ensures { result ≡ owing.start_owes self.now }
    {
        match self {
            Answer::Start(_, _) => 4,
            _ => 0,
        }
    }

    /// How many ends are owed to the construction that it starts.
    pub fn start_ends(&self) -> usize
        ensures { result ≡ owing.start_ends self.now }
    {
        match self {
            Answer::Start(_, _) => 2,
            _ => 0,
        }
    }
}
