//! What a receipt says of an event.
ghost use Rattle.std.specs.Prelude.{◌≡◌, ◌↔◌, IsTrue, IfOk, length, option_map};
ghost use Rattle.rk_record.specs.Copies.{told_of, IsNoAsk};

use rk_machine::{Event, EventView, How, Ran};
use rk_message::{Ask, AskRef};
use rk_names::{Payload, Serial, SessionId};
use std::alloc::{AllocError, Global};

/// An event as a receipt says it, where an ask has names and a payload of its own.
pub type Told = ToldOf<Ask>;

/// An event as a receipt says it, where an ask is still borrowed from the bytes that say it.
pub type ToldView<'a> = ToldOf<AskRef<'a>>;

/// An event as a receipt says it, with an ask `A`: all but the payload of an end, of which it has the length.
#[derive(Debug, Drop)]
pub enum ToldOf<A> {
    /// A client is there.
    Opened(SessionId),
    /// A session asks.
    Asked(SessionId, A),
    /// The handler of a key was started, or could not be.
    Launched(Serial, Ran),
    /// The handler of a key has ended; a piped one may have output a payload of this length.
    Ended(Serial, How, Option<usize>),
    /// A session that waits asks for the outcome.
    Collect(SessionId),
    /// A client is gone.
    Gone(SessionId),
}

impl<'a> ToldView<'a> {
    /// The summary of an event. It takes no memory.
    pub(crate) fn of(event: &EventView<'a>) -> ToldView<'a>
        ensures { result ≡ told_of event.now }
    {
        match event {
            EventView::Opened(id) => ToldView::Opened(*id),
            EventView::Asked(id, ask) => ToldView::Asked(*id, ask.again()),
            EventView::Launched(key, ran) => ToldView::Launched(*key, *ran),
            EventView::Ended(key, how, payload) => ToldView::Ended(
                *key,
                *how,
                payload_len(payload),
            ),
            EventView::Collect(id) => ToldView::Collect(*id),
            EventView::Gone(id) => ToldView::Gone(*id),
        }
    }

    /// The same with copies of what it borrows. An `Err` is out of memory, and comes of an ask alone.
    pub(crate) fn to_owned(&self, alloc: Global) -> Result<Told, AllocError>
        ensures { IfOk result (λ told. told ≡ self.now) }
    {
        Ok(match self {
            ToldView::Opened(id) => Told::Opened(*id),
            ToldView::Asked(id, ask) => Told::Asked(*id, ask.ask().to_owned(alloc)?),
            ToldView::Launched(key, ran) => Told::Launched(*key, *ran),
            ToldView::Ended(key, how, len) => Told::Ended(*key, *how, *len),
            ToldView::Collect(id) => Told::Collect(*id),
            ToldView::Gone(id) => Told::Gone(*id),
        })
    }
}

impl Told {
    /// Whether this is the summary of the event.
    pub fn is_of(&self, event: &Event) -> bool
        ensures { IsTrue result ↔ (told_of event.now ≡ self.now) }
    {
        match (self, event) {
            (Told::Opened(id), Event::Opened(other)) => id == other,
            (Told::Asked(id, ask), Event::Asked(other_id, other_ask)) => {
                id == other_id && ask.equals(other_ask)
            }
            (Told::Launched(key, ran), Event::Launched(other_key, other_ran)) => {
                key == other_key && ran == other_ran
            }
            (Told::Ended(key, how, len), Event::Ended(other_key, other_how, payload)) => {
                key == other_key && how == other_how && *len == payload_len(payload)
            }
            (Told::Collect(id), Event::Collect(other)) => id == other,
            (Told::Gone(id), Event::Gone(other)) => id == other,
            _ => false,
        }
    }
}

fn payload_len(payload: &Option<Payload>) -> Option<usize>
    ensures { result ≡ option_map length payload.now }
{
    match payload {
        None => None,
        Some(payload) => Some(payload.as_bytes().len()),
    }
}
