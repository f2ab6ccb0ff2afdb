//! The slots of those who may wait.
use crate::construction::Construction;
use crate::session::Session;
use rk_names::Serial;

/// Who stands in a slot, by number or key: a slot that is used again has another number.
#[derive(Debug, Drop)]
pub enum Standing {
    /// Nobody: it heads those who wait for a key that has no construction.
    Nobody,
    /// A client of this number.
    Client(u32, Session),
    /// The construction of this key, with the session of its handler.
    Construction(Serial, Construction),
}

impl Standing {
    ghost use Rattle.std.specs.Prelude.{◌≡◌};
    ghost use Rattle.rk_auth.specs.Seats.{waited_of};

    /// The key for which the session waits, if there is one that does.
    pub fn waited(&self) -> Option<Serial>
        ensures { result ≡ waited_of self.now }
    {
        match self {
            Standing::Nobody => None,
            Standing::Client(_, session) => session.waited(),
            Standing::Construction(_, construction) => construction.stage.handler()?.waited(),
        }
    }
}

/// Where a waiter stands among those who wait for the same construction.
#[derive(Clone, Copy, Debug, PartialEq, Eq)]
pub struct Link {
    /// The slot that heads the chain.
    pub home: usize,
    /// The slot before it; `None` for the first.
    pub before: Option<usize>,
    /// The slot after it; `None` for the last.
    pub next: Option<usize>,
}

/// A slot: who stands there, the first of those who wait for it, and its own place among the waiters of another.
#[derive(Debug, Drop)]
pub struct Slot {
    /// Who stands there.
    pub standing: Standing,
    /// The slot of the first who waits for this construction; `None` if nobody does.
    pub first: Option<usize>,
    /// Where its session stands among waiters; `None` while it does not wait.
    pub link: Option<Link>,
}
