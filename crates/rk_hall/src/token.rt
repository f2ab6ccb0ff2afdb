//! Constructions that are out: to be launched, or running.
ghost use Rattle.std.specs.Prelude.{◌≡◌};
ghost use Rattle.rk_hall.specs.Seats.{IsDepth};
ghost use Rattle.rk_hall.specs.Tickets.{ticket_hall};

use crate::names::Names;
use crate::ticket::AnyTicket;
use rk_machine::BoxedSubject;
use rk_macro::Subject;
use rk_names::Serial;
use std::marker::Model;

/// A construction whose handler is to be started. It can't be dropped: `Halls::launched` takes it.
pub struct Launch<N: Names> {
    /// The key to be made.
    pub(crate) key: Serial,
    /// What its handler gets.
    pub(crate) subject: BoxedSubject,
    /// How many starts lead to it, 1 to 8.
    pub(crate) depth: u8,
    /// The right to say what becomes of it.
    pub(crate) ticket: AnyTicket<N>,
    // The depth is 1 to 8.
    ghost deep: { IsDepth depth },
}

impl<N: Names> Model for Launch<N> {
    ghost use Rattle.rk_hall.specs.Seats.{TokenShown};
    ghost use Rattle.rk_hall.specs.Tickets.{ticket_hall};

    ghost Value = { TokenShown };

    ghost view = { λ l. record { hall = ticket_hall l.ticket; key = l.key; subject = l.subject; depth = l.depth } };
}

/// A construction whose handler runs. It can't be dropped: `Halls::ended` takes it.
pub struct Running<N: Names> {
    /// The key to be made.
    pub(crate) key: Serial,
    /// What its handler gets.
    pub(crate) subject: BoxedSubject,
    /// How many starts lead to it, 1 to 8.
    pub(crate) depth: u8,
    /// The right to say what becomes of it.
    pub(crate) ticket: AnyTicket<N>,
    // The depth is 1 to 8.
    ghost deep: { IsDepth depth },
}

impl<N: Names> Model for Running<N> {
    ghost use Rattle.rk_hall.specs.Seats.{TokenShown};
    ghost use Rattle.rk_hall.specs.Tickets.{ticket_hall};

    ghost Value = { TokenShown };

    ghost view = { λ r. record { hall = ticket_hall r.ticket; key = r.key; subject = r.subject; depth = r.depth } };
}

impl<N: Names> Launch<N> {
    /// A construction that is to be launched, as a call gives it. It is a function of its own, since few asks begin one.
    #[cold]
    #[inline(never)]
    pub(crate) fn due(
        key: Serial,
        subject: BoxedSubject,
        depth: u8,
        ticket: AnyTicket<N>,
    ) -> Option<Launch<N>>
        requires { IsDepth depth }
        ensures { result ≡ Some (record { hall = ticket_hall ticket; key = key; subject = subject; depth = depth }) }
    {
        Some(Launch {
            key,
            subject,
            depth,
            ticket,
        })
    }

    /// The key under construction.
    pub fn key(&self) -> Serial
        ensures { result ≡ self.now.key }
    {
        self.key
    }

    /// What its handler gets.
    pub fn subject(&self) -> &Subject
        ensures { result.now ≡ self.now.subject }
    {
        self.subject.as_subject()
    }

    /// How many starts lead to its handler, 1 to 8.
    pub fn depth(&self) -> u8
        ensures { (result ≡ self.now.depth) × IsDepth result }
    {
        self.depth
    }
}

impl<N: Names> Running<N> {
    /// The key under construction.
    pub fn key(&self) -> Serial
        ensures { result ≡ self.now.key }
    {
        self.key
    }

    /// What its handler got.
    pub fn subject(&self) -> &Subject
        ensures { result.now ≡ self.now.subject }
    {
        self.subject.as_subject()
    }

    /// How many starts lead to its handler, 1 to 8.
    pub fn depth(&self) -> u8
        ensures { (result ≡ self.now.depth) × IsDepth result }
    {
        self.depth
    }
}
