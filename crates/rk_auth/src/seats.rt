//! The slots of all sessions, found by the names of those who stand there.
ghost use Rattle.std.specs.Prelude.{◌≡◌, ◌≤◌, ◌<◌, ℕ, None, Some, OnOk, OnErr, IfOk, IsOk};
ghost use Rattle.std.specs.Option.{option_copied};
ghost use Rattle.std.specs.Ordering.{nat_cmp};
ghost use Rattle.std.specs.FinMap as map;
ghost use Rattle.rk_table.specs.Maps.{changed_at};
ghost use Rattle.rk_auth.specs.declared.slot.Standing.TheVariants as standing;
ghost use Rattle.rk_auth.specs.Sessions.{Sessions, no_sessions, is_shared, handler_in, waited_key};
ghost use Rattle.rk_auth.specs.Changes.{session_changed, in_handler, with_client, without_client, without_construction, all_told};
ghost use Rattle.rk_auth.specs.Chains.{standing_at, AreChained};
ghost use Rattle.rk_auth.specs.Seats.{client_of, client_named, construction_named, place_of, waited_of, AreBothTold};

use crate::changes::{InConstruction, InSession, Tell};
use crate::construction::Construction;
use crate::places::Places;
use crate::session::{Outcome, Session};
use crate::slot::{Slot, Standing};
use crate::{chain, waits};
use rk_names::{Context, Serial, SessionId};
use rk_table::{ChangeOnce, Table, Test};
use std::alloc::{AllocError, Global};
use std::marker::Model;

/// The most clients at a time.
pub const MAX_CLIENTS: usize = 64;

/// The clients, and the constructions with their handlers' sessions, each in a slot.
#[derive(Drop)]
pub struct Seats {
    /// One for each client and each construction, and one for nobody.
    slots: Places<Slot>,
    /// The slot of nobody: it heads those who wait for a key that has no construction.
    nobody: usize,
    /// The slot of each client, by its number.
    clients: Table<usize>,
    /// The slot of each construction, by its key.
    constructions: Table<usize>,
    /// How many constructions there are places for.
    reserved: usize,
}

impl Model for Seats {
    ghost use Rattle.std.specs.Prelude.{◌-◌};
    ghost use Rattle.std.specs.FinMap as map;
    ghost use Rattle.rk_auth.specs.Held.{Held, held_code};
    ghost use Rattle.rk_auth.specs.Seats.{client_of, construction_of, seen, AreSeated};

    ghost Value = { Held };

    ghost coded = { held_code };

    ghost view = { λ a. record {
      sessions = record { constructions = seen construction_of a.slots.facts a.constructions.facts; clients = seen client_of a.slots.facts a.clients.facts };
      room = a.reserved - map.len a.constructions.facts;
    } };

    ghost invariant = { λ a. AreSeated a.slots a.clients a.constructions a.nobody a.reserved };
}

/// The session of the client, if that client stands at the place: a slot that is used again is another's.
fn client_at(slots: &Places<Slot>, place: usize, number: u32) -> Option<&Session>
    ensures { option_copied result ≡ client_named number (standing_at slots.now.facts place) }
{
    match &slots.get(place)?.standing {
        Standing::Client(own, session) => { if *own == number { Some(session) } else { None } }
        Standing::Nobody | Standing::Construction(..) => None,
    }
}

/// The construction of the key, if it is that which stands at the place: a slot that is used again is another's.
fn construction_at(slots: &Places<Slot>, place: usize, key: Serial) -> Option<&Construction>
    ensures { option_copied result ≡ construction_named key (standing_at slots.now.facts place) }
{
    match &slots.get(place)?.standing {
        Standing::Construction(own, construction) => {
            if *own == key {
                Some(construction)
            } else {
                None
            }
        }
        Standing::Nobody | Standing::Client(..) => None,
    }
}

/// The slot of a session.
fn place_of(clients: &Table<usize>, constructions: &Table<usize>, id: &SessionId) -> Option<usize>
    ensures { result ≡ place_of clients.now.facts constructions.now.facts id.now }
{
    match id {
        SessionId::Client(number) => clients.get(*number).copied(),
        SessionId::Handler(key) => constructions.get(key.get()).copied(),
    }
}

impl Seats {
    /// Nobody is there. There are places for 64 clients.
    pub fn new(alloc: Global) -> Result<Seats, AllocError>
        ensures { IfOk result (λ a. a.sessions ≡ no_sessions) }
    {
        let mut slots = Places::with_room(alloc, MAX_CLIENTS + 1)?;
        let clients = Table::with_room(alloc, MAX_CLIENTS)?;
        let nobody = slots.put(Slot {
            standing: Standing::Nobody,
            first: None,
            link: None,
        });
        Ok(Seats {
            slots,
            nobody,
            clients,
            constructions: Table::new(alloc),
            reserved: 0,
        })
    }

    /// Makes places for one more construction. An `Err` changes nothing.
    pub fn reserve(&mut self) -> Result<(), AllocError>
        ensures sessions { self.new.sessions ≡ self.old.sessions }
        ensures ok { OnOk result (1 ≤ self.new.room) }
        ensures err { OnErr result (self.new ≡ self.old) }
        ensures succeeds { 1 ≤ self.old.room → IsOk result }
    {
        let len = self.constructions.len();
        if len < self.reserved {
            return Ok(());
        }
        let Some(places) = len.checked_add(1) else {
            return Err(AllocError);
        };
        self.constructions.reserve(1)?;
        self.slots.reserve(MAX_CLIENTS - self.clients.len() + 1)?;
        self.reserved = places;
        Ok(())
    }

    /// The session of a client.
    pub fn client(&self, number: u32) -> Option<&Session>
        ensures { option_copied result ≡ map.get self.now.sessions.clients number }
    {
        client_at(&self.slots, *self.clients.get(number)?, number)
    }

    /// The construction of a key.
    pub fn construction(&self, key: Serial) -> Option<&Construction>
        ensures { option_copied result ≡ map.get self.now.sessions.constructions key }
    {
        construction_at(&self.slots, *self.constructions.get(key.get())?, key)
    }

    /// Whether the client is there.
    pub fn has_client(&self, number: u32) -> bool
        ensures { result ≡ map.contains_key self.now.sessions.clients number }
    {
        self.client(number).is_some()
    }

    /// Whether the key has a construction.
    pub fn has_construction(&self, key: Serial) -> bool
        ensures { result ≡ map.contains_key self.now.sessions.constructions key }
    {
        self.construction(key).is_some()
    }

    /// How many clients there are: at most 64.
    pub fn clients(&self) -> usize
        ensures count { result ≡ map.len self.now.sessions.clients }
        ensures most { result ≤ 64 }
    {
        self.clients.len()
    }

    /// How many constructions there are.
    pub fn constructions(&self) -> usize
        ensures { result ≡ map.len self.now.sessions.constructions }
    {
        self.constructions.len()
    }

    /// Whether a client other than this one has the session ring.
    pub fn shares(&self, client: u32, ring: Serial) -> bool
        ensures { result ≡ is_shared self.now.sessions client ring }
    {
        let shares = Shares {
            slots: &self.slots,
            client,
            ring,
        };
        self.clients.any(&shares)
    }
}

/// The slot of a client other than this one, which has this session ring.
#[derive(Clone, Copy)]
struct Shares<'a> {
    /// The slots of the clients.
    slots: &'a Places<Slot>,
    /// The client that does not count.
    client: u32,
    /// The session ring.
    ring: Serial,
}

impl<'a> Test<usize> for Shares<'a> {
    ghost use Rattle.std.specs.Prelude.{◌==◌, ◌&&◌, not, false};
    ghost use Rattle.std.specs.Option.{option_map_or};
    ghost use Rattle.rk_auth.specs.Seats.{client_of};

    ghost passes = { λ t n i. not (n == t.client) && option_map_or (λ c. c.session == t.ring) (client_of (standing_at t.slots.now.facts i)).context false };

    fn passes(&self, key: u32, value: &usize) -> bool {
        match context_at(self.slots, *value) {
            Some(context) => key != self.client && context.session == self.ring,
            None => false,
        }
    }
}

/// The context of the client at the place.
fn context_at(slots: &Places<Slot>, place: usize) -> Option<Context>
    ensures { result ≡ (client_of (standing_at slots.now.facts place)).context }
{
    match &slots.get(place)?.standing {
        Standing::Client(_, session) => session.context,
        Standing::Nobody | Standing::Construction(..) => None,
    }
}

impl Seats {
    /// A client is there, who does not wait. It takes no memory.
    pub fn add_client(&mut self, number: u32, session: Session)
        requires new { map.get self.old.sessions.clients number ≡ None }
        requires few { map.len self.old.sessions.clients < 64 }
        requires idle { waited_key session ≡ None }
        ensures sessions { self.new.sessions ≡ record self.old.sessions { clients = map.insert self.old.sessions.clients number session } }
        ensures room { self.new.room ≡ self.old.room }
    {
        let place = waits::put_in(&mut self.slots, Standing::Client(number, session));
        self.clients.insert(number, place);
    }

    /// A construction is there, in places that were reserved, whose handler does not wait. It takes no memory.
    pub fn add_construction(&mut self, key: Serial, construction: Construction)
        requires new { map.get self.old.sessions.constructions key ≡ None }
        requires room { 0 < self.old.room }
        requires idle { waited_of (standing.Construction key construction) ≡ None }
        ensures { self.new.sessions ≡ record self.old.sessions { constructions = map.insert self.old.sessions.constructions key construction } }
    {
        let place = waits::put_in(&mut self.slots, Standing::Construction(key, construction));
        self.constructions.insert(key.get(), place);
    }

    /// Changes a session, if it is there. It takes no memory, also if the session begins to wait.
    pub fn change_session<C: ChangeOnce<Session> + Copy>(&mut self, id: &SessionId, change: C)
        ensures sessions { self.new.sessions ≡ session_changed id.now (C.changed change) self.old.sessions }
        ensures room { self.new.room ≡ self.old.room }
    {
        if let Some(place) = place_of(&self.clients, &self.constructions, id) {
            waits::change_at(
                &mut self.slots,
                &self.constructions,
                self.nobody,
                place,
                InSession(change),
            );
        }
    }

    /// Changes a construction, if it is there. It takes no memory.
    pub fn change_construction<C: ChangeOnce<Construction> + Copy>(
        &mut self,
        key: Serial,
        change: C,
    )
        ensures sessions { self.new.sessions ≡ record self.old.sessions { constructions = changed_at key (C.changed change) self.old.sessions.constructions } }
        ensures room { self.new.room ≡ self.old.room }
    {
        if let Some(place) = self.constructions.get(key.get()).copied() {
            waits::change_at(
                &mut self.slots,
                &self.constructions,
                self.nobody,
                place,
                InConstruction(change),
            );
        }
    }

    /// Those who wait for the key get the outcome: the chain of its construction is gone through, and that of nobody. It takes no memory.
    pub fn tell(&mut self, key: Serial, outcome: Outcome)
        ensures sessions { self.new.sessions ≡ all_told key outcome self.old.sessions }
        ensures room { self.new.room ≡ self.old.room }
    {
        let home = self.constructions.get(key.get()).copied();
        let tell = Tell { key, outcome };
        tell_both(&mut self.slots, home, self.nobody, &tell);
    }

    /// A client is gone, and its wait with it. It takes no memory, and gives its places back.
    pub fn remove_client(&mut self, number: u32)
        ensures sessions { self.new.sessions ≡ without_client number self.old.sessions }
        ensures room { self.new.room ≡ self.old.room }
    {
        if let Some(place) = self.clients.get(number).copied() {
            waits::take_out(&mut self.slots, place);
            self.clients.remove(number);
        }
    }

    /// A construction is gone, and the session of its handler with its wait; who waits for the key is nobody's from now on. It takes no
    /// memory, and gives its places back.
    pub fn remove_construction(&mut self, key: Serial)
        ensures sessions { self.new.sessions ≡ without_construction key self.old.sessions }
        ensures room { self.old.room ≤ self.new.room }
    {
        if let Some(place) = self.constructions.get(key.get()).copied() {
            chain::loosen(&mut self.slots, place, self.nobody);
            waits::take_out(&mut self.slots, place);
            self.constructions.remove(key.get());
        }
    }
}

/// Those in the two chains who wait for the key get the outcome.
fn tell_both(slots: &mut Places<Slot>, home: Option<usize>, nobody: usize, tell: &Tell)
    requires { AreChained slots.old.facts }
    ensures told { AreBothTold slots.old.facts slots.new.facts home nobody tell.now.key tell.now.outcome }
    ensures room { slots.new.room ≡ slots.old.room }
{
    waits::change_waiters(slots, home, InSession(*tell));
    waits::change_waiters(slots, Some(nobody), InSession(*tell));
}
