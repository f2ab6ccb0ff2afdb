//! Who acts in an ask, and the keys and rings that it names.
ghost use Rattle.std.specs.Prelude.{◌≡◌, None, Some, option_map};
ghost use Rattle.std.specs.FinMap as map;
ghost use Rattle.rk_names.specs.Numbers.{key_errno};
ghost use Rattle.rk_keys.specs.Key.{error_of, standing_of};
ghost use Rattle.rk_auth.specs.Sessions.{session_of};
ghost use Rattle.rk_machine.specs.declared.asker.Asker.{Asker};
ghost use Rattle.rk_machine.specs.Asker.{asker_of, is_possessed, key_refusal, known_refusal, serial_named};
ghost use Rattle.rk_core.specs.Finding.{Passes, Finds, FindsAsker, FindsRing, FindsRingOrNone, FindsSerial, FindsPossessed, new_key_ring};

use crate::tables::Tables;
use rk_auth::Session;
use rk_keys::Key;
use rk_machine::Asker;
use rk_names::{Errno, Moment, Serial, SessionId};
use rk_rings::Place;

/// The serial that a number names; `None` for 0 and below.
pub fn serial_named(number: i32) -> Option<Serial>
    ensures { result ≡ serial_named number }
{
    Serial::new(u32::try_from(number).ok()?)
}

/// The same, and EINVAL for 0 and below.
pub fn serial_of(number: i32) -> Result<Serial, Errno>
    ensures { FindsSerial number result }
{
    match serial_named(number) {
        Some(key) => Ok(key),
        None => Err(Errno::Einval),
    }
}

// ---- who acts

impl Tables {
    /// Who acts when the session asks; `None` if nobody does: a client that has no context, a handler that has assumed no
    /// authority (request-key.rst). EINVAL for a session that is not there, EBUSY for one that waits.
    #[inline(always)]
    pub fn asker(&self, id: &SessionId) -> Result<Option<Asker>, Errno>
        ensures { FindsAsker self.now id.now result }
    {
        let Some(session) = self.auths.session(id) else {
            return Err(Errno::Einval);
        };
        if session.wait.is_some() {
            return Err(Errno::Ebusy);
        }
        Ok(self.asker_of(id, session))
    }

    #[inline(always)]
    fn asker_of(&self, id: &SessionId, session: &Session) -> Option<Asker>
        requires { session_of self.now.sessions id.now ≡ Some session.now }
        ensures { result ≡ asker_of self.now id.now }
    {
        match id {
            SessionId::Client(_) => {
                let assumed: Option<Serial> = None;
                let requestor: Option<Serial> = None;
                Some(Asker {
                    context: session.context?,
                    assumed,
                    requestor,
                    depth: 1,
                    setting: session.setting,
                })
            }
            SessionId::Handler(_) => {
                let key = session.assumed?;
                let authority = self.auths.unspent(key)?;
                Some(Asker {
                    context: authority.context,
                    assumed: Some(key),
                    requestor: Some(authority.destination),
                    depth: u32::from(authority.depth) + 1,
                    setting: session.setting,
                })
            }
        }
    }
}

// ---- rings

impl Tables {
    /// The ring of a number, which has to be there. EINVAL for a number that names no ring, EACCES for a live ring that is not one
    /// of the context; else ENOKEY.
    pub fn ring(&self, asker: &Asker, number: i32) -> Result<Serial, Errno>
        ensures { FindsRing self.now asker.now number result }
    {
        let Some(place) = Place::from_number(number) else {
            return Err(Errno::Einval);
        };
        match self.ring_at(&asker.context, asker.requestor, place) {
            Ok(ring) => Ok(ring),
            Err(fault) => Err(fault.errno()),
        }
    }

    /// The same, where 0 stands for no ring.
    #[inline(always)]
    pub fn ring_or_none(&self, asker: &Asker, number: i32) -> Result<Option<Serial>, Errno>
        ensures { FindsRingOrNone self.now asker.now number result }
    {
        if number == 0 {
            return Ok(None);
        }
        let ring = self.ring(asker, number)?;
        Ok(Some(ring))
    }

    /// Where a new key goes: the ring that was named, if one was, else the default one.
    #[inline(always)]
    pub fn destination(&self, asker: &Asker, named: &Option<Serial>) -> Serial
        ensures { result ≡ new_key_ring self.now asker.now named.now }
    {
        match named {
            Some(ring) => *ring,
            None => self.default_ring(&asker.context, asker.requestor, asker.setting),
        }
    }
}

// ---- keys

impl Tables {
    /// Possession: the key is linked in a ring of the context, or its authority is assumed (keyrings(7)).
    pub fn is_possessed(&self, asker: &Asker, key: Serial) -> bool
        ensures { result ≡ is_possessed self.now asker.now key }
    {
        self.is_reached(&asker.context, key) || asker.has_assumed(key)
    }

    /// What is known of a key, which has to be there: ENOKEY if it is not.
    pub fn known(&self, key: Serial) -> Result<&Key, Errno>
        ensures { Finds (known_refusal self.now (Some key)) (λ fact. map.get self.now.keys key ≡ Some fact.now) result }
    {
        match self.keys.fact(key) {
            Some(fact) => Ok(fact),
            None => Err(Errno::Enokey),
        }
    }

    /// The same, and EACCES if the key is not possessed.
    pub fn possessed(&self, asker: &Asker, key: Serial) -> Result<&Key, Errno>
        ensures { Finds (key_refusal self.now asker.now (Some key)) (λ fact. map.get self.now.keys key ≡ Some fact.now) result }
    {
        let fact = self.known(key)?;
        if !self.is_possessed(asker, key) {
            return Err(Errno::Eacces);
        }
        Ok(fact)
    }

    /// The key of a number, which has to be there: EINVAL for 0 and below, ENOKEY if there is none; and EACCES if it is not possessed.
    pub fn possessed_key(&self, asker: &Asker, number: i32) -> Result<Serial, Errno>
        ensures { FindsPossessed self.now asker.now number result }
    {
        let key = serial_of(number)?;
        let _fact = self.possessed(asker, key)?;
        Ok(key)
    }
}

/// A key may be used, unless it stands Revoked, Expired or Negative: its error.
pub fn may_use(fact: &Key, now: Moment) -> Result<(), Errno>
    ensures { Passes (option_map key_errno (error_of (standing_of fact.now now))) result }
{
    match fact.standing(now).error() {
        Some(error) => Err(error.errno()),
        None => Ok(()),
    }
}
