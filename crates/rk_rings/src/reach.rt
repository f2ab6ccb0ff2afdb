//! The rings of a context: what is found in them, and which of them an ask means.
ghost use Rattle.std.specs.Prelude.{◌≡◌, ◌==◌, false, None, Some, MatchResult, if◌then◌else◌};
ghost use Rattle.std.specs.List.{list_any};
ghost use Rattle.std.specs.Option.{option_map_or};
ghost use Rattle.std.specs.FinMap as map;
ghost use Rattle.rk_rings.specs.Numbered.{IsMatch, holds};
ghost use Rattle.rk_rings.specs.Places.{rings_of, is_one_of, ring_at, is_numbered_live, default_ring, live};

use crate::fault::RingFault;
use crate::place::Place;
use crate::rings::Rings;
use rk_names::{Context, NameNo, Serial, Setting};

/// The keys of one name in the rings of a context, in the order of search (request_key(2)).
#[derive(Clone, Copy, Debug, PartialEq, Eq)]
pub struct Matches {
    /// In the thread ring.
    pub thread: Option<Serial>,
    /// In the process ring.
    pub process: Option<Serial>,
    /// In the session ring.
    pub session: Option<Serial>,
    /// In the user ring.
    pub user: Option<Serial>,
}

impl Rings {
    /// The one key of that name in each ring of the context; `None` if it has none, or the ring is absent
    /// or was dropped. It takes no memory, and is one look-up in each of the four rings.
    pub fn find(&self, context: &Context, name: NameNo) -> Matches
        ensures thread { IsMatch self.now name context.now.thread result.thread }
        ensures process { IsMatch self.now name context.now.process result.process }
        ensures session { IsMatch self.now name (Some context.now.session) result.session }
        ensures user { IsMatch self.now name (Some context.now.user) result.user }
    {
        let thread = self.find_if(&context.thread, name);
        let process = self.find_if(&context.process, name);
        let session = self.find_in(context.session, name);
        let user = self.find_in(context.user, name);
        Matches {
            thread,
            process,
            session,
            user,
        }
    }

    fn find_if(&self, ring: &Option<Serial>, name: NameNo) -> Option<Serial>
        ensures { IsMatch self.now name ring.now result }
    {
        match ring {
            Some(ring) => self.find_in(*ring, name),
            None => None,
        }
    }

    /// Whether the key is linked in some ring of the context (keyrings(7), "Possession"). It takes no memory,
    /// and asks the four rings in turn, up to the first that holds it.
    pub fn is_reached(&self, context: &Context, key: Serial) -> bool
        ensures { result ≡ list_any (λ ring. holds self.now ring key) (rings_of context.now) }
    {
        self.holds_if(&context.thread, key)
            || self.holds_if(&context.process, key)
            || self.holds(context.session, key)
            || self.holds(context.user, key)
    }

    fn holds_if(&self, ring: &Option<Serial>, key: Serial) -> bool
        ensures { result ≡ option_map_or (λ r. holds self.now r key) ring.now false }
    {
        match ring {
            Some(ring) => self.holds(*ring, key),
            None => false,
        }
    }

    /// The ring that an ask means by a place. It takes no memory.
    ///
    /// `Elsewhere` exactly for the serial of a live ring that is not one of the context; `NoRing` for `Nowhere`, and where the ring is absent or
    /// was dropped. The requestor's ring is the destination of the request that is acted for (`KEY_SPEC_REQUESTOR_KEYRING`).
    pub fn at(
        &self,
        context: &Context,
        requestor: Option<Serial>,
        place: Place,
    ) -> Result<Serial, RingFault>
        ensures { MatchResult result (λ ring. ring_at self.now context.now requestor place ≡ Some ring)
            (λ f. (ring_at self.now context.now requestor place ≡ None)
            × (f ≡ (if is_numbered_live self.now place then RingFault.Elsewhere else RingFault.NoRing))) }
    {
        match place {
            Place::Nowhere => Err(RingFault::NoRing),
            Place::Thread => self.live_or_fault(&context.thread),
            Place::Process => self.live_or_fault(&context.process),
            Place::Session => self.live_or_fault(&Some(context.session)),
            Place::User => self.live_or_fault(&Some(context.user)),
            Place::Requestor => self.live_or_fault(&requestor),
            Place::Numbered(ring) => self.numbered(context, ring),
        }
    }

    fn live(&self, ring: &Option<Serial>) -> Option<Serial>
        ensures { result ≡ live self.now ring.now }
    {
        match ring {
            Some(ring) => {
                if self.contains(*ring) {
                    Some(*ring)
                } else {
                    None
                }
            }
            None => None,
        }
    }

    fn live_or_fault(&self, ring: &Option<Serial>) -> Result<Serial, RingFault>
        ensures { MatchResult result (λ r. live self.now ring.now ≡ Some r) (λ f. (live self.now ring.now ≡ None) × (f ≡ RingFault.NoRing)) }
    {
        match self.live(ring) {
            Some(ring) => Ok(ring),
            None => Err(RingFault::NoRing),
        }
    }

    fn numbered(&self, context: &Context, ring: Serial) -> Result<Serial, RingFault>
        ensures { MatchResult result (λ r. ring_at self.now context.now None (Place.Numbered ring) ≡ Some r)
            (λ f. (ring_at self.now context.now None (Place.Numbered ring) ≡ None)
            × (f ≡ (if map.contains_key self.now ring then RingFault.Elsewhere else RingFault.NoRing))) }
    {
        if !self.contains(ring) {
            Err(RingFault::NoRing)
        } else if has_ring(context, ring) {
            Ok(ring)
        } else {
            Err(RingFault::Elsewhere)
        }
    }

    /// Where a new key goes when a request names no ring: the first live ring in the order requestor, thread, process, session, user, from the
    /// setting on (keyctl(2), `KEYCTL_SET_REQKEY_KEYRING`). It takes no memory.
    pub fn choose(&self, context: &Context, requestor: Option<Serial>, setting: Setting) -> Serial
        ensures { result ≡ default_ring self.now context.now requestor setting }
    {
        match setting {
            Setting::Default | Setting::Requestor => self.from_requestor(context, &requestor),
            Setting::Thread => self.from_thread(context),
            Setting::Process => self.from_process(context),
            Setting::Session => self.from_session(context),
            Setting::User => context.user,
        }
    }

    fn from_requestor(&self, context: &Context, requestor: &Option<Serial>) -> Serial
        ensures { result ≡ default_ring self.now context.now requestor.now Setting.Requestor }
    {
        match self.live(requestor) {
            Some(ring) => ring,
            None => self.from_thread(context),
        }
    }

    fn from_thread(&self, context: &Context) -> Serial
        ensures { result ≡ default_ring self.now context.now None Setting.Thread }
    {
        match self.live(&context.thread) {
            Some(ring) => ring,
            None => self.from_process(context),
        }
    }

    fn from_process(&self, context: &Context) -> Serial
        ensures { result ≡ default_ring self.now context.now None Setting.Process }
    {
        match self.live(&context.process) {
            Some(ring) => ring,
            None => self.from_session(context),
        }
    }

    fn from_session(&self, context: &Context) -> Serial
        ensures { result ≡ default_ring self.now context.now None Setting.Session }
    {
        if self.contains(context.session) {
            context.session
        } else {
            context.user
        }
    }
}

fn has_ring(context: &Context, ring: Serial) -> bool
    ensures { result ≡ is_one_of ring (rings_of context.now) }
{
    is_that(&context.thread, ring)
        || is_that(&context.process, ring)
        || context.session == ring
        || context.user == ring
}

fn is_that(one: &Option<Serial>, ring: Serial) -> bool
    ensures { result ≡ option_map_or (λ m. m == ring) one.now false }
{
    match one {
        Some(one) => *one == ring,
        None => false,
    }
}
