//! Keys, rings and sessions as one world: what an ask reads of its rings.
ghost use Rattle.std.specs.Prelude.{◌≡◌, ◌≤◌, ◌+◌, ◌↔◌, IsTrue, IfOk, MatchResult, None, Some, if◌then◌else◌};
ghost use Rattle.std.specs.Option.{option_map};
ghost use Rattle.std.specs.FinMap as map;
ghost use Rattle.rk_keys.specs.Key.{key_passes, is_building};
ghost use Rattle.rk_rings.specs.Ring.{is_linked, has_link};
ghost use Rattle.rk_rings.specs.Places.{ring_at, is_numbered_live, default_ring};
ghost use Rattle.rk_machine.specs.World.{World, empty_world};
ghost use Rattle.rk_machine.specs.Asker.{is_reached};

use crate::last_text::LastText;
use crate::limits::Limits;
use rk_auth::Auths;
use rk_keys::{Key, Keys};
use rk_names::{Context, Serial, Setting};
use rk_rings::{Place, RingFault, RingKind, Rings};
use std::alloc::{AllocError, Global};
use std::marker::Model;

/// The machine's state: keys, rings and sessions.
#[derive(Drop)]
pub struct Tables {
    /// Where memory comes from.
    pub(crate) alloc: Global,
    /// For so many seconds a key is negative whose handler did not complete it.
    pub(crate) negative: u32,
    /// The keys, and the serials of keys and rings.
    pub(crate) keys: Keys,
    /// The rings, and which keys are linked in them.
    pub(crate) rings: Rings,
    /// The sessions, the constructions and their authorities.
    pub(crate) auths: Auths,
    /// The text of the key that was described last.
    pub(crate) last_text: LastText,
}

impl Model for Tables {
    ghost use Rattle.rk_machine.specs.World.{World, world_code};
    ghost use Rattle.rk_core.specs.Numbering.{NumbersAgree, world_of};

    ghost Value = { World };

    ghost coded = { world_code };

    ghost view = { λ t. world_of t.negative t.keys t.rings t.auths.sessions };

    ghost invariant = { λ t. NumbersAgree t.keys t.rings };
}

impl Tables {
    /// No key, no ring, no session.
    pub fn new(alloc: Global, limits: Limits) -> Result<Tables, AllocError>
        requires { 1 ≤ limits.stride }
        ensures { IfOk result (λ t. t ≡ empty_world limits.negative limits.first limits.stride) }
    {
        let keys = Keys::new(alloc, limits.first, limits.stride, limits.seed)?;
        let auths = Auths::new(alloc)?;
        Ok(Tables {
            alloc,
            negative: limits.negative,
            keys,
            rings: Rings::new(alloc),
            auths,
            last_text: LastText::none(),
        })
    }
}

// ---- keys

impl Tables {
    /// Whether the key is under construction.
    pub fn is_building(&self, key: Serial) -> bool
        ensures { result ≡ key_passes self.now.keys key is_building }
    {
        match self.keys.fact(key) {
            Some(fact) => fact.is_building(),
            None => false,
        }
    }
}

// ---- rings

impl Tables {
    /// Whether there is such a ring.
    pub fn has_ring(&self, ring: Serial) -> bool
        ensures { result ≡ map.contains_key self.now.rings ring }
    {
        self.rings.contains(ring)
    }

    /// What a ring is for, and whose it is.
    pub fn ring_kind(&self, ring: Serial) -> Option<(RingKind, u32)>
        ensures { result ≡ option_map (λ r. (r.kind, r.uid)) (map.get self.now.rings ring) }
    {
        self.rings.kind(ring)
    }

    /// Whether so many rings can be made.
    pub fn has_room(&self, more: u32) -> bool
        ensures { IsTrue result ↔ (map.len self.now.rings + more ≤ 1024) }
    {
        self.rings.has_room(more as usize)
    }

    /// Whether the key is linked in the ring.
    pub fn is_linked(&self, ring: Serial, key: Serial) -> bool
        ensures { result ≡ is_linked self.now.rings ring key }
    {
        self.rings.holds(ring, key)
    }

    /// Whether the key is linked in some ring.
    pub fn has_link(&self, key: Serial) -> bool
        ensures { result ≡ has_link self.now.rings key }
    {
        self.rings.is_held(key)
    }

    /// Whether the key is linked in a ring of the context.
    pub fn is_reached(&self, context: &Context, key: Serial) -> bool
        ensures { result ≡ is_reached self.now context.now key }
    {
        self.rings.is_reached(context, key)
    }

    /// The ring at a place of the context.
    pub fn ring_at(
        &self,
        context: &Context,
        requestor: Option<Serial>,
        place: Place,
    ) -> Result<Serial, RingFault>
        ensures { MatchResult result (λ ring. ring_at self.now.rings context.now requestor place ≡ Some ring)
            (λ f. (ring_at self.now.rings context.now requestor place ≡ None)
            × (f ≡ (if is_numbered_live self.now.rings place then RingFault.Elsewhere else RingFault.NoRing))) }
    {
        self.rings.at(context, requestor, place)
    }

    /// Where a new key goes when no ring is named.
    pub fn default_ring(
        &self,
        context: &Context,
        requestor: Option<Serial>,
        setting: Setting,
    ) -> Serial
        ensures { result ≡ default_ring self.now.rings context.now requestor setting }
    {
        self.rings.choose(context, requestor, setting)
    }
}
