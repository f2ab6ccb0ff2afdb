//! Links of keys in rings, and the keys that vanish with their last link.
ghost use Rattle.std.specs.Prelude.{◌≡◌, true, false, None, Some, Ok, Err, ◌||◌, ◌==◌, MatchOption, ℕ};
ghost use Rattle.std.specs.Option.{option_map_or};
ghost use Rattle.std.specs.FinMap as map;
ghost use Rattle.rk_rings.specs.Ring.{is_linked};
ghost use Rattle.rk_machine.specs.World.{tidied};
ghost use Rattle.rk_machine.specs.Links.{is_full_at, full_refusal, linked_in, unlinked_in, cleared_in};
ghost use Rattle.rk_core.specs.Vanishing.{Links, PutsLink, StayBut, vanished_at, without_ring};

use crate::tables::Tables;
use rk_keys::HashedName;
use rk_names::{Errno, Serial};
use rk_rings::RingFault;

/// What a link that a ring refuses comes to: EDQUOT if the ring is full. A ring that is not there takes no link.
fn unlinked(fault: RingFault) -> Result<Option<Serial>, Errno>
    ensures full { fault ≡ RingFault.Full → result ≡ Err Errno.Edquot }
    ensures absent { fault ≡ RingFault.NoRing → result ≡ Ok None }
{
    match fault {
        RingFault::Full => Err(Errno::Edquot),
        _ => Ok(None),
    }
}

impl Tables {
    /// Whether a ring has no room for a key of that name. The name is looked up only where all places are taken.
    pub fn is_full_at(&self, ring: Serial, name: &HashedName<'_>) -> bool
        ensures { result ≡ is_full_at self.now ring name.now.typ name.now.description }
    {
        self.rings.is_full(ring, None) && self.rings.is_full(ring, self.keys.name(name))
    }

    /// Links a key in a ring, if one is given. The result is the key that gives way. EDQUOT if the ring is full; then nothing has changed. A ring that is
    /// not there takes no link.
    pub fn put_link(&mut self, ring: &Option<Serial>, key: Serial) -> Result<Option<Serial>, Errno>
        requires { map.contains_key self.old.keys key ≡ true }
        ensures { PutsLink self.old ring.now key result self.new }
    {
        let Some(ring) = ring else {
            return Ok(None);
        };
        let Some(name) = self.keys.number(key) else {
            return Ok(None);
        };
        match self.rings.link(*ring, key, name) {
            Ok(rival) => Ok(rival),
            Err(fault) => unlinked(fault),
        }
    }

    /// Takes the link of a key out of a ring.
    pub fn take_link(&mut self, ring: Serial, key: Serial)
        requires { is_linked self.old.rings ring key ≡ true }
        ensures { self.new ≡ unlinked_in (Some ring) key self.old }
    {
        let _ = self.rings.unlink(ring, key);
    }

    /// A key that is linked in a ring.
    fn first_key(&self, ring: Serial) -> Option<Serial>
        ensures { MatchOption result ((k : ℕ) → is_linked self.now.rings ring k ≡ false) (λ k. is_linked self.now.rings ring k ≡ true) }
    {
        self.rings.first_key(ring)
    }

    fn forget_ring(&mut self, ring: Serial)
        ensures { self.new ≡ without_ring ring self.old }
    {
        let _ = self.rings.drop_ring(ring);
    }
}

// ---- keys that vanish

impl Tables {
    /// The key vanishes, where it has no link and is not under construction (keyrings(7)).
    pub fn let_vanish(&mut self, key: Serial)
        ensures { self.new ≡ vanished_at key self.old }
    {
        if !self.has_link(key) && !self.is_building(key) {
            self.keys.forget(key);
        }
    }

    /// These two vanish, where they have no link and are not under construction.
    pub fn let_both_vanish(&mut self, rival: Option<Serial>, key: Serial)
        requires { StayBut (λ j. option_map_or (λ r. j == r) rival false || j == key) self.old }
        ensures { self.new ≡ tidied self.old }
    {
        match rival {
            Some(rival) => {
                self.let_vanish(rival);
                self.let_vanish(key);
            }
            None => self.let_vanish(key),
        }
    }

    /// Links a key in a ring. The key that gives way vanishes with its last link. EDQUOT if the ring is full; then nothing has changed. A key for which
    /// another gives way is linked now, so it stays; one that found no rival may have found no ring.
    pub fn link(&mut self, ring: Serial, key: Serial) -> Result<(), Errno>
        requires known { map.contains_key self.old.keys key ≡ true }
        requires tidy { StayBut (λ j. j == key) self.old }
        ensures { Links self.old (Some ring) key result self.new }
    {
        let rival = self.put_link(&Some(ring), key)?;
        self.let_vanish(rival.unwrap_or(key));
        Ok(())
    }

    /// The same if a ring is given. Without one nothing is looked up.
    #[inline(always)]
    pub fn link_if(&mut self, ring: &Option<Serial>, key: Serial) -> Result<(), Errno>
        requires known { map.contains_key self.old.keys key ≡ true }
        requires tidy { StayBut (λ j. false) self.old }
        ensures { Links self.old ring.now key result self.new }
    {
        match ring {
            Some(ring) => self.link(*ring, key),
            None => Ok(()),
        }
    }

    /// The same for a ring that has room.
    pub fn link_in_room(&mut self, ring: Serial, key: Serial)
        requires known { map.contains_key self.old.keys key ≡ true }
        requires room { full_refusal self.old (Some ring) key ≡ None }
        requires tidy { StayBut (λ j. j == key) self.old }
        ensures { self.new ≡ tidied (linked_in (Some ring) key self.old) }
    {
        let _ = self.link(ring, key);
    }

    /// Takes the link of a key out of a ring. The key vanishes with its last link.
    pub fn unlink(&mut self, ring: Serial, key: Serial)
        requires linked { is_linked self.old.rings ring key ≡ true }
        requires tidy { StayBut (λ j. false) self.old }
        ensures { self.new ≡ tidied (unlinked_in (Some ring) key self.old) }
    {
        self.take_link(ring, key);
        self.let_vanish(key);
    }

    /// Takes all links out of a ring. Keys vanish with their last links.
    pub fn clear(&mut self, ring: Serial)
        requires tidy { StayBut (λ j. false) self.old }
        ensures { self.new ≡ tidied (cleared_in (Some ring) self.old) }
    {
        while let Some(key) = self.first_key(ring) {
            self.unlink(ring, key);
        }
    }

    /// Drops a ring, if it is there. Keys vanish with their last links.
    pub fn drop_ring(&mut self, ring: Serial)
        requires tidy { StayBut (λ j. false) self.old }
        ensures { self.new ≡ tidied (without_ring ring self.old) }
    {
        self.clear(ring);
        self.forget_ring(ring);
    }
}
