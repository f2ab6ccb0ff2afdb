//! New keys, with and without a construction.
ghost use Rattle.std.specs.Prelude.{◌≡◌, ◌<◌, ℕ, true, false, None, Some, IfOk, OnErr};
ghost use Rattle.std.specs.FinMap as map;
ghost use Rattle.rk_keys.specs.Serials.{IsFresh};
ghost use Rattle.rk_keys.specs.Known.{new_key};
ghost use Rattle.rk_auth.specs.Changes.{with_construction};
ghost use Rattle.rk_rings.specs.Ring.{has_link};
ghost use Rattle.rk_machine.specs.World.{World, drawn};
ghost use Rattle.rk_core.specs.Sound.{IsSound};

use crate::tables::Tables;
use rk_auth::Authority;
use rk_keys::HashedName;
use rk_names::{Payload, Serial};
use std::alloc::AllocError;

impl Tables {
    /// Makes a key that has its payload, with no link yet. A failed allocation changes nothing, and draws no serial.
    pub fn make_key(
        &mut self,
        name: &HashedName<'_>,
        owner: u32,
        payload: Payload,
    ) -> Result<Serial, AllocError>
        requires sound { IsSound self.old }
        ensures ok { IfOk result (λ k. self.new ≡ record (drawn k self.old) {
          keys = map.insert self.old.keys k (new_key name.now.typ name.now.description owner (Some payload));
        }) }
        ensures fresh { IfOk result (λ k. IsFresh self.old.serials k) }
        ensures unlinked { IfOk result (λ k. has_link self.old.rings k ≡ false) }
        ensures err { OnErr result (self.new ≡ self.old) }
    {
        let Ok(key) = self.keys.make(name, owner, Some(payload)) else {
            return Err(AllocError);
        };
        Ok(key)
    }

    /// Makes a key under construction with its authority, and with no link yet. A failed allocation changes nothing, and draws no serial.
    pub fn make_construction(
        &mut self,
        name: &HashedName<'_>,
        authority: Authority,
    ) -> Result<Serial, AllocError>
        requires sound { IsSound self.old }
        requires shallow { authority.depth < 9 }
        ensures ok { IfOk result (λ k. self.new ≡ record (drawn k self.old) {
          keys = map.insert self.old.keys k (new_key name.now.typ name.now.description authority.context.uid None);
          sessions = with_construction k authority self.old.sessions;
        }) }
        ensures fresh { IfOk result (λ k. IsFresh self.old.serials k) }
        ensures unlinked { IfOk result (λ k. has_link self.old.rings k ≡ false) }
        ensures err { OnErr result (self.new ≡ self.old) }
    {
        self.auths.reserve()?;
        let owner = authority.context.uid;
        let Ok(key) = self.keys.make(name, owner, None) else {
            return Err(AllocError);
        };
        let _ = self.auths.issue(key, authority);
        Ok(key)
    }
}
