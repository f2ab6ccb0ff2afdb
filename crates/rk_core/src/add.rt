//! ADD: a key with its payload, in a ring.
ghost use Rattle.std.specs.Prelude.{◌≡◌, false, IfOk, OnErr};
ghost use Rattle.rk_machine.specs.Links.{is_full_at};
ghost use Rattle.rk_machine.specs.KeyAsks.{AddsTo, Adds};
ghost use Rattle.rk_core.specs.Finding.{answer_of, FindsRoom};
ghost use Rattle.rk_core.specs.Sound.{IsSound};

use crate::tables::Tables;
use rk_keys::HashedName;
use rk_machine::{Answer, Asker};
use rk_message::Reply;
use rk_names::{DescriptionView, Errno, Payload, Serial, TypeView};
use std::alloc::AllocError;

impl Tables {
    /// The ring of ADD, in the order of its refusals.
    fn ring_with_room(
        &self,
        asker: &Asker,
        name: &HashedName<'_>,
        ring: i32,
        left: bool,
    ) -> Result<Serial, Errno>
        ensures { FindsRoom self.now asker.now name.now.typ name.now.description ring left result }
    {
        let ring = self.ring(asker, ring)?;
        if self.keys.is_full(asker.context.uid) || !left || self.is_full_at(ring, name) {
            return Err(Errno::Edquot);
        }
        Ok(ring)
    }

    /// Makes a key of this name: see `add`.
    #[inline(never)]
    pub fn add_key(
        &mut self,
        asker: &Asker,
        typ: &TypeView<'_>,
        description: &DescriptionView<'_>,
        payload: Payload,
        ring: i32,
    ) -> Result<Answer, Errno>
        requires sound { IsSound self.old }
        ensures { Adds self.old asker.now typ.now description.now payload ring (answer_of result) self.new }
    {
        let name = self.keys.hashed(typ.again(), description.again());
        self.add(asker, &name, payload, ring)
    }

    /// Makes a key with its payload, and links it in a ring, in the place of one of that name (add_key(2)). The ring's error;
    /// EDQUOT if the user has 200 keys, no serial is left or the ring is full. All allocations come before the first change.
    #[tactic(auto, unfolding(rk_machine::specs::KeyAsks::Adds))]
    fn add(
        &mut self,
        asker: &Asker,
        name: &HashedName<'_>,
        payload: Payload,
        ring: i32,
    ) -> Result<Answer, Errno>
        requires sound { IsSound self.old }
        ensures { Adds self.old asker.now name.now.typ name.now.description payload ring (answer_of result) self.new }
    {
        let left = self.keys.left(1);
        let ring = self.ring_with_room(asker, name, ring, left)?;
        match self.add_to(asker, name, payload, ring) {
            Ok(key) => Ok(Answer::Done(Reply::Number(key.get()))),
            Err(_) => Err(Errno::Enomem),
        }
    }

    /// The key is made, with copies of the name, before anything changes.
    fn add_to(
        &mut self,
        asker: &Asker,
        name: &HashedName<'_>,
        payload: Payload,
        ring: Serial,
    ) -> Result<Serial, AllocError>
        requires sound { IsSound self.old }
        requires room { is_full_at self.old ring name.now.typ name.now.description ≡ false }
        ensures ok { IfOk result (λ k. AddsTo self.old asker.now name.now.typ name.now.description payload ring (Answer.Done (Reply.Number k)) self.new) }
        ensures err { OnErr result (self.new ≡ self.old) }
    {
        let key = self.make_key(name, asker.context.uid, payload)?;
        self.link_in_room(ring, key);
        Ok(key)
    }
}
