//! The asks on rings: LINK, UNLINK, CLEAR.
ghost use Rattle.std.specs.Prelude.{◌≡◌, Some};
ghost use Rattle.rk_machine.specs.KeyAsks.{LinksIn, Unlinks, Clears};
ghost use Rattle.rk_core.specs.Finding.{answer_of, FindsLinkable, FindsLink};
ghost use Rattle.rk_core.specs.Sound.{IsSound};

use crate::named::{may_use, serial_of};
use crate::tables::Tables;
use rk_machine::{Answer, Asker, done};
use rk_names::{Errno, Moment, Serial};

impl Tables {
    /// The key and the ring of LINK, in the order of its refusals but the last.
    fn linkable(
        &self,
        now: Moment,
        asker: &Asker,
        number: i32,
        ring: i32,
    ) -> Result<(Serial, Serial), Errno>
        ensures { FindsLinkable self.now now asker.now number ring result }
    {
        let key = serial_of(number)?;
        let fact = self.possessed(asker, key)?;
        let ring = self.ring(asker, ring)?;
        may_use(fact, now)?;
        Ok((key, ring))
    }

    /// Links a key in a ring (keyctl_link(3)). It takes no memory. EINVAL, ENOKEY, EACCES if the key is not possessed; the
    /// ring's error; the key's own error; EDQUOT if the ring is full.
    pub fn link_key(
        &mut self,
        now: Moment,
        asker: &Asker,
        number: i32,
        ring: i32,
    ) -> Result<Answer, Errno>
        requires sound { IsSound self.old }
        ensures { LinksIn self.old now asker.now number ring (answer_of result) self.new }
    {
        let (key, ring) = self.linkable(now, asker, number, ring)?;
        self.link(ring, key)?;
        Ok(done())
    }

    /// The key and the ring of UNLINK, in the order of its refusals.
    fn linked(&self, asker: &Asker, number: i32, ring: i32) -> Result<(Serial, Serial), Errno>
        ensures { FindsLink self.now asker.now number ring result }
    {
        let key = serial_of(number)?;
        let _fact = self.known(key)?;
        let ring = self.ring(asker, ring)?;
        if !self.is_linked(ring, key) {
            return Err(Errno::Enoent);
        }
        Ok((key, ring))
    }

    /// Takes the link of a key out of a ring (keyctl_unlink(3)). EINVAL, ENOKEY; the ring's error; ENOENT if the key is
    /// not linked there.
    pub fn unlink_key(&mut self, asker: &Asker, number: i32, ring: i32) -> Result<Answer, Errno>
        requires sound { IsSound self.old }
        ensures { Unlinks self.old asker.now number ring (answer_of result) self.new }
    {
        let (key, ring) = self.linked(asker, number, ring)?;
        self.unlink(ring, key);
        Ok(done())
    }

    /// Takes all links out of a ring (keyctl_clear(3)). The ring's error. It costs as much as the ring has links.
    pub fn clear_ring(&mut self, asker: &Asker, ring: i32) -> Result<Answer, Errno>
        requires sound { IsSound self.old }
        ensures { Clears self.old asker.now ring (answer_of result) self.new }
    {
        let ring = self.ring(asker, ring)?;
        self.clear(ring);
        Ok(done())
    }
}
