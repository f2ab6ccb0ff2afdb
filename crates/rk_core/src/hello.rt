//! HELLO: a client gets its context.
ghost use Rattle.std.specs.Prelude.{◌≡◌, unwrap_or, [], IfOk, OnOk, OnErr, IsTrue};
ghost use Rattle.rk_keys.specs.Serials.{HasSerials, Extends};
ghost use Rattle.rk_machine.specs.World.{World};
ghost use Rattle.rk_core.specs.Sound.{IsSound};
ghost use Rattle.rk_core.specs.Finding.{answer_of, Passes};
ghost use Rattle.rk_core.specs.NewRings.{with_new_rings, AreNewRings, IsUserRing};
ghost use Rattle.rk_machine.specs.Hello.{join_refusal, rings_made, hello_refusal, Greets, Hellos};

use crate::new_rings::NewRings;
use crate::tables::Tables;
use rk_machine::Answer;
use rk_message::{Greeting, Reply};
use rk_names::{Context, Errno, Serial, SessionId};
use rk_rings::RingKind;
use std::alloc::AllocError;

impl Tables {
    /// The user ring of a uid, if it has one (user-keyring(7)).
    fn user_ring(&self, uid: u32) -> Option<Serial>
        ensures { IsUserRing self.now uid result }
    {
        self.rings.user_ring(uid)
    }

    /// A ring to join is a session ring of the same uid. ENOKEY if there is no such ring, EACCES for any other.
    fn may_join(&self, greeting: &Greeting) -> Result<(), Errno>
        ensures { Passes (join_refusal self.now greeting.now) result }
    {
        let Some(join) = greeting.join else {
            return Ok(());
        };
        match self.ring_kind(join) {
            None => Err(Errno::Enokey),
            Some((RingKind::Session, uid)) if uid == greeting.uid => Ok(()),
            Some(_) => Err(Errno::Eacces),
        }
    }

    /// The error of the ring to join; EDQUOT if so many rings or serials are not left.
    fn may_greet(&self, greeting: &Greeting, made: u32, left: bool) -> Result<(), Errno>
        requires { made ≡ rings_made self.now greeting.now }
        ensures is { Passes (hello_refusal self.now greeting.now left) result }
        ensures left { OnOk result (IsTrue left) }
    {
        self.may_join(greeting)?;
        if !self.has_room(made) || !left {
            return Err(Errno::Edquot);
        }
        Ok(())
    }

    /// Makes the rings of a context, and gives it to the session. All allocations come before the first change.
    #[tactic(auto, unfolding(rk_machine::specs::Hello::Hellos))]
    pub fn hello(&mut self, id: &SessionId, greeting: &Greeting) -> Result<Answer, Errno>
        requires sound { IsSound self.old }
        ensures { Hellos self.old id.now greeting.now (answer_of result) self.new }
    {
        let user = self.user_ring(greeting.uid);
        let made = rings_made(greeting, &user);
        let left = self.keys.left(made);
        self.may_greet(greeting, made, left)?;
        match self.greet(id, greeting, &user) {
            Ok(answer) => Ok(answer),
            Err(_) => Err(Errno::Enomem),
        }
    }

    fn greet(
        &mut self,
        id: &SessionId,
        greeting: &Greeting,
        there: &Option<Serial>,
    ) -> Result<Answer, AllocError>
        requires sound { IsSound self.old }
        requires user { IsUserRing self.old greeting.now.uid there.now }
        requires left { HasSerials self.old.serials (rings_made self.old greeting.now) }
        ensures ok { IfOk result (λ answer. Greets self.old id.now greeting.now answer self.new) }
        ensures err { OnErr result (self.new ≡ self.old) }
    {
        let uid = greeting.uid;
        let mut rings = self.new_rings()?;
        let thread = rings.make_if(greeting.thread, RingKind::Thread, uid)?;
        let process = rings.make_if(greeting.process, RingKind::Process, uid)?;
        let session = rings.make_or(&greeting.join, RingKind::Session, uid)?;
        let user = rings.make_or(there, RingKind::User, uid)?;
        self.make_rings(rings)?;
        let context = Context {
            uid,
            gid: greeting.gid,
            thread,
            process,
            session,
            user,
        };
        self.auths.set_context(id, context);
        Ok(Answer::Done(Reply::Rings {
            thread: number(&context.thread),
            process: number(&context.process),
            session: session.get(),
            user: user.get(),
        }))
    }

    fn new_rings(&self) -> Result<NewRings, AllocError>
        ensures { IfOk result (λ d. (d.serials ≡ self.now.serials) × (d.made.items ≡ [])) }
    {
        NewRings::new(self.alloc, self.keys.serials())
    }

    /// Makes the rings under the serials that are drawn for them. A failed allocation changes nothing.
    fn make_rings(&mut self, rings: NewRings) -> Result<(), AllocError>
        requires new { AreNewRings rings.serials rings.made.items self.old.rings }
        requires extends { Extends self.old.serials rings.serials }
        ensures ok { OnOk result (self.new ≡ with_new_rings rings.serials rings.made.items self.old) }
        ensures err { OnErr result (self.new ≡ self.old) }
    {
        let NewRings { serials, made } = rings;
        match self.rings.make(self.alloc, &made) {
            Ok(()) => {
                self.keys.set_serials(serials);
                Ok(())
            }
            Err(_) => Err(AllocError),
        }
    }
}

/// How many rings are made for a context.
fn rings_made(greeting: &Greeting, user: &Option<Serial>) -> u32
    ensures { (w : World) → IsUserRing w greeting.now.uid user.now → result ≡ rings_made w greeting.now }
{
    u32::from(greeting.thread)
        + u32::from(greeting.process)
        + u32::from(greeting.join.is_none())
        + u32::from(user.is_none())
}

/// A ring that may be absent, 0 if it is.
fn number(ring: &Option<Serial>) -> u32
    ensures { result ≡ unwrap_or ring.now 0 }
{
    match ring {
        Some(ring) => ring.get(),
        None => 0,
    }
}
