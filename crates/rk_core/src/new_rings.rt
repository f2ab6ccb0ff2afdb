//! Rings that are to be made, with the serials drawn for them.
ghost use Rattle.std.specs.Prelude.{◌≡◌, ◌+◌, ℕ, cond, is_none, [], IfOk};
ghost use Rattle.rk_keys.specs.Serials.{HasSerials, Extends};
ghost use Rattle.rk_machine.specs.World.{World};
ghost use Rattle.rk_machine.specs.Hello.{Makes, MakesIf};
ghost use Rattle.rk_core.specs.NewRings.{with_new_rings, StayNewRings, MakesOr};

use rk_keys::Serials;
use rk_names::Serial;
use rk_rings::{NewRing, RingKind};
use std::alloc::{AllocError, Global};

/// Rings that are to be made. Nothing of it stands until it is taken.
#[derive(Drop)]
pub struct NewRings {
    /// The book's serials, with those of these rings drawn.
    pub serials: Serials,
    /// The rings, in the order in which they are to be made.
    pub made: Vec<NewRing>,
}

impl NewRings {
    /// No ring, with room for four.
    pub fn new(alloc: Global, serials: Serials) -> Result<NewRings, AllocError>
        ensures { IfOk result (λ d. (d.serials ≡ serials) × (d.made.items ≡ [])) }
    {
        Ok(NewRings {
            serials,
            made: Vec::with_capacity(alloc, 4)?,
        })
    }

    /// One ring more, under the least unused serial.
    fn make(&mut self, kind: RingKind, uid: u32) -> Result<Serial, AllocError>
        requires { HasSerials self.old.serials 1 }
        ensures makes { IfOk result (λ ring. (w : World)
            → Makes kind uid (with_new_rings self.old.serials self.old.made.items w) (with_new_rings self.new.serials self.new.made.items w) ring) }
        ensures left { IfOk result (λ _. (n : ℕ) → HasSerials self.old.serials (n + 1) → HasSerials self.new.serials n) }
        ensures stay { IfOk result (λ _. StayNewRings self.old.serials self.old.made.items self.new.serials self.new.made.items) }
        ensures extends { Extends self.old.serials self.new.serials }
    {
        let Some(serial) = self.serials.draw() else {
            unreachable!()
        };
        self.made.push(NewRing { serial, kind, uid })?;
        Ok(serial)
    }

    /// One ring more, if it is wanted.
    pub fn make_if(
        &mut self,
        wanted: bool,
        kind: RingKind,
        uid: u32,
    ) -> Result<Option<Serial>, AllocError>
        requires { HasSerials self.old.serials (cond wanted 1 0) }
        ensures makes { IfOk result (λ ring. (w : World)
            → MakesIf wanted kind uid (with_new_rings self.old.serials self.old.made.items w) (with_new_rings self.new.serials self.new.made.items w) ring) }
        ensures left { IfOk result (λ _. (n : ℕ) → HasSerials self.old.serials (n + cond wanted 1 0) → HasSerials self.new.serials n) }
        ensures stay { IfOk result (λ _. StayNewRings self.old.serials self.old.made.items self.new.serials self.new.made.items) }
        ensures extends { Extends self.old.serials self.new.serials }
    {
        if !wanted {
            return Ok(None);
        }
        Ok(Some(self.make(kind, uid)?))
    }

    /// The ring that is there, or one ring more.
    pub fn make_or(
        &mut self,
        there: &Option<Serial>,
        kind: RingKind,
        uid: u32,
    ) -> Result<Serial, AllocError>
        requires { HasSerials self.old.serials (cond (is_none there.now) 1 0) }
        ensures makes { IfOk result (λ ring. (w : World)
            → MakesOr there.now kind uid (with_new_rings self.old.serials self.old.made.items w)
            (with_new_rings self.new.serials self.new.made.items w) ring) }
        ensures left { IfOk result (λ _. (n : ℕ) → HasSerials self.old.serials (n + cond (is_none there.now) 1 0) → HasSerials self.new.serials n) }
        ensures stay { IfOk result (λ _. StayNewRings self.old.serials self.old.made.items self.new.serials self.new.made.items) }
        ensures extends { Extends self.old.serials self.new.serials }
    {
        match there {
            Some(ring) => Ok(*ring),
            None => self.make(kind, uid),
        }
    }
}
