//! INSTANTIATE, NEGATE, REJECT: a handler gives its key a condition.
ghost use Rattle.std.specs.Prelude.{◌≡◌, ℕ, true, None, Some};
ghost use Rattle.std.specs.FinMap as map;
ghost use Rattle.rk_names.specs.Numbers.{moment_plus};
ghost use Rattle.rk_machine.specs.Asks.{Completes};
ghost use Rattle.rk_core.specs.Finding.{answer_of, FindsOwn};
ghost use Rattle.rk_core.specs.Sound.{IsSound};

use crate::named::serial_named;
use crate::tables::Tables;
use rk_keys::Condition;
use rk_machine::{Answer, Asker, done};
use rk_names::{Errno, KeyError, Moment, Payload, Serial};

/// What a handler makes of its key.
#[derive(Debug, Drop)]
pub struct Completion {
    /// The condition that the key gets.
    pub condition: Condition,
    /// From when on it is expired; `None` for never.
    pub expiry: Option<Moment>,
}

impl Completion {
    /// The key has its payload.
    pub fn positive(payload: Payload) -> Completion
        ensures { result ≡ record { condition = Condition.Positive payload; expiry = None } }
    {
        Completion {
            condition: Condition::Positive(payload),
            expiry: None,
        }
    }

    /// The key is negative with this error, for so many seconds.
    pub fn negative(error: KeyError, now: Moment, seconds: u32) -> Completion
        ensures { result ≡ record { condition = Condition.Negative error; expiry = Some (moment_plus now seconds) } }
    {
        Completion {
            condition: Condition::Negative(error),
            expiry: Some(now.plus(seconds)),
        }
    }
}

/// What a handler says of a key that it can't make.
#[derive(Clone, Copy, Debug)]
pub struct Rejection {
    /// The error that whoever finds the key gets.
    pub error: KeyError,
    /// For how many seconds.
    pub seconds: u32,
}

impl Tables {
    /// A handler gives its key this payload: see `complete_key`.
    #[inline(never)]
    pub fn instantiate(
        &mut self,
        now: Moment,
        asker: &Asker,
        number: i32,
        ring: i32,
        payload: Payload,
    ) -> Result<Answer, Errno>
        requires sound { IsSound self.old }
        requires own { (k : ℕ) → asker.now.assumed ≡ Some k → map.contains_key self.old.keys k ≡ true }
        ensures { Completes self.old now asker.now number ring (Condition.Positive payload) None (answer_of result) self.new }
    {
        self.complete_key(now, asker, number, ring, Completion::positive(payload))
    }

    /// A handler says that its key can't be made: see `complete_key`.
    #[inline(never)]
    pub fn reject(
        &mut self,
        now: Moment,
        asker: &Asker,
        number: i32,
        ring: i32,
        rejection: Rejection,
    ) -> Result<Answer, Errno>
        requires sound { IsSound self.old }
        requires own { (k : ℕ) → asker.now.assumed ≡ Some k → map.contains_key self.old.keys k ≡ true }
        ensures { Completes self.old now asker.now number ring (Condition.Negative rejection.error) (Some (moment_plus now rejection.seconds)) (answer_of result)
            self.new }
    {
        let Rejection { error, seconds } = rejection;
        let completion = Completion::negative(error, now, seconds);
        self.complete_key(now, asker, number, ring, completion)
    }

    /// The key that the asker may complete, and the ring in which it is to be linked, if one is named, in the order of the refusals but the last.
    fn own_key(
        &self,
        asker: &Asker,
        number: i32,
        ring: i32,
    ) -> Result<(Serial, Option<Serial>), Errno>
        ensures { FindsOwn self.now asker.now number ring result }
    {
        let Some(key) = serial_named(number) else {
            return Err(Errno::Eperm);
        };
        if !asker.has_assumed(key) {
            return Err(Errno::Eperm);
        }
        let ring = self.ring_or_none(asker, ring)?;
        Ok((key, ring))
    }

    /// The key is linked if it is wanted, and complete: its authority is spent, and all who wait get the outcome
    /// (keyctl_instantiate(3)). It takes no memory. EPERM if its authority is not assumed, then the ring's error, then
    /// EDQUOT if that is full.
    #[tactic(auto, unfolding(rk_machine::specs::Asks::Completes))]
    fn complete_key(
        &mut self,
        now: Moment,
        asker: &Asker,
        number: i32,
        ring: i32,
        completion: Completion,
    ) -> Result<Answer, Errno>
        requires sound { IsSound self.old }
        requires own { (k : ℕ) → asker.now.assumed ≡ Some k → map.contains_key self.old.keys k ≡ true }
        ensures { Completes self.old now asker.now number ring completion.condition completion.expiry (answer_of result) self.new }
    {
        let (key, ring) = self.own_key(asker, number, ring)?;
        let rival = self.put_link(&ring, key)?;
        let Completion { condition, expiry } = completion;
        self.complete(now, key, condition, expiry);
        self.let_both_vanish(rival, key);
        Ok(done())
    }
}
