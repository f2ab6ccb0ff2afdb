//! The keys by their serials.
ghost use Rattle.std.specs.Prelude.{◌≡◌, ◌≤◌, ◌+◌, ◌↔◌, ◌⊎◌, ℕ, true, false, Some, None, Ok, Err, IsOk, OnOk, OnErr, IfOk, IfErr, IfSome, MatchOption};
ghost use Rattle.std.specs.Prelude.{MatchResult, option_map};
ghost use Rattle.std.specs.Bool.{MatchBool};
ghost use Rattle.std.specs.Option.{option_copied};
ghost use Rattle.std.specs.FinMap as map;
ghost use Rattle.std.specs.FinSet as set;
ghost use Rattle.rk_table.specs.Says.{Says};
ghost use Rattle.rk_keys.specs.Key.{standing_of, is_revoked, has_name, key_passes};
ghost use Rattle.rk_keys.specs.Serials.{HasSerials, IsFresh, IsNext, Extends};
ghost use Rattle.rk_keys.specs.Known.{Known, IsNaming, IsRefused, Makes, has_all_keys, new_key, concluded, marked, timed, with_key_changed, without_key};
ghost use Rattle.rk_keys.specs.Names.{IsNumberFor};
ghost use Rattle.rk_keys.specs.Faults.{use_fault, change_fault};

use crate::by_name::Bucket;
use crate::changes::{Conclude, Mark, Time};
use crate::fault::KeyFault;
use crate::hashed_name::HashedName;
use crate::key::{Condition, Key, Standing};
use crate::naming::{count_in, count_out, number_of};
use crate::serials::Serials;
use rk_names::{DescriptionView, KeyError, Moment, NameNo, Payload, Serial, TypeView};
use rk_table::{Counts, HashTable};
use std::alloc::{AllocError, Global};
use std::marker::Model;

/// All keys, and the serials of keys and rings. None but `new` and `make` takes memory. Each call takes the same time, however many
/// keys there are and however many have one name, but for `make`, where a table grows.
#[derive(Drop)]
pub struct Keys {
    /// What is known of each key, by its serial.
    facts: HashTable<Key>,
    /// The number of each key's name.
    numbers: HashTable<NameNo>,
    /// The names of the keys, by their hashes.
    by_name: HashTable<Bucket>,
    /// How many keys each user has.
    counts: Counts,
    /// Which serials were drawn, and which is the next.
    serials: Serials,
    /// With what names are hashed.
    seed: u64,
    /// Where buckets take their memory.
    alloc: Global,
}

impl Model for Keys {
    ghost use Rattle.rk_keys.specs.Known.{Known, known_code, IsHeld};
    ghost use Rattle.rk_keys.specs.Buckets.{IsIndex};
    ghost use Rattle.rk_keys.specs.Owners.{AreCounts};

    ghost Value = { Known };

    ghost coded = { known_code };

    ghost view = { λ a. record { keys = a.facts.facts; numbers = a.numbers.facts; serials = a.serials } };

    ghost invariant = { λ a. record {
      held : IsHeld (record { keys = a.facts.facts; numbers = a.numbers.facts; serials = a.serials });
      index : IsIndex a.seed a.facts.facts a.numbers.facts a.by_name.facts;
      counts : AreCounts a.facts.facts a.counts.facts;
    } };
}

impl Keys {
    /// The most keys of one user (keyrings(7), `/proc/sys/kernel/keys/maxkeys`).
    pub const MAX_PER_USER: usize = 200;

    /// No key, and the serials `first`, `first + stride`, `first + 2 * stride` .., none of them drawn. Room is made for the keys of one user.
    /// Names are hashed with the seed: who does not know it can't choose names that make the look-up of a name slow.
    pub fn new(alloc: Global, first: Serial, stride: u32, seed: u64) -> Result<Keys, AllocError>
        requires { 1 ≤ stride }
        ensures { IfOk result (λ keys. keys ≡ record {
          keys = map.empty;
          numbers = map.empty;
          serials = record { first = first; stride = stride; used = set.empty };
        }) }
    {
        Ok(Keys {
            facts: HashTable::with_room(alloc, Keys::MAX_PER_USER)?,
            numbers: HashTable::with_room(alloc, Keys::MAX_PER_USER)?,
            by_name: HashTable::with_room(alloc, Keys::MAX_PER_USER)?,
            counts: Counts::with_room(alloc, 1)?,
            serials: Serials::new(first, stride),
            seed,
            alloc,
        })
    }

    /// How many keys there are, however they stand: those under construction too, and those that are revoked or expired and were not forgotten yet.
    pub fn len(&self) -> usize
        ensures { result ≡ map.len self.now.keys }
    {
        self.facts.len()
    }

    /// What is known of a key; `None` if there is none of that serial.
    #[inline(always)]
    pub fn fact(&self, key: Serial) -> Option<&Key>
        ensures { option_copied result ≡ map.get self.now.keys key }
    {
        self.facts.get(key.get())
    }

    /// What the key is at this moment; `None` if there is none of that serial.
    pub fn state_at(&self, key: Serial, now: Moment) -> Option<Standing>
        ensures { result ≡ option_map (λ k. standing_of k now) (map.get self.now.keys key) }
    {
        Some(self.fact(key)?.standing(now))
    }

    /// The payload of a key that stands Positive. `Busy` if it stands Building; `Own` with its
    /// error where it stands Revoked, Expired or Negative (request_key(2), "ERRORS").
    pub fn payload(&self, key: Serial, now: Moment) -> Result<&Payload, KeyFault>
        requires { map.contains_key self.now.keys key ≡ true }
        ensures { IfSome (map.get self.now.keys key)
            (λ k. MatchResult result (λ payload. (k.condition ≡ Condition.Positive payload.now) × (use_fault k now ≡ None))
            (λ fault. use_fault k now ≡ Some fault)) }
    {
        match self.fact(key) {
            Some(fact) => fact.payload(now),
            None => unreachable!(),
        }
    }

    /// A name with its hash, with which these keys find it.
    #[inline(always)]
    pub fn hashed<'a>(&self, typ: TypeView<'a>, description: DescriptionView<'a>) -> HashedName<'a>
        ensures { result ≡ record { typ = typ.entry; description = description.entry } }
    {
        HashedName::new(self.seed, typ, description)
    }

    /// The number of the name: live keys share one exactly if their type and description are equal. `None` if no live key has that name.
    #[inline(always)]
    pub fn name(&self, name: &HashedName<'_>) -> Option<NameNo>
        ensures naming { IsNaming self.now.keys self.now.numbers }
        ensures none { result ≡ None → (k : ℕ) → has_name self.now.keys k name.now.typ name.now.description ≡ false }
        ensures some { IfSome result (λ n.
            (k : ℕ) × (has_name self.now.keys k name.now.typ name.now.description ≡ true) × (map.get self.now.numbers k ≡ Some n)) }
    {
        number_of(&self.by_name, self.seed, name)
    }

    /// The number of the key's name; `None` if there is no key of that serial.
    pub fn number(&self, key: Serial) -> Option<NameNo>
        ensures naming { IsNaming self.now.keys self.now.numbers }
        ensures number { result ≡ map.get self.now.numbers key }
    {
        self.numbers.get(key.get()).copied()
    }

    /// Whether this user has its 200 keys.
    pub fn is_full(&self, owner: u32) -> bool
        ensures { result ≡ has_all_keys self.now.keys owner }
    {
        self.counts.of(owner) >= Keys::MAX_PER_USER as u32
    }

    /// Whether so many serials are left.
    pub fn left(&self, count: u32) -> bool
        ensures { Says result (HasSerials self.now.serials count) }
    {
        self.serials.left(count)
    }

    /// The serials as they stand, to draw from beside these.
    pub fn serials(&self) -> Serials
        ensures { result ≡ self.now.serials }
    {
        self.serials
    }

    /// Goes on with serials that were drawn from beside these.
    pub fn set_serials(&mut self, serials: Serials)
        requires { Extends self.old.serials serials }
        ensures { self.new ≡ record self.old { serials = serials } }
    {
        self.serials = serials;
    }

    /// Makes a key of this name and user under the least unused serial, without expiry: under construction, or with a payload. Its name has the number of
    /// the live keys of that name, else its own serial. Refusals: `Quota` exactly if the user has 200 keys or no serial is left (add_key(2),
    /// EDQUOT); else `NoMemory`. A refusal changes nothing, and draws no serial.
    pub fn make(
        &mut self,
        name: &HashedName<'_>,
        owner: u32,
        payload: Option<Payload>,
    ) -> Result<Serial, KeyFault>
        ensures ok { IfOk result (λ k. IsNext self.old.serials k × Makes self.old k (new_key name.now.typ name.now.description owner payload) self.new) }
        ensures naming { IsNaming self.old.keys self.old.numbers }
        ensures number { IfOk result (λ k. IsNumberFor self.old name.now.typ name.now.description k (map.get self.new.numbers k)) }
        ensures fresh { IfOk result (IsFresh self.old.serials) }
        ensures err { OnErr result (self.new ≡ self.old) }
        ensures quota { (result ≡ Err KeyFault.Quota) ↔ IsRefused self.old owner }
        ensures others { IfErr result (λ fault. (fault ≡ KeyFault.Quota) ⊎ (fault ≡ KeyFault.NoMemory)) }
    {
        let mut drawn = self.serials;
        if self.is_full(owner) {
            return Err(KeyFault::Quota);
        }
        let Some(serial) = drawn.draw() else {
            return Err(KeyFault::Quota);
        };
        let description = name.owned_description(self.alloc)?;
        reserve_one(&mut self.facts, &mut self.numbers, &mut self.counts)?;
        let number = count_in(
            &mut self.by_name,
            self.alloc,
            self.seed,
            name,
            &description,
            serial.get(),
        )?;
        self.numbers.insert(serial.get(), number);
        self.facts.insert(
            serial.get(),
            Key::new(name.owned_typ(), description, owner, payload),
        );
        self.counts.one_more(owner);
        self.serials = drawn;
        Ok(serial)
    }

    /// Gives the key its condition, and an expiry if one is given; else the one that it has stays
    /// (keyctl_instantiate(3), keyctl_reject(3)). Of a serial that no key has nothing changes.
    pub fn complete(&mut self, key: Serial, condition: Condition, expiry: Option<Moment>)
        ensures { self.new ≡ with_key_changed key (concluded condition expiry) self.old }
    {
        self.facts.change(key.get(), Conclude { condition, expiry });
    }

    /// Marks the key as revoked (keyctl_revoke(3)). `Own(Revoked)` exactly if it is marked already, and then nothing changes.
    pub fn revoke(&mut self, key: Serial) -> Result<(), KeyFault>
        ensures { MatchBool (key_passes self.old.keys key is_revoked) ((result ≡ Err (KeyFault.Own KeyError.Revoked)) × (self.new ≡ self.old))
            (IsOk result × (self.new ≡ with_key_changed key marked self.old)) }
    {
        if self.fact(key).is_some_and(|fact| fact.revoked) {
            return Err(KeyFault::Own(KeyError::Revoked));
        }
        self.facts.change(key.get(), Mark);
        Ok(())
    }

    /// Lets the key expire so many seconds from now, or never for 0 (keyctl_set_timeout(3)). `Own` with
    /// its error exactly if it stands Revoked or Expired, and then nothing changes.
    pub fn set_expiry(&mut self, key: Serial, now: Moment, seconds: u32) -> Result<(), KeyFault>
        ensures { MatchOption (change_fault self.old.keys key now) (IsOk result × (self.new ≡ with_key_changed key (timed now seconds) self.old))
            (λ fault. (result ≡ Err fault) × (self.new ≡ self.old)) }
    {
        if let Some(error) = self.state_at(key, now).and_then(Standing::over) {
            return Err(KeyFault::Own(error));
        }
        self.facts.change(key.get(), Time { now, seconds });
        Ok(())
    }

    /// Forgets a key, if there is one. Its serial stays drawn.
    pub fn forget(&mut self, key: Serial)
        ensures { self.new ≡ without_key key self.old }
    {
        if let Some(fact) = self.facts.get(key.get()) {
            let (typ, description) = (fact.typ.as_bytes(), fact.description.as_bytes());
            count_out(&mut self.by_name, self.seed, typ, description);
            self.counts.one_less(fact.owner);
        }
        self.facts.remove(key.get());
        self.numbers.remove(key.get());
    }
}

/// Makes room for one more key. What the tables have stays, also if memory runs out.
fn reserve_one(
    facts: &mut HashTable<Key>,
    numbers: &mut HashTable<NameNo>,
    counts: &mut Counts,
) -> Result<(), AllocError>
    ensures facts { facts.new.facts ≡ facts.old.facts }
    ensures numbers { numbers.new.facts ≡ numbers.old.facts }
    ensures counts { counts.new.facts ≡ counts.old.facts }
    ensures ok { OnOk result ((1 ≤ facts.new.room) × (1 ≤ numbers.new.room) × (1 ≤ counts.new.room)) }
{
    facts.reserve(1)?;
    numbers.reserve(1)?;
    counts.reserve(1)
}
