//! Values in a slab, which picks the place of each.
ghost use Rattle.std.specs.Prelude.{◌≡◌, ◌≤◌, ◌<◌, ◌-◌, ◌+◌, ℕ, None, true, List, length, IfOk, IsOk, OnOk, OnErr, is_some, cond};
ghost use Rattle.std.specs.Option.{option_copied};
ghost use Rattle.std.specs.FinMap as map;
ghost use Rattle.rk_table.specs.Maps.{changed_at};
ghost use Rattle.rk_table.specs.Stored.{Stored, stored_code};
ghost use Rattle.rk_auth.specs.Chains.{has, EachOnce};

use rk_table::ChangeOnce;
use slab::Slab;
use std::alloc::{AllocError, Global};
use std::marker::Model;

/// Values, each at a place that the slab picks when it is put in. A place that is given back is picked again: who keeps the number of a place
/// also keeps what identifies its value.
#[derive(Drop)]
pub struct Places<V> {
    /// The values by their places.
    slab: Slab<V>,
}

impl<V> Model for Places<V> {
    ghost use Rattle.std.specs.Prelude.{◌-◌};
    ghost use Rattle.std.specs.FinMap as map;
    ghost use Rattle.slab.specs.Slab.{slab_len, entries};
    ghost use Rattle.rk_table.specs.Stored.{Stored, stored_code};

    ghost Value = { Stored V };

    ghost coded = { stored_code V.code };

    ghost view = { λ p. record { facts = map.from_entries (entries p.slab); room = p.slab.capacity - slab_len p.slab } };
}

impl<V> Places<V> {
    /// No value, and room for so many.
    pub fn with_room(alloc: Global, room: usize) -> Result<Self, AllocError>
        ensures empty { IfOk result (λ p. p.facts ≡ map.empty) }
        ensures room { IfOk result (λ p. room ≤ p.room) }
    {
        Ok(Places {
            slab: Slab::with_capacity(alloc, room)?,
        })
    }

    /// Makes room for so many more. The values stay, also if an `Err` comes, and the room is not less.
    pub fn reserve(&mut self, more: usize) -> Result<(), AllocError>
        ensures facts { self.new.facts ≡ self.old.facts }
        ensures ok { OnOk result (more ≤ self.new.room) }
        ensures grows { self.old.room ≤ self.new.room }
    {
        self.slab.reserve(more)
    }

    /// The value at the place.
    pub fn get(&self, place: usize) -> Option<&V>
        ensures { option_copied result ≡ map.get self.now.facts place }
    {
        self.slab.get(place)
    }

    /// How many values there are. No more different places than these have one.
    pub fn len(&self) -> usize
        ensures { (ps : List ℕ) → EachOnce ps → ((p : ℕ) → has ps p ≡ true → is_some (map.get self.now.facts p) ≡ true) → length ps ≤ result }
    {
        self.slab.len()
    }

    /// Puts in a value, in a place that was reserved, and returns the place. It takes no memory.
    pub fn put(&mut self, value: V) -> usize
        requires room { 0 < self.old.room }
        ensures new { map.get self.old.facts result ≡ None }
        ensures facts { self.new.facts ≡ map.insert self.old.facts result value }
        ensures room { self.new.room ≡ self.old.room - 1 }
    {
        self.slab.insert_reserved(value)
    }

    /// Changes the value at a place, if it has one. It takes no memory.
    pub fn change<C: ChangeOnce<V> + Drop>(&mut self, place: usize, change: C)
        ensures facts { self.new.facts ≡ changed_at place (C.changed change) self.old.facts }
        ensures room { self.new.room ≡ self.old.room }
    {
        let Some(value) = self.slab.get_mut(place) else {
            return;
        };
        change.change(value);
    }
}

impl<V: Drop> Places<V> {
    /// Takes out the value at a place, if it has one, and gives the place back: there is room for one more.
    pub fn remove(&mut self, place: usize)
        ensures facts { self.new.facts ≡ map.remove self.old.facts place }
        ensures room { self.new.room ≡ cond (is_some (map.get self.old.facts place)) (self.old.room + 1) self.old.room }
    {
        self.slab.try_remove(place);
    }
}
