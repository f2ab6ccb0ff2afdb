//! A table that finds its keys by their hashes.
ghost use Rattle.std.specs.Prelude.{◌≡◌, ◌≤◌, ◌<◌, ◌-◌, ◌+◌, None, OnOk, OnErr, IfOk, IsOk, option_map};
ghost use Rattle.std.specs.Ordering.{nat_cmp};
ghost use Rattle.std.specs.Option.{option_copied};
ghost use Rattle.std.specs.FinMap as map;
ghost use Rattle.indexmap.specs.IndexMap.{spare};
ghost use Rattle.rk_table.specs.Maps.{changed_at};
ghost use Rattle.rk_table.specs.Stored.{Stored, stored_code};

use crate::hashing::DrawnNumbers;
use crate::table::{ChangeOnce, Exchange};
use indexmap::IndexMap;
use std::alloc::{AllocError, Global};
use std::marker::Model;

/// A finite map from numbers to values, for many entries: each call but `reserve` takes the same time, however many there are. What is
/// reserved is for the insertions that follow: an entry that is taken out need not leave its place to the next. Keys are hashed without a seed, so
/// they are to be numbers that no stranger chooses.
#[derive(Drop)]
pub struct HashTable<V> {
    /// In no order.
    entries: IndexMap<u32, V, DrawnNumbers>,
}

impl<V> Model for HashTable<V> {
    ghost Value = { Stored V };

    ghost coded = { stored_code V.code };

    ghost view = { λ a. record { facts = map.from_entries a.entries.entries; room = spare a.entries } };
}

impl<V> HashTable<V> {
    /// An empty table with no room. It takes no memory.
    pub fn new(alloc: Global) -> Self
        ensures { result.facts ≡ map.empty }
    {
        HashTable {
            entries: IndexMap::with_hasher(alloc, DrawnNumbers),
        }
    }

    /// An empty table with room for so many entries.
    pub fn with_room(alloc: Global, room: usize) -> Result<Self, AllocError>
        ensures empty { IfOk result (λ t. t.facts ≡ map.empty) }
        ensures room { IfOk result (λ t. room ≤ t.room) }
    {
        Ok(HashTable {
            entries: IndexMap::with_capacity_and_hasher(alloc, room, DrawnNumbers)?,
        })
    }

    /// Makes room for so many more entries. The facts stay, also if an `Err` comes, and the room is not less.
    pub fn reserve(&mut self, more: usize) -> Result<(), AllocError>
        ensures facts { self.new.facts ≡ self.old.facts }
        ensures ok { OnOk result (more ≤ self.new.room) }
        ensures grows { self.old.room ≤ self.new.room }
        ensures succeeds { more ≤ self.old.room → IsOk result }
    {
        self.entries.reserve(more)
    }

    /// The value at the key.
    pub fn get(&self, key: u32) -> Option<&V>
        ensures { option_copied result ≡ map.get self.now.facts key }
    {
        self.entries.get(&key)
    }

    /// Whether there is a value at the key.
    pub fn contains(&self, key: u32) -> bool
        ensures { result ≡ map.contains_key self.now.facts key }
    {
        self.get(key).is_some()
    }

    /// How many entries there are.
    pub fn len(&self) -> usize
        ensures { result ≡ map.len self.now.facts }
    {
        self.entries.len()
    }

    /// Takes out the value at a key, if it has one, and hands it over. It takes no memory.
    pub fn take(&mut self, key: u32) -> Option<V>
        ensures value { result ≡ map.get self.old.facts key }
        ensures facts { self.new.facts ≡ map.remove self.old.facts key }
        ensures room { self.old.room ≤ self.new.room }
    {
        self.entries.swap_remove(&key)
    }

    /// Changes the value at a key, if it has one. It takes no memory.
    pub fn change<C: ChangeOnce<V> + Drop>(&mut self, key: u32, change: C)
        ensures facts { self.new.facts ≡ changed_at key (C.changed change) self.old.facts }
        ensures room { self.new.room ≡ self.old.room }
    {
        let Some(value) = self.entries.get_mut(&key) else {
            return;
        };
        change.change(value);
    }

    /// Changes the value at a key, if it has one, and tells what the change answers. It takes no memory.
    pub fn exchange<E: Exchange<V> + Drop>(&mut self, key: u32, exchange: E) -> Option<E::Answer>
        ensures answer { result ≡ option_map (E.answer exchange) (map.get self.old.facts key) }
        ensures facts { self.new.facts ≡ changed_at key (E.changed exchange) self.old.facts }
        ensures room { self.new.room ≡ self.old.room }
    {
        let Some(held) = self.entries.get_mut(&key) else {
            return None;
        };
        Some(exchange.exchange(held))
    }
}

impl<V: Drop> HashTable<V> {
    /// Puts in a value at a new key, in a place that was reserved. It takes no memory.
    pub fn insert(&mut self, key: u32, value: V)
        requires new { map.get self.old.facts key ≡ None }
        requires room { 0 < self.old.room }
        ensures facts { self.new.facts ≡ map.insert self.old.facts key value }
        ensures room { self.old.room ≤ self.new.room + 1 }
    {
        match self.entries.insert(key, value) {
            Ok(_) => {}
            Err(_) => unreachable!(),
        }
    }

    /// Takes out the value at a key, if it has one. It takes no memory.
    pub fn remove(&mut self, key: u32)
        ensures facts { self.new.facts ≡ map.remove self.old.facts key }
        ensures room { self.old.room ≤ self.new.room }
    {
        self.take(key);
    }
}
