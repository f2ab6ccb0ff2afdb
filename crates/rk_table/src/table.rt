//! The table itself, and the changes and tests that its methods take.
ghost use Rattle.std.specs.Prelude.{◌≡◌, ◌≤◌, ◌<◌, ◌-◌, filter, None, OnOk, OnErr, IfOk, IsOk, option_map, find as list_find, MatchOption};
ghost use Rattle.std.specs.Prelude.{false, true, vec_len, vec_capacity};
ghost use Rattle.std.specs.Ordering.{nat_cmp};
ghost use Rattle.std.specs.Option.{option_copied, option_map_or};
ghost use Rattle.std.specs.List.{list_any};
ghost use Rattle.std.specs.FinMap as map;
ghost use Rattle.rk_table.specs.Entries.{KeysRise};
ghost use Rattle.rk_table.specs.Maps.{changed_at, kept_where};
ghost use Rattle.rk_table.specs.Stored.{Stored, stored_code, places};

use crate::places::{place_of, place_of_late, put_at};
use std::alloc::{AllocError, Global};
use std::marker::Model;

/// A change of one value in its place, which is used up.
pub trait ChangeOnce<V> {
    ghost changed: { Self → V → V };

    /// Changes the value.
    fn change(self, value: &mut V)
        ensures { value.new ≡ changed self value.old };
}

/// A change of one value in its place that answers, and is used up.
pub trait Exchange<V> {
    /// What it answers.
    type Answer;

    ghost changed: { Self → V → V };

    ghost answer: { Self → V → Self.Answer };

    /// Changes the value, and answers.
    fn exchange(self, value: &mut V) -> Self::Answer
        ensures changed { value.new ≡ changed self value.old }
        ensures answer { result ≡ answer self value.old };
}

/// A test of entries.
pub trait Test<V> {
    ghost use Rattle.std.specs.Prelude.{ℕ, Bool};

    ghost passes: { Self → ℕ → V → Bool };

    /// Whether the entry passes.
    fn passes(&self, key: u32, value: &V) -> bool
        ensures { result ≡ passes self.now key value.now };
}

/// A finite map from numbers to values, with places that were reserved. `get`, `contains` and `change` look at one entry where no key is missing between the
/// first one and theirs, and at two of many entries whose keys are equally far apart. Else they look at as many more as their number can be halved, 15 of
/// 20,000. `len` looks at none. What takes a test or changes all walks over all entries.
#[derive(Drop)]
pub struct Table<V> {
    /// In the order of their keys, which rise strictly.
    entries: Vec<(u32, V)>,
}

impl<V> Model for Table<V> {
    ghost Value = { Stored V };

    ghost coded = { stored_code V.code };

    ghost view = { λ a. record { facts = map.from_entries a.entries.items; room = vec_capacity a.entries - vec_len a.entries } };

    ghost invariant = { λ a. KeysRise a.entries.items };
}

impl<V> Table<V> {
    /// An empty table with no room. It takes no memory.
    pub fn new(alloc: Global) -> Self
        ensures { result.facts ≡ map.empty }
    {
        Table {
            entries: Vec::new(alloc),
        }
    }

    /// An empty table with room for so many entries.
    pub fn with_room(alloc: Global, room: usize) -> Result<Self, AllocError>
        ensures empty { IfOk result (λ t. t.facts ≡ map.empty) }
        ensures len { IfOk result (λ t. map.len t.facts ≡ 0) }
        ensures room { IfOk result (λ t. t.room ≡ room) }
    {
        Ok(Table {
            entries: Vec::with_capacity(alloc, room)?,
        })
    }

    /// Makes room for so many more entries. The facts stay; an `Err` changes nothing.
    pub fn reserve(&mut self, more: usize) -> Result<(), AllocError>
        ensures facts { self.new.facts ≡ self.old.facts }
        ensures ok { OnOk result (more ≤ self.new.room) }
        ensures err { OnErr result (self.new ≡ self.old) }
        ensures grows { self.old.room ≤ self.new.room }
        ensures succeeds { more ≤ self.old.room → IsOk result }
    {
        self.entries.reserve(more)
    }

    /// The value at the key.
    pub fn get(&self, key: u32) -> Option<&V>
        ensures { option_copied result ≡ map.get self.now.facts key }
    {
        match place_of(&self.entries, key) {
            Ok(place) => Some(&self.entries[place].1),
            Err(_) => None,
        }
    }

    /// The same, for keys that mostly come rising: it looks at one entry where the key is past all others, and at one more than `get` where it is not.
    pub fn get_late(&self, key: u32) -> Option<&V>
        ensures { option_copied result ≡ map.get self.now.facts key }
    {
        match place_of_late(&self.entries, key) {
            Ok(at) => Some(&self.entries[at].1),
            Err(_) => None,
        }
    }

    /// Whether there is a value at the key.
    pub fn contains(&self, key: u32) -> bool
        ensures { result ≡ map.contains_key self.now.facts key }
    {
        self.get(key).is_some()
    }

    /// How many entries there are.
    pub fn len(&self) -> usize
        ensures { result ≡ map.len self.now.facts }
    {
        self.entries.len()
    }

    /// All entries, in the order of their keys.
    pub fn entries(&self) -> &[(u32, V)]
        ensures { result.now ≡ map.entries self.now.facts }
    {
        &self.entries
    }

    /// Whether some entry passes the test.
    pub fn any<T: Test<V>>(&self, test: &T) -> bool
        ensures { result ≡ list_any (λ e. T.passes test.now e.0 e.1) (map.entries self.now.facts) }
    {
        any_entry(&self.entries, test)
    }

    /// The key of an entry that passes the test; `None` if none does.
    pub fn find<T: Test<V>>(&self, test: &T) -> Option<u32>
        ensures { MatchOption result (list_any (λ e. T.passes test.now e.0 e.1) (map.entries self.now.facts) ≡ false)
            (λ k. (option_map_or (T.passes test.now k) (map.get self.now.facts k) false ≡ true)
            × (list_any (λ e. T.passes test.now e.0 e.1) (map.entries self.now.facts) ≡ true)) }
    {
        find_entry(&self.entries, test)
    }

    /// Puts in a value at a new key, in a place that was reserved. It takes no memory. Its place is found as `get_late` finds, and then the entries
    /// of greater keys move up: none if keys come rising.
    pub fn insert(&mut self, key: u32, value: V)
        requires new { map.get self.old.facts key ≡ None }
        requires room { 0 < self.old.room }
        ensures facts { self.new.facts ≡ map.insert self.old.facts key value }
        ensures places { places self.new ≡ places self.old }
        ensures room { self.new.room ≡ self.old.room - 1 }
    {
        match place_of_late(&self.entries, key) {
            Ok(_) => unreachable!(),
            Err(place) => put_at(&mut self.entries, place, (key, value)),
        }
    }

    /// Changes the value at a key, if it has one. It takes no memory.
    pub fn change<C: ChangeOnce<V> + Drop>(&mut self, key: u32, change: C)
        ensures facts { self.new.facts ≡ changed_at key (C.changed change) self.old.facts }
        ensures places { places self.new ≡ places self.old }
        ensures room { self.new.room ≡ self.old.room }
    {
        if let Ok(place) = place_of(&self.entries, key) {
            change.change(&mut self.entries[place].1);
        }
    }
}

impl<V: Drop> Table<V> {
    /// Keeps the entries that pass the test. The places of the others are free.
    pub fn retain<T: Test<V>>(&mut self, test: &T)
        ensures facts { self.new.facts ≡ kept_where (T.passes test.now) self.old.facts }
        ensures room { self.old.room ≤ self.new.room }
        ensures places { places self.new ≡ places self.old }
    {
        retain_entries(&mut self.entries, test);
    }

    /// Takes out the value at a key, if it has one, and hands it over. Its place is free. It is found as `get` finds, and then the entries of
    /// greater keys move down.
    pub fn take(&mut self, key: u32) -> Option<V>
        ensures value { result ≡ map.get self.old.facts key }
        ensures facts { self.new.facts ≡ map.remove self.old.facts key }
        ensures room { self.old.room ≤ self.new.room }
        ensures places { places self.new ≡ places self.old }
    {
        match place_of(&self.entries, key) {
            Ok(place) => Some(self.entries.remove(place).1),
            Err(_) => None,
        }
    }

    /// Takes out the value at a key, if it has one, as `take` does.
    pub fn remove(&mut self, key: u32)
        ensures facts { self.new.facts ≡ map.remove self.old.facts key }
        ensures room { self.old.room ≤ self.new.room }
        ensures places { places self.new ≡ places self.old }
    {
        self.take(key);
    }
}

fn retain_entries<V: Drop, T: Test<V>>(entries: &mut Vec<(u32, V)>, test: &T)
    ensures items { entries.new.items ≡ filter (λ e. T.passes test.now e.0 e.1) entries.old.items }
    ensures len { vec_len entries.new ≤ vec_len entries.old }
    ensures capacity { vec_capacity entries.new ≡ vec_capacity entries.old }
{
    entries.retain(|entry| test.passes(entry.0, &entry.1));
}

fn any_entry<V, T: Test<V>>(entries: &[(u32, V)], test: &T) -> bool
    ensures { result ≡ list_any (λ e. T.passes test.now e.0 e.1) entries.now }
{
    entries.iter().any(|entry| test.passes(entry.0, &entry.1))
}

fn find_entry<V, T: Test<V>>(entries: &[(u32, V)], test: &T) -> Option<u32>
    ensures { result ≡ option_map (λ e. e.0) (list_find (λ e. T.passes test.now e.0 e.1) entries.now) }
{
    entries
        .iter()
        .find(|entry| test.passes(entry.0, &entry.1))
        .map(|entry| entry.0)
}
