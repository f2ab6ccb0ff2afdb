//! Counts by number.
ghost use Rattle.std.specs.Prelude.{◌≡◌, ◌≤◌, ◌<◌, ◌+◌, ◌-◌, ◌==◌, ℕ, OnOk, OnErr, IfOk, IsOk, if◌then◌else◌};
ghost use Rattle.std.specs.FinMap as map;
ghost use Rattle.rk_table.specs.Stored.{places};
ghost use Rattle.rk_table.specs.Counts.{count_at, ArePositive};

use crate::table::{ChangeOnce, Table};
use std::alloc::{AllocError, Global};
use std::marker::Model;

/// How often each of some numbers counts. A number that does not count has no entry, so that its place is free.
#[derive(Drop)]
pub struct Counts {
    /// Each count that is not 0.
    counts: Table<u32>,
}

impl Model for Counts {
    ghost use Rattle.std.specs.Prelude.{ℕ};
    ghost use Rattle.std.specs.Coded.{coded_ℕ};
    ghost use Rattle.rk_table.specs.Stored.{Stored, stored_code};
    ghost use Rattle.rk_table.specs.Counts.{ArePositive};

    ghost Value = { Stored ℕ };

    ghost coded = { stored_code coded_ℕ };

    ghost view = { λ c. c.counts };

    ghost invariant = { λ c. ArePositive c.counts.facts };
}

/// The count becomes this one.
#[derive(Drop)]
struct Become {
    /// The new count.
    count: u32,
}

impl ChangeOnce<u32> for Become {
    ghost changed = { λ b _. b.count };

    fn change(self, count: &mut u32) {
        *count = self.count;
    }
}

impl Counts {
    /// Nothing counts, and there is no room. It takes no memory.
    pub fn new(alloc: Global) -> Counts
        ensures { result.facts ≡ map.empty }
    {
        Counts {
            counts: Table::new(alloc),
        }
    }

    /// Nothing counts, and so many numbers may.
    pub fn with_room(alloc: Global, room: usize) -> Result<Counts, AllocError>
        ensures empty { IfOk result (λ c. c.facts ≡ map.empty) }
        ensures room { IfOk result (λ c. c.room ≡ room) }
    {
        Ok(Counts {
            counts: Table::with_room(alloc, room)?,
        })
    }

    /// Makes room for so many more numbers. The counts stay; an `Err` changes nothing.
    pub fn reserve(&mut self, more: usize) -> Result<(), AllocError>
        ensures facts { self.new.facts ≡ self.old.facts }
        ensures ok { OnOk result (more ≤ self.new.room) }
        ensures err { OnErr result (self.new ≡ self.old) }
        ensures grows { self.old.room ≤ self.new.room }
        ensures succeeds { more ≤ self.old.room → IsOk result }
    {
        self.counts.reserve(more)
    }

    /// The count of a number, 0 if it has none.
    pub fn of(&self, number: u32) -> u32
        ensures { result ≡ count_at self.now.facts number }
    {
        self.counts.get(number).copied().unwrap_or(0)
    }

    /// How many numbers count.
    pub fn len(&self) -> usize
        ensures { result ≡ map.len self.now.facts }
    {
        self.counts.len()
    }

    /// Counts a number once more; one that did not count takes a place that was reserved. It takes no memory.
    pub fn one_more(&mut self, number: u32)
        requires room { count_at self.old.facts number ≡ 0 → 0 < self.old.room }
        requires few { count_at self.old.facts number < 4294967295 }
        ensures each { (k : ℕ) → count_at self.new.facts k ≡ (if number == k then count_at self.old.facts k + 1 else count_at self.old.facts k) }
        ensures positive { ArePositive self.new.facts }
        ensures places { places self.new ≡ places self.old }
    {
        match self.counts.get(number).copied() {
            Some(count) => self.counts.change(number, Become { count: count + 1 }),
            None => self.counts.insert(number, 1),
        }
    }

    /// Counts a number once less. One that no longer counts leaves its place, and one that did not count stays so.
    pub fn one_less(&mut self, number: u32)
        ensures each { (k : ℕ) → count_at self.new.facts k ≡ (if number == k then count_at self.old.facts k - 1 else count_at self.old.facts k) }
        ensures positive { ArePositive self.new.facts }
        ensures places { places self.new ≡ places self.old }
    {
        let count = self.of(number);
        if count <= 1 {
            self.counts.remove(number);
        } else {
            self.counts.change(number, Become { count: count - 1 });
        }
    }
}
