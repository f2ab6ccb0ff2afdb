//! How often each key is linked.
ghost use Rattle.std.specs.Prelude.{◌≡◌, ◌≤◌, ◌<◌, ◌+◌, ◌-◌, ◌==◌, ℕ, None, OnOk, OnErr, if◌then◌else◌};
ghost use Rattle.std.specs.FinMap as map;
ghost use Rattle.rk_table.specs.Stored.{places};
ghost use Rattle.rk_table.specs.Counts.{count_at, ArePositive};
ghost use Rattle.rk_rings.specs.Counting.{counting};

use rk_table::{ChangeOnce, Table, Test};
use std::alloc::{AllocError, Global};
use std::marker::Model;

/// In how many rings each key is linked. A key that is linked nowhere leaves its place; but its entry stays, with 0, until all places are taken, so that no
/// entry moves when a key goes. Then one walk takes out all that are 0.
#[derive(Drop)]
pub struct LinkCounts {
    /// Each count that is not 0, and some that have become 0.
    counts: Table<u32>,
    /// How many keys may count.
    most: usize,
}

impl Model for LinkCounts {
    ghost use Rattle.std.specs.Prelude.{◌≤◌, ℕ};
    ghost use Rattle.std.specs.Coded.{coded_ℕ};
    ghost use Rattle.std.specs.FinMap as map;
    ghost use Rattle.rk_table.specs.Stored.{Stored, stored_code, places};
    ghost use Rattle.rk_rings.specs.Counting.{seen_counts};

    ghost Value = { Stored ℕ };

    ghost coded = { stored_code coded_ℕ };

    ghost view = { λ c. seen_counts c.counts.facts c.most };

    ghost invariant = { λ c. (map.len c.counts.facts ≤ c.most) × (c.most ≤ places c.counts) };
}

impl LinkCounts {
    /// Nothing counts, and there are no places. It takes no memory.
    pub fn new(alloc: Global) -> LinkCounts
        ensures { result.facts ≡ map.empty }
    {
        LinkCounts {
            counts: Table::new(alloc),
            most: 0,
        }
    }

    /// Makes places for so many keys in all, those that count among them. The counts stay; an `Err` changes nothing.
    pub fn reserve(&mut self, all: usize) -> Result<(), AllocError>
        ensures facts { self.new.facts ≡ self.old.facts }
        ensures ok { OnOk result (all ≤ places self.new) }
        ensures err { OnErr result (self.new ≡ self.old) }
    {
        self.counts.reserve(all.saturating_sub(self.counts.len()))?;
        self.most = self.most.max(all);
        Ok(())
    }

    /// The count of a key, 0 if it has none.
    pub fn of(&self, key: u32) -> u32
        ensures { result ≡ count_at self.now.facts key }
    {
        self.counts.get(key).copied().unwrap_or(0)
    }

    /// Counts a key once more; one that did not count takes a place. It takes no memory.
    pub fn one_more(&mut self, key: u32)
        requires room { count_at self.old.facts key ≡ 0 → 0 < self.old.room }
        requires few { count_at self.old.facts key < 4294967295 }
        ensures each { (k : ℕ) → count_at self.new.facts k ≡ (if key == k then count_at self.old.facts k + 1 else count_at self.old.facts k) }
        ensures positive { ArePositive self.new.facts }
        ensures places { places self.new ≡ places self.old }
    {
        match self.counts.get_late(key).copied() {
            Some(count) => self.counts.change(key, Become(count + 1)),
            None => {
                make_way(&mut self.counts, self.most);
                self.counts.insert(key, 1);
            }
        }
    }

    /// Counts a key once less. One that no longer counts leaves its place, and one that did not count stays so. It takes no memory.
    pub fn one_less(&mut self, key: u32)
        ensures each { (k : ℕ) → count_at self.new.facts k ≡ (if key == k then count_at self.old.facts k - 1 else count_at self.old.facts k) }
        ensures positive { ArePositive self.new.facts }
        ensures places { places self.new ≡ places self.old }
    {
        self.counts.change(key, OneLess);
    }
}

/// Takes out the entries of keys that no longer count, where there are as many entries as places.
fn make_way(counts: &mut Table<u32>, most: usize)
    ensures facts { counting counts.new.facts ≡ counting counts.old.facts }
    ensures places { places counts.new ≡ places counts.old }
    ensures room { map.len (counting counts.old.facts) < most → map.len counts.new.facts < most }
    ensures absent { (k : ℕ) → map.get counts.old.facts k ≡ None → map.get counts.new.facts k ≡ None }
{
    if counts.len() >= most {
        counts.retain(&Counting);
    }
}

/// Entries of keys that count.
#[derive(Clone, Copy)]
struct Counting;

impl Test<u32> for Counting {
    ghost use Rattle.std.specs.Prelude.{nat_lt};

    ghost passes = { λ _ k n. nat_lt 0 n };

    fn passes(&self, key: u32, value: &u32) -> bool {
        let _ = key;
        *value > 0
    }
}

/// One fewer; a count of 0 stays.
#[derive(Clone, Copy)]
struct OneLess;

impl ChangeOnce<u32> for OneLess {
    ghost use Rattle.std.specs.Prelude.{◌-◌};

    ghost changed = { λ _ n. n - 1 };

    fn change(self, count: &mut u32) {
        *count = count.saturating_sub(1);
    }
}

/// The count becomes this one.
#[derive(Clone, Copy)]
struct Become(u32);

impl ChangeOnce<u32> for Become {
    ghost changed = { λ b _. b.0 };

    fn change(self, count: &mut u32) {
        *count = self.0;
    }
}
