//! The keys of a ring by the numbers of their names, in places that last.
ghost use Rattle.std.specs.Prelude.{◌≡◌, ◌≤◌, ◌<◌, ◌+◌, None, IfOk, fold, length, nat_eq};
ghost use Rattle.std.specs.FinMap as map;
ghost use Rattle.indexmap.specs.IndexMap.{get, index_map_len, spare, IsEmpty};
ghost use Rattle.rk_rings.specs.Numbered.{AreSerials};
ghost use Rattle.rk_rings.specs.ByName.{AreByName, named, with_name, turned_more};

use indexmap::IndexMap;
use rk_names::{NameNo, Serial};
use rk_table::{DrawnNumbers, Table};
use std::alloc::{AllocError, Global};
use std::marker::Model;
use std::mem::replace;

/// The places of a ring: for its 256 links, and for 32 names more whose keys were unlinked.
const PLACES: usize = 288;

/// The key of each name that is linked in a ring, found by the hash of the name's number.
///
/// A map does not promise that a removal gives its place back, and a link may take no memory. So a name whose key is unlinked stays,
/// and holds none. It serves the next key of that name. If such names have taken all places, `make_way` clears the map, which keeps
/// its places, and puts the links back: at most once for 32 keys that were unlinked.
#[derive(Drop)]
pub struct ByName {
    /// By the number of each name its key, or `None` if that is unlinked.
    keys: IndexMap<NameNo, Option<Serial>, DrawnNumbers>,
}

impl Model for ByName {
    ghost use Rattle.std.specs.Prelude.{◌≤◌, ◌+◌, ℕ};
    ghost use Rattle.std.specs.Coded.{coded_ℕ};
    ghost use Rattle.indexmap.specs.IndexMap.{index_map_len, spare};
    ghost use Rattle.rk_table.specs.Stored.{Stored, stored_code};
    ghost use Rattle.rk_rings.specs.ByName.{named};

    ghost Value = { Stored ℕ };

    ghost coded = { stored_code coded_ℕ };

    ghost view = { λ b. record { facts = named b.keys.entries; room = spare b.keys } };

    ghost invariant = { λ b. 288 ≤ index_map_len b.keys + spare b.keys };
}

impl ByName {
    /// No key, with its places.
    pub fn new(alloc: Global) -> Result<ByName, AllocError>
        ensures { IfOk result (λ b. b.facts ≡ map.empty) }
    {
        Ok(ByName {
            keys: IndexMap::with_capacity_and_hasher(alloc, PLACES, DrawnNumbers)?,
        })
    }

    /// The key of that name. It stands apart, so that a ring of few links is not slowed by it.
    #[inline(never)]
    pub fn get(&self, name: NameNo) -> Option<Serial>
        ensures { result ≡ map.get self.now.facts name }
    {
        *self.keys.get(&name)?
    }

    /// The name stands for this key from now on. It takes no memory, and answers the key that it stood for.
    pub fn put(&mut self, name: NameNo, key: Serial) -> Option<Serial>
        requires { 0 < self.old.room }
        ensures old { result ≡ map.get self.old.facts name }
        ensures facts { self.new.facts ≡ map.insert self.old.facts name key }
    {
        match self.keys.get_mut(&name) {
            Some(place) => replace(place, Some(key)),
            None => {
                add(&mut self.keys, name, Some(key));
                None
            }
        }
    }

    /// The name stands for no key from now on.
    pub fn remove(&mut self, name: NameNo)
        ensures facts { self.new.facts ≡ map.remove self.old.facts name }
    {
        let Some(place) = self.keys.get_mut(&name) else {
            return;
        };
        *place = None;
    }

    /// No name stands for a key from now on. The places stay.
    pub fn clear(&mut self)
        ensures { self.new.facts ≡ map.empty }
    {
        self.keys.clear();
    }

    /// Makes room for one more name, where all places are taken: then the names that stand for no key go. `links` has the same keys, with
    /// the names of each.
    pub fn make_way(&mut self, links: &Table<NameNo>)
        requires serials { AreSerials links.now.facts }
        requires same { AreByName links.now.facts self.old.facts }
        requires few { map.len links.now.facts ≤ 256 }
        ensures facts { self.new.facts ≡ self.old.facts }
        ensures room { 0 < self.new.room }
    {
        if self.keys.capacity() > self.keys.len() {
            return;
        }
        self.keys.clear();
        put_back(&mut self.keys, links.entries());
    }
}

/// Puts the keys of names into an empty map that has room for them.
fn put_back(keys: &mut IndexMap<NameNo, Option<Serial>, DrawnNumbers>, links: &[(u32, NameNo)])
    requires empty { IsEmpty keys.old }
    requires room { length links.now < spare keys.old }
    ensures facts { named keys.new.entries ≡ fold turned_more map.empty links.now }
    ensures room { spare keys.old ≤ spare keys.new + length links.now }
{
    for link in links {
        add(keys, link.1, Serial::new(link.0));
    }
}

/// Puts in a name, in a place that the map has. It takes no memory.
fn add(keys: &mut IndexMap<NameNo, Option<Serial>, DrawnNumbers>, name: NameNo, key: Option<Serial>)
    requires { 0 < spare keys.old }
    ensures facts { named keys.new.entries ≡ with_name (named keys.old.entries) name key }
    ensures room { spare keys.old ≤ spare keys.new + 1 }
    ensures places { get nat_eq keys.old name ≡ None → index_map_len keys.old + spare keys.old ≤ index_map_len keys.new + spare keys.new }
{
    match keys.insert(name, key) {
        Ok(_) => {}
        Err(_) => unreachable!(),
    }
}
