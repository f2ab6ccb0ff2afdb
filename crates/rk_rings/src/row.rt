//! One ring, with places for 256 links, found by their keys and by their names.
ghost use Rattle.std.specs.Prelude.{◌≡◌, ◌≤◌, ◌==◌, not, false};
ghost use Rattle.std.specs.FinMap as map;
ghost use Rattle.rk_table.specs.Maps.{kept_where};
ghost use Rattle.rk_table.specs.Stored.{places};
ghost use Rattle.rk_rings.specs.Numbered.{AreSerials};
ghost use Rattle.rk_rings.specs.ByName.{AreByName};

use crate::by_name::ByName;
use crate::kind::{NewRing, RingKind};
use rk_names::{NameNo, Serial};
use rk_table::{Table, Test};
use std::alloc::{AllocError, Global};
use std::marker::Model;

/// The most links of a ring.
pub const MAX_LINKS: usize = 256;

/// The most links that are looked at one by one.
const FEW_LINKS: usize = 8;

/// One ring: whose it is, and the keys that are linked in it with the numbers of their names, of which no two have one.
#[derive(Drop)]
pub struct Row {
    /// What it is for.
    kind: RingKind,
    /// Whose it is.
    uid: u32,
    /// The number of each key's name, by the key's serial.
    links: Table<NameNo>,
    /// The same links the other way round: each key, by the number of its name.
    by_name: ByName,
}

impl Model for Row {
    ghost use Rattle.std.specs.Prelude.{◌≡◌};
    ghost use Rattle.rk_table.specs.Stored.{places};
    ghost use Rattle.rk_rings.specs.Numbered.{Numbered, numbered_code, AreSerials};
    ghost use Rattle.rk_rings.specs.ByName.{AreByName};

    ghost Value = { Numbered };

    ghost coded = { numbered_code };

    ghost view = { λ r. record { kind = r.kind; uid = r.uid; links = r.links.facts } };

    ghost invariant = { λ r. record {
      links : (places r.links ≡ 256) × AreSerials r.links.facts;
      by_name : AreByName r.links.facts r.by_name.facts;
    } };
}

impl Row {
    ghost use Rattle.std.specs.Prelude.{◌≡◌, false, true, Some, IfOk, MatchOption, ℕ};
    ghost use Rattle.std.specs.FinMap as map;
    ghost use Rattle.std.specs.Option.{option_map_or};
    ghost use Rattle.rk_rings.specs.Numbered.{is_full, is_user_ring, has_number, linked_in_room, unlinked, new_ring};

    /// An empty ring, with its places.
    pub fn new(alloc: Global, wanted: NewRing) -> Result<Row, AllocError>
        ensures { IfOk result (λ r. r ≡ new_ring wanted) }
    {
        Ok(Row {
            kind: wanted.kind,
            uid: wanted.uid,
            links: Table::with_room(alloc, MAX_LINKS)?,
            by_name: ByName::new(alloc)?,
        })
    }

    /// Becomes an empty ring that is wanted. Its places stay.
    pub fn renew(&mut self, wanted: NewRing)
        ensures { self.new ≡ new_ring wanted }
    {
        self.kind = wanted.kind;
        self.uid = wanted.uid;
        self.links.retain(&IsGone);
        self.by_name.clear();
    }

    /// Whose ring it is.
    pub fn kind(&self) -> RingKind
        ensures { result ≡ self.now.kind }
    {
        self.kind
    }

    /// The user of the ring.
    pub fn uid(&self) -> u32
        ensures { result ≡ self.now.uid }
    {
        self.uid
    }

    /// The user, where it is a user ring.
    pub fn user(&self) -> Option<u32>
        ensures { MatchOption result ((uid : ℕ) → is_user_ring uid self.now ≡ false) (λ uid. is_user_ring uid self.now ≡ true) }
    {
        match self.kind {
            RingKind::User => Some(self.uid),
            RingKind::Thread | RingKind::Process | RingKind::Session => None,
        }
    }

    /// Whether the key is linked.
    pub fn holds(&self, key: Serial) -> bool
        ensures { result ≡ map.contains_key self.now.links key }
    {
        self.links.contains(key.get())
    }

    /// Whether there is no room for a key of that name; `None` is a name that no key has.
    pub fn is_full(&self, name: Option<NameNo>) -> bool
        ensures { result ≡ is_full name self.now }
    {
        self.links.len() >= MAX_LINKS && !self.has_name(name)
    }

    fn has_name(&self, name: Option<NameNo>) -> bool
        ensures { result ≡ option_map_or (has_number self.now) name false }
    {
        match name {
            Some(number) => self.by_name.get(number).is_some(),
            None => false,
        }
    }

    /// The key of that name, if one is linked. If there are few links, it looks at each, which takes less than to hash the name.
    #[inline(always)]
    pub fn find(&self, name: NameNo) -> Option<Serial>
        ensures { MatchOption result ((k : ℕ) → ¬ (map.get self.now.links k ≡ Some name)) (λ k. map.get self.now.links k ≡ Some name) }
    {
        if self.links.len() <= FEW_LINKS {
            return self.find_by_walk(name);
        }
        self.by_name.get(name)
    }

    fn find_by_walk(&self, name: NameNo) -> Option<Serial>
        ensures { MatchOption result ((k : ℕ) → ¬ (map.get self.now.links k ≡ Some name)) (λ k. map.get self.now.links k ≡ Some name) }
    {
        Serial::new(self.links.find(&HasName(name))?)
    }

    /// A key that is linked, if there is one.
    pub fn first(&self) -> Option<Serial>
        ensures { MatchOption result ((k : ℕ) → map.contains_key self.now.links k ≡ false) (λ k. map.contains_key self.now.links k ≡ true) }
    {
        Serial::new(self.links.find(&IsThere)?)
    }

    /// Links a key of that name, in the place of another of that name. It takes no memory, and changes nothing where the key is linked already,
    /// or there is no room for it.
    pub fn link(&mut self, key: Serial, name: NameNo)
        ensures { self.new ≡ linked_in_room key name self.old }
    {
        if self.links.contains(key.get()) || self.is_full(Some(name)) {
            return;
        }
        give_way(&mut self.links, &mut self.by_name, key, name);
        self.links.insert(key.get(), name);
    }

    /// Takes out the link of a key, if it has one. It takes no memory.
    pub fn unlink(&mut self, key: Serial)
        ensures { self.new ≡ unlinked key self.old }
    {
        let Some(name) = self.links.get(key.get()).copied() else {
            return;
        };
        self.links.remove(key.get());
        self.by_name.remove(name);
    }
}

/// Takes out the link of the key of a name, if there is one, so that another may take its place; by its name the other is found already.
fn give_way(links: &mut Table<NameNo>, by_name: &mut ByName, key: Serial, name: NameNo)
    requires serials { AreSerials links.old.facts }
    requires index { AreByName links.old.facts by_name.old.facts }
    requires new { map.contains_key links.old.facts key ≡ false }
    requires few { map.len links.old.facts ≤ 256 }
    ensures links { links.new.facts ≡ kept_where (λ j m. not (m == name)) links.old.facts }
    ensures places { places links.new ≡ places links.old }
    ensures index { AreByName (map.insert links.new.facts key name) by_name.new.facts }
{
    by_name.make_way(links);
    if let Some(rival) = by_name.put(name, key) {
        links.remove(rival.get());
    }
}

/// The link of a key of that name.
#[derive(Clone, Copy)]
struct HasName(NameNo);

impl Test<NameNo> for HasName {
    ghost use Rattle.std.specs.Prelude.{◌==◌};

    ghost passes = { λ t _ n. n == t.0 };

    fn passes(&self, key: u32, value: &NameNo) -> bool {
        let _ = key;
        *value == self.0
    }
}

/// No link.
#[derive(Clone, Copy)]
struct IsGone;

impl Test<NameNo> for IsGone {
    ghost use Rattle.std.specs.Prelude.{false};

    ghost passes = { λ _ k n. false };

    fn passes(&self, key: u32, value: &NameNo) -> bool {
        let _ = key;
        let _ = value;
        false
    }
}

/// Every link.
#[derive(Clone, Copy)]
struct IsThere;

impl Test<NameNo> for IsThere {
    ghost use Rattle.std.specs.Prelude.{true};

    ghost passes = { λ _ k n. true };

    fn passes(&self, key: u32, value: &NameNo) -> bool {
        let _ = key;
        let _ = value;
        true
    }
}
