//! All rings.
ghost use Rattle.std.specs.Prelude.{◌≡◌, ◌≤◌, ◌<◌, ◌-◌, ◌+◌, ◌==◌, ℕ, true, false, Some, None, IfOk, vec_len, if◌then◌else◌};
ghost use Rattle.std.specs.FinMap as map;
ghost use Rattle.std.specs.Option.{option_map_or};
ghost use Rattle.rk_table.specs.Stored.{places};
ghost use Rattle.rk_table.specs.Counts.{count_at, ArePositive};
ghost use Rattle.std.specs.Prelude.{map as list_map};
ghost use Rattle.rk_rings.specs.Numbered.{new_ring, AreSerials};
ghost use Rattle.rk_rings.specs.UserRings.{IsHis, AreUserRings};
ghost use Rattle.rk_rings.specs.Making.{with_entries, HasEachNew};

use crate::changes::{IsUserRing, Link, Unlink};
use crate::fault::RingFault;
use crate::kind::{NewRing, RingKind};
use crate::link_counts::LinkCounts;
use crate::row::{MAX_LINKS, Row};
use rk_names::{NameNo, Serial};
use rk_table::Table;
use std::alloc::{AllocError, Global};
use std::marker::Model;

/// The most rings that are kept when they are dropped: as many as a context has.
const MAX_UNUSED: usize = 4;

/// The most rings at a time.
pub const MAX_RINGS: usize = 1_024;

/// The live rings by their serials, each with room for its 256 links, of which no two are to keys of one name.
///
/// A call that is given a ring looks at 11 of 1,024 rings to find it, and at 9 of its 256 links to find a key. A name is found by its hash, or
/// among up to 8 links by a walk.
#[derive(Drop)]
pub struct Rings {
    /// Each ring by its serial.
    rows: Table<Row>,
    /// A user ring of each user who has one, by uid.
    users: Table<Serial>,
    /// In how many rings each key is linked.
    counts: LinkCounts,
    /// Rings that were dropped, whose places the next ones take.
    unused: Vec<Row>,
}

impl Model for Rings {
    ghost use Rattle.std.specs.Prelude.{◌≤◌};
    ghost use Rattle.std.specs.Coded.{coded_ℕ};
    ghost use Rattle.std.specs.Ordering.{nat_cmp};
    ghost use Rattle.std.specs.FinMap as map;
    ghost use Rattle.rk_rings.specs.Numbered.{Numbered, numbered_code, AreSerials, HaveEachNameOnce};
    ghost use Rattle.rk_rings.specs.Counted.{AreCounted};
    ghost use Rattle.rk_rings.specs.UserRings.{AreUserRings};

    ghost Value = { map.FinMap nat_cmp Numbered };

    ghost coded = { map.code coded_ℕ numbered_code };

    ghost view = { λ r. r.rows.facts };

    ghost invariant = { λ r. record {
      rows : (map.len r.rows.facts ≤ 1024) × AreSerials r.rows.facts × HaveEachNameOnce r.rows.facts;
      users : AreUserRings r.rows.facts r.users.facts;
      counted : AreCounted r.rows.facts r.counts;
    } };
}

impl Rings {
    ghost use Rattle.std.specs.Prelude.{◌≡◌, ◌≤◌, ◌<◌, ◌+◌, ◌↔◌, ◌⊎◌, ℕ, true, false, length, IsTrue, Some, None, Ok, Err, OnOk, OnErr, IfSome, IfErr, IfOk};
    ghost use Rattle.std.specs.Bool.{MatchBool};
    ghost use Rattle.std.specs.Prelude.{MatchOption};
    ghost use Rattle.std.specs.FinMap as map;
    ghost use Rattle.std.specs.Option.{option_map, option_map_or, option_copied};
    ghost use Rattle.rk_table.specs.Maps.{changed_at};
    ghost use Rattle.rk_rings.specs.UserRings.{is_his};
    ghost use Rattle.rk_rings.specs.Numbered.{Numbered, HasEachNameOnce, AreNew, with_rings, is_user_ring, is_full, is_full_at, holds, is_held, linked};
    ghost use Rattle.rk_rings.specs.Numbered.{unlinked, cleared, IsMatch};

    /// No ring. It takes no memory until `make`.
    pub fn new(alloc: Global) -> Rings
        ensures { result ≡ map.empty }
    {
        Rings {
            rows: Table::new(alloc),
            users: Table::new(alloc),
            counts: LinkCounts::new(alloc),
            unused: Vec::new(alloc),
        }
    }

    /// Whether so many more rings can be made: there are at most 1,024.
    pub fn has_room(&self, more: usize) -> bool
        ensures { IsTrue result ↔ (map.len self.now + more ≤ 1024) }
    {
        more <= MAX_RINGS - self.rows.len()
    }

    /// Whether there is such a ring.
    pub fn contains(&self, ring: Serial) -> bool
        ensures { result ≡ map.contains_key self.now ring }
    {
        self.rows.contains(ring.get())
    }

    #[inline(always)]
    fn row(&self, ring: Serial) -> Option<&Row>
        ensures row { option_copied result ≡ map.get self.now ring }
        ensures once { IfSome result (λ r. HasEachNameOnce r.now.links) }
    {
        self.rows.get(ring.get())
    }

    /// What the ring is for, and the user whose it is; `None` if there is no such ring.
    pub fn kind(&self, ring: Serial) -> Option<(RingKind, u32)>
        ensures { result ≡ option_map (λ r. (r.kind, r.uid)) (map.get self.now ring) }
    {
        let row = self.row(ring)?;
        Some((row.kind(), row.uid()))
    }

    /// The user ring of a user; `None` if none is live (user-keyring(7)).
    pub fn user_ring(&self, uid: u32) -> Option<Serial>
        ensures { MatchOption result ((k : ℕ) (r : Numbered) → map.get self.now k ≡ Some r → is_user_ring uid r ≡ false)
            (λ k. option_map_or (is_user_ring uid) (map.get self.now k) false ≡ true) }
    {
        self.users.get(uid).copied()
    }

    /// Whether the key is linked in the ring.
    pub fn holds(&self, ring: Serial, key: Serial) -> bool
        ensures { result ≡ holds self.now ring key }
    {
        match self.row(ring) {
            Some(row) => row.holds(key),
            None => false,
        }
    }

    /// Whether the key is linked in some ring. It asks no ring: the links of each key are counted.
    pub fn is_held(&self, key: Serial) -> bool
        ensures { result ≡ is_held self.now key }
    {
        self.counts.of(key.get()) > 0
    }

    /// A key that is linked in the ring; `None` if there is none, or no such ring.
    pub fn first_key(&self, ring: Serial) -> Option<Serial>
        ensures { MatchOption result ((k : ℕ) → holds self.now ring k ≡ false) (λ k. holds self.now ring k ≡ true) }
    {
        self.row(ring)?.first()
    }

    /// Whether the ring is there and has no room for a key of that name: it has 256 links, and none to a
    /// key of that name. `None` is a name that no key has.
    pub fn is_full(&self, ring: Serial, name: Option<NameNo>) -> bool
        ensures { result ≡ is_full_at self.now ring name }
    {
        match self.row(ring) {
            Some(row) => row.is_full(name),
            None => false,
        }
    }

    /// Makes rings, each with room for its links, all of them or none. The serials have to be new.
    ///
    /// `Full` exactly if there would be more than 1,024 rings; then `NoMemory`. A refusal changes
    /// nothing: the room of each ring and that for the rings themselves is made before the first is put in.
    pub fn make(&mut self, alloc: Global, wanted: &[NewRing]) -> Result<(), RingFault>
        requires { AreNew wanted.now self.old }
        ensures ok { OnOk result (self.new ≡ with_rings wanted.now self.old) }
        ensures err { OnErr result (self.new ≡ self.old) }
        ensures full { (result ≡ Err RingFault.Full) ↔ (1024 < map.len self.old + length wanted.now) }
        ensures memory { IfErr result (λ f. (f ≡ RingFault.Full) ⊎ (f ≡ RingFault.NoMemory)) }
    {
        if !self.has_room(wanted.len()) {
            return Err(RingFault::Full);
        }
        let Ok(rows) = new_rows(alloc, wanted, &mut self.unused) else {
            return Err(RingFault::NoMemory);
        };
        if self.rows.reserve(rows.len()).is_err() || self.users.reserve(rows.len()).is_err() {
            return Err(RingFault::NoMemory);
        }
        let links = MAX_LINKS * (self.rows.len() + rows.len());
        let Ok(()) = self.counts.reserve(links) else {
            return Err(RingFault::NoMemory);
        };
        insert_rows(&mut self.rows, &mut self.users, rows);
        Ok(())
    }

    /// Links a key in a ring, in the place of another key of that name, which is returned. It takes no memory, and changes
    /// nothing where the key is linked there already (keyctl_link(3); keyctl(2), `KEYCTL_LINK`).
    ///
    /// `NoRing` exactly if there is no such ring. `Full` exactly if the ring has 256 links, none of
    /// them to the key nor to one of that name. A refusal changes nothing.
    pub fn link(
        &mut self,
        ring: Serial,
        key: Serial,
        name: NameNo,
    ) -> Result<Option<Serial>, RingFault>
        ensures ok { OnOk result (self.new ≡ changed_at ring (linked key name) self.old) }
        ensures err { OnErr result (self.new ≡ self.old) }
        ensures no_ring { (result ≡ Err RingFault.NoRing) ↔ (map.contains_key self.old ring ≡ false) }
        ensures rival { IfOk result (λ rival. MatchBool (holds self.old ring key) (rival ≡ None) (IsMatch self.old name (Some ring) rival)) }
        ensures full { (result ≡ Err RingFault.Full) ↔ ((is_full_at self.old ring (Some name) ≡ true) × (holds self.old ring key ≡ false)) }
        ensures others { IfErr result (λ f. (f ≡ RingFault.NoRing) ⊎ (f ≡ RingFault.Full)) }
    {
        let Some(row) = self.row(ring) else {
            return Err(RingFault::NoRing);
        };
        if row.holds(key) {
            return Ok(None);
        }
        if row.is_full(Some(name)) {
            return Err(RingFault::Full);
        }
        let rival = row.find(name);
        self.rows.change(ring.get(), Link { key, name });
        count_gone(&mut self.counts, &rival);
        self.counts.one_more(key.get());
        Ok(rival)
    }

    /// Takes out the link of a key from a ring. It takes no memory (keyctl_unlink(3)).
    ///
    /// `NoRing` exactly if there is no such ring, and `NotLinked` exactly if the ring is there and
    /// the key is not linked in it. A refusal changes nothing.
    pub fn unlink(&mut self, ring: Serial, key: Serial) -> Result<(), RingFault>
        ensures ok { OnOk result (self.new ≡ changed_at ring (unlinked key) self.old) }
        ensures err { OnErr result (self.new ≡ self.old) }
        ensures no_ring { (result ≡ Err RingFault.NoRing) ↔ (map.contains_key self.old ring ≡ false) }
        ensures not_linked { (result ≡ Err RingFault.NotLinked) ↔ ((map.contains_key self.old ring ≡ true) × (holds self.old ring key ≡ false)) }
        ensures others { IfErr result (λ f. (f ≡ RingFault.NoRing) ⊎ (f ≡ RingFault.NotLinked)) }
    {
        if !self.contains(ring) {
            return Err(RingFault::NoRing);
        }
        if !self.holds(ring, key) {
            return Err(RingFault::NotLinked);
        }
        self.take_out(ring, key);
        Ok(())
    }

    fn take_out(&mut self, ring: Serial, key: Serial)
        requires { holds self.old ring key ≡ true }
        ensures { self.new ≡ changed_at ring (unlinked key) self.old }
    {
        self.rows.change(ring.get(), Unlink(key));
        self.counts.one_less(key.get());
    }

    /// Takes out all links of a ring. It takes no memory (keyctl_clear(3)).
    ///
    /// `NoRing` exactly if there is no such ring, and then nothing changes.
    pub fn clear(&mut self, ring: Serial) -> Result<(), RingFault>
        ensures ok { OnOk result (self.new ≡ changed_at ring cleared self.old) }
        ensures err { OnErr result (self.new ≡ self.old) }
        ensures no_ring { (result ≡ Err RingFault.NoRing) ↔ (map.contains_key self.old ring ≡ false) }
        ensures others { IfErr result (λ f. f ≡ RingFault.NoRing) }
    {
        if !self.contains(ring) {
            return Err(RingFault::NoRing);
        }
        self.empty(ring);
        Ok(())
    }

    /// Takes the links out one by one, since each is counted.
    fn empty(&mut self, ring: Serial)
        ensures { self.new ≡ changed_at ring cleared self.old }
    {
        while let Some(key) = self.first_key(ring) {
            self.take_out(ring, key);
        }
    }

    /// Drops a ring with its links. It takes no memory. If it is a user ring, it looks through all rings for another of that user.
    ///
    /// `NoRing` exactly if there is no such ring, and then nothing changes.
    pub fn drop_ring(&mut self, ring: Serial) -> Result<(), RingFault>
        ensures ok { OnOk result (self.new ≡ map.remove self.old ring) }
        ensures err { OnErr result (self.new ≡ self.old) }
        ensures no_ring { (result ≡ Err RingFault.NoRing) ↔ (map.contains_key self.old ring ≡ false) }
        ensures others { IfErr result (λ f. f ≡ RingFault.NoRing) }
    {
        if !self.contains(ring) {
            return Err(RingFault::NoRing);
        }
        self.empty(ring);
        let user = self.user_of(ring);
        let row = self.rows.take(ring.get());
        keep(&mut self.unused, row);
        renew_user(&self.rows, &mut self.users, user);
        Ok(())
    }

    /// The user of a user ring; `None` for any other ring, and if there is no such ring.
    fn user_of(&self, ring: Serial) -> Option<u32>
        ensures { MatchOption result ((uid : ℕ) → is_his self.now uid ring ≡ false) (λ uid. is_his self.now uid ring ≡ true) }
    {
        self.row(ring)?.user()
    }

    /// The key of that name in the ring, which has no other; `None` if there is none, or no such ring. It takes no
    /// memory.
    #[inline(always)]
    pub fn find_in(&self, ring: Serial, name: NameNo) -> Option<Serial>
        ensures { IsMatch self.now name (Some ring) result }
    {
        self.row(ring)?.find(name)
    }
}

/// Counts a link of a key that has given way, if one has.
fn count_gone(counts: &mut LinkCounts, rival: &Option<Serial>)
    ensures each { (k : ℕ) → count_at counts.new.facts k ≡ count_at counts.old.facts k - (if option_map_or (λ r. r == k) rival.now false then 1 else 0) }
    ensures positive { ArePositive counts.old.facts → ArePositive counts.new.facts }
    ensures places { places counts.new ≡ places counts.old }
{
    if let Some(rival) = rival {
        counts.one_less(rival.get());
    }
}

/// The rings that are wanted, each with room for its links; and room in `unused` for the rings of a context.
fn new_rows(
    alloc: Global,
    wanted: &[NewRing],
    unused: &mut Vec<Row>,
) -> Result<Vec<(Serial, Row)>, AllocError>
    ensures { IfOk result (λ rows. rows.items ≡ list_map (λ w. (w.serial, new_ring w)) wanted.now) }
{
    unused.reserve_exact(MAX_UNUSED.saturating_sub(unused.len()))?;
    let mut rows = Vec::with_capacity(alloc, wanted.len())?;
    for ring in wanted {
        rows.push((ring.serial, row_for(alloc, *ring, unused)?))?;
    }
    Ok(rows)
}

/// A ring that is wanted: one that was dropped, or else a new one.
fn row_for(alloc: Global, wanted: NewRing, unused: &mut Vec<Row>) -> Result<Row, AllocError>
    ensures { IfOk result (λ r. r ≡ new_ring wanted) }
{
    match unused.pop() {
        Some(mut row) => {
            row.renew(wanted);
            Ok(row)
        }
        None => Row::new(alloc, wanted),
    }
}

/// Keeps a ring that was dropped, if there is room for it. It takes no memory.
fn keep(unused: &mut Vec<Row>, row: Option<Row>) {
    if let Some(row) = row
        && unused.len() < unused.capacity()
    {
        unused.push_reserved(row);
    }
}

/// Puts rings at new serials into places that were reserved, and users who had no user ring beside them.
fn insert_rows(table: &mut Table<Row>, users: &mut Table<Serial>, rows: Vec<(Serial, Row)>)
    requires new { HasEachNew rows.items table.old.facts }
    requires room { vec_len rows ≤ table.old.room }
    requires user_room { vec_len rows ≤ users.old.room }
    ensures facts { table.new.facts ≡ with_entries rows.items table.old.facts }
    ensures serials { AreSerials table.old.facts → AreSerials table.new.facts }
    ensures users { AreUserRings table.old.facts users.old.facts → AreUserRings table.new.facts users.new.facts }
{
    for (serial, row) in rows {
        note_user(users, serial, &row);
        table.insert(serial.get(), row);
    }
}

/// Notes the user of a new ring, where it is a user ring and the user had none.
fn note_user(users: &mut Table<Serial>, serial: Serial, row: &Row)
    requires room { 0 < users.old.room }
    ensures users { (m : Rings) → map.get m serial ≡ None → AreUserRings m users.old.facts → AreUserRings (map.insert m serial row.now) users.new.facts }
    ensures room { users.old.room ≤ users.new.room + 1 }
{
    let Some(uid) = row.user() else {
        return;
    };
    if !users.contains(uid) {
        users.insert(uid, serial);
    }
}

/// After a ring was dropped: another user ring of its user, if there is one.
fn renew_user(rows: &Table<Row>, users: &mut Table<Serial>, user: Option<u32>)
    requires serials { AreSerials rows.now.facts }
    requires had { (uid : ℕ) → user ≡ Some uid → map.contains_key users.old.facts uid ≡ true }
    requires others { (uid : ℕ) → ¬ (user ≡ Some uid) → IsHis rows.now.facts uid (map.get users.old.facts uid) }
    ensures { AreUserRings rows.now.facts users.new.facts }
{
    let Some(uid) = user else {
        return;
    };
    users.remove(uid);
    if let Some(other) = find_user_ring(rows, uid) {
        users.insert(uid, other);
    }
}

/// A user ring of the user, by a walk over all rings.
fn find_user_ring(rows: &Table<Row>, uid: u32) -> Option<Serial>
    requires { AreSerials rows.now.facts }
    ensures { IsHis rows.now.facts uid result }
{
    Serial::new(rows.find(&IsUserRing(uid))?)
}
