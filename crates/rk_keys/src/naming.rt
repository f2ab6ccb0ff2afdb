//! Names by their hashes, and the keys that have them, counted.
ghost use Rattle.std.specs.Prelude.{◌≡◌, ◌==◌, ◌++◌, ◌∷◌, [], ℕ, List, ◌≤◌, ◌<◌, None, Some, OnOk, OnErr, IfOk, if◌then◌else◌, unwrap_or};
ghost use Rattle.std.specs.Prelude.{find as list_find};
ghost use Rattle.std.specs.Option.{option_copied};
ghost use Rattle.std.specs.Ordering.{nat_cmp};
ghost use Rattle.std.specs.FinMap as map;
ghost use Rattle.std.specs.Hash.FoldHasher as folding;
ghost use Rattle.rk_keys.specs.Buckets.{IsIndex, name_hash, fed_with, is_of, is_same, names_at, kept_of, count_of, number_in, counted_in, counted_out};

use crate::by_name::{Bucket, CountIn, CountOut};
use crate::hashed_name::HashedName;
use crate::named::Named;
use rk_names::{Description, NameNo};
use rk_table::HashTable;
use std::alloc::{AllocError, Global};
use std::hash::{FoldHasher, Hasher};

/// The hash of a name. Who does not know the seed can't choose names whose hashes are equal.
#[tactic(auto, unfolding(crate::specs::Buckets::name_hash))]
#[inline(always)]
pub fn hash_of(seed: u64, typ: &[u8], description: &[u8]) -> u32
    ensures { result ≡ name_hash seed typ.now description.now }
{
    let mut hasher = FoldHasher::default();
    hasher.write_u64(seed);
    feed(&mut hasher, typ);
    feed(&mut hasher, description);
    (hasher.finish() & 0xFFFF_FFFF) as u32
}

/// Feeds a hasher with bytes, eight at a time: more would be multiplied with one another, and a client that chooses both factors could wipe the seed out.
#[tactic(auto, unfolding(crate::specs::Buckets::fed_words))]
#[inline(always)]
fn feed(hasher: &mut FoldHasher, bytes: &[u8])
    ensures { hasher.new ≡ fed_with bytes.now hasher.old }
{
    match bytes.len() {
        0 => {}
        1..=8 => feed_few(hasher, bytes),
        _ => feed_many(hasher, bytes),
    }
}

/// Feeds a hasher with the bytes at once. Four, as those of the type `user`, go as a number, which takes no choice.
#[tactic(auto, using(std::proofs::lemmas::Nat::le_bytes_4))]
#[inline(always)]
fn feed_few(hasher: &mut FoldHasher, bytes: &[u8])
    ensures { hasher.new ≡ folding.write hasher.old bytes.now }
{
    match <[u8; 4]>::try_from(bytes) {
        Ok(word) => hasher.write_u32(u32::from_le_bytes(word)),
        Err(_) => hasher.write(bytes),
    }
}

/// Feeds a hasher with more than eight bytes, by a loop. What is no whole word comes last.
#[tactic(auto, unfolding(crate::specs::Buckets::fed_words))]
fn feed_many(hasher: &mut FoldHasher, bytes: &[u8])
    ensures { hasher.new ≡ fed_with bytes.now hasher.old }
{
    let words = bytes.len() / 8;
    for word in 0..words {
        feed_word(hasher, &bytes[8 * word..8 * word + 8]);
    }
    let rest = &bytes[8 * words..];
    if !rest.is_empty() {
        hasher.write(rest);
    }
}

/// Feeds a hasher with the bytes at once. Eight go as a number, which takes no loop.
#[tactic(auto, using(std::proofs::lemmas::Nat::le_bytes_8))]
#[inline(always)]
fn feed_word(hasher: &mut FoldHasher, bytes: &[u8])
    ensures { hasher.new ≡ folding.write hasher.old bytes.now }
{
    match <[u8; 8]>::try_from(bytes) {
        Ok(word) => hasher.write_u64(u64::from_le_bytes(word)),
        Err(_) => hasher.write(bytes),
    }
}

/// The number that the live keys of this name share; `None` if none is kept.
#[inline(always)]
pub fn number_of(by_name: &HashTable<Bucket>, seed: u64, name: &HashedName<'_>) -> Option<NameNo>
    ensures { result ≡ number_in (kept_of seed by_name.now.facts name.now.typ name.now.description) }
{
    let (typ, description) = (name.typ(), name.description());
    let hash = name.hash(seed);
    kept(by_name, hash, typ, description).map(|named| named.number)
}

/// Counts a new key to those of its name, and answers the number of the name: that which is kept, else the key's own serial. The first key of a name
/// lends it its description. An `Err` changes nothing.
pub fn count_in(
    by_name: &mut HashTable<Bucket>,
    alloc: Global,
    seed: u64,
    name: &HashedName<'_>,
    description: &Description,
    serial: u32,
) -> Result<NameNo, AllocError>
    requires same { description.now ≡ name.now.description }
    requires few { count_of (kept_of seed by_name.old.facts name.now.typ name.now.description) < 4294967295 }
    ensures ok { OnOk result ((t d : List ℕ) → kept_of seed by_name.new.facts t d ≡ (if is_same name.now.typ name.now.description t d
        then Some (counted_in name.now.typ name.now.description serial (kept_of seed by_name.old.facts t d)) else kept_of seed by_name.old.facts t d)) }
    ensures number { IfOk result (λ n. n ≡ unwrap_or (number_in (kept_of seed by_name.old.facts name.now.typ name.now.description)) serial) }
    ensures err { OnErr result ((t d : List ℕ) → kept_of seed by_name.new.facts t d ≡ kept_of seed by_name.old.facts t d) }
{
    let hash = name.hash(seed);
    let counted = CountIn {
        typ: name.typ(),
        description: name.description(),
    };
    match by_name.exchange(hash, counted).flatten() {
        Some(number) => Ok(number),
        None => put_first(by_name, alloc, hash, name, description, serial),
    }
}

/// Keeps the name of its first key, whose serial is the number. An `Err` changes nothing.
#[cold]
#[inline(never)]
fn put_first(
    by_name: &mut HashTable<Bucket>,
    alloc: Global,
    hash: u32,
    name: &HashedName<'_>,
    description: &Description,
    serial: u32,
) -> Result<NameNo, AllocError>
    requires { description.now ≡ name.now.description }
    ensures ok { OnOk result ((h : ℕ) → names_at by_name.new.facts h ≡ (if hash == h
        then names_at by_name.old.facts h ++ counted_in name.now.typ name.now.description serial None ∷ [] else names_at by_name.old.facts h)) }
    ensures number { IfOk result (λ n. n ≡ serial) }
    ensures err { OnErr result ((h : ℕ) → names_at by_name.new.facts h ≡ names_at by_name.old.facts h) }
{
    let named = Named {
        typ: name.owned_typ(),
        description: description.clone()?,
        number: NameNo(serial),
        keys: 1,
    };
    put_in(by_name, alloc, hash, named)?;
    Ok(NameNo(serial))
}

/// Counts a key out of those of its name. Of a name that no key has any more nothing is kept.
pub fn count_out(by_name: &mut HashTable<Bucket>, seed: u64, typ: &[u8], description: &[u8])
    ensures { (t d : List ℕ) → kept_of seed by_name.new.facts t d ≡
        (if is_same typ.now description.now t d then counted_out (kept_of seed by_name.old.facts t d) else kept_of seed by_name.old.facts t d) }
{
    let hash = hash_of(seed, typ, description);
    let none_left = by_name
        .exchange(hash, CountOut { typ, description })
        .unwrap_or(false);
    if none_left {
        by_name.remove(hash);
    }
}

/// What is kept of a name under a hash.
#[inline(always)]
fn kept<'a>(
    by_name: &'a HashTable<Bucket>,
    hash: u32,
    typ: &[u8],
    description: &[u8],
) -> Option<&'a Named>
    ensures { option_copied result ≡ list_find (is_of typ.now description.now) (names_at by_name.now.facts hash) }
{
    by_name.get(hash)?.find(typ, description)
}

/// Puts a name under its hash. An `Err` changes nothing.
fn put_in(
    by_name: &mut HashTable<Bucket>,
    alloc: Global,
    hash: u32,
    named: Named,
) -> Result<(), AllocError>
    ensures ok { OnOk result ((h : ℕ) → names_at by_name.new.facts h ≡
        (if hash == h then names_at by_name.old.facts h ++ named ∷ [] else names_at by_name.old.facts h)) }
    ensures err { OnErr result ((h : ℕ) → names_at by_name.new.facts h ≡ names_at by_name.old.facts h) }
{
    by_name.reserve(1)?;
    let mut bucket = bucket_at(by_name, alloc, hash);
    match bucket.push(named) {
        Ok(()) => {
            by_name.insert(hash, bucket);
            Ok(())
        }
        Err(refused) => {
            by_name.insert(hash, bucket);
            Err(refused)
        }
    }
}

/// Takes out the names under a hash; there may be none.
fn bucket_at(by_name: &mut HashTable<Bucket>, alloc: Global, hash: u32) -> Bucket
    ensures bucket { result ≡ names_at by_name.old.facts hash }
    ensures facts { by_name.new.facts ≡ map.remove by_name.old.facts hash }
    ensures room { by_name.old.room ≤ by_name.new.room }
{
    match by_name.take(hash) {
        Some(bucket) => bucket,
        None => Bucket::new(alloc),
    }
}
