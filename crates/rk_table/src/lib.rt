//! Finite maps from numbers, with places that were reserved.
//!
//! # Purpose
//!
//! The libraries that hold the machine's state keep facts by their numbers: keys and rings by their serials, clients by the numbers of
//! their connections. Each of them needs the same of its map. A caller must be able to reserve places first and put in what was decided
//! later, with no refusal in between. A contract must be able to say which facts there are, and nothing of how they lie.
//!
//! # What it promises
//!
//! A [`Table`] and a [`HashTable`] are seen alike, as their facts, a finite map, and their room, the number of entries that can be put in with no
//! memory. Only `reserve` and `with_room` take memory; if `reserve` is refused, nothing has changed. `insert` wants a new key and room, and has no way
//! to fail. An entry that is taken out of a `Table` leaves its place to the next one: `retain` and `remove` keep the sum of facts and room. A
//! `HashTable` promises no more than that its room is not less.
//!
//! # Use
//!
//! Reserve, and then insert: `table.reserve(1)?; table.insert(3, fact);`. A value is changed in its place by a small struct that implements
//! [`ChangeOnce`] and says in its ghost member what it makes of the value. One that implements [`Exchange`] also answers, so that what it found needs
//! no second search. A [`Test`] picks entries in the same way.
//!
//! A `Table` is for what has a bound, as the links of a ring, and a `HashTable` for what has none, as the keys. [`Counts`] is a `Table` of counts.
//!
//! # How it is built
//!
//! `table` has the table, `places` the search. A plain vector of entries in the order of their keys, each key once, so that a search halves
//! it. `get`, `contains` and `change` look at 8 entries where 256 are held. `insert` and `remove` search alike, and then the entries of
//! greater keys move by one place, in one piece. Keys that come rising, as serials do, are put at the end. `any`, `find` and `retain` walk
//! over all entries. `hashed` has the other, over an `indexmap`, whose entries are found by the hashes of their keys, which `hashing` makes.
//! `counts` counts numbers in a `Table`. No contract says how entries lie, so that another index can take its place.
#![tactic(auto)]

mod counts;
mod hashed;
mod hashing;
mod places;
mod table;

pub use counts::Counts;
pub use hashed::HashTable;
pub use hashing::{DrawnNumbers, NumberHasher};
pub use table::{ChangeOnce, Exchange, Table, Test};
