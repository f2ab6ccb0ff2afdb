//! The rings of a request_key daemon, and which key is linked in which.
//!
//! # Purpose
//!
//! [`Rings`] holds the live rings by their serials: whose each is (keyrings(7), "Anchoring keys"), and the keys that are linked in it. It knows a key
//! by its serial and by the number of its name. Live keys share that number exactly if their type and description are equal, so names are compared
//! without reading them. It answers where a key of a name is found in the rings of a context, which ring an ask means, and where a new key goes.
//!
//! # What it promises
//!
//! Its clauses speak of one value: a finite map from serials to rings, each with its kind, its user and a finite map from keys to numbers. No ring
//! ever has two keys of one name, so the key of a name that a look-up finds is the only one there. A link takes the place of another key of that
//! name in the ring, and changes nothing for a key that is there. A ring has at most 256 links, there are at most 1,024 rings, and `Full` comes
//! exactly if a limit would be passed. Each refusal comes exactly in its case and changes nothing. Only `make` takes memory: it makes several
//! rings or none, each with the room for its links, so no later call can want any. It uses the room of rings that were dropped first.
//!
//! # An example
//!
//! `make` makes the ring 3, a session ring of the user 1000. `link` puts the key 7 with the name 1 in it, and then the key 8 with the name 1.
//! `holds(3, 7)` is now false, `holds(3, 8)` true. `at` with the place `Session` answers 3 for a context whose session ring is 3, and `NoRing`
//! after `drop_ring(3)`; `choose` then answers the context's user ring.
//!
//! # How it is built
//!
//! `kind` says what a ring is for, `place` how an ask names one, `fault` why a call is refused. `row` is one ring, a table of its links by their
//! keys; `by_name` has the same links in an `indexmap` by the numbers of their names. `changes` has the changes of a ring as the table of rings takes
//! them; `link_counts` counts the links of each key. `rings` is all of them, with a user ring of each user; `reach` goes over the rings of a context.
//! A look-up of a ring halves the rings, and of a key the links of its ring, as `rk_table` finds. A name is found by its hash, or by a walk where
//! there are few links. No clause says how they lie.
//!
//! For libraries above, which see a ring as the set of its keys, `proofs/Seen.antt` and `proofs/SeenPlaces.antt`
//! say what each change and each look-up is without the numbers.
#![tactic(auto)]

mod by_name;
mod changes;
mod fault;
mod kind;
mod link_counts;
mod place;
mod reach;
mod rings;
mod row;

pub use fault::RingFault;
pub use kind::{NewRing, RingKind};
pub use place::Place;
pub use reach::Matches;
pub use rings::{MAX_RINGS, Rings};
pub use row::MAX_LINKS;
