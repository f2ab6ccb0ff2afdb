//! The keys of a request_key daemon: what is known of each, the serials, and the numbers of names.
//!
//! # Purpose
//!
//! [`Keys`] holds what the daemon knows of every key: its type and description, and the user to whose
//! quota it counts. It also holds whether the key is under construction, positive or negative, its mark of
//! revocation and its expiry (keyrings(7)). It draws the serials of keys, and of rings too, so that none
//! is used twice.
//!
//! # What it promises
//!
//! Its clauses speak of one value: a finite map from serials to keys, a finite map from serials to numbers of names, and the set of serials that
//! were drawn. Each call is one change of that value. A serial is never given again, also when its key is forgotten. Live keys share the number of
//! a name exactly if their type and description are equal, so a ring can compare names without reading them. A refused call changes nothing.
//! Only `new` and `make` take memory, and room for the keys of one user is made by the first.
//!
//! # An example
//!
//! `Keys::new(alloc, first, 1, seed)` with the serial 1 for `first` holds no key. `make` for the type `user` and the description `mail` answers 1,
//! and the key stands Building. `complete` with a payload makes it Positive. `set_expiry` of 10 seconds at the moment 100 lets it stand Positive at
//! 109 and Expired at 110. `revoke` makes it Revoked for good. After `forget` nothing is known of it, and the next key is 2.
//!
//! # How it is built
//!
//! `key` has one key and what it is at a moment, `serials` the serials, `fault` the refusals. `keys` puts three tables, the names by their hashes and
//! the serials to draw together. `named` has what is kept of a name, its number and how many live keys have it, and `by_name` the names with one
//! hash. `hashed_name` is a name with its hash, which an ask takes once. `naming` hashes names, looks up their numbers, and counts keys in and out. So
//! they are an index from type and description to serials, since the number of a name is the serial of the key with which the name came. The index
//! grows in `make` alone. `changes` has what happens to one key. What the specifications say of a key in few words, as `standing_of`, stands in
//! `specs/Key.antt`, and of all keys in `specs/Known.antt`.
#![tactic(auto)]

mod by_name;
mod changes;
mod fault;
mod hashed_name;
mod key;
mod keys;
mod named;
mod naming;
mod serials;

pub use fault::KeyFault;
pub use hashed_name::HashedName;
pub use key::{Condition, Key, Standing};
pub use keys::Keys;
pub use serials::Serials;
