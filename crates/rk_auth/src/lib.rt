//! Authorities, sessions and waits of a request_key daemon.
//!
//! # Purpose
//!
//! A key that is made by a handler is completed by that handler alone. [`Auths`] knows who may do so. A construction has an authority,
//! which records the first requester's context, the destination and the callout. Its handler's session assumes it, and to complete the
//! key is to spend it. It knows also who is there, and who waits for which key.
//!
//! # What it promises
//!
//! An authority is assumed by its own handler alone and while it is unspent. When it is spent, every session that waits for the key is given
//! the one outcome, in the same call. It collects that outcome later, a starter not before the construction has ended. A wait that would
//! close a circle, handler by handler, is refused, and no other is. After [`Auths::new`] only [`Auths::reserve`] and [`Auths::issue`] take
//! memory, and a refused call changes nothing.
//!
//! # Use
//!
//! `enter` a client and give it its context. If a key is to be made, `issue` its authority and let the session `wait` as the starter. When the
//! handler runs, `enter` its session; it `assume`s the authority, `holder` says whether it may complete the key, `spend` gives everyone the
//! outcome, and `end` takes the construction away. `collect` answers what a session waited for.
//!
//! # How it is built
//!
//! `auths` has the calls, `session` and `construction` what is known of one, `fault` the refusals.
//!
//! One slab has a slot for each client and each construction (`slot`), the plain handler's session inside its construction's stage. A launch needs
//! no room, and an ending is one removal. `places` is the slab as a finite map; the 64 clients' places are made by `new`, a construction's by
//! `reserve`. `seats` finds a slot by the client's number or the key, and compares that with what stands there. A slot that is used again is never
//! taken for the old one.
//!
//! A construction's slot heads the chain of those who wait for its key, through their own slots (`chain`). A wait is put in front, and who leaves is
//! taken out between the two beside it. `spend` goes through that chain, and through the chain of nobody, in which those wait whose construction is
//! gone or never was. `waits` keeps who waits in its chain, whatever is done to a slot. `changes` has what is done to one session or construction,
//! `circles` the walk from a key to the handler that makes it and the key on which that one waits.
#![tactic(auto)]

mod auths;
mod chain;
mod changes;
mod circles;
mod construction;
mod fault;
mod places;
mod seats;
mod session;
mod slot;
mod waits;

pub use auths::{Auths, MAX_DEPTH};
pub use construction::{Authority, Construction, Stage};
pub use fault::AuthFault;
pub use seats::MAX_CLIENTS;
pub use session::{Outcome, Session, Wait};
