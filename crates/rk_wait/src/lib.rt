//! Waiting for an outcome.
//!
//! # Purpose
//!
//! A session whose REQUEST is answered by a start, or by a wait, has its outcome once the key is complete, and a starter once the handler has ended
//! too. [`await_outcome`] waits for that moment and collects the outcome.
//!
//! # What it promises
//!
//! What is answered is the outcome that the session's hall gives, by one turn: a serial or an error, and never that the session waits. If the
//! session has no wait, the answer is EINVAL, with `Stray`. It takes no memory. Not promised: that an outcome ever comes.
#![tactic(auto)]

mod awaiting;

pub use awaiting::await_outcome;
