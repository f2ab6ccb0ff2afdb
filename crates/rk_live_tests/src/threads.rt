//! Threads that make calls of the same four halls: `random` has what their clients ask, `caller` what one thread does and keeps, and `together` brings them
//! side by side and, when they have ended, compares records, seats and receipts. `waking` has one that waits for what another does.
mod caller;
pub mod opening;
mod random;
mod together;
mod waking;
