//! How a hall's lock is taken.
//!
//! A turn is shorter than falling asleep and being woken, and a thread that sleeps has to be woken by the one that leaves the hall. So a thread that finds a
//! hall taken looks again before it sleeps. The first pause is about as long as a turn, and each one is twice the one before: meanwhile the other thread may
//! take several turns with what is in its processor's cache.

use std::hint::spin_loop;
use std::sync::{Mutex, MutexGuard, Wait};

/// How often a processor pauses before the first try of a thread that found the lock taken (`PAUSE` of x86, some 40 to 140 cycles).
const FIRST: u32 = 8;

/// How often such a thread tries again before it sleeps. The pauses before the tries take some 0.4 to 2 milliseconds in all.
const TRIES: u32 = 12;

/// What the lock keeps, once no other thread has it. It may wait.
#[inline(always)]
pub(crate) fn hold<'a, T, R: Wait>(lock: &'a Mutex<T>, rt: &R) -> MutexGuard<'a, T> {
    match lock.try_lock() {
        Some(held) => held,
        None => hold_after_others(lock, rt),
    }
}

/// The same, where another thread had it.
#[cold]
#[inline(never)]
fn hold_after_others<'a, T, R: Wait>(lock: &'a Mutex<T>, rt: &R) -> MutexGuard<'a, T> {
    for tried in 0..TRIES {
        for _ in 0..FIRST << tried {
            spin_loop();
        }
        if let Some(held) = lock.try_lock() {
            return held;
        }
    }
    lock.lock(rt)
}
