//! Growths that are refused to a session.
//!
//! With ample memory it is only served. tests/test_growths.py plays it with allocations refused.

use crate::halls::opening::in_new_halls;
use crate::sessions::rows::{FOLLOWED, NESTED, PIPED, PLAIN};

#[test]
fn growths_of_a_plain_handler(rt: HostRuntime) {
    in_new_halls(&rt, rt.alloc(), PLAIN.room, &PLAIN);
}

#[test]
fn growths_of_a_piped_handler(rt: HostRuntime) {
    in_new_halls(&rt, rt.alloc(), PIPED.room, &PIPED);
}

#[test]
fn growths_of_a_handler_that_asks_for_another_key(rt: HostRuntime) {
    in_new_halls(&rt, rt.alloc(), NESTED.room, &NESTED);
}

#[test]
fn growths_of_a_handler_that_is_followed(rt: HostRuntime) {
    in_new_halls(&rt, rt.alloc(), FOLLOWED.room, &FOLLOWED);
}
