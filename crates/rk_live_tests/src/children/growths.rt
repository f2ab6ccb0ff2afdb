//! Growths that are refused to a client whose handlers are over fakes.
//!
//! With ample memory a handling is only played. tests/test_growths.py plays it with allocations refused. Whatever it came to, the records agree with the seat;
//! last the result is compared with the whole, so that a fault shows both.
use crate::children::handling::Handling;
use crate::children::rows::{FOLLOWED, NESTED, PIPED, PLAIN};
use crate::halls::opening::in_new_halls;

/// The handling, whose steps are counted. A reply that is lost for lack of memory takes no step, so what was said is not looked at.
fn counted(whole: Handling, steps: u64) -> Handling {
    Handling {
        told: None,
        steps: Some(steps),
        ..whole
    }
}

#[test]
fn growths_of_a_plain_handler(rt: HostRuntime) {
    in_new_halls(&rt, rt.alloc(), 100, &counted(PLAIN, 8));
}

#[test]
fn growths_of_a_piped_handler(rt: HostRuntime) {
    in_new_halls(&rt, rt.alloc(), 100, &counted(PIPED, 6));
}

#[test]
fn growths_of_a_handler_that_asks_for_another_key(rt: HostRuntime) {
    in_new_halls(&rt, rt.alloc(), 100, &counted(NESTED, 14));
}

#[test]
fn growths_of_a_handler_that_is_followed(rt: HostRuntime) {
    in_new_halls(&rt, rt.alloc(), 100, &counted(FOLLOWED, 10));
}
