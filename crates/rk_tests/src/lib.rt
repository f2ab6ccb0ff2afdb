//! Tests of the libraries of values, of the machine and of its replay: what a proof of them can't show.
//!
//! # Purpose
//!
//! What no script of tests/replay and no run of `reqkeyctl` shows. It is what is left where an allocation fails (`rt try --test --fail-alloc N`),
//! events out of turn, and what a book returns without a step. It is also sizes that a script can't reach, a reader or a writer that fails, what
//! many small frames cost, and the texts of faults. Each public call that no program makes runs here once. Answers were worked out by hand from
//! the manuals and from docs/, and none was taken from a run. Each test uses public calls alone.
//!
//! The tests of these libraries stand here, above them. A crate that has tests is proved twice, and each program of tests is proved down to the last
//! function that it reaches. So one program costs less than one for each library. Those of what runs in threads are in
//! `rk_live_tests`, and those of what programs do outside of themselves in `rk_edge_tests`.
//!
//! # How it is built
//!
//! A module for each layer, and in it one for each library or subject. `values` has numbers, frames, messages, patterns and the configuration;
//! `state` tables, rings and sessions. `book` has what happens to a Book, in plain lines; `replay` happenings and scripts;
//! `texts` what faults print. `same` compares a value with the one that was worked out.
#![tactic(auto)]

#[cfg(test)]
mod book;
#[cfg(test)]
mod replay;
#[cfg(test)]
mod same;
#[cfg(test)]
mod state;
#[cfg(test)]
mod texts;
#[cfg(test)]
mod values;
