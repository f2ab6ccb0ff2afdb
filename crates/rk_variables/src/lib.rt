//! Variables of programs that are started.
//!
//! # Purpose
//!
//! keyutils' programs find the daemon by variables of their environment, which whoever starts them sets: a library that is preloaded, and how the daemon is
//! reached. [`with`] and [`without`] set and remove one, and change nothing else of a command; [`is_library`] is the rule for a path that goes into
//! `LD_PRELOAD`.
//!
//! # What it promises
//!
//! The variable is set, or removed, and the program, its words, its folder and all other variables of the command are as before (`Sets` of
//! `specs/Starts.antt`). The only refusal is out of memory. A library is an absolute path without a space or a colon, which would make two of it.
//!
//! # How it is built
//!
//! `setting` has the calls and `library` the rule. What is started of a command stands in `specs/Starts.antt`.
#![tactic(auto)]

mod library;
mod setting;

pub use library::is_library;
pub use setting::{with, without};
