//! The program behind timeout(1) and env(1).
//!
//! # Purpose
//!
//! A command as `/usr/bin/timeout 10 /opt/keys/lookup 12` starts one program, which starts another one. If that isn't there, the first one starts well, and ends
//! with a status of its own. [`started`] finds the path of the second, so that who looks for missing programs can look there too.
//!
//! # What it promises
//!
//! It is a function of the words (`started` of `specs/Wrappers.antt`): what GNU's timeout(1) and env(1) take before the program that they start is passed over,
//! also one behind the other. Nothing is found if a word that counts is not known, or if the program has no absolute path.
//!
//! # How it is built
//!
//! `wrapper` says what one word is to these programs, and `walk` goes from word to word.
#![tactic(auto)]

mod walk;
mod wrapper;

pub use walk::started;
